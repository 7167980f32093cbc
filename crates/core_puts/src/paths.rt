//! Numbers of uploads, and changes that are staged.
ghost use Rattle.std.specs.Prelude.{◌≡◌, ◌∷◌, [], None, IfOk, IsSome, OnOk};
ghost use Rattle.lake_base.specs.Names.{path_fault};
ghost use Rattle.lake_values.specs.declared.entry.Change.TheVariants.{Put as put};
ghost use Rattle.lake_format.specs.Spelling.{IsEntry};
ghost use Rattle.pair_format.specs.PairSpelling.{IsSpelledChange};
ghost use Rattle.pair_format.specs.declared.stored.Stored.TheVariants as stored;
ghost use Rattle.core_state.specs.Counts.{AreFew};
ghost use Rattle.core_state.specs.LakeStates.{lake_value};
ghost use Rattle.core_puts.specs.Puts.{branch_at, spelled_put, stage_puts, ticket_puts};

use crate::parts::branch_at;
use crate::pushing::{only_put, push_counts};
use core_state::LakeState;
use keeper::Put;
use lake_base::{NoMemory, Path, RefName, RepoName, TryCopy};
use lake_values::{Change, Entry};
use pair_format::Stored;
use std::alloc::Global;

/// The puts of a number that is given out. A ticket isn't kept: for one that goes there is nothing to put.
#[tactic(auto, unfolding(core_state::specs::LakeStates::lake_value))]
pub fn ticket_puts(alloc: Global, lake: &LakeState) -> Result<Vec<Put>, NoMemory>
    requires few { AreFew (lake_value lake.now) }
    ensures { IfOk result (λ puts. puts.items ≡ ticket_puts (lake_value lake.now)) }
{
    let mut puts = Vec::new(alloc);
    push_counts(
        alloc,
        &mut puts,
        lake.next_number + 1,
        lake.next_version,
        lake.next_token,
    )?;
    Ok(puts)
}

/// The puts of a change that is staged on a branch: none, where the branch isn't there.
pub fn stage_puts(
    alloc: Global,
    lake: &LakeState,
    repo: &RepoName,
    name: &RefName,
    path: &Path,
    change: &Change,
) -> Result<Vec<Put>, NoMemory>
    ensures puts { IfOk result (λ puts. puts.items
        ≡ stage_puts repo.now name.now path.now change.now (lake_value lake.now)) }
    ensures limits { OnOk result (IsSome (branch_at repo.now name.now (lake_value lake.now))
        → (path_fault path.now ≡ None) × IsSpelledChange change.now) }
{
    let Some(branch) = branch_at(lake, repo, name) else {
        return Ok(Vec::new(alloc));
    };
    let change = change.copy(alloc)?;
    staged_puts(alloc, branch.record.staging(), path, change)
}

/// The puts of an entry that is copied to a path of a branch: none, where the branch isn't there.
pub fn copy_puts(
    alloc: Global,
    lake: &LakeState,
    repo: &RepoName,
    name: &RefName,
    path: &Path,
    entry: &Entry,
) -> Result<Vec<Put>, NoMemory>
    ensures puts { IfOk result (λ puts. puts.items
        ≡ stage_puts repo.now name.now path.now (put entry.now) (lake_value lake.now)) }
    ensures limits { OnOk result (IsSome (branch_at repo.now name.now (lake_value lake.now))
        → (path_fault path.now ≡ None) × IsEntry entry.now) }
{
    let Some(branch) = branch_at(lake, repo, name) else {
        return Ok(Vec::new(alloc));
    };
    let entry = entry.copy(alloc)?;
    staged_puts(alloc, branch.record.staging(), path, Change::Put(entry))
}

// The put of a change under a token.
fn staged_puts(alloc: Global, token: u64, path: &Path, change: Change) -> Result<Vec<Put>, NoMemory>
    ensures puts { IfOk result (λ puts. puts.items ≡ spelled_put (stored.Staged token path.now change) ∷ []) }
    ensures limits { OnOk result ((path_fault path.now ≡ None) × IsSpelledChange change) }
{
    let path = path.copy(alloc)?;
    only_put(
        alloc,
        Stored::Staged {
            token,
            path,
            change,
        },
    )
}
