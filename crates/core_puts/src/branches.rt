//! Branches that are reset, sealed, made and deleted.
ghost use Rattle.std.specs.Prelude.{◌≡◌, ◌<◌, ◌^◌, false, length, IfOk, IfSome, OnOk};
ghost use Rattle.lake_base.specs.Names.{is_like_id};
ghost use Rattle.lake_format.specs.Spelling.{IsDigest};
ghost use Rattle.pair_format.specs.PairSpelling.{IsRefName};
ghost use Rattle.core_state.specs.BranchStates.{with_fresh};
ghost use Rattle.core_state.specs.Counts.{AreFew};
ghost use Rattle.core_state.specs.LakeStates.{lake_value};
ghost use Rattle.core_puts.specs.Puts.{branch_at, create_branch_puts, delete_branch_puts, reset_puts, seal_puts};

use crate::parts::{BranchParts, branch_at, parts_after_seal, parts_at, push_branch};
use crate::pushing::{push_counts, push_removed};
use crate::removing::push_removals;
use core_state::LakeState;
use keeper::Put;
use lake_base::{NoMemory, RefName, RepoName, Sequence};
use lake_values::{CommitId, ResetWhat};
use pair_format::StoredKey;
use std::alloc::Global;

/// The puts of a reset of a branch: none, where it isn't there. 2^32 sealed tokens and more are out of memory.
#[tactic(auto, unfolding(core_state::specs::LakeStates::lake_value))]
pub fn reset_puts(
    alloc: Global,
    lake: &LakeState,
    repo: &RepoName,
    name: &RefName,
    what: &ResetWhat,
) -> Result<Vec<Put>, NoMemory>
    requires plain { is_like_id name.now ≡ false }
    requires few { AreFew (lake_value lake.now) }
    ensures { IfOk result (λ puts. puts.items
        ≡ reset_puts repo.now name.now what.now (lake_value lake.now)) }
{
    let mut puts = Vec::new(alloc);
    let Some(branch) = branch_at(lake, repo, name) else {
        return Ok(puts);
    };
    push_removals(alloc, &mut puts, branch, what)?;
    let parts = parts_at(alloc, branch, lake.next_version)?;
    push_branch(alloc, &mut puts, repo, name, parts)?;
    push_counts(
        alloc,
        &mut puts,
        lake.next_number,
        lake.next_version + 1,
        lake.next_token,
    )?;
    Ok(puts)
}

/// The puts of a seal of a branch: none, where it isn't there. 2^32 sealed tokens and more are out of memory.
#[tactic(auto, unfolding(core_state::specs::LakeStates::lake_value))]
pub fn seal_puts(
    alloc: Global,
    lake: &LakeState,
    repo: &RepoName,
    name: &RefName,
) -> Result<Vec<Put>, NoMemory>
    requires plain { is_like_id name.now ≡ false }
    requires few { AreFew (lake_value lake.now) }
    ensures puts { IfOk result (λ puts. puts.items ≡ seal_puts repo.now name.now (lake_value lake.now)) }
    ensures limits { OnOk result (IfSome (branch_at repo.now name.now (lake_value lake.now))
        (λ b. length (with_fresh (lake_value lake.now).next_token b).sealed < 2 ^ 32)) }
{
    let mut puts = Vec::new(alloc);
    let Some(branch) = branch_at(lake, repo, name) else {
        return Ok(puts);
    };
    let parts = parts_after_seal(alloc, branch, lake.next_version, lake.next_token)?;
    push_branch(alloc, &mut puts, repo, name, parts)?;
    push_counts(
        alloc,
        &mut puts,
        lake.next_number,
        lake.next_version + 1,
        lake.next_token + 1,
    )?;
    Ok(puts)
}

/// The puts of a branch that is made at a commit.
#[tactic(auto, unfolding(core_state::specs::LakeStates::lake_value))]
pub fn create_branch_puts(
    alloc: Global,
    lake: &LakeState,
    repo: &RepoName,
    name: &RefName,
    commit: CommitId,
) -> Result<Vec<Put>, NoMemory>
    requires plain { is_like_id name.now ≡ false }
    requires few { AreFew (lake_value lake.now) }
    ensures puts { IfOk result (λ puts. puts.items
        ≡ create_branch_puts repo.now name.now commit (lake_value lake.now)) }
    ensures limits { OnOk result (IsRefName name.now × IsDigest commit.0) }
{
    let mut puts = Vec::new(alloc);
    let parts = BranchParts {
        version: lake.next_version,
        head: commit,
        staging: lake.next_token,
        sealed: Sequence::of(Vec::new(alloc)),
    };
    push_branch(alloc, &mut puts, repo, name, parts)?;
    push_counts(
        alloc,
        &mut puts,
        lake.next_number,
        lake.next_version + 1,
        lake.next_token + 1,
    )?;
    Ok(puts)
}

/// The puts of a branch that goes, with its changes: none, where it isn't there.
pub fn delete_branch_puts(
    alloc: Global,
    lake: &LakeState,
    repo: &RepoName,
    name: &RefName,
) -> Result<Vec<Put>, NoMemory>
    requires { is_like_id name.now ≡ false }
    ensures { IfOk result (λ puts. puts.items
        ≡ delete_branch_puts repo.now name.now (lake_value lake.now)) }
{
    let mut puts = Vec::new(alloc);
    let Some(branch) = branch_at(lake, repo, name) else {
        return Ok(puts);
    };
    push_removed(alloc, &mut puts, &StoredKey::Branch { repo, branch: name })?;
    push_removals(alloc, &mut puts, branch, &ResetWhat::All)?;
    Ok(puts)
}
