//! A new head of a branch is tested, made ready, kept and made.
ghost use Rattle.std.specs.Prelude.{◌≡◌};
ghost use Rattle.lake_model.specs.Soundness.{IsSound};
ghost use Rattle.lake_model.specs.Steps.{IsSwapReply, swap_rule};
ghost use Rattle.lake_model.specs.Versions.{VersionsGiven};
ghost use Rattle.core_state.specs.Counts.{AreCounted, HasVersions};
ghost use Rattle.core_state.specs.Index.{HasIndex};
ghost use Rattle.core_state.specs.LakeStates.{lake_value, state_of};
ghost use Rattle.core_puts.specs.KeptChanges.{LeavesParts};
ghost use Rattle.core_commits.specs.Making.{HoldsOfTried, IsWithinLimits, LeavesPlaces, MayHaveTried, head_answer};
ghost use Rattle.core_commits.specs.Making.{head_making};
ghost use Rattle.core_commits.specs.Testing.{HasTreeFor, drafted_in};

use crate::heading::make_head;
use crate::keeping::keep_commit;
use crate::ready::ready_head;
use crate::testing::{Guard, test_head};
use core_puts::place;
use core_state::{LakeState, law_of_versions};
use keeper::Keeper;
use lake_base::{RefName, RepoName};
use lake_laws::causes::laws_of_causes;
use lake_model::{By, HistoryEntry, StepFault, SwapKind};
use lake_values::{About, CommitId, CommitRecord};
use meta_range::{Tree, law_of_limits};
use std::alloc::Global;

/// Makes a commit with this tree the head of a branch: the place of its entry, its id and what it says. Stopped,
/// HistoryFull, NoRepo, NoRef, Protected for a commit, Changed, Expired, NameClash, StoreFault.
pub fn swap<K: Keeper>(
    alloc: Global,
    keeper: &mut K,
    history: &mut Vec<HistoryEntry>,
    present: &mut LakeState,
    by: By,
    repo: &RepoName,
    branch: &RefName,
    guard: Guard,
    kind: SwapKind,
    about: About,
    tree: Tree,
) -> Result<(u64, CommitId, CommitRecord), StepFault>
    requires sound { IsSound (state_of (lake_value present.old)) }
    requires index { HasIndex (lake_value present.old) }
    requires counted { AreCounted (lake_value present.old) }
    requires tree { HasTreeFor (lake_value present.old) repo.now branch.now guard.version guard.settings kind
        about tree }
    ensures reply { (given : VersionsGiven) → HasVersions given (lake_value present.old)
        → IsSwapReply (state_of (lake_value present.old)) given repo.now branch.now guard.version guard.settings
        (swap_rule kind about) (head_answer result) }
    ensures leaves { LeavesParts (record { kept = K.kept; faults = K.faults; calls = K.calls; successes = K.successes })
        by (head_making repo.now branch.now kind about present.old) result
        (record { keeper = keeper.old; history = history.old.items; present = present.old })
        (record { keeper = keeper.new; history = history.new.items; present = present.new }) }
    ensures may { MayHaveTried repo.now (drafted_in repo.now branch.now kind about (lake_value present.old)) result
        (lake_value present.old) }
    ensures limits { HoldsOfTried IsWithinLimits
        (drafted_in repo.now branch.now kind about (lake_value present.old)) result }
    ensures places { LeavesPlaces (drafted_in repo.now branch.now kind about (lake_value present.old)) result
        present.old.names.files present.new.names.files }
{
    laws_of_causes();
    law_of_versions();

    // Test.
    let new = test_head(alloc, present, repo, branch, guard, kind, &about, tree)?;
    law_of_limits(&new.tree);

    // Take memory.
    let ready = ready_head(alloc, present, repo, branch, kind, about, &new)?;
    let id = new.content.name;

    // Keep.
    keep_commit(
        alloc,
        keeper,
        history,
        present,
        by,
        ready.operation,
        ready.puts,
        repo,
        new.commit,
        id,
        new.tree,
    )?;

    // Change.
    make_head(present, repo, branch, &id, ready.names);
    Ok((place(present), id, ready.answer))
}
