//! A new commit is kept.
ghost use Rattle.std.specs.Prelude.{◌≡◌, Some, IfSome, is_some};
ghost use Rattle.std.specs.FinMap.{get};
ghost use Rattle.lake_values.specs.Ancestry.{commit_of};
ghost use Rattle.lake_format.specs.Spelling.{commit_id};
ghost use Rattle.commit_graph.specs.Graphs.{IsSound as IsSoundGraph};
ghost use Rattle.core_state.specs.Counts.{AreFew};
ghost use Rattle.core_state.specs.LakeStates.{lake_value};
ghost use Rattle.core_state.specs.RepositoryStates.{RepositoryStateValue};
ghost use Rattle.core_puts.specs.KeptChanges.{Keeps};
ghost use Rattle.core_commits.specs.KeptHeads.{MayHaveIn, commit_added};

use crate::adding::{add_commit, remove_commit};
use core_puts::keep;
use core_state::{LakeState, RepositoryState};
use keeper::{Keeper, Put};
use lake_base::RepoName;
use lake_model::{By, HistoryEntry, Operation, StepFault};
use lake_values::{CommitId, CommitRecord};
use meta_range::Tree;
use std::alloc::Global;
use std::sync::Arc;

/// Puts a commit in its repository, where it isn't there yet, makes the puts by one call of the keeper, and appends the
/// entry of the operation. Where the keeper refuses, the commit is taken out again. StoreFault, NoMemory.
pub fn keep_commit<K: Keeper>(
    alloc: Global,
    keeper: &mut K,
    history: &mut Vec<HistoryEntry>,
    present: &mut LakeState,
    by: By,
    operation: Operation,
    puts: Vec<Put>,
    repo: &RepoName,
    commit: CommitRecord,
    id: CommitId,
    tree: Arc<Tree, Global>,
) -> Result<(), StepFault>
    requires few { AreFew (lake_value present.old) }
    requires named { id ≡ commit_id commit }
    requires may { MayHaveIn repo.now (record { id = id; content = commit; tree = tree.value })
        (lake_value present.old) }
    ensures kept { Keeps (record { kept = K.kept; faults = K.faults; calls = K.calls; successes = K.successes }) by
        (commit_added repo.now (record { id = id; content = commit; tree = tree.value }) operation puts.items) result
        (record { keeper = keeper.old; history = history.old.items; present = present.old })
        (record { keeper = keeper.new; history = history.new.items; present = present.new }) }
    ensures names { present.new.names ≡ present.old.names }
{
    if has_commit(present, repo, &id) {
        return keep(keeper, history, present, by, operation, puts);
    }
    add_commit(alloc, present, repo, commit, tree)?;
    let kept = keep(keeper, history, present, by, operation, puts);
    if kept.is_err() {
        remove_commit(present, repo, &id);
    }
    kept
}

// Whether a commit is in a repository, where that is there. Commits there are a graph.
#[tactic(auto, unfolding(core_state::specs::LakeStates::lake_value))]
fn has_commit(lake: &LakeState, repo: &RepoName, id: &CommitId) -> bool
    ensures there { (r : RepositoryStateValue) → get (lake_value lake.now).repositories repo.now ≡ Some r
        → is_some (commit_of r.commits id.now) ≡ result }
    ensures valid { (r : RepositoryStateValue) → get (lake_value lake.now).repositories repo.now ≡ Some r
        → IsSoundGraph r.commits }
{
    match lake.repositories.get(repo) {
        Some(place) => has_here(place, id),
        None => false,
    }
}

// Whether a commit is in the repository in a place, where one is there.
fn has_here(place: &Option<RepositoryState>, id: &CommitId) -> bool
    ensures there { IfSome place.now (λ r. is_some (commit_of r.graph id.now) ≡ result) }
    ensures valid { IfSome place.now (λ r. IsSoundGraph r.graph) }
{
    match place {
        Some(repository) => repository.graph.get(id).is_some(),
        None => false,
    }
}
