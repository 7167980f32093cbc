//! What the tree of a new head was made from.
ghost use Rattle.std.specs.Prelude.{◌≡◌, List, ℕ, Some, IfOk, IfSome};
ghost use Rattle.std.specs.FinMap.{get};
ghost use Rattle.branch_record.specs.Overlay.{sealed_changes};
ghost use Rattle.lake_values.specs.Commit.{AboutValue};
ghost use Rattle.lake_values.specs.KeyMap.{apply};
ghost use Rattle.lake_values.specs.Merging.{merged_map};
ghost use Rattle.lake_values.specs.declared.commit.Strategy.{Strategy};
ghost use Rattle.lake_model.specs.State.{HasCommit, map_of};
ghost use Rattle.core_state.specs.BranchStates.{branch_value};
ghost use Rattle.core_state.specs.RepositoryStates.{repository_of, repository_value};
ghost use Rattle.meta_range.specs.Provenance.{IsMadeFrom};
ghost use Rattle.core_commits.specs.HeadOperations.{draft_for};
ghost use Rattle.core_commits.specs.HeadProvenance.{HasTreesOf};

use core_state::{BranchState, RepositoryState};
use lake_base::NoMemory;
use lake_model::SwapKind;
use lake_values::{Changes, CommitId};
use meta_range::{Provenance, Tree};
use std::alloc::Global;

/// What the map that is drafted for a branch is made from, over trees of the repository: for a commit the head's tree
/// and the sealed changes, for a merge or a pick its three trees. It is a search for each tree, and one for the base of
/// a merge.
pub fn provenance_of<'a>(
    alloc: Global,
    repository: &'a RepositoryState,
    branch: &BranchState,
    kind: SwapKind,
    sealed: &'a Changes,
) -> Result<Provenance<'a>, NoMemory>
    requires head { HasCommit (repository_of (repository_value repository.now)) branch.now.record.head }
    requires sealed { sealed.now ≡ sealed_changes branch.now.record branch.now.tokens.changes }
    ensures made { (about : AboutValue) → IfOk result (λ provenance. IsMadeFrom provenance
        (draft_for kind about (repository_value repository.now) (branch_value branch.now)).objects) }
    ensures trees { IfOk result (HasTreesOf (repository_value repository.now)) }
{
    let head = branch.record.head();
    match kind {
        SwapKind::Commit => Ok(changed(repository, &head, sealed)),
        SwapKind::Merge { source, .. } => {
            if repository.graph.get(&source).is_none() {
                return Ok(Provenance::Unknown);
            }
            match repository.graph.base(alloc, &head, &source)? {
                Some(base) => Ok(merged(repository, &base, &source, &head)),
                None => Ok(Provenance::Unknown),
            }
        }
        SwapKind::Pick { base, source, .. } => Ok(merged(repository, &base, &source, &head)),
    }
}

// Changes over the map of a commit.
fn changed<'a>(
    repository: &'a RepositoryState,
    old: &CommitId,
    changes: &'a Changes,
) -> Provenance<'a>
    ensures made { IsMadeFrom result
        (apply changes.now (map_of (repository_of (repository_value repository.now)) old.now)) }
    ensures trees { HasTreesOf (repository_value repository.now) result }
{
    match tree_at(repository, old) {
        Some(old) => Provenance::Changed { old, changes },
        None => Provenance::Unknown,
    }
}

// A merge of the maps of three commits.
fn merged<'a>(
    repository: &'a RepositoryState,
    base: &CommitId,
    source: &CommitId,
    dest: &CommitId,
) -> Provenance<'a>
    ensures made { (strategy : Strategy) → IsMadeFrom result (merged_map strategy
        (map_of (repository_of (repository_value repository.now)) base.now)
        (map_of (repository_of (repository_value repository.now)) source.now)
        (map_of (repository_of (repository_value repository.now)) dest.now)) }
    ensures trees { HasTreesOf (repository_value repository.now) result }
{
    let Some(base) = tree_at(repository, base) else {
        return Provenance::Unknown;
    };
    let Some(source) = tree_at(repository, source) else {
        return Provenance::Unknown;
    };
    let Some(dest) = tree_at(repository, dest) else {
        return Provenance::Unknown;
    };
    Provenance::Merged { base, source, dest }
}

// The tree of a commit.
fn tree_at<'a>(repository: &'a RepositoryState, id: &CommitId) -> Option<&'a Tree>
    ensures { IfSome result (λ tree. get (repository_value repository.now).trees id.now.0 ≡ Some tree.now) }
{
    let tree = repository.tree(id)?;
    let tree: &Tree = tree;
    Some(tree)
}
