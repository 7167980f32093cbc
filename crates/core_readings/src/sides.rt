//! The commits of a merge or a pick, and their trees.
ghost use Rattle.std.specs.Prelude.{◌≡◌, ◌↔◌, [], Some, None, drop, IsTrue, IsSome, IfOk, IfSome, option_copied};
ghost use Rattle.std.specs.Prelude.{option_map};
ghost use Rattle.std.specs.FinMap.{empty, get};
ghost use Rattle.std.specs.Option.{option_map_or};
ghost use Rattle.lake_values.specs.Ancestry.{base};
ghost use Rattle.lake_values.specs.Merging.{base_map};
ghost use Rattle.lake_model.specs.Preparing.{expired_source, side_maps, source_of};
ghost use Rattle.lake_model.specs.Refusals.{unless_refused};
ghost use Rattle.lake_model.specs.State.{HasCommit, map_of};
ghost use Rattle.core_state.specs.BranchStates.{branch_of, branch_value};
ghost use Rattle.core_state.specs.LakeStates.{lake_value, state_of};
ghost use Rattle.core_state.specs.RepositoryStates.{repository_of, repository_value};
ghost use Rattle.lake_format.specs.Cutting.{files};
ghost use Rattle.lake_format.specs.declared.cut.Cut.{Cut as AnyCut};
ghost use Rattle.core_readings.specs.Preparations.{AreCommits, HasCutSides, HasSides};
ghost use Rattle.core_readings.specs.Trees.{AreTreesOf, HasRanges, HasTrees, IsCutBy, IsTreeOf};

use core_state::{BranchState, LakeState, RepositoryState};
use lake_base::{NoMemory, RepoName};
use lake_format::USUAL_CUT;
use lake_model::{Sides, StepFault};
use lake_values::{CommitId, KeyMap};
use meta_range::{Tree, Trio};
use std::alloc::Global;
use std::sync::Arc;

/// Whether the commits of a merge or a pick are commits of a repository, by a search each; so they are of one that
/// isn't there. It takes no memory.
pub fn are_commits(lake: &LakeState, repo: &RepoName, sides: &Sides) -> bool
    ensures { IsTrue result ↔ HasSides (state_of (lake_value lake.now)) repo.now sides.now }
{
    match lake.repository(repo) {
        Some(repository) => has_commits(repository, sides),
        None => true,
    }
}

// Whether they are commits of this repository.
fn has_commits(repository: &RepositoryState, sides: &Sides) -> bool
    ensures { IsTrue result ↔ AreCommits (repository_of (repository_value repository.now)) sides.now }
{
    match sides {
        Sides::Merge { source } => has_commit(repository, source),
        Sides::Pick { base, source } => {
            has_commit(repository, base) && has_commit(repository, source)
        }
    }
}

fn has_commit(repository: &RepositoryState, id: &CommitId) -> bool
    ensures { IsTrue result ↔ HasCommit (repository_of (repository_value repository.now)) id.now }
{
    repository.graph.get(id).is_some()
}

// Refuses a source that is expired. Expired.
pub(crate) fn test_source(
    repository: &RepositoryState,
    sides: Option<&Sides>,
) -> Result<(), StepFault>
    ensures { result ≡ unless_refused
        (option_map_or (expired_source (repository_of (repository_value repository.now)))
        (option_copied sides.entry) None) tt }
{
    let Some(sides) = sides else {
        return Ok(());
    };
    let source = source_of(sides);
    if repository.expired.contains_key(&source) {
        return Err(StepFault::Expired(source));
    }
    Ok(())
}

// The commit whose changes are taken.
fn source_of(sides: &Sides) -> CommitId
    ensures { result ≡ source_of sides.now }
{
    match sides {
        Sides::Merge { source } => *source,
        Sides::Pick { source, .. } => *source,
    }
}

// The trees of a merge or a pick into a branch, of which the destination is this one.
pub(crate) fn trio_of(
    alloc: Global,
    repository: &RepositoryState,
    branch: &BranchState,
    dest: &Arc<Tree, Global>,
    sides: Option<&Sides>,
) -> Result<Option<Trio>, NoMemory>
    requires trees { HasTrees (repository_value repository.now) }
    requires head { HasCommit (repository_of (repository_value repository.now)) branch.now.record.head }
    requires sides { IfSome (option_copied sides) (AreCommits (repository_of (repository_value repository.now))) }
    requires ranges { HasRanges (repository_value repository.now) dest.now.value }
    ensures maps { IfOk result (λ trio. option_map (λ t. (t.base.map, t.source.map)) trio
        ≡ option_map (side_maps (repository_of (repository_value repository.now)) (branch_of (branch_value branch.now)))
        (option_copied sides.entry)) }
    ensures dest { IfOk result (λ trio. IfSome trio (λ t. t.dest ≡ dest.now.value)) }
    ensures cut { (cut : AnyCut) → IsCutBy cut (repository_value repository.now)
        → IfOk result (λ trio. IfSome trio (HasCutSides cut)) }
{
    let Some(sides) = sides else {
        return Ok(None);
    };
    let (base, source) = side_trees(alloc, repository, branch, sides)?;
    Ok(Some(Trio::new(base, source, dest.clone()?)))
}

// The trees of the base and the source.
fn side_trees(
    alloc: Global,
    repository: &RepositoryState,
    branch: &BranchState,
    sides: &Sides,
) -> Result<(Arc<Tree, Global>, Arc<Tree, Global>), NoMemory>
    requires trees { HasTrees (repository_value repository.now) }
    requires head { HasCommit (repository_of (repository_value repository.now)) branch.now.record.head }
    requires sides { AreCommits (repository_of (repository_value repository.now)) sides.now }
    ensures maps { IfOk result (λ trees. AreTreesOf (repository_value repository.now)
        (side_maps (repository_of (repository_value repository.now)) (branch_of (branch_value branch.now)) sides.now)
        (trees.0.value, trees.1.value)) }
    ensures cut { (cut : AnyCut) → IsCutBy cut (repository_value repository.now)
        → IfOk result (λ trees. (trees.0.value.files ≡ files cut trees.0.value.map)
        × (trees.1.value.files ≡ files cut trees.1.value.map)) }
{
    match sides {
        Sides::Merge { source } => {
            let base = base_tree(alloc, repository, &branch.record.head(), source)?;
            Ok((base, tree_of(repository, source)?))
        }
        Sides::Pick { base, source } => {
            Ok((tree_of(repository, base)?, tree_of(repository, source)?))
        }
    }
}

// The tree of the merge base; where there is none, that of the empty map.
fn base_tree(
    alloc: Global,
    repository: &RepositoryState,
    head: &CommitId,
    source: &CommitId,
) -> Result<Arc<Tree, Global>, NoMemory>
    requires trees { HasTrees (repository_value repository.now) }
    requires head { HasCommit (repository_of (repository_value repository.now)) head.now }
    requires source { HasCommit (repository_of (repository_value repository.now)) source.now }
    ensures map { IfOk result (λ tree. IsTreeOf (repository_value repository.now) (base_map
        (option_map (map_of (repository_of (repository_value repository.now)))
        (base repository.now.graph head.now source.now)))
        tree.value) }
    ensures cut { (cut : AnyCut) → IsCutBy cut (repository_value repository.now)
        → IfOk result (λ tree. tree.value.files ≡ files cut tree.value.map) }
{
    match repository.graph.base(alloc, head, source)? {
        Some(id) => tree_of(repository, &id),
        None => empty_tree(alloc),
    }
}

// The tree of a commit, shared.
pub(crate) fn tree_of(
    repository: &RepositoryState,
    id: &CommitId,
) -> Result<Arc<Tree, Global>, NoMemory>
    requires { IsSome (get (repository_value repository.now).trees id.now.0) }
    ensures { IfOk result (λ tree. get (repository_value repository.now).trees id.now.0 ≡ Some tree.value) }
{
    let tree = repository.tree(id).unwrap();
    Ok(tree.clone()?)
}

// The tree of the empty map. It has no ranges, so every cut gives the same one.
fn empty_tree(alloc: Global) -> Result<Arc<Tree, Global>, NoMemory>
    ensures map { IfOk result (λ tree. tree.value.map ≡ empty) }
    ensures ranges { IfOk result (λ tree. drop 1 tree.value.files ≡ []) }
    ensures cut { IfOk result (λ tree. (cut : AnyCut) → tree.value.files ≡ files cut tree.value.map) }
{
    let tree = Tree::build(alloc, &KeyMap::new(alloc), &USUAL_CUT)?;
    Ok(Arc::new(alloc, tree)?)
}
