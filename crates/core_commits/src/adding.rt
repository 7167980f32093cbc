//! A commit is put in its repository, and taken out.
ghost use Rattle.std.specs.Prelude.{◌≡◌, Some, None, IfSome, OnOk, OnErr, option_map};
ghost use Rattle.std.specs.FinMap.{get, remove};
ghost use Rattle.lake_values.specs.Ancestry.{commit_of};
ghost use Rattle.lake_format.specs.Spelling.{commit_id};
ghost use Rattle.commit_graph.specs.Graphs.{IsSound as IsSoundGraph};
ghost use Rattle.core_state.specs.LakeStates.{lake_value};
ghost use Rattle.core_state.specs.NewCommits.{with_commit};
ghost use Rattle.core_state.specs.RepositoryStates.{RepositoryStateValue, repository_value};
ghost use Rattle.core_changes.specs.LakeChanges.{in_repository};
ghost use Rattle.core_commits.specs.HeadOperations.{without_commit};

use core_state::{LakeState, RepositoryState};
use lake_base::{NoMemory, RepoName};
use lake_values::{CommitId, CommitRecord};
use meta_range::Tree;
use std::alloc::Global;
use std::sync::Arc;

/// Puts a commit with its tree in a repository, where that is there and has none of its id. It changes nothing else. A
/// commit that the graph doesn't take, as one without its parents, is answered as out of memory.
#[tactic(auto, unfolding(core_state::specs::LakeStates::lake_value))]
pub fn add_commit(
    alloc: Global,
    lake: &mut LakeState,
    repo: &RepoName,
    commit: CommitRecord,
    tree: Arc<Tree, Global>,
) -> Result<(), NoMemory>
    requires absent { (r : RepositoryStateValue) → get (lake_value lake.old).repositories repo.now ≡ Some r
        → commit_of r.commits (commit_id commit) ≡ None }
    ensures added { OnOk result (lake_value lake.new ≡ in_repository repo.now
        (with_commit (record { id = commit_id commit; content = commit; tree = tree.value })) (lake_value lake.old)) }
    ensures same { OnErr result (lake_value lake.new ≡ lake_value lake.old) }
    ensures names { lake.new.names ≡ lake.old.names }
{
    match lake.repositories.get_mut(repo) {
        Some(place) => add_here(alloc, place, commit, tree),
        None => Ok(()),
    }
}

// Puts a commit in the repository in a place, where one is there.
fn add_here(
    alloc: Global,
    place: &mut Option<RepositoryState>,
    commit: CommitRecord,
    tree: Arc<Tree, Global>,
) -> Result<(), NoMemory>
    requires absent { IfSome place.old (λ r. commit_of r.graph (commit_id commit) ≡ None) }
    ensures added { OnOk result (option_map repository_value place.new
        ≡ option_map (with_commit (record { id = commit_id commit; content = commit; tree = tree.value }))
        (option_map repository_value place.old)) }
    ensures same { OnErr result (option_map repository_value place.new ≡ option_map repository_value place.old) }
{
    match place {
        Some(repository) => add_in(alloc, repository, commit, tree),
        None => Ok(()),
    }
}

// Puts a commit in a repository that has none of its id.
fn add_in(
    alloc: Global,
    repository: &mut RepositoryState,
    commit: CommitRecord,
    tree: Arc<Tree, Global>,
) -> Result<(), NoMemory>
    requires absent { commit_of repository.old.graph (commit_id commit) ≡ None }
    ensures added { OnOk result (repository_value repository.new
        ≡ with_commit (record { id = commit_id commit; content = commit; tree = tree.value })
        (repository_value repository.old)) }
    ensures same { OnErr result (repository_value repository.new ≡ repository_value repository.old) }
{
    // Its length tells that the commits are a graph.
    let _count = repository.graph.len();
    let Ok(id) = repository.graph.add(alloc, commit) else {
        return Err(NoMemory);
    };
    let put = repository.trees.insert(id, tree);
    if put.is_err() {
        repository.graph.remove(&id);
    }
    put
}

/// Takes a commit with its tree out of a repository, where both are there. It takes no memory.
#[tactic(auto, unfolding(core_state::specs::LakeStates::lake_value))]
pub fn remove_commit(lake: &mut LakeState, repo: &RepoName, id: &CommitId)
    requires { (r : RepositoryStateValue) → get (lake_value lake.old).repositories repo.now ≡ Some r
        → IsSoundGraph (remove r.commits id.now.0) }
    ensures removed { lake_value lake.new ≡ in_repository repo.now (without_commit id.now) (lake_value lake.old) }
    ensures names { lake.new.names ≡ lake.old.names }
{
    if let Some(place) = lake.repositories.get_mut(repo) {
        remove_here(place, id);
    }
}

// Takes a commit out of the repository in a place, where one is there.
fn remove_here(place: &mut Option<RepositoryState>, id: &CommitId)
    requires { IfSome place.old (λ r. IsSoundGraph (remove r.graph id.now.0)) }
    ensures { option_map repository_value place.new
        ≡ option_map (without_commit id.now) (option_map repository_value place.old) }
{
    if let Some(repository) = place {
        remove_in(repository, id);
    }
}

// Takes a commit out of a repository.
fn remove_in(repository: &mut RepositoryState, id: &CommitId)
    requires { IsSoundGraph (remove repository.old.graph id.now.0) }
    ensures { repository_value repository.new ≡ without_commit id.now (repository_value repository.old) }
{
    repository.graph.remove(id);
    let _tree = repository.trees.remove(id);
}
