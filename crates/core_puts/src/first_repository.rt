//! New repositories.
ghost use Rattle.std.specs.Prelude.{◌≡◌, true, IfOk, option_map};
ghost use Rattle.std.specs.FinMap.{empty, insert};
ghost use Rattle.lake_format.specs.Spelling.{commit_id};
ghost use Rattle.lake_format.specs.declared.cut.Cut.{Cut as AnyCut};
ghost use Rattle.byte_map.specs.Values.{map_values, some_values};
ghost use Rattle.core_changes.specs.NewRepositories.{IsNew};
ghost use Rattle.core_state.specs.BranchStates.{branch_value, new_branch};
ghost use Rattle.core_state.specs.FirstStates.{founded_repository};
ghost use Rattle.core_state.specs.LakeStates.{lake_value};
ghost use Rattle.core_state.specs.RepositoryStates.{repository_value};
ghost use Rattle.core_puts.specs.FirstCommits.{IsFirstCommit};
ghost use Rattle.core_puts.specs.FreshLakes.{IsFirst};

use crate::commits::FirstCommit;
use branch_record::{BranchRecord, Tokens};
use byte_map::ByteMap;
use commit_graph::Graph;
use core_changes::founding::NewRepository;
use core_state::{BranchState, FilePlace, LakeState, RepositoryState};
use lake_base::{NoMemory, RefName, RepoName, TryCopy};
use lake_values::{CommitId, CommitRecord};
use meta_range::Tree;
use std::alloc::Global;
use std::sync::Arc;

/// A new repository that isn't in the lake yet, with its default branch at its first commit: it is made at that one's
/// date, and its branch has the version and the staging token that the lake gives out next.
#[tactic(auto, unfolding(core_state::specs::LakeStates::lake_value))]
pub fn new_repository(
    alloc: Global,
    lake: &LakeState,
    repo: &RepoName,
    branch: RefName,
    first: FirstCommit,
) -> Result<NewRepository, NoMemory>
    requires { IsFirst (lake_value lake.now).cut first.commit.date first }
    ensures new { IfOk result (IsNew repo.now branch first.commit.date (lake_value lake.now)) }
    ensures kind { IfOk result (λ new. new.place.is_metarange ≡ true) }
{
    let FirstCommit {
        commit,
        content,
        tree,
        metarange,
    } = first;
    let home = repo.copy(alloc)?;
    let place = FilePlace::of(tree.clone()?, 0);
    let repository = repository_of(
        alloc,
        branch,
        commit,
        content.name,
        tree,
        lake.next_version,
        lake.next_token,
    )?;
    Ok(NewRepository {
        repository,
        commit: content.name,
        home,
        file: metarange.name,
        place,
    })
}

// The repository of a first commit with this id and this tree.
fn repository_of(
    alloc: Global,
    branch: RefName,
    commit: CommitRecord,
    id: CommitId,
    tree: Arc<Tree, Global>,
    version: u64,
    token: u64,
) -> Result<RepositoryState, NoMemory>
    ensures { IfOk result (λ r. (cut : AnyCut) → IsFirstCommit cut commit id tree.value
        → repository_value r ≡ founded_repository cut commit.date branch version token) }
{
    let created = commit.date;
    let graph = graph_of(alloc, commit)?;
    let branches = branches_of(alloc, &branch, new_branch(alloc, version, id, token))?;
    let trees = trees_of(alloc, id, tree)?;
    Ok(RepositoryState {
        created,
        default_branch: branch,
        settings: 0,
        branches,
        tags: ByteMap::new(alloc),
        graph,
        trees,
        expired: ByteMap::new(alloc),
        retention: None,
        protection: None,
        hooks: None,
    })
}

// The graph of a first commit.
fn graph_of(alloc: Global, commit: CommitRecord) -> Result<Graph, NoMemory>
    ensures { IfOk result (λ graph. graph ≡ insert empty (commit_id commit).0 commit) }
{
    let mut graph = Graph::new(alloc);
    match graph.add(alloc, commit) {
        Ok(_) => Ok(graph),
        // A first commit has no parent that could miss, the generation that is due, and no other of its name.
        Err(_) => Err(NoMemory),
    }
}

// A branch without changes.
fn new_branch(alloc: Global, version: u64, head: CommitId, token: u64) -> BranchState
    ensures { branch_value result ≡ new_branch version head token }
{
    BranchState {
        record: BranchRecord::fresh(alloc, version, head, token),
        tokens: Tokens::new(alloc),
    }
}

// One branch under its name.
fn branches_of(
    alloc: Global,
    name: &RefName,
    branch: BranchState,
) -> Result<ByteMap<RefName, Option<BranchState>>, NoMemory>
    ensures { IfOk result (λ branches. some_values (option_map branch_value) branches
        ≡ insert empty name.now (branch_value branch)) }
{
    let mut branches = ByteMap::new(alloc);
    branches.insert(name.copy(alloc)?, Some(branch))?;
    Ok(branches)
}

// The tree of one commit.
fn trees_of(
    alloc: Global,
    id: CommitId,
    tree: Arc<Tree, Global>,
) -> Result<ByteMap<CommitId, Arc<Tree, Global>>, NoMemory>
    ensures { IfOk result (λ trees. map_values (λ tree. tree.value) trees ≡ insert empty id.0 tree.value) }
{
    let mut trees = ByteMap::new(alloc);
    trees.insert(id, tree)?;
    Ok(trees)
}
