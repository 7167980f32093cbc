//! Pages of entries.
ghost use Rattle.std.specs.Prelude.{◌≡◌, IfOk};
ghost use Rattle.lake_model.specs.Readings.{map_at, page_reply};
ghost use Rattle.lake_model.specs.Refusals.{Gives};
ghost use Rattle.lake_model.specs.Soundness.{IsSound};
ghost use Rattle.lake_model.specs.State.{map_of, now_map};
ghost use Rattle.lake_pages.specs.Listing.{has_more, page_items};
ghost use Rattle.core_state.specs.BranchStates.{branch_of, branch_value};
ghost use Rattle.core_state.specs.LakeStates.{lake_value, state_of};
ghost use Rattle.core_state.specs.RepositoryStates.{repository_of, repository_value};
ghost use Rattle.core_readings.specs.Answers.{page_answer};

use crate::{is_plain_branch, target};
use branch_record::LayerCursor;
use commit_graph::RefExpr;
use core_state::{BranchState, LakeState, RepositoryState};
use lake_base::{NoMemory, RepoName};
use lake_model::StepFault;
use lake_pages::{Page, PageQuery, page_of, page_over};
use lake_values::{CommitId, KeyMap};
use std::alloc::Global;

/// A page of what an expression leads to: the items under a prefix and a delimiter above a name, so many, and whether
/// one is left. The changes of a branch, staged and sealed, and the tree are walked where they stand, for the page
/// alone.
/// NoRepo, NoRef, NoParent.
pub fn page(
    alloc: Global,
    lake: &LakeState,
    repo: &RepoName,
    e: &RefExpr,
    query: &PageQuery,
) -> Result<(u64, Page), StepFault>
    requires { IsSound (state_of (lake_value lake.now)) }
    ensures { Gives (page_answer result)
        (page_reply (state_of (lake_value lake.now)) repo.now e.now query.now) }
{
    let Some(repository) = lake.repository(repo) else {
        return Err(StepFault::NoRepo);
    };
    let commit = target(repository, e)?;
    let page = page_at(alloc, repository, e, &commit, query)?;
    Ok((lake.entries, page))
}

// A page of the map at an expression, which leads to this commit.
fn page_at(
    alloc: Global,
    repository: &RepositoryState,
    e: &RefExpr,
    id: &CommitId,
    query: &PageQuery,
) -> Result<Page, NoMemory>
    ensures items { IfOk result (λ page. page.items
        ≡ page_items query.now (map_at (repository_of (repository_value repository.now)) e.now id.now)) }
    ensures more { IfOk result (λ page. page.has_more
        ≡ has_more query.now (map_at (repository_of (repository_value repository.now)) e.now id.now)) }
{
    if !is_plain_branch(repository, e) {
        return page_of_commit(alloc, repository, id, query);
    }
    match repository.branch(&e.name) {
        Some(branch) => page_on(alloc, repository, branch, query),
        None => page_of_commit(alloc, repository, id, query),
    }
}

// A page of a commit's map.
fn page_of_commit(
    alloc: Global,
    repository: &RepositoryState,
    id: &CommitId,
    query: &PageQuery,
) -> Result<Page, NoMemory>
    ensures items { IfOk result (λ page. page.items
        ≡ page_items query.now (map_of (repository_of (repository_value repository.now)) id.now)) }
    ensures more { IfOk result (λ page. page.has_more
        ≡ has_more query.now (map_of (repository_of (repository_value repository.now)) id.now)) }
{
    match repository.tree(id) {
        Some(tree) => page_over(alloc, tree.seek(None), query),
        None => page_of(alloc, &KeyMap::new(alloc), query),
    }
}

// A page of what is read on a branch now: a walk over its changes, where they stand under its tokens, and over its
// head's tree.
fn page_on(
    alloc: Global,
    repository: &RepositoryState,
    branch: &BranchState,
    query: &PageQuery,
) -> Result<Page, NoMemory>
    ensures items { IfOk result (λ page. page.items ≡ page_items query.now
        (now_map (repository_of (repository_value repository.now)) (branch_of (branch_value branch.now)))) }
    ensures more { IfOk result (λ page. page.has_more ≡ has_more query.now
        (now_map (repository_of (repository_value repository.now)) (branch_of (branch_value branch.now)))) }
{
    let changes = branch.record.walk(alloc, &branch.tokens)?;
    match repository.tree(&branch.record.head()) {
        Some(tree) => {
            let rows = LayerCursor::new(changes, tree.seek(None));
            page_over(alloc, rows, query)
        }
        None => {
            let none = KeyMap::new(alloc);
            let rows = LayerCursor::new(changes, none.cursor());
            page_over(alloc, rows, query)
        }
    }
}
