//! The commit that is to become the head of a branch.
ghost use Rattle.std.specs.Prelude.{◌≡◌, IfOk};
ghost use Rattle.lake_format.specs.declared.cut.Cut.{Cut as AnyCut};
ghost use Rattle.core_state.specs.BranchStates.{branch_value};
ghost use Rattle.core_state.specs.RepositoryStates.{repository_value};
ghost use Rattle.core_commits.specs.HeadOperations.{IsDrafted, swap_parents};

use core_puts::commit_file;
use core_state::{BranchState, RepositoryState};
use lake_base::{Digest, NoMemory, Sequence};
use lake_model::SwapKind;
use lake_values::{About, CommitId, CommitRecord};
use meta_range::{File, Tree};
use std::alloc::Global;
use std::sync::Arc;

/// A commit that is to become the head of a branch.
#[derive(Debug, Drop)]
pub struct NewHead {
    pub commit: CommitRecord,
    /// Its bytes, under its id.
    pub content: File,
    pub tree: Arc<Tree, Global>,
}

/// The commit of a tree that is to become the head of a branch. A commit whose generation 64 bits don't hold is
/// answered as out of memory: that is so where a parent has the generation 2^64 - 1.
pub fn new_head(
    alloc: Global,
    repository: &RepositoryState,
    branch: &BranchState,
    kind: SwapKind,
    about: About,
    tree: Tree,
) -> Result<NewHead, NoMemory>
    ensures { IfOk result (λ new. (cut : AnyCut) → IsDrafted cut (repository_value repository.now)
        (branch_value branch.now) kind about tree new) }
{
    let parents = parents_of(alloc, branch.record.head(), kind)?;
    let Some(generation) = repository.graph.due_after(parents.as_slice()) else {
        return Err(NoMemory);
    };
    let About {
        committer,
        message,
        metadata,
        date,
    } = about;
    let commit = CommitRecord {
        meta_range: tree.name(),
        generation,
        date,
        parents: Sequence::of(parents),
        committer,
        message,
        metadata,
    };
    let content = commit_file(alloc, &commit)?;
    let tree = Arc::new(alloc, tree)?;
    Ok(NewHead {
        commit,
        content,
        tree,
    })
}

// The parents of a new head: the old one, and for a merge the source too.
fn parents_of(alloc: Global, head: CommitId, kind: SwapKind) -> Result<Vec<Digest>, NoMemory>
    ensures { IfOk result (λ parents. parents.items ≡ swap_parents kind head) }
{
    let mut parents = Vec::new(alloc);
    parents.push(head)?;
    if let SwapKind::Merge { source, .. } = kind {
        parents.push(source)?;
    }
    Ok(parents)
}
