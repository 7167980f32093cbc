//! The entry at a path of a branch and of a commit.
ghost use Rattle.std.specs.Prelude.{◌≡◌, option_copied};
ghost use Rattle.std.specs.FinMap.{get};
ghost use Rattle.lake_values.specs.KeyMap.{apply};
ghost use Rattle.lake_model.specs.Readings.{map_at};
ghost use Rattle.lake_model.specs.State.{map_of, now_map};
ghost use Rattle.core_state.specs.BranchStates.{branch_of, branch_value};
ghost use Rattle.core_state.specs.RepositoryStates.{repository_of, repository_value};

use crate::targets::is_plain_branch;
use branch_record::Looked;
use commit_graph::RefExpr;
use core_state::{BranchState, RepositoryState};
use lake_base::Path;
use lake_values::{CommitId, Entry};

/// The entry at a path of a commit's map; none where there is no such commit. It takes no memory.
pub fn map_entry<'a>(
    repository: &'a RepositoryState,
    id: &CommitId,
    path: &Path,
) -> Option<&'a Entry>
    ensures { option_copied result
        ≡ get (map_of (repository_of (repository_value repository.now)) id.now) path.now }
{
    match repository.tree(id) {
        Some(tree) => tree.get(path),
        None => None,
    }
}

/// The entry at a path of a branch: what its changes say, and else what its head's map has. It takes no memory.
pub fn entry_on<'a>(
    repository: &'a RepositoryState,
    branch: &'a BranchState,
    path: &Path,
) -> Option<&'a Entry>
    ensures { option_copied result ≡ get
        (now_map (repository_of (repository_value repository.now)) (branch_of (branch_value branch.now))) path.now }
{
    match branch.record.look(&branch.tokens, path) {
        Looked::Entry(entry) => Some(entry),
        Looked::Tombstone => None,
        Looked::Below => map_entry(repository, &branch.record.head(), path),
    }
}

/// The entry at a path of what an expression leads to, which is this commit: on a plain branch what is read on it now,
/// else the commit's. It takes no memory.
pub fn entry_at<'a>(
    repository: &'a RepositoryState,
    e: &RefExpr,
    id: &CommitId,
    path: &Path,
) -> Option<&'a Entry>
    ensures { option_copied result
        ≡ get (map_at (repository_of (repository_value repository.now)) e.now id.now) path.now }
{
    if !is_plain_branch(repository, e) {
        return map_entry(repository, id, path);
    }
    match repository.branch(&e.name) {
        Some(branch) => entry_on(repository, branch, path),
        None => map_entry(repository, id, path),
    }
}
