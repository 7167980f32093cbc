//! The commit of a name and of an expression.
ghost use Rattle.std.specs.Prelude.{◌≡◌, IfOk};
ghost use Rattle.lake_model.specs.Resolving.{commit_named, expression_target, is_plain_branch, name_target};
ghost use Rattle.lake_model.specs.State.{HasCommit};
ghost use Rattle.core_state.specs.RepositoryStates.{HasTargets, repository_of, repository_value};

use commit_graph::RefExpr;
use core_state::RepositoryState;
use lake_base::{Digest, RefName};
use lake_model::{Reference, StepFault};
use lake_values::CommitId;

/// The commit whose id reads so. It takes no memory.
pub fn commit_named(repository: &RepositoryState, name: &RefName) -> Option<CommitId>
    ensures { result ≡ commit_named (repository_of (repository_value repository.now)) name.now }
{
    // It reads no commit where the name is no digest, but what holds of the graph's ids decides that none reads so.
    let _ = repository.graph.len();
    let Ok(id) = Digest::read(name.as_slice()) else {
        return None;
    };
    match repository.graph.get(&id) {
        Some(_) => Some(id),
        None => None,
    }
}

/// What a name leads to: the head of the branch, else the commit of the tag, else the commit of the id. It takes no
/// memory.
pub fn name_target(repository: &RepositoryState, name: &RefName) -> Option<CommitId>
    ensures { result ≡ name_target (repository_of (repository_value repository.now)) name.now }
{
    if let Some(branch) = repository.branch(name) {
        return Some(branch.record.head());
    }
    match repository.tag(name) {
        Some(commit) => Some(commit),
        None => commit_named(repository, name),
    }
}

/// The commit of an expression: its name's, and from there its moves. NoRef where the name leads nowhere, and NoParent
/// with the first move that finds no parent. It takes no memory.
pub fn target(repository: &RepositoryState, e: &RefExpr) -> Result<CommitId, StepFault>
    requires { HasTargets (repository_of (repository_value repository.now)) }
    ensures target { result ≡ expression_target (repository_of (repository_value repository.now)) e.now }
    ensures there { IfOk result (HasCommit (repository_of (repository_value repository.now))) }
{
    let Some(id) = name_target(repository, &e.name) else {
        return Err(StepFault::NoRef(Reference::Expression));
    };
    match repository.graph.resolve(&id, e.moves.as_slice()) {
        Ok(id) => Ok(id),
        Err(number) => Err(StepFault::NoParent(number)),
    }
}

/// Whether an expression is a branch, without `@` and without moves. It takes no memory.
pub fn is_plain_branch(repository: &RepositoryState, e: &RefExpr) -> bool
    ensures { result ≡ is_plain_branch (repository_of (repository_value repository.now)) e.now }
{
    !e.at && e.moves.as_slice().is_empty() && repository.branch(&e.name).is_some()
}
