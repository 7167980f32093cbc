//! What an expression leads to.
ghost use Rattle.std.specs.Prelude.{◌≡◌, [], IfOk};
ghost use Rattle.std.specs.Option.{option_map_or};
ghost use Rattle.lake_values.specs.Ancestry.{commit_of, parents};
ghost use Rattle.lake_model.specs.Readings.{point_of, resolve_reply};
ghost use Rattle.lake_model.specs.Refusals.{Gives};
ghost use Rattle.lake_model.specs.Soundness.{IsSound};
ghost use Rattle.core_state.specs.LakeStates.{lake_value, state_of};
ghost use Rattle.core_state.specs.RepositoryStates.{repository_of, repository_value};

use crate::{is_plain_branch, target};
use commit_graph::RefExpr;
use core_state::{LakeState, RepositoryState};
use lake_base::{NoMemory, RepoName, Sequence, Text, TryCopy};
use lake_model::{Point, StepFault};
use lake_values::CommitId;
use std::alloc::Global;

/// What an expression leads to: its commit, with the commit's parents and message. NoRepo, NoRef, NoParent.
pub fn resolve(
    alloc: Global,
    lake: &LakeState,
    repo: &RepoName,
    e: &RefExpr,
) -> Result<Point, StepFault>
    requires { IsSound (state_of (lake_value lake.now)) }
    ensures { Gives result (resolve_reply (state_of (lake_value lake.now)) repo.now e.now) }
{
    let Some(repository) = lake.repository(repo) else {
        return Err(StepFault::NoRepo);
    };
    let commit = target(repository, e)?;
    let point = point_at(alloc, lake, repository, e, commit)?;
    Ok(point)
}

// What is told of a commit that an expression leads to.
#[tactic(auto, unfolding(core_state::specs::LakeStates::lake_value))]
fn point_at(
    alloc: Global,
    lake: &LakeState,
    repository: &RepositoryState,
    e: &RefExpr,
    commit: CommitId,
) -> Result<Point, NoMemory>
    ensures { IfOk result (λ point. point
        ≡ point_of (state_of (lake_value lake.now)) (repository_of (repository_value repository.now)) e.now commit) }
{
    let plain_branch = is_plain_branch(repository, e);
    let (parents, message) = told_of(alloc, repository, &commit)?;
    Ok(Point {
        at: lake.entries,
        commit,
        plain_branch,
        parents,
        message,
    })
}

// The parents and the message of a commit; none and an empty one where it isn't there.
fn told_of(
    alloc: Global,
    repository: &RepositoryState,
    id: &CommitId,
) -> Result<(Sequence<CommitId>, Text), NoMemory>
    ensures parents { IfOk result (λ told. told.0 ≡ parents repository.now.graph id.now) }
    ensures message { IfOk result (λ told.
        told.1 ≡ option_map_or (λ c. c.message) (commit_of repository.now.graph id.now) []) }
{
    match repository.graph.get(id) {
        Some(commit) => Ok((commit.parents.copy(alloc)?, commit.message.copy(alloc)?)),
        None => Ok((Sequence::of(Vec::new(alloc)), Text::of(String::new(alloc)))),
    }
}
