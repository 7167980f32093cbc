//! Pages of a log.
ghost use Rattle.std.specs.Prelude.{◌≡◌, IfOk, MatchResult, option_copied, Ok};
ghost use Rattle.lake_model.specs.Readings.{commits_in, known_commit, log_reply};
ghost use Rattle.lake_model.specs.Refusals.{Gives};
ghost use Rattle.lake_model.specs.Soundness.{IsSound};
ghost use Rattle.core_state.specs.LakeStates.{lake_value, state_of};
ghost use Rattle.core_state.specs.RepositoryStates.{repository_of, repository_value};
ghost use Rattle.core_readings.specs.Answers.{log_answer};

use crate::{name_target, target};
use commit_graph::RefExpr;
use core_state::{LakeState, RepositoryState};
use lake_base::{NoMemory, RepoName, Sequence, TryCopy};
use lake_model::{Reference, StepFault};
use lake_values::{CommitId, CommitRecord};
use std::alloc::Global;

/// The ancestors of the commit of an expression that are dated at or after a moment and come after another commit,
/// greatest generation first and ties by least id, so many, and whether one is left. NoRepo; NoRef where the name
/// leads nowhere, and then where the other commit isn't there; NoParent.
pub fn log(
    alloc: Global,
    lake: &LakeState,
    repo: &RepoName,
    e: &RefExpr,
    after: Option<&CommitId>,
    since: Option<u64>,
    amount: usize,
) -> Result<(u64, Sequence<(CommitId, CommitRecord)>, bool), StepFault>
    requires { IsSound (state_of (lake_value lake.now)) }
    ensures { Gives (log_answer result)
        (log_reply (state_of (lake_value lake.now)) repo.now e.now (option_copied after.entry) since amount) }
{
    let Some(repository) = lake.repository(repo) else {
        return Err(StepFault::NoRepo);
    };
    let Some(_) = name_target(repository, &e.name) else {
        return Err(StepFault::NoRef(Reference::Expression));
    };
    test_commit(repository, after)?;
    let from = target(repository, e)?;
    let page = repository.graph.log(alloc, &from, after, since, amount)?;
    let commits = commits_of(alloc, repository, page.ids.as_slice())?;
    Ok((lake.entries, commits, page.has_more))
}

// Refuses a commit that isn't there, where one is named.
fn test_commit(repository: &RepositoryState, named: Option<&CommitId>) -> Result<(), StepFault>
    ensures { MatchResult result
        (λ _. known_commit (repository_of (repository_value repository.now)) (option_copied named.entry)
        ≡ Ok (option_copied named.entry))
        (λ fault. known_commit (repository_of (repository_value repository.now)) (option_copied named.entry)
        ≡ Err fault) }
{
    match named {
        Some(id) => match repository.graph.get(id) {
            Some(_) => Ok(()),
            None => Err(StepFault::NoRef(Reference::After)),
        },
        None => Ok(()),
    }
}

// The commits of ids, with their ids.
fn commits_of(
    alloc: Global,
    repository: &RepositoryState,
    ids: &[CommitId],
) -> Result<Sequence<(CommitId, CommitRecord)>, NoMemory>
    ensures { IfOk result (λ commits.
        commits ≡ commits_in (repository_of (repository_value repository.now)) ids.now) }
{
    let mut commits = Vec::with_capacity(alloc, ids.len())?;
    for id in ids {
        if let Some(commit) = repository.graph.get(id) {
            commits.push((*id, commit.copy(alloc)?))?;
        }
    }
    Ok(Sequence::of(commits))
}
