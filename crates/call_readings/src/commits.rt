//! Commits: logs, and the commit of an id.
ghost use Rattle.std.specs.Prelude.{◌≡◌, false, map, IfOk, Ok};
ghost use Rattle.lake_format.specs.Spelling.{IsDigest};
ghost use Rattle.lake_model.specs.Readings.{◌then◌};
ghost use Rattle.lake_model.specs.Refusals.{Gives};
ghost use Rattle.lake_model.specs.Resolving.{by_id};
ghost use Rattle.core_readings.specs.Answers.{log_answer};
ghost use Rattle.lake_calls.specs.CallReadings.{known_commit};
ghost use Rattle.lake_calls.specs.declared.call.Call.TheVariants.{Heads};
ghost use Rattle.lake_calls.specs.declared.heads.HeadCall.TheVariants as head;
ghost use Rattle.lake_calls.specs.declared.reply.Done.TheVariants as done;
ghost use Rattle.call_readings.specs.AnsweredReadings.{IsReadingAnswered};
ghost use Rattle.call_readings.specs.StepOutcomes.{first_commit};

use crate::answers::{Answered, answer};
use crate::refusals::Names;
use crate::starved::out_of_memory;
use commit_graph::RefExpr;
use keeper::Keeper;
use lake_base::{NoMemory, RefName, RepoName, Sequence};
use lake_calls::{Done, KnownCommit, LogCall};
use lake_model::{Reference, StepFault};
use lake_values::{CommitId, CommitRecord};
use shared_lake::{LakeSeat, Shared};
use std::alloc::Global;
use std::sync::Wait;

/// The ancestors of the commit of an expression that are dated at or after a moment and come after another commit: at
/// most so many, and whether one is left. NoRepo; NoRef, also where the other commit isn't there; NoParent. It waits.
pub fn log<K: Keeper, W: Wait>(
    rt: &W,
    alloc: Global,
    lake: &Shared<K>,
    seat: &mut LakeSeat,
    call: &LogCall,
) -> Answered
    requires { seat.old.turn ≡ lake.now }
    ensures { IsReadingAnswered seat.old seat.new (Heads (head.Log call.now)) result }
{
    let found = lake.log(
        rt,
        seat,
        &call.repo,
        call.at.expr(),
        call.after.as_ref(),
        call.since,
        call.amount,
    );
    let outcome = log_found(alloc, found);
    let names = Names {
        repo: &call.repo,
        named: "",
        expression: call.at.text().as_str(),
        path: None,
        after: call.after.as_ref(),
    };
    answer(alloc, seat, &names, outcome)
}

/// The commit of an id. NoRepo, NoRef. It waits.
pub fn get_commit<K: Keeper, W: Wait>(
    rt: &W,
    alloc: Global,
    lake: &Shared<K>,
    seat: &mut LakeSeat,
    repo: &RepoName,
    id: &CommitId,
) -> Answered
    requires { seat.old.turn ≡ lake.now }
    ensures { IsReadingAnswered seat.old seat.new (Heads (head.GetCommit repo.now id.now)) result }
{
    law_of_ids(*id);
    let e = match expression_of(alloc, id) {
        Ok(e) => e,
        Err(_) => return out_of_memory(rt, lake, seat, repo),
    };
    let found = lake.log(rt, seat, repo, &e, None, None, 1);
    let outcome = commit_found(found);
    let names = Names {
        repo,
        named: "",
        expression: e.name.as_str(),
        path: None,
        after: None,
    };
    answer(alloc, seat, &names, outcome)
}

// An id has 32 bytes. (A law: it does nothing.)
fn law_of_ids(id: CommitId)
    ensures { IsDigest id.0 }
{}

// A commit's id, as an expression. Its 64 digits are a name, so that memory alone can be wanting.
fn expression_of(alloc: Global, id: &CommitId) -> Result<RefExpr, NoMemory>
    ensures { IfOk result (λ e. e ≡ by_id id.now false) }
{
    let text = id.hex(alloc)?;
    match RefName::read(alloc, text.as_slice()) {
        Ok(name) => Ok(RefExpr {
            name,
            at: false,
            moves: Sequence::of(Vec::new(alloc)),
        }),
        Err(_) => Err(NoMemory),
    }
}

// What a log tells.
fn log_found(
    alloc: Global,
    found: Result<(u64, Sequence<(CommitId, CommitRecord)>, bool), StepFault>,
) -> Result<Done, StepFault>
    ensures { Gives result (log_answer found then λ log.
        Ok (done.Log (map known_commit log.commits) log.more)) }
{
    let (_, commits, has_more) = found?;
    let commits = known_commits(alloc, commits)?;
    Ok(Done::Log { commits, has_more })
}

// Commits with their ids, as a client is told of them.
fn known_commits(
    alloc: Global,
    commits: Sequence<(CommitId, CommitRecord)>,
) -> Result<Sequence<KnownCommit>, NoMemory>
    ensures { IfOk result (λ known. known ≡ map known_commit commits) }
{
    let commits = commits.into_vec();
    let mut known = Vec::with_capacity(alloc, commits.len())?;
    for (id, record) in commits {
        known.push(KnownCommit { id, record })?;
    }
    Ok(Sequence::of(known))
}

// What a log tells of the commit that it begins with, which is that of its expression.
fn commit_found(
    found: Result<(u64, Sequence<(CommitId, CommitRecord)>, bool), StepFault>,
) -> Result<Done, StepFault>
    ensures { Gives result (log_answer found then λ log. first_commit log.commits) }
{
    let (_, commits, _) = found?;
    match commits.into_vec().into_iter().next() {
        Some((id, record)) => Ok(Done::Commit(KnownCommit { id, record })),
        None => Err(StepFault::NoRef(Reference::Expression)),
    }
}
