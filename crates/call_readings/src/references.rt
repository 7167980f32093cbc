//! Repositories, branches and tags: lists, and one of a name.
ghost use Rattle.std.specs.Prelude.{◌≡◌, map, IfOk, MatchResult, Ok};
ghost use Rattle.lake_model.specs.Readings.{◌then◌};
ghost use Rattle.lake_model.specs.Refusals.{Gives};
ghost use Rattle.core_readings.specs.Answers.{list_answer};
ghost use Rattle.lake_calls.specs.CallReadings.{named_commit};
ghost use Rattle.lake_calls.specs.declared.call.Call.TheVariants.{Names as OfNames};
ghost use Rattle.lake_calls.specs.declared.names.NamingCall.TheVariants as naming;
ghost use Rattle.lake_calls.specs.declared.reply.CallReply.TheVariants as reply;
ghost use Rattle.lake_calls.specs.declared.reply.Done.TheVariants as done;
ghost use Rattle.call_readings.specs.AnsweredReadings.{IsReadingAnswered};

use crate::answers::{Answered, answer, placed};
use crate::refusals::Names;
use keeper::Keeper;
use lake_base::{NoMemory, RefName, RepoName, Sequence, Text, TryCopy};
use lake_calls::{CallReply, Done, NameCall, NamedCommit, NamesCall};
use lake_model::{RepoInfo, StepFault};
use lake_values::CommitId;
use shared_lake::{LakeSeat, Shared};
use std::alloc::Global;
use std::sync::Wait;

/// The repositories whose names are above some bytes: at most so many, and whether one is left. Want of memory alone
/// refuses it. It waits.
pub fn list_repositories<K: Keeper, W: Wait>(
    rt: &W,
    lake: &Shared<K>,
    seat: &mut LakeSeat,
    after: &Text,
    amount: usize,
) -> Answered
    requires { seat.old.turn ≡ lake.now }
    ensures { IsReadingAnswered seat.old seat.new (OfNames (naming.ListRepositories after.now amount)) result }
{
    let found = lake.repos(rt, seat, after, amount);
    placed(seat, repositories_told(found))
}

/// The branches of a repository, with their heads, whose names are above some bytes: at most so many, and whether one
/// is left. NoRepo. It waits.
pub fn list_branches<K: Keeper, W: Wait>(
    rt: &W,
    alloc: Global,
    lake: &Shared<K>,
    seat: &mut LakeSeat,
    call: &NamesCall,
) -> Answered
    requires { seat.old.turn ≡ lake.now }
    ensures { IsReadingAnswered seat.old seat.new (OfNames (naming.ListBranches call.now)) result }
{
    let found = lake.names(rt, seat, &call.repo, false, &call.after, call.amount);
    let outcome = branches_found(alloc, found);
    let names = Names::of_repository(&call.repo);
    answer(alloc, seat, &names, outcome)
}

/// The tags of a repository, with their commits, whose names are above some bytes: at most so many, and whether one
/// is left. NoRepo. It waits.
pub fn list_tags<K: Keeper, W: Wait>(
    rt: &W,
    alloc: Global,
    lake: &Shared<K>,
    seat: &mut LakeSeat,
    call: &NamesCall,
) -> Answered
    requires { seat.old.turn ≡ lake.now }
    ensures { IsReadingAnswered seat.old seat.new (OfNames (naming.ListTags call.now)) result }
{
    let found = lake.names(rt, seat, &call.repo, true, &call.after, call.amount);
    let outcome = tags_found(alloc, found);
    let names = Names::of_repository(&call.repo);
    answer(alloc, seat, &names, outcome)
}

/// A branch, and its head. NoRepo, NoRef. It waits.
pub fn get_branch<K: Keeper, W: Wait>(
    rt: &W,
    alloc: Global,
    lake: &Shared<K>,
    seat: &mut LakeSeat,
    call: &NameCall,
) -> Answered
    requires { seat.old.turn ≡ lake.now }
    ensures { IsReadingAnswered seat.old seat.new (OfNames (naming.GetBranch call.now)) result }
{
    let found = lake.find(rt, seat, &call.repo, false, &call.name);
    let outcome = branch_found(alloc, &call.name, found);
    let names = Names::of_name(&call.repo, call.name.as_str());
    answer(alloc, seat, &names, outcome)
}

/// A tag, and its commit. NoRepo, NoRef. It waits.
pub fn get_tag<K: Keeper, W: Wait>(
    rt: &W,
    alloc: Global,
    lake: &Shared<K>,
    seat: &mut LakeSeat,
    call: &NameCall,
) -> Answered
    requires { seat.old.turn ≡ lake.now }
    ensures { IsReadingAnswered seat.old seat.new (OfNames (naming.GetTag call.now)) result }
{
    let found = lake.find(rt, seat, &call.repo, true, &call.name);
    let outcome = tag_found(alloc, &call.name, found);
    let names = Names::of_name(&call.repo, call.name.as_str());
    answer(alloc, seat, &names, outcome)
}

// What a client is told of a list of repositories. It names none, so want of memory alone refuses it.
fn repositories_told(found: Result<(u64, Sequence<RepoInfo>, bool), StepFault>) -> CallReply
    ensures { MatchResult found (λ list. result ≡ reply.Done (done.Repositories list.1 list.2))
        (λ fault. result ≡ reply.NoMemory) }
{
    match found {
        Ok((_, repositories, has_more)) => CallReply::Done(Done::Repositories {
            repositories,
            has_more,
        }),
        Err(_) => CallReply::NoMemory,
    }
}

// What a list of branches tells.
fn branches_found(
    alloc: Global,
    found: Result<(u64, Sequence<(RefName, CommitId)>, bool), StepFault>,
) -> Result<Done, StepFault>
    ensures { Gives result (list_answer found then λ list.
        Ok (done.Branches (map named_commit list.values) list.more)) }
{
    let (_, names, has_more) = found?;
    let branches = named_commits(alloc, names)?;
    Ok(Done::Branches { branches, has_more })
}

// What a list of tags tells.
fn tags_found(
    alloc: Global,
    found: Result<(u64, Sequence<(RefName, CommitId)>, bool), StepFault>,
) -> Result<Done, StepFault>
    ensures { Gives result (list_answer found then λ list.
        Ok (done.Tags (map named_commit list.values) list.more)) }
{
    let (_, names, has_more) = found?;
    let tags = named_commits(alloc, names)?;
    Ok(Done::Tags { tags, has_more })
}

// Names with their commits, as a client is told of them.
fn named_commits(
    alloc: Global,
    names: Sequence<(RefName, CommitId)>,
) -> Result<Sequence<NamedCommit>, NoMemory>
    ensures { IfOk result (λ commits. commits ≡ map named_commit names) }
{
    let names = names.into_vec();
    let mut commits = Vec::with_capacity(alloc, names.len())?;
    for (name, commit) in names {
        commits.push(NamedCommit { name, commit })?;
    }
    Ok(Sequence::of(commits))
}

// What a branch that was found tells.
fn branch_found(
    alloc: Global,
    name: &RefName,
    found: Result<(u64, CommitId), StepFault>,
) -> Result<Done, StepFault>
    ensures { Gives result (found then λ one. Ok (done.Branch (named_commit (name.now, one.1)))) }
{
    let (_, commit) = found?;
    let name = name.copy(alloc)?;
    Ok(Done::Branch(NamedCommit { name, commit }))
}

// What a tag that was found tells.
fn tag_found(
    alloc: Global,
    name: &RefName,
    found: Result<(u64, CommitId), StepFault>,
) -> Result<Done, StepFault>
    ensures { Gives result (found then λ one. Ok (done.Tag (named_commit (name.now, one.1)))) }
{
    let (_, commit) = found?;
    let name = name.copy(alloc)?;
    Ok(Done::Tag(NamedCommit { name, commit }))
}
