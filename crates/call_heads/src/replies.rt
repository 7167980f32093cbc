//! What a client is told of a new head, and of one that isn't made.
ghost use Rattle.std.specs.Prelude.{◌≡◌, []};
ghost use Rattle.lake_calls.specs.CallReadings.{known_commit};
ghost use Rattle.lake_calls.specs.CallRefusals.{CallNames, names_at};
ghost use Rattle.lake_calls.specs.declared.reply.Done.TheVariants as done;
ghost use Rattle.call_objects.specs.CallWords.{AreNames};
ghost use Rattle.call_heads.specs.ToldHeads.{IsCommitReplied, IsHeadReplied, told_of_made};

use call_objects::{Names, head_refusal_reply, refusal_reply};
use commit_flow::CommitFault;
use lake_base::{RefName, RepoName};
use lake_calls::{CallReply, Done, Expression, KnownCommit, MissingParent, Refusal};
use lake_values::{CommitId, CommitRecord};
use std::alloc::Global;

/// What a commit's flow told, as its client is told it.
pub(crate) fn committed(
    made: Result<(u64, CommitId, CommitRecord), CommitFault>,
) -> Result<Done, CommitFault>
    ensures { result ≡ told_of_made (λ one. done.Committed (known_commit one)) made }
{
    match made {
        Ok((_, id, record)) => Ok(Done::Committed(KnownCommit { id, record })),
        Err(fault) => Err(fault),
    }
}

/// The same of a merge.
pub(crate) fn merged(
    made: Result<(u64, CommitId, CommitRecord), CommitFault>,
) -> Result<Done, CommitFault>
    ensures { result ≡ told_of_made (λ one. done.Merged one.0) made }
{
    match made {
        Ok((_, id, _)) => Ok(Done::Merged(id)),
        Err(fault) => Err(fault),
    }
}

/// The same of a revert.
pub(crate) fn reverted(
    made: Result<(u64, CommitId, CommitRecord), CommitFault>,
) -> Result<Done, CommitFault>
    ensures { result ≡ told_of_made (λ one. done.Reverted (known_commit one)) made }
{
    match made {
        Ok((_, id, record)) => Ok(Done::Reverted(KnownCommit { id, record })),
        Err(fault) => Err(fault),
    }
}

/// The same of a cherry-pick.
pub(crate) fn cherry_picked(
    made: Result<(u64, CommitId, CommitRecord), CommitFault>,
) -> Result<Done, CommitFault>
    ensures { result ≡ told_of_made (λ one. done.CherryPicked (known_commit one)) made }
{
    match made {
        Ok((_, id, record)) => Ok(Done::CherryPicked(KnownCommit { id, record })),
        Err(fault) => Err(fault),
    }
}

/// What refusals may name of a call that has a branch and an expression. It takes no memory.
pub(crate) fn names_at<'a>(
    repo: &'a RepoName,
    branch: &'a RefName,
    e: &'a Expression,
) -> Names<'a, 'a>
    ensures { AreNames result (names_at repo.now branch.now e.now []) }
{
    Names {
        repo,
        named: branch.as_str(),
        expression: e.text().as_str(),
        path: None,
        after: None,
    }
}

/// The reply to what came of a flow: what its client is told where the head was made, and else the reply to the
/// refusal, by what the call names, whose texts are copied: NoMemory also where no memory was left for one. A reply
/// without a text takes no memory.
pub(crate) fn reply(
    alloc: Global,
    names: &Names<'_, '_>,
    came: Result<Done, CommitFault>,
) -> CallReply
    ensures { (call : CallNames) → AreNames names.now call → IsHeadReplied call came result }
{
    match came {
        Ok(told) => CallReply::Done(told),
        Err(fault) => commit_refusal(alloc, names, fault),
    }
}

// The reply to a refusal.
fn commit_refusal(alloc: Global, names: &Names<'_, '_>, fault: CommitFault) -> CallReply
    ensures { (call : CallNames) → AreNames names.now call → IsCommitReplied call fault result }
{
    match fault {
        CommitFault::Step(fault) => refusal_reply(alloc, names, fault),
        CommitFault::TooManyTries { first: _, last: _ } => CallReply::Refused(
            Refusal::TooManyTries,
        ),
        CommitFault::Head(refused) => head_refusal_reply(refused),
        CommitFault::NoParent(number) => {
            CallReply::Refused(Refusal::NoParent(MissingParent::OfNumber(number)))
        }
        CommitFault::NeedsParentNumber => CallReply::Refused(Refusal::NeedsParentNumber),
        CommitFault::NoMemory => CallReply::NoMemory,
    }
}
