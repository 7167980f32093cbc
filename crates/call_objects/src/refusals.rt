//! What a client is told of a flow: what it did, or its refusal.
ghost use Rattle.std.specs.Prelude.{◌≡◌, MatchOption, option_copied};
ghost use Rattle.lake_calls.specs.CallRefusals.{CallNames};
ghost use Rattle.lake_calls.specs.declared.reply.CallReply.TheVariants as reply;
ghost use Rattle.lake_calls.specs.declared.reply.Refusal.TheVariants as refusal;
ghost use Rattle.call_readings.specs.ToldFaults.{AreNames, IsTextTold};
ghost use Rattle.call_objects.specs.ToldFlows.{IsChangeReplied, IsFlowReplied, IsOutcomeReplied};

use call_readings::{Names, refusal_reply};
use lake_base::{Path, TryCopy};
use lake_calls::{CallReply, Done, Refusal};
use lake_model::StepFault;
use read_flow::{Done as FlowDone, FlowFault};
use std::alloc::Global;

/// The reply to a flow of a change that is told without an entry: this where it was done, and else that to its refusal.
pub(crate) fn change_reply(
    alloc: Global,
    names: &Names<'_, '_>,
    outcome: Result<FlowDone, FlowFault>,
    told: Done,
) -> CallReply
    ensures { (call : CallNames) → AreNames names.now call
        → IsOutcomeReplied call (IsChangeReplied told) outcome result }
{
    match outcome {
        Ok(_) => CallReply::Done(told),
        Err(fault) => flow_refusal(alloc, names, fault),
    }
}

/// The reply to a flow's refusal, by what the call names, whose texts are copied: NoMemory also where no memory was
/// left for one. A reply without a text takes no memory.
pub(crate) fn flow_refusal(alloc: Global, names: &Names<'_, '_>, fault: FlowFault) -> CallReply
    ensures { (call : CallNames) → AreNames names.now call → IsFlowReplied call fault result }
{
    match fault {
        FlowFault::Step(fault) => refusal_reply(alloc, names, fault),
        FlowFault::TooManyTries { first: _, last: _ } => CallReply::Refused(Refusal::TooManyTries),
        FlowFault::NoPath => refusal_reply(alloc, names, StepFault::NoPath),
        FlowFault::Gone(_) => gone(alloc, names.path),
        FlowFault::NotHeld(_) => not_held(alloc, names.path),
        FlowFault::Lost(_) => lost(alloc, names.path),
        FlowFault::Damaged { named: _, found: _ } => damaged(alloc, names.path),
        FlowFault::BlockFault => CallReply::Refused(Refusal::BlockFault),
        FlowFault::NoMemory => CallReply::NoMemory,
    }
}

// The object at the path is gone for good. No call is refused for a path that names none, here and below.
fn gone(alloc: Global, path: Option<&Path>) -> CallReply
    ensures { MatchOption (option_copied path.entry) (result ≡ reply.NoMemory)
        (λ path. IsTextTold (refusal.Gone path) result) }
{
    let Some(path) = path else {
        return CallReply::NoMemory;
    };
    match path.copy(alloc) {
        Ok(path) => CallReply::Refused(Refusal::Gone(path)),
        Err(_) => CallReply::NoMemory,
    }
}

// It stands outside.
fn not_held(alloc: Global, path: Option<&Path>) -> CallReply
    ensures { MatchOption (option_copied path.entry) (result ≡ reply.NoMemory)
        (λ path. IsTextTold (refusal.NotHeld path) result) }
{
    let Some(path) = path else {
        return CallReply::NoMemory;
    };
    match path.copy(alloc) {
        Ok(path) => CallReply::Refused(Refusal::NotHeld(path)),
        Err(_) => CallReply::NoMemory,
    }
}

// Its bytes aren't held.
fn lost(alloc: Global, path: Option<&Path>) -> CallReply
    ensures { MatchOption (option_copied path.entry) (result ≡ reply.NoMemory)
        (λ path. IsTextTold (refusal.Lost path) result) }
{
    let Some(path) = path else {
        return CallReply::NoMemory;
    };
    match path.copy(alloc) {
        Ok(path) => CallReply::Refused(Refusal::Lost(path)),
        Err(_) => CallReply::NoMemory,
    }
}

// They are others than those that were put.
fn damaged(alloc: Global, path: Option<&Path>) -> CallReply
    ensures { MatchOption (option_copied path.entry) (result ≡ reply.NoMemory)
        (λ path. IsTextTold (refusal.Damaged path) result) }
{
    let Some(path) = path else {
        return CallReply::NoMemory;
    };
    match path.copy(alloc) {
        Ok(path) => CallReply::Refused(Refusal::Damaged(path)),
        Err(_) => CallReply::NoMemory,
    }
}
