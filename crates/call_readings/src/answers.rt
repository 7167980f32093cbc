//! What a call is answered.
ghost use Rattle.std.specs.Prelude.{◌≡◌, length};
ghost use Rattle.lake_calls.specs.CallRefusals.{CallNames};
ghost use Rattle.call_readings.specs.StepOutcomes.{IsReplied};
ghost use Rattle.call_readings.specs.ToldFaults.{AreNames};

use crate::refusals::{Names, refusal_reply};
use lake_calls::{CallReply, Done};
use lake_model::StepFault;
use shared_lake::LakeSeat;
use std::alloc::Global;

/// What a call is answered: the reply; its position in the history; and the edge of the call, the greater of the
/// position and the place of the call's last own entry.
#[derive(Debug, Drop)]
pub struct Answered {
    pub reply: CallReply,
    pub position: u64,
    pub edge: u64,
}

/// What a call is answered of whose step came to this, at all that its seat has seen then: what its client is told
/// where it was done, and else the reply to the fault, by what the call names. A reply of a call that was done takes no
/// memory.
pub fn answer(
    alloc: Global,
    seat: &LakeSeat,
    names: &Names<'_, '_>,
    outcome: Result<Done, StepFault>,
) -> Answered
    ensures reply { (call : CallNames) → AreNames names.now call → IsReplied call outcome result.reply }
    ensures position { result.position ≡ length seat.now.seen }
    ensures edge { result.edge ≡ length seat.now.seen }
{
    placed(
        seat,
        match outcome {
            Ok(told) => CallReply::Done(told),
            Err(fault) => refusal_reply(alloc, names, fault),
        },
    )
}

// A reply at all that a seat has seen.
pub(crate) fn placed(seat: &LakeSeat, reply: CallReply) -> Answered
    ensures { result ≡ record { reply = reply; position = length seat.now.seen; edge = length seat.now.seen } }
{
    let position = seat.seen();
    Answered {
        reply,
        position,
        edge: position,
    }
}
