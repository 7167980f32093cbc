//! A request is answered: as the call that it asks for, or by the first refusal of its form.
ghost use Rattle.std.specs.Prelude.{◌≡◌, length};
ghost use Rattle.lake_calls.specs.declared.reply.FormRefusal.{FormRefusal};
ghost use Rattle.lake_session.specs.SessionViews.{IsRequestAnswered};

use api_forms::{FormFault, read_call};
use block_store::Blocks;
use http_wire::Request;
use keeper::Keeper;
use lake_api::{Answered, Client, LakeSeat, NoPause, Shared, answer};
use lake_calls::CallReply;
use std::alloc::Global;
use std::sync::Wait;

/// Answers a request of a seat at a moment, in a call of this number. A form that is refused has its refusal at the
/// edge of the calls before it. It waits.
pub(crate) fn answer_request<K: Keeper, B: Blocks, W: Wait>(
    rt: &W,
    alloc: Global,
    lake: &Shared<K>,
    seat: &mut LakeSeat,
    blocks: &mut B,
    number: u64,
    moment: u64,
    edge: u64,
    request: Request,
) -> Answered
    requires { seat.old.turn ≡ lake.now }
    ensures { IsRequestAnswered number edge request moment
        (record { held = B.held blocks.old; faults = B.faults blocks.old; misses = B.misses blocks.old; missed = B.missed blocks.old })
        (record { held = B.held blocks.new; faults = B.faults blocks.new; misses = B.misses blocks.new; missed = B.missed blocks.new })
        seat.old seat.new result }
{
    match read_call(alloc, request) {
        Ok(call) => {
            let mut pause = NoPause;
            let mut client = Client {
                blocks,
                pause: &mut pause,
                now: moment,
                call: number,
            };
            answer(rt, alloc, lake, seat, &mut client, &call)
        }
        Err(fault) => unread(seat, edge, fault),
    }
}

// What a request is answered that asks for no call: the refusal of its form, at the edge, or that memory ran out, at
// all that its seat has seen.
fn unread(seat: &LakeSeat, edge: u64, fault: FormFault) -> Answered
    ensures refused { (refusal : FormRefusal) → fault ≡ FormFault.Refused refusal
        → (result.reply ≡ CallReply.Malformed refusal) × (result.position ≡ edge) }
    ensures starved { fault ≡ FormFault.NoMemory
        → (result.reply ≡ CallReply.NoMemory) × (result.position ≡ length seat.now.seen) }
    ensures edge { result.edge ≡ result.position }
{
    match fault {
        FormFault::Refused(refusal) => Answered {
            reply: CallReply::Malformed(refusal),
            position: edge,
            edge,
        },
        FormFault::NoMemory => {
            let position = seat.seen();
            Answered {
                reply: CallReply::NoMemory,
                position,
                edge: position,
            }
        }
    }
}
