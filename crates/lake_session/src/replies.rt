//! Replies are printed, and sent.
ghost use Rattle.std.specs.Prelude.{◌≡◌};
ghost use Rattle.http_wire.specs.ReplyText.{reply_text};
ghost use Rattle.lake_base.specs.Outside.{HasCause};
ghost use Rattle.lake_session.specs.PrintedAnswers.{IsPrinted, sent_by, tells_form};
ghost use Rattle.lake_session.specs.SessionTexts.{Writes};

use api_forms::print;
use http_wire::{Reply, write_no_memory, write_reply};
use lake_api::{Answered, LakeSeat};
use lake_base::{Failed, Sink};
use lake_calls::CallReply;
use std::alloc::Global;

/// What is sent of an answer: its reply, or none where no memory was left to print it; and where that is placed.
#[derive(Debug, Drop)]
pub(crate) struct Printed {
    pub(crate) reply: Option<Reply>,
    pub(crate) position: u64,
    pub(crate) edge: u64,
}

/// Prints an answer. Where no memory is left for that, the refusal of a form, which has the position of the edge
/// before, gives way to want of memory at all that its seat has seen.
pub(crate) fn print_answer(alloc: Global, seat: &LakeSeat, answer: Answered) -> Printed
    ensures { IsPrinted seat.now answer result }
{
    let Answered {
        reply,
        position,
        edge,
    } = answer;
    let is_form = tells_form(&reply);
    match print(alloc, reply) {
        Ok(reply) => Printed {
            reply: Some(reply),
            position,
            edge,
        },
        Err(_) if is_form => {
            let seen = seat.seen();
            Printed {
                reply: None,
                position: seen,
                edge: seen,
            }
        }
        Err(_) => Printed {
            reply: None,
            position,
            edge,
        },
    }
}

// Whether it is told that a request's form was refused.
fn tells_form(reply: &CallReply) -> bool
    ensures { result ≡ tells_form reply.now }
{
    matches!(reply, CallReply::Malformed(_))
}

/// Sends a reply that was printed, or that no memory was left for one. After a failure a front of it is written.
pub(crate) fn send<W: Sink>(sink: &mut W, reply: Option<Reply>, close: bool) -> Result<(), Failed>
    ensures sent { Writes (W.written sink.old) (W.written sink.new) (reply_text (sent_by close reply)) result }
    ensures cause { HasCause (W.faults sink.old) (W.faults sink.new) result }
{
    match reply {
        Some(mut reply) => {
            reply.close = close;
            write_reply(sink, &reply)
        }
        None => write_no_memory(sink, close),
    }
}
