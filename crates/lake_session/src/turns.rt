//! One turn of a session: a request is read, answered, and its reply is sent.
ghost use Rattle.std.specs.Prelude.{◌≡◌, ◌==◌, ◌||◌, ◌<◌, OnOk, max, vec_capacity, vec_len};
ghost use Rattle.http_wire.specs.Filling.{HasReadCause};
ghost use Rattle.lake_session.specs.SessionTurns.{IsTurn, end_behind};
ghost use Rattle.lake_session.specs.SessionViews.{TakesRequest};

use crate::faults::end_by_fault;
use crate::replies::{print_answer, send};
use crate::report::{End, Placed};
use crate::requests::answer_request;
use block_store::Blocks;
use http_wire::{Buffer, Request, WireFault, read_request};
use keeper::Keeper;
use lake_api::{LakeSeat, Shared};
use lake_base::{Clock, Failed, Sink, Source};
use std::alloc::Global;
use std::sync::Wait;

/// The last request that a session takes.
pub(crate) const REQUEST_LIMIT: u64 = 10_000;

/// Reads a request, answers it, and sends its reply; or ends the session. It waits.
pub(crate) fn serve_next<K: Keeper, B: Blocks, C: Clock, S: Source, O: Sink, W: Wait>(
    rt: &W,
    alloc: Global,
    lake: &Shared<K>,
    seat: &mut LakeSeat,
    blocks: &mut B,
    clock: &mut C,
    source: &mut S,
    sink: &mut O,
    buffer: &mut Buffer,
    placed: &mut Vec<Placed>,
    edge: &mut u64,
    number: u64,
) -> Option<End>
    requires { seat.old.turn ≡ lake.now }
    ensures { IsTurn number
        (record {
          unread = S.left source.old;
          read_faults = S.faults source.old;
          written = O.written sink.old;
          write_faults = O.faults sink.old;
          readings = C.readings clock.old;
          store = record { held = B.held blocks.old; faults = B.faults blocks.old; misses = B.misses blocks.old; missed = B.missed blocks.old };
          seat = seat.old;
        })
        (record {
          unread = S.left source.new;
          read_faults = S.faults source.new;
          written = O.written sink.new;
          write_faults = O.faults sink.new;
          readings = C.readings clock.new;
          store = record { held = B.held blocks.new; faults = B.faults blocks.new; misses = B.misses blocks.new; missed = B.missed blocks.new };
          seat = seat.new;
        })
        (record { placed = placed.old.items; edge = edge.old; held = buffer.old })
        (record { placed = placed.new.items; edge = edge.new; held = buffer.new })
        result }
{
    let request = match take_request(alloc, source, buffer, placed) {
        Ok(request) => request,
        Err(fault) => return Some(end_by_fault(sink, fault)),
    };
    let close = request.close;
    let moment = clock.now();
    let answered = answer_request(
        rt, alloc, lake, seat, blocks, number, moment, *edge, request,
    );
    let told = print_answer(alloc, seat, answered);
    let position = told.position;
    *edge = later(*edge, told.edge);
    let sent = send(sink, told.reply, closes_behind(close, number));
    placed.push_reserved(Placed {
        call: number,
        position,
        written: sent.is_ok(),
    });
    end_behind(sent, close)
}

// Whether the connection closes behind the reply to the request of this number, whose client asks for that or doesn't.
fn closes_behind(close: bool, number: u64) -> bool
    ensures { result ≡ (close || (number == 10000)) }
{
    close || number == REQUEST_LIMIT
}

// The later of two places of the history.
fn later(one: u64, other: u64) -> u64
    ensures { result ≡ max one other }
{
    if one < other { other } else { one }
}

// Reads a request, and takes room for what is to be reported of it.
fn take_request<S: Source>(
    alloc: Global,
    source: &mut S,
    buffer: &mut Buffer,
    placed: &mut Vec<Placed>,
) -> Result<Request, WireFault>
    ensures takes { TakesRequest buffer.old buffer.new (S.left source.old) (S.left source.new) result }
    ensures cause { HasReadCause (S.faults source.old) (S.faults source.new) result }
    ensures placed { placed.new.items ≡ placed.old.items }
    ensures room { OnOk result (vec_len placed.new < vec_capacity placed.new) }
{
    let request = match read_request(alloc, source, buffer) {
        Ok(request) => request,
        Err(fault) => return Err(fault),
    };
    match placed.reserve(1) {
        Ok(()) => Ok(request),
        Err(_) => Err(WireFault::NoMemory),
    }
}

// Whether a session ends behind a reply: where it wasn't written, and where its client wants no other.
fn end_behind(sent: Result<(), Failed>, close: bool) -> Option<End>
    ensures { result ≡ end_behind sent close }
{
    match sent {
        Ok(()) if close => Some(End::Closed),
        Ok(()) => None,
        Err(_) => Some(End::WriteFault),
    }
}
