//! A session, from its first request to its end.
ghost use Rattle.std.specs.Prelude.{◌≡◌, length};
ghost use Rattle.lake_session.specs.WholeSessions.{IsSession};

use crate::report::{End, Placed, SessionReport};
use crate::turns::{REQUEST_LIMIT, serve_next};
use block_store::Blocks;
use http_wire::Buffer;
use keeper::Keeper;
use lake_api::{LakeSeat, Shared};
use lake_base::{Clock, Sequence, Sink, Source};
use std::alloc::Global;
use std::sync::Wait;

/// Serves the requests of a source, one after the other, as calls of a seat numbered from 1, at the clock's moments,
/// and writes the replies to a sink, until the source ends, a client wants no further reply, 10,000 requests were
/// answered, something fails, or what comes is no request. It waits.
///
/// A request for which no memory is left ends it, and so does one that can't be read; each has a reply. A call at which
/// memory runs out is answered so, and the session goes on.
pub fn serve_session<K: Keeper, B: Blocks, C: Clock, S: Source, O: Sink, W: Wait>(
    rt: &W,
    alloc: Global,
    lake: &Shared<K>,
    seat: &mut LakeSeat,
    blocks: &mut B,
    clock: &mut C,
    source: &mut S,
    sink: &mut O,
) -> SessionReport
    requires { seat.old.turn ≡ lake.now }
    ensures { IsSession
        (record {
          unread = S.left source.old;
          read_faults = S.faults source.old;
          written = O.written sink.old;
          write_faults = O.faults sink.old;
          readings = C.readings clock.old;
          store = record { held = B.held blocks.old; faults = B.faults blocks.old; misses = B.misses blocks.old; missed = B.missed blocks.old };
          seat = seat.old;
        })
        (record {
          unread = S.left source.new;
          read_faults = S.faults source.new;
          written = O.written sink.new;
          write_faults = O.faults sink.new;
          readings = C.readings clock.new;
          store = record { held = B.held blocks.new; faults = B.faults blocks.new; misses = B.misses blocks.new; missed = B.missed blocks.new };
          seat = seat.new;
        })
        result }
{
    let from = seat.seen();
    let mut buffer = Buffer::new(alloc);
    let mut placed = Vec::new(alloc);
    let mut edge = from;
    let mut number = 0;
    'serving: while number < REQUEST_LIMIT {
        number += 1;
        let ended = serve_next(
            rt,
            alloc,
            lake,
            seat,
            blocks,
            clock,
            source,
            sink,
            &mut buffer,
            &mut placed,
            &mut edge,
            number,
        );
        if let Some(end) = ended {
            return reported(from, seat, placed, end);
        }
    }
    reported(from, seat, placed, End::RequestLimit)
}

// What a session reports that ended so.
fn reported(from: u64, seat: &LakeSeat, placed: Vec<Placed>, end: End) -> SessionReport
    ensures { result ≡ record { from = from; to = length seat.now.seen; placed = placed.items; end = end } }
{
    SessionReport {
        from,
        to: seat.seen(),
        placed: Sequence::of(placed),
        end,
    }
}
