//! A session over memory serves the bytes that a command sends, and its reply is read.
ghost use Rattle.std.specs.Prelude.{◌≡◌, ℕ, IfOk, Some, None, MatchResult};
ghost use Rattle.http_wire.specs.declared.message.Request.{Request};
ghost use Rattle.lakectl_session.specs.SessionsInMemory.{
  IsClosingText,
  IsExchanged,
  IsSessionOf,
  written_by,
};

use block_store::Blocks;
use http_wire::Reply;
use keeper::Keeper;
use lake_base::{Clock, MemorySink, NoMemory};
use lake_session::{End, serve_session};
use lakectl_commands::{SliceSource, reply_in};
use shared_lake::{LakeSeat, Shared};
use std::alloc::Global;
use std::sync::Wait;

// What a session of its own writes that serves these bytes. It waits.
fn served<K: Keeper, B: Blocks, C: Clock, W: Wait>(
    rt: &W,
    alloc: Global,
    lake: &Shared<K>,
    seat: &mut LakeSeat,
    blocks: &mut B,
    clock: &mut C,
    text: &[u8],
) -> Result<MemorySink, NoMemory>
    requires { seat.old.turn ≡ lake.now }
    ensures { IsSessionOf text.now
        (record {
          readings = C.readings clock.old;
          store = record { held = B.held blocks.old; faults = B.faults blocks.old; misses = B.misses blocks.old; missed = B.missed blocks.old };
          seat = seat.old;
        })
        (record {
          readings = C.readings clock.new;
          store = record { held = B.held blocks.new; faults = B.faults blocks.new; misses = B.misses blocks.new; missed = B.missed blocks.new };
          seat = seat.new;
        })
        (written_by result) }
{
    let mut source = SliceSource::new(text);
    let mut sink = MemorySink::new(alloc, usize::MAX, Vec::new(alloc));
    let report = serve_session(rt, alloc, lake, seat, blocks, clock, &mut source, &mut sink);
    match report.end {
        End::WriteFault => Err(NoMemory),
        _ => Ok(sink),
    }
}

/// The reply of a session of its own to the request that these bytes are. None where what it wrote is no reply. It
/// waits.
pub(crate) fn exchange<K: Keeper, B: Blocks, C: Clock, W: Wait>(
    rt: &W,
    alloc: Global,
    lake: &Shared<K>,
    seat: &mut LakeSeat,
    blocks: &mut B,
    clock: &mut C,
    text: &[u8],
) -> Result<Option<Reply>, NoMemory>
    requires { seat.old.turn ≡ lake.now }
    ensures turn { seat.new.turn ≡ seat.old.turn }
    ensures exchanged { (request : Request) → IsClosingText request text.now → IsExchanged request
        (record {
          readings = C.readings clock.old;
          store = record { held = B.held blocks.old; faults = B.faults blocks.old; misses = B.misses blocks.old; missed = B.missed blocks.old };
          seat = seat.old;
        })
        (record {
          readings = C.readings clock.new;
          store = record { held = B.held blocks.new; faults = B.faults blocks.new; misses = B.misses blocks.new; missed = B.missed blocks.new };
          seat = seat.new;
        })
        result }
{
    let sink = match served(rt, alloc, lake, seat, blocks, clock, text) {
        Ok(sink) => sink,
        Err(starved) => return Err(starved),
    };
    reply_in(alloc, sink.written())
}
