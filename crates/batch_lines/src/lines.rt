//! The lines of a source, as one call.
ghost use Rattle.std.specs.Prelude.{◌≡◌, ◌≢◌, ◌≤◌, ◌<◌, ◌^◌, ◌⊎◌, IfSome, IfOk, length};
ghost use Rattle.lake_base.specs.Outside.{Rose};
ghost use Rattle.batch_lines.specs.Outcome.{Outcome};

use crate::batch::Batch;
use crate::server::LineServer;
use crate::status::ExitStatus;
use lake_base::{NoMemory, Sink, Source};
use std::alloc::Global;

// How many bytes are read at once.
const ROOM: usize = 65_536;

/// Serves the lines of a source that end in the first `limit` bytes of it, and its last, where nothing ends it. What
/// is answered to them goes to the sink. What lines showed is written before more is read.
pub fn serve_lines<L: LineServer, S: Source, W: Sink>(
    alloc: Global,
    limit: u64,
    lines: &mut L,
    source: &mut S,
    sink: &mut W,
) -> ExitStatus
    requires limit { limit < 2 ^ 63 }
    requires ready { L.ready lines.old }
    ensures outcome { ((result ≡ ExitStatus.OutOfMemory) × (lines.new ≡ lines.old) × (source.new ≡ source.old)
        × (sink.new ≡ sink.old)) ⊎ IfSome (S.left source.old) (λ input. Outcome L.serves limit 65536
        (record { server = lines.old; written = W.written sink.old; faults = W.faults sink.old })
        (record { server = lines.new; written = W.written sink.new; faults = W.faults sink.new })
        input (S.left source.new) result) }
    ensures ready { L.ready lines.new }

    // No count falls, and each failure has its cause.
    ensures source { (S.faults source.old ≤ S.faults source.new)
        × (result ≡ ExitStatus.SourceFailed → Rose (S.faults source.old) (S.faults source.new)) }
    ensures sink { (W.faults sink.old ≤ W.faults sink.new)
        × (result ≡ ExitStatus.SinkFailed → Rose (W.faults sink.old) (W.faults sink.new)) }
    ensures host { (L.faults lines.old ≤ L.faults lines.new)
        × (result ≡ ExitStatus.HostFailed → Rose (L.faults lines.old) (L.faults lines.new)) }
    ensures statuses { result ≢ ExitStatus.Usage }
    ensures pairs { result ≢ ExitStatus.PairsRefused }
{
    let Ok(mut batch) = Batch::new(alloc) else {
        return ExitStatus::OutOfMemory;
    };
    let Ok(mut room) = room_of(alloc, ROOM) else {
        return ExitStatus::OutOfMemory;
    };
    let end = batch.read(limit, lines, source, sink, room.as_mut_slice());
    batch.finish(end, lines, sink)
}

// Room for so many bytes.
fn room_of(alloc: Global, len: usize) -> Result<Vec<u8>, NoMemory>
    ensures { IfOk result (λ room. length room.items ≡ len) }
{
    Ok(vec![in alloc; 0u8; len]?)
}
