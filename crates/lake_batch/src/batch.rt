//! A batch of commands on a fresh lake in memory.
ghost use Rattle.std.specs.Prelude.{◌≡◌, ◌≢◌, ◌≤◌, ◌<◌, ◌^◌, ◌⊎◌, IfSome};
ghost use Rattle.lake_base.specs.Outside.{Rose};
ghost use Rattle.lake_batch.specs.Batches.{IsServedBatch};

use crate::lines::LakeLines;
use batch_lines::{ExitStatus, serve_lines};
use block_store::SureBlocks;
use fresh_lakes::{close_lone_lake, lone_lake};
use lake_base::{Clock, FixedClock, Sink, Source};
use lakectl_commands::Files;
use program_words::Timing;
use std::alloc::Global;
use std::sync::Wait;

// Serves the lines of a batch, whose requests are made at the clock's readings, and closes its lake. It waits.
fn serve_by_clock<R: Wait, S: Source, O: Sink, C: Clock, F: Files>(
    rt: &R,
    alloc: Global,
    limit: u64,
    source: &mut S,
    sink: &mut O,
    clock: C,
    files: F,
) -> (ExitStatus, C, F)
    requires { limit < 2 ^ 63 }
    ensures outcome { ((result.0 ≡ ExitStatus.OutOfMemory) × (source.new ≡ source.old) × (sink.new ≡ sink.old)
        × (result.1 ≡ clock) × (result.2 ≡ files))
        ⊎ IfSome (S.left source.old) (λ input. IsServedBatch Timing.Clock limit 65536
        (record {
          left = S.left source.old;
          written = O.written sink.old;
          sink_faults = O.faults sink.old;
          readings = C.readings clock;
          files = F.files files;
        })
        (record {
          left = S.left source.new;
          written = O.written sink.new;
          sink_faults = O.faults sink.new;
          readings = C.readings result.1;
          files = F.files result.2;
        })
        input result.0) }

    // No count falls, and each failure has its cause.
    ensures source { (S.faults source.old ≤ S.faults source.new)
        × (result.0 ≡ ExitStatus.SourceFailed → Rose (S.faults source.old) (S.faults source.new)) }
    ensures sink { (O.faults sink.old ≤ O.faults sink.new)
        × (result.0 ≡ ExitStatus.SinkFailed → Rose (O.faults sink.old) (O.faults sink.new)) }
    ensures host { (F.faults files ≤ F.faults result.2)
        × (result.0 ≡ ExitStatus.HostFailed → Rose (F.faults files) (F.faults result.2)) }
    ensures statuses { result.0 ≢ ExitStatus.Usage }
    ensures pairs { result.0 ≢ ExitStatus.PairsRefused }
{
    let Ok((lake, seat, room)) = lone_lake(alloc) else {
        return (ExitStatus::OutOfMemory, clock, files);
    };
    let blocks = SureBlocks::new(alloc);
    let mut lines = LakeLines {
        rt,
        alloc,
        lake,
        seat,
        blocks,
        clock,
        files,
    };
    let status = serve_lines(alloc, limit, &mut lines, source, sink);
    let LakeLines {
        lake,
        seat,
        clock,
        files,
        ..
    } = lines;
    close_lone_lake(rt, lake, seat, room);
    (status, clock, files)
}

/// Serves the lines of a source that end in the first `limit` bytes of it, and its last, where nothing ends it: each is
/// a command on one seat of a fresh lake in memory. What they show goes to the sink. The clock and the files are handed
/// back. It waits.
pub fn serve_batch<R: Wait, S: Source, O: Sink, C: Clock, F: Files>(
    rt: &R,
    alloc: Global,
    limit: u64,
    timing: Timing,
    source: &mut S,
    sink: &mut O,
    clock: C,
    files: F,
) -> (ExitStatus, C, F)
    requires { limit < 2 ^ 63 }
    ensures outcome { ((result.0 ≡ ExitStatus.OutOfMemory) × (source.new ≡ source.old) × (sink.new ≡ sink.old)
        × (result.1 ≡ clock) × (result.2 ≡ files))
        ⊎ IfSome (S.left source.old) (λ input. IsServedBatch timing limit 65536
        (record {
          left = S.left source.old;
          written = O.written sink.old;
          sink_faults = O.faults sink.old;
          readings = C.readings clock;
          files = F.files files;
        })
        (record {
          left = S.left source.new;
          written = O.written sink.new;
          sink_faults = O.faults sink.new;
          readings = C.readings result.1;
          files = F.files result.2;
        })
        input result.0) }

    // No count falls, and each failure has its cause.
    ensures source { (S.faults source.old ≤ S.faults source.new)
        × (result.0 ≡ ExitStatus.SourceFailed → Rose (S.faults source.old) (S.faults source.new)) }
    ensures sink { (O.faults sink.old ≤ O.faults sink.new)
        × (result.0 ≡ ExitStatus.SinkFailed → Rose (O.faults sink.old) (O.faults sink.new)) }
    ensures host { (F.faults files ≤ F.faults result.2)
        × (result.0 ≡ ExitStatus.HostFailed → Rose (F.faults files) (F.faults result.2)) }
    ensures statuses { result.0 ≢ ExitStatus.Usage }
    ensures pairs { result.0 ≢ ExitStatus.PairsRefused }
{
    match timing {
        Timing::Clock => serve_by_clock(rt, alloc, limit, source, sink, clock, files),
        Timing::At(moment) => {
            // (One reading is taken before, so that all that it tells are of this moment.)
            let mut still = FixedClock::new(moment);
            still.now();
            let (status, _, files) = serve_by_clock(rt, alloc, limit, source, sink, still, files);
            (status, clock, files)
        }
    }
}
