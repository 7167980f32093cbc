//! Lines and commands on one seat of a lake, with its store of objects.
ghost use Rattle.std.specs.Prelude.{◌≡◌, ◌≢◌, ◌≤◌, ◌<◌, ◌^◌, ◌⊎◌, IfSome};
ghost use Rattle.lake_base.specs.Outside.{Rose};
ghost use Rattle.folder_batch.specs.Desks.{IsCommandAt, IsReady, IsServedAt};

use crate::lines::DeskLines;
use batch_lines::{ExitStatus, serve_lines};
use block_store::Blocks;
use keeper::Keeper;
use lake_base::{Clock, FixedClock, Sink, Source, Text, Trouble};
use lake_batch::serve_command;
use lakectl_commands::Files;
use lakectl_shown::Shown;
use program_words::Timing;
use shared_lake::{LakeSeat, Shared};
use std::alloc::Global;
use std::sync::Wait;

/// A desk: a lake, its only seat, with room to put that back among the seats, and a store of the lake's objects.
#[derive(Drop)]
pub(crate) struct OpenDesk<K: Keeper, B: Blocks> {
    pub(crate) lake: Shared<K>,
    pub(crate) seat: LakeSeat,
    pub(crate) room: Vec<LakeSeat>,
    pub(crate) blocks: B,
}

// Serves the lines of a batch at a desk, whose requests are made at the clock's readings. It waits.
fn serve_by_clock<R: Wait, K: Keeper, B: Blocks, S: Source, O: Sink, C: Clock, F: Files>(
    rt: &R,
    alloc: Global,
    limit: u64,
    desk: OpenDesk<K, B>,
    source: &mut S,
    sink: &mut O,
    clock: C,
    files: F,
) -> (ExitStatus, OpenDesk<K, B>, C, F)
    requires limit { limit < 2 ^ 63 }
    requires ready { IsReady desk }
    ensures outcome { ((result.0 ≡ ExitStatus.OutOfMemory) × (source.new ≡ source.old) × (sink.new ≡ sink.old)
        × (result.1 ≡ desk) × (result.2 ≡ clock) × (result.3 ≡ files))
        ⊎ IfSome (S.left source.old) (λ input. IsServedAt Timing.Clock limit 65536
        (record {
          left = S.left source.old;
          written = O.written sink.old;
          sink_faults = O.faults sink.old;
          readings = C.readings clock;
          files = F.files files;
        })
        (record {
          left = S.left source.new;
          written = O.written sink.new;
          sink_faults = O.faults sink.new;
          readings = C.readings result.2;
          files = F.files result.3;
        })
        (record {
          store = record {
            held = B.held desk.blocks;
            faults = B.faults desk.blocks;
            misses = B.misses desk.blocks;
            missed = B.missed desk.blocks;
          };
          seat = desk.seat;
        })
        (record {
          store = record {
            held = B.held result.1.blocks;
            faults = B.faults result.1.blocks;
            misses = B.misses result.1.blocks;
            missed = B.missed result.1.blocks;
          };
          seat = result.1.seat;
        })
        input result.0) }
    ensures ready { IsReady result.1 }

    // No count falls, and each failure has its cause.
    ensures source { (S.faults source.old ≤ S.faults source.new)
        × (result.0 ≡ ExitStatus.SourceFailed → Rose (S.faults source.old) (S.faults source.new)) }
    ensures sink { (O.faults sink.old ≤ O.faults sink.new)
        × (result.0 ≡ ExitStatus.SinkFailed → Rose (O.faults sink.old) (O.faults sink.new)) }
    ensures files { F.faults files ≤ F.faults result.3 }
    ensures statuses { result.0 ≢ ExitStatus.Usage }
{
    let mut lines = DeskLines {
        rt,
        alloc,
        desk,
        clock,
        files,
    };
    let status = serve_lines(alloc, limit, &mut lines, source, sink);
    let DeskLines {
        desk,
        clock,
        files,
        ..
    } = lines;
    (status, desk, clock, files)
}

/// Serves the lines of a batch at a desk. Their requests are made at the clock's readings, or all at one moment. It
/// waits.
pub(crate) fn serve_at<R: Wait, K: Keeper, B: Blocks, S: Source, O: Sink, C: Clock, F: Files>(
    rt: &R,
    alloc: Global,
    limit: u64,
    timing: Timing,
    desk: OpenDesk<K, B>,
    source: &mut S,
    sink: &mut O,
    clock: C,
    files: F,
) -> (ExitStatus, OpenDesk<K, B>, C, F)
    requires limit { limit < 2 ^ 63 }
    requires ready { IsReady desk }
    ensures outcome { ((result.0 ≡ ExitStatus.OutOfMemory) × (source.new ≡ source.old) × (sink.new ≡ sink.old)
        × (result.1 ≡ desk) × (result.2 ≡ clock) × (result.3 ≡ files))
        ⊎ IfSome (S.left source.old) (λ input. IsServedAt timing limit 65536
        (record {
          left = S.left source.old;
          written = O.written sink.old;
          sink_faults = O.faults sink.old;
          readings = C.readings clock;
          files = F.files files;
        })
        (record {
          left = S.left source.new;
          written = O.written sink.new;
          sink_faults = O.faults sink.new;
          readings = C.readings result.2;
          files = F.files result.3;
        })
        (record {
          store = record {
            held = B.held desk.blocks;
            faults = B.faults desk.blocks;
            misses = B.misses desk.blocks;
            missed = B.missed desk.blocks;
          };
          seat = desk.seat;
        })
        (record {
          store = record {
            held = B.held result.1.blocks;
            faults = B.faults result.1.blocks;
            misses = B.misses result.1.blocks;
            missed = B.missed result.1.blocks;
          };
          seat = result.1.seat;
        })
        input result.0) }
    ensures ready { IsReady result.1 }

    // No count falls, and each failure has its cause.
    ensures source { (S.faults source.old ≤ S.faults source.new)
        × (result.0 ≡ ExitStatus.SourceFailed → Rose (S.faults source.old) (S.faults source.new)) }
    ensures sink { (O.faults sink.old ≤ O.faults sink.new)
        × (result.0 ≡ ExitStatus.SinkFailed → Rose (O.faults sink.old) (O.faults sink.new)) }
    ensures files { F.faults files ≤ F.faults result.3 }
    ensures statuses { result.0 ≢ ExitStatus.Usage }
{
    match timing {
        Timing::Clock => serve_by_clock(rt, alloc, limit, desk, source, sink, clock, files),
        Timing::At(moment) => {
            // (One reading is taken before, so that all that it tells are of this moment.)
            let mut still = FixedClock::new(moment);
            still.now();
            let (status, desk, _, files) = serve_by_clock(
                rt, alloc, limit, desk, source, sink, still, files,
            );
            (status, desk, clock, files)
        }
    }
}

// Serves a command at a desk, whose request is made at the clock's next reading. It waits.
fn command_by_clock<R: Wait, K: Keeper, B: Blocks, C: Clock, F: Files>(
    rt: &R,
    alloc: Global,
    words: &[Text],
    desk: OpenDesk<K, B>,
    clock: C,
    files: F,
) -> (Result<Shown, Trouble>, OpenDesk<K, B>, C, F)
    requires { IsReady desk }
    ensures ends { IsCommandAt Timing.Clock words.now
        (record { readings = C.readings clock; files = F.files files })
        (record { readings = C.readings result.2; files = F.files result.3 })
        (record {
          store = record {
            held = B.held desk.blocks;
            faults = B.faults desk.blocks;
            misses = B.misses desk.blocks;
            missed = B.missed desk.blocks;
          };
          seat = desk.seat;
        })
        (record {
          store = record {
            held = B.held result.1.blocks;
            faults = B.faults result.1.blocks;
            misses = B.misses result.1.blocks;
            missed = B.missed result.1.blocks;
          };
          seat = result.1.seat;
        })
        result.0 }
    ensures ready { IsReady result.1 }
    ensures files { F.faults files ≤ F.faults result.3 }
{
    let mut desk = desk;
    let mut clock = clock;
    let mut files = files;
    let ended = serve_command(
        rt,
        alloc,
        &desk.lake,
        &mut desk.seat,
        &mut desk.blocks,
        &mut clock,
        &mut files,
        words,
    );
    (ended, desk, clock, files)
}

/// Serves a command at a desk. Its request is made at the clock's next reading, or at a moment. It waits.
pub(crate) fn command_at<R: Wait, K: Keeper, B: Blocks, C: Clock, F: Files>(
    rt: &R,
    alloc: Global,
    timing: Timing,
    words: &[Text],
    desk: OpenDesk<K, B>,
    clock: C,
    files: F,
) -> (Result<Shown, Trouble>, OpenDesk<K, B>, C, F)
    requires { IsReady desk }
    ensures ends { IsCommandAt timing words.now
        (record { readings = C.readings clock; files = F.files files })
        (record { readings = C.readings result.2; files = F.files result.3 })
        (record {
          store = record {
            held = B.held desk.blocks;
            faults = B.faults desk.blocks;
            misses = B.misses desk.blocks;
            missed = B.missed desk.blocks;
          };
          seat = desk.seat;
        })
        (record {
          store = record {
            held = B.held result.1.blocks;
            faults = B.faults result.1.blocks;
            misses = B.misses result.1.blocks;
            missed = B.missed result.1.blocks;
          };
          seat = result.1.seat;
        })
        result.0 }
    ensures ready { IsReady result.1 }
    ensures files { F.faults files ≤ F.faults result.3 }
{
    match timing {
        Timing::Clock => command_by_clock(rt, alloc, words, desk, clock, files),
        Timing::At(moment) => {
            // (One reading is taken before, so that all that it tells are of this moment.)
            let mut still = FixedClock::new(moment);
            still.now();
            let (ended, desk, _, files) = command_by_clock(rt, alloc, words, desk, still, files);
            (ended, desk, clock, files)
        }
    }
}
