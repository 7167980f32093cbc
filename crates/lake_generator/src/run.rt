//! The generator as one call.
ghost use Rattle.std.specs.Prelude.{◌≡◌, ◌≤◌, IfOk, MatchResult};
ghost use Rattle.std.specs.FinMap.{empty};
ghost use Rattle.lake_model.specs.History.{replay};
ghost use Rattle.lake_model.specs.Soundness.{fresh};
ghost use Rattle.lake_core.specs.Faults.{HasFault};
ghost use Rattle.fresh_lakes.specs.FreshLakes.{IsLoneSeat, IsSeatRoom, usual_cut};
ghost use Rattle.lake_generator.specs.Generated.{Generates, IsTold, IsUntold};
ghost use Rattle.lake_generator.specs.MainHead.{IsMainMap, StandsAtMain};
ghost use Rattle.lake_generator.specs.Report.{told_text};
ghost use Rattle.lake_generator.specs.RunLines.{RunsTo};

use crate::files::NoFiles;
use crate::heads::main_map;
use crate::report::told_text;
use crate::serving::{Counts, serve_lines};
use batch_lines::ExitStatus;
use block_store::SureBlocks;
use fresh_lakes::{close_lone_lake, lone_lake};
use http_wire::write::write_all;
use keeper::{Keeper, SureKeeper};
use lake_base::{Clock, Digest, FixedClock, NoMemory, Sink};
use lake_batch::LakeLines;
use program_words::Generator;
use shared_lake::LakeSeat;
use std::alloc::Global;
use std::sync::Wait;

// Serves the lines of the generator as commands on the only seat of a fresh lake, with a store that holds no
// object, and all at the moment 0: how much was done, or the status of the run. It waits.
fn run_lines<'r, R: Wait, K: Keeper>(
    alloc: Global,
    lines: &mut LakeLines<'r, R, K, SureBlocks, FixedClock, NoFiles>,
    asked: Generator,
) -> Result<Counts, ExitStatus>
    requires own { lines.old.seat.turn ≡ lines.old.lake }
    requires fresh { IsLoneSeat lines.old.seat }
    requires store { lines.old.blocks ≡ record { held = empty; misses = 0; missed = 0 } }
    requires clock { lines.old.clock ≡ record { at = 0; given = 1 } }

    // (That the store of pairs never failed is known where the lake is closed.)
    ensures runs { (HasFault lines.new.seat.seen → ⊥) → RunsTo asked lines.new.seat result }
    ensures main { StandsAtMain lines.new.seat }
    ensures turn { lines.new.seat.turn ≡ lines.new.lake }
{
    serve_lines(alloc, lines, asked)
}

// The map of main's head behind the lines, whose lake is closed then. It waits.
fn last_head<'r, R: Wait>(
    alloc: Global,
    lines: LakeLines<'r, R, SureKeeper, SureBlocks, FixedClock, NoFiles>,
    room: Vec<LakeSeat>,
) -> Result<(u64, Digest), NoMemory>
    requires own { lines.seat.turn ≡ lines.lake }
    requires main { StandsAtMain lines.seat }
    requires room { IsSeatRoom room }
    ensures head { IfOk result (λ told. IsMainMap (replay (fresh usual_cut) lines.entry.seat.seen) told.0 told.1) }
    ensures none { HasFault lines.entry.seat.seen → ⊥ }
{
    let LakeLines {
        rt,
        lake,
        mut seat,
        ..
    } = lines;
    let head = main_map(rt, alloc, &lake, &mut seat);
    close_lone_lake(rt, lake, seat, room);
    head
}

// Serves the lines, and closes their lake: what is told of them, or the status of the run. It waits.
fn told_at<'r, R: Wait>(
    alloc: Global,
    mut lines: LakeLines<'r, R, SureKeeper, SureBlocks, FixedClock, NoFiles>,
    room: Vec<LakeSeat>,
    asked: Generator,
) -> Result<Vec<u8>, ExitStatus>
    requires own { lines.seat.turn ≡ lines.lake }
    requires fresh { IsLoneSeat lines.seat }
    requires store { lines.blocks ≡ record { held = empty; misses = 0; missed = 0 } }
    requires clock { lines.clock ≡ record { at = 0; given = 1 } }
    requires room { IsSeatRoom room }
    ensures { MatchResult result (λ text. IsTold asked text.items) (λ status. IsUntold asked status) }
{
    let counts = match run_lines(alloc, &mut lines, asked) {
        Ok(counts) => counts,
        Err(status) => {
            let LakeLines { rt, lake, seat, .. } = lines;
            close_lone_lake(rt, lake, seat, room);
            return Err(status);
        }
    };
    match last_head(alloc, lines, room) {
        Ok((paths, id)) => told_of_counts(alloc, counts, paths, &id),
        Err(_) => Err(ExitStatus::OutOfMemory),
    }
}

// Runs the lines of the generator on a fresh lake in memory: what is told of them, or the status of the run. It waits.
fn told_of_lines<R: Wait>(rt: &R, alloc: Global, asked: Generator) -> Result<Vec<u8>, ExitStatus>
    ensures { MatchResult result (λ text. IsTold asked text.items) (λ status. IsUntold asked status) }
{
    let Ok((lake, seat, room)) = lone_lake(alloc) else {
        return Err(ExitStatus::OutOfMemory);
    };
    let blocks = SureBlocks::new(alloc);
    // (One reading is taken before, so that all that it tells are of this moment.)
    let mut clock = FixedClock::new(0);
    clock.now();
    let lines = LakeLines {
        rt,
        alloc,
        lake,
        seat,
        blocks,
        clock,
        files: NoFiles,
    };
    told_at(alloc, lines, room, asked)
}

// The text of what is told.
fn told_of_counts(
    alloc: Global,
    counts: Counts,
    paths: u64,
    id: &Digest,
) -> Result<Vec<u8>, ExitStatus>
    ensures { MatchResult result (λ text. text.items ≡ told_text counts.uploads counts.heads paths id.now)
        (λ status. status ≡ ExitStatus.OutOfMemory) }
{
    match told_text(alloc, counts.uploads, counts.heads, paths, id) {
        Ok(text) => Ok(text),
        Err(_) => Err(ExitStatus::OutOfMemory),
    }
}

/// Runs the lines of the generator on a fresh lake in memory, one after the other, and tells the sink what they
/// came to: how many objects were uploaded, how many commits and merges were made, and how many paths main has at
/// the end, with the id of its map. Where a line fails, nothing is told. It waits.
pub fn generate<R: Wait, O: Sink>(
    rt: &R,
    alloc: Global,
    asked: Generator,
    sink: &mut O,
) -> ExitStatus
    ensures generates { Generates asked (record { written = O.written sink.old; faults = O.faults sink.old })
        (record { written = O.written sink.new; faults = O.faults sink.new }) result }
    ensures sink { O.faults sink.old ≤ O.faults sink.new }
{
    let text = match told_of_lines(rt, alloc, asked) {
        Ok(text) => text,
        Err(status) => return status,
    };
    match write_all(sink, text.as_slice()) {
        Ok(()) => ExitStatus::Done,
        Err(_) => ExitStatus::SinkFailed,
    }
}
