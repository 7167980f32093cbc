//! A command, and a line of a batch.
ghost use Rattle.std.specs.Prelude.{◌≡◌, IfOk, codes};
ghost use Rattle.block_store.specs.Blocks.{FailsByFault};
ghost use Rattle.lakectl_session.specs.ServedCommands.{CommandEnds, LineEnds};

use crate::exchange::exchange;
use block_store::Blocks;
use keeper::Keeper;
use lake_base::{Clock, NoMemory, Text, Trouble};
use lakectl_commands::{Files, Sending, bad_line_shown, nothing_shown, prepare, show_reply};
use lakectl_shown::Shown;
use lakectl_verbs::{LineWords, line_words};
use shared_lake::{LakeSeat, Shared};
use std::alloc::Global;
use std::sync::Wait;

// The host of a request that goes to a lake in this program.
fn localhost(alloc: Global) -> Result<Text, NoMemory>
    ensures { IfOk result (λ host. host ≡ codes "localhost") }
{
    Ok(Text::of(String::from_str(alloc, "localhost")?))
}

/// Serves a command: its words are sent to a session of its own, and what is shown of the reply is answered. A file
/// that is named is read before that, and one that is saved is written behind it. It waits.
pub fn serve_command<K: Keeper, B: Blocks, C: Clock, F: Files, W: Wait>(
    rt: &W,
    alloc: Global,
    lake: &Shared<K>,
    seat: &mut LakeSeat,
    blocks: &mut B,
    clock: &mut C,
    files: &mut F,
    words: &[Text],
) -> Result<Shown, Trouble>
    requires { seat.old.turn ≡ lake.now }
    ensures ends { CommandEnds (codes "localhost") words.now
        (record {
          lake = record {
            readings = C.readings clock.old;
            store = record { held = B.held blocks.old; faults = B.faults blocks.old; misses = B.misses blocks.old; missed = B.missed blocks.old };
            seat = seat.old;
          };
          files = F.files files.old;
        })
        (record {
          lake = record {
            readings = C.readings clock.new;
            store = record { held = B.held blocks.new; faults = B.faults blocks.new; misses = B.misses blocks.new; missed = B.missed blocks.new };
            seat = seat.new;
          };
          files = F.files files.new;
        })
        result }
    ensures turn { seat.new.turn ≡ seat.old.turn }
    ensures cause { FailsByFault (F.faults files.old) (F.faults files.new) result }
{
    let host = localhost(alloc)?;
    let Sending { text, layout, save } = match prepare(alloc, files, &host, words)? {
        Ok(sending) => sending,
        Err(shown) => return Ok(shown),
    };
    let reply = match exchange(rt, alloc, lake, seat, blocks, clock, text.as_slice()) {
        Ok(reply) => reply,
        Err(_) => return Err(Trouble::NoMemory),
    };
    show_reply(alloc, files, &layout, &save, &reply)
}

/// Serves a line of a batch, which is passed over, can't be read, or is a command. It waits.
pub fn serve_line<K: Keeper, B: Blocks, C: Clock, F: Files, W: Wait>(
    rt: &W,
    alloc: Global,
    lake: &Shared<K>,
    seat: &mut LakeSeat,
    blocks: &mut B,
    clock: &mut C,
    files: &mut F,
    line: &[u8],
) -> Result<Shown, Trouble>
    requires { seat.old.turn ≡ lake.now }
    ensures ends { LineEnds line.now
        (record {
          lake = record {
            readings = C.readings clock.old;
            store = record { held = B.held blocks.old; faults = B.faults blocks.old; misses = B.misses blocks.old; missed = B.missed blocks.old };
            seat = seat.old;
          };
          files = F.files files.old;
        })
        (record {
          lake = record {
            readings = C.readings clock.new;
            store = record { held = B.held blocks.new; faults = B.faults blocks.new; misses = B.misses blocks.new; missed = B.missed blocks.new };
            seat = seat.new;
          };
          files = F.files files.new;
        })
        result }
    ensures turn { seat.new.turn ≡ seat.old.turn }
    ensures cause { FailsByFault (F.faults files.old) (F.faults files.new) result }
{
    match line_words(alloc, line)? {
        LineWords::Skipped => Ok(nothing_shown(alloc)),
        LineWords::Bad => Ok(bad_line_shown(alloc)?),
        LineWords::Words(words) => serve_command(
            rt,
            alloc,
            lake,
            seat,
            blocks,
            clock,
            files,
            words.as_slice(),
        ),
    }
}
