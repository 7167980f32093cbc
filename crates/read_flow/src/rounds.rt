//! An object's bytes are asked for, at most ten times, with a look after each miss.
ghost use Rattle.std.specs.Prelude.{◌≡◌, IsSome};
ghost use Rattle.lake_calls.specs.CallExceptions.{number_at};
ghost use Rattle.read_flow.specs.ObjectReads.{HasRead, HasRound, IsFitted, counted_between, round_after};

use crate::looks::{Wanted, digest_of, look_for, number_of};
use block_store::Blocks;
use keeper::Keeper;
use lake_base::{Digest, Sequence, Trouble};
use lake_values::{Entry, same_entry};
use shared_lake::{LakeSeat, Pause, Shared};
use std::sync::Wait;
use write_flow::{Done, FlowFault};

// What came of a round: the store gave these bytes; it missed, and the look after that found another object; or the
// call is refused.
#[derive(Drop)]
enum Round {
    Got(Sequence<u8>),
    Missed(Entry),
    Refused(FlowFault),
}

// Pauses, and asks for the bytes of an object; looks again where they are missed.
fn ask_once<K: Keeper, B: Blocks, P: Pause, W: Wait>(
    rt: &W,
    lake: &Shared<K>,
    seat: &mut LakeSeat,
    blocks: &mut B,
    pause: &mut P,
    wanted: &Wanted<'_>,
    entry: &Entry,
) -> Round
    requires own { seat.old.turn ≡ lake.now }
    requires object { IsSome (number_at entry.now.place) }
    ensures { HasRound wanted.now.repo.now wanted.now.path.now wanted.now.e.now entry.now seat.old seat.new
        (counted_between (B.faults blocks.old) (B.misses blocks.old)
        (B.faults blocks.new) (B.misses blocks.new) (B.missed blocks.new))
        (B.held blocks.old) (B.held blocks.new) (P.calls pause.old) (P.calls pause.new) result }
{
    pause.between();
    let number = number_of(entry);
    match blocks.get(number) {
        Ok(Some(bytes)) => Round::Got(Sequence::of(bytes)),
        Ok(None) => {
            let looked = look_for(rt, lake, seat, wanted);
            after_miss(entry, number, looked)
        }
        Err(Trouble::Failed) => Round::Refused(FlowFault::BlockFault),
        Err(Trouble::NoMemory) => Round::Refused(FlowFault::NoMemory),
    }
}

// What comes of a miss of this number, by what the look after it found.
fn after_miss(entry: &Entry, number: u64, looked: Result<Entry, FlowFault>) -> Round
    ensures { result ≡ round_after entry.now number looked }
{
    match looked {
        Ok(next) => {
            if same_entry(entry, &next) {
                Round::Refused(FlowFault::Lost(number))
            } else {
                Round::Missed(next)
            }
        }
        Err(fault) => Round::Refused(fault),
    }
}

// The object of an entry and these bytes, which were got at a position, where they fit it.
fn fitted(at: u64, entry: Entry, body: Sequence<u8>) -> Result<(Done, Sequence<u8>), FlowFault>
    requires { IsSome (number_at entry.place) }
    ensures { IsFitted at entry body result }
{
    let named = digest_of(&entry);
    let found = Digest::of(body.as_slice());
    if body.as_slice().len() as u64 == entry.size && found == named {
        let entry = Some(entry);
        Ok((Done { at, entry }, body))
    } else {
        Err(FlowFault::Damaged { named, found })
    }
}

/// Looks, and asks for the bytes in at most ten rounds.
pub(crate) fn ask_in_rounds<K: Keeper, B: Blocks, P: Pause, W: Wait>(
    rt: &W,
    lake: &Shared<K>,
    seat: &mut LakeSeat,
    blocks: &mut B,
    pause: &mut P,
    wanted: &Wanted<'_>,
) -> Result<(Done, Sequence<u8>), FlowFault>
    requires { seat.old.turn ≡ lake.now }
    ensures { HasRead wanted.now.repo.now wanted.now.path.now wanted.now.e.now seat.old seat.new
        (counted_between (B.faults blocks.old) (B.misses blocks.old)
        (B.faults blocks.new) (B.misses blocks.new) (B.missed blocks.new))
        (B.held blocks.old) (B.held blocks.new) (P.calls pause.old) (P.calls pause.new) result }
{
    let mut entry = match look_for(rt, lake, seat, wanted) {
        Ok(entry) => entry,
        Err(fault) => return Err(fault),
    };
    let first = seat.seen();
    let mut missed: u32 = 0;
    'reading: while missed < 10 {
        match ask_once(rt, lake, seat, blocks, pause, wanted, &entry) {
            Round::Got(body) => return fitted(seat.seen(), entry, body),
            Round::Missed(next) => {
                entry = next;
                missed += 1;
            }
            Round::Refused(fault) => return Err(fault),
        }
    }
    let last = seat.seen();
    Err(FlowFault::TooManyTries { first, last })
}
