//! The call that reads an object's bytes.
ghost use Rattle.std.specs.Prelude.{◌≡◌, length};
ghost use Rattle.lake_calls.specs.declared.objects.ReadCall.{ReadCall};
ghost use Rattle.turn_lock.specs.Seats.{seat_after};
ghost use Rattle.body_laws.specs.BodiesKept.{KeepsFitting};
ghost use Rattle.read_flow.specs.ObjectReads.{counted_between};
ghost use Rattle.read_flow.specs.ReadAnswers.{IsReadAnswer, answer_read};
ghost use Rattle.read_flow.specs.ReadsAlone.{ReadsHeld};

use crate::looks::Wanted;
use crate::rounds::ask_in_rounds;
use block_store::Blocks;
use commit_graph::RefExpr;
use keeper::Keeper;
use lake_base::{Path, RepoName, Sequence};
use shared_lake::{Client, LakeSeat, Pause, Shared};
use std::sync::Wait;
use write_flow::{Done, FlowAnswer, FlowFault};

/// An object that was read: where the history stood at the look that found it, its entry, which is always there, and
/// its bytes, which fit the entry.
pub type ObjectRead = (Done, Sequence<u8>);

/// What a reading answers: the object or why there is none, the position of the last look, and the edge of the call,
/// which is that position.
pub type ReadAnswer = FlowAnswer<ObjectRead, FlowFault>;

/// Reads the bytes of the object that an expression has at a path. It looks, and asks for the bytes under the number
/// that it found, in at most ten rounds, each behind a pause; after each miss it looks again. NoPath, Gone, NotHeld, or
/// another refusal of a look; Lost where the look after a miss finds the same object; TooManyTries where each of ten
/// found another one; Damaged where the bytes don't fit their entry; BlockFault. It changes nothing. It waits.
pub fn read_object<K: Keeper, B: Blocks, P: Pause, W: Wait>(
    rt: &W,
    lake: &Shared<K>,
    seat: &mut LakeSeat,
    client: &mut Client<'_, '_, B, P>,
    repo: &RepoName,
    e: &RefExpr,
    path: &Path,
) -> ReadAnswer
    requires { seat.old.turn ≡ lake.now }
    ensures served { (c : ReadCall) → c.repo ≡ repo.now → c.at.e ≡ e.now → c.path ≡ path.now
        → IsReadAnswer seat.old seat.new client.old.call c client.old.now
        (counted_between (B.faults client.old.blocks.now) (B.misses client.old.blocks.now)
        (B.faults client.new.blocks.now) (B.misses client.new.blocks.now) (B.missed client.new.blocks.now))
        (B.held client.old.blocks.now) (B.held client.new.blocks.now)
        (P.calls client.old.pause.now) (P.calls client.new.pause.now) result }
    ensures bodies { ReadsHeld repo.now e.now seat.old (B.held client.old.blocks.now) result.outcome }
    ensures fitting { KeepsFitting seat.old seat.new (B.held client.old.blocks.now) (B.held client.new.blocks.now) }
    ensures seat { seat.new ≡ seat_after seat.old seat.new.seen seat.old.mine }
    ensures kept { B.held client.new.blocks.now ≡ B.held client.old.blocks.now }
    ensures blocks { client.new.blocks.ghost_name ≡ client.old.blocks.ghost_name }
    ensures pause { client.new.pause.ghost_name ≡ client.old.pause.ghost_name }
    ensures now { client.new.now ≡ client.old.now }
    ensures call { client.new.call ≡ client.old.call }
{
    let wanted = Wanted { repo, e, path };
    let outcome = ask_in_rounds(rt, lake, seat, client.blocks, client.pause, &wanted);
    answer_of(seat, outcome)
}

// What the call answers, at what the seat has seen.
fn answer_of(seat: &LakeSeat, outcome: Result<ObjectRead, FlowFault>) -> ReadAnswer
    ensures { result ≡ answer_read (length seat.now.seen) outcome }
{
    let position = seat.seen();
    FlowAnswer {
        outcome,
        position,
        edge: position,
    }
}
