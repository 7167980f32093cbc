//! A body is put, and becomes an object at a path of a branch.
ghost use Rattle.std.specs.Prelude.{◌≡◌, ◌≤◌, ℕ, List, length};
ghost use Rattle.core_puts.specs.KeeperViews.{KeeperView};
ghost use Rattle.lake_core.specs.Lakes.{LakeValue, state};
ghost use Rattle.lake_model.specs.Uncommitted.{HasTicket};
ghost use Rattle.lake_calls.specs.Calls.{UploadCall};
ghost use Rattle.shared_lake.specs.SeatSteps.{Finds};
ghost use Rattle.body_laws.specs.BodiesKept.{KeepsFitting};
ghost use Rattle.write_flow.specs.Uploads.{BodyStored, BodyTried, GaveUp, HoldsPut, IsUploadAnswer};
ghost use Rattle.write_flow.specs.Uploads.{answer_of_drop, body_entry, refused_at, stored_of, told_by};

use crate::answer::{Done, FlowFault};
use crate::changes::answer_of;
use crate::tries::{Target, What, attempts};
use block_store::Blocks;
use flow_steps::FlowAnswer;
use keeper::Keeper;
use lake_base::{Digest, Path, RefName, RepoName, Text, Trouble, TryCopy};
use lake_model::StepFault;
use lake_values::{Change, Entry, Pairs, Place};
use shared_lake::{Client, LakeSeat, Pause, Shared};
use std::alloc::Global;
use std::sync::Wait;

/// Puts a body, which becomes an object at a path of a branch by at most ten tries: the place of the entry, and what
/// stands there then. A number is taken for it first, and given up again where the call is refused behind that. It
/// waits.
pub fn put_object<K: Keeper, B: Blocks, P: Pause, W: Wait>(
    rt: &W,
    alloc: Global,
    lake: &Shared<K>,
    seat: &mut LakeSeat,
    client: &mut Client<'_, '_, B, P>,
    repo: &RepoName,
    branch: &RefName,
    path: &Path,
    body: &[u8],
    content_type: &Text,
) -> FlowAnswer<Done, FlowFault>
    requires own { seat.old.turn ≡ lake.now }
    requires short_type { length content_type.now ≤ 255 }
    ensures served { let u : UploadCall = record {
      repo = repo.now;
      branch = branch.now;
      path = path.now;
      content_type = content_type.now;
      body = body.now;
    } in
        IsUploadAnswer u client.old.now client.old.call
        (record {
          faults = record { before = B.faults client.old.blocks.now; now = B.faults client.new.blocks.now };
          misses = record { before = B.misses client.old.blocks.now; now = B.misses client.new.blocks.now };
          missed_last = B.missed client.new.blocks.now;
        })
        (B.held client.old.blocks.now) (B.held client.new.blocks.now)
        seat.old seat.new (P.calls client.old.pause.now) (P.calls client.new.pause.now) result }
    ensures bodies { KeepsFitting seat.old seat.new (B.held client.old.blocks.now) (B.held client.new.blocks.now) }
    ensures turn { seat.new.turn ≡ seat.old.turn }
    ensures blocks { client.new.blocks.ghost_name ≡ client.old.blocks.ghost_name }
    ensures pause { client.new.pause.ghost_name ≡ client.old.pause.ghost_name }
    ensures call { (client.new.call ≡ client.old.call) × (client.new.now ≡ client.old.now) }
{
    let target = Target { repo, branch, path };
    let call = client.call;
    let number = match lake.take_ticket(rt, seat, call, repo, branch) {
        Ok((_, number)) => number,
        Err(fault) => return answer_of(seat, Err(FlowFault::of_step(fault)), None),
    };
    let stored = store_body(
        rt,
        alloc,
        lake,
        seat,
        client.blocks,
        client.pause,
        call,
        client.now,
        &target,
        number,
        body,
        content_type,
    );
    match stored_apart(stored) {
        Stored::Told(entry) => answer_of(seat, Ok(Some(entry)), None),
        Stored::Faulted => { answer_of(seat, Err(FlowFault::Step(StepFault::StoreFault)), None) }
        Stored::Refused(fault) => give_up(rt, lake, seat, call, number, fault),
    }
}

// What came of a body that was to be stored and staged: its entry, a fault of the store of pairs, or a refusal.
#[derive(Drop)]
enum Stored {
    Told(Entry),
    Faulted,
    Refused(FlowFault),
}

// The same, told apart.
fn stored_apart(stored: Result<Entry, FlowFault>) -> Stored
    ensures { result ≡ stored_of stored }
{
    match stored {
        Ok(entry) => Stored::Told(entry),
        Err(FlowFault::Step(StepFault::StoreFault)) => Stored::Faulted,
        Err(fault) => Stored::Refused(fault),
    }
}

// Puts a body under a number of the seat, and stages its object.
fn store_body<K: Keeper, B: Blocks, P: Pause, W: Wait>(
    rt: &W,
    alloc: Global,
    lake: &Shared<K>,
    seat: &mut LakeSeat,
    blocks: &mut B,
    pause: &mut P,
    call: u64,
    now: u64,
    target: &Target<'_>,
    number: u64,
    body: &[u8],
    content_type: &Text,
) -> Result<Entry, FlowFault>
    requires own { seat.old.turn ≡ lake.now }
    requires short_type { length content_type.now ≤ 255 }
    requires ticket { (found : LakeValue K)
        → Finds (record { kept = K.kept; faults = K.faults; calls = K.calls; successes = K.successes })
        seat.old found
        → HasTicket (state found) seat.old.number number }
    ensures stored { (versions : List ℕ) × BodyStored target.now.repo.now target.now.branch.now target.now.path.now
        (body_entry number body.now now content_type.now) call
        (record { before = B.faults blocks.old; now = B.faults blocks.new })
        seat.old seat.new (P.calls pause.old) (P.calls pause.new) versions result }
    ensures held { HoldsPut number body.now (B.held blocks.old) (B.held blocks.new) result }
    ensures faults { B.faults blocks.old ≤ B.faults blocks.new }
    ensures misses { B.misses blocks.old ≤ B.misses blocks.new }
{
    match blocks.put(number, body) {
        Ok(()) => stage_body(
            rt,
            alloc,
            lake,
            seat,
            pause,
            call,
            now,
            target,
            number,
            body,
            content_type,
        ),
        Err(Trouble::Failed) => Err(FlowFault::BlockFault),
        Err(Trouble::NoMemory) => Err(FlowFault::NoMemory),
    }
}

// Stages the object of a body that is stored under a number of the seat: its entry.
fn stage_body<K: Keeper, P: Pause, W: Wait>(
    rt: &W,
    alloc: Global,
    lake: &Shared<K>,
    seat: &mut LakeSeat,
    pause: &mut P,
    call: u64,
    now: u64,
    target: &Target<'_>,
    number: u64,
    body: &[u8],
    content_type: &Text,
) -> Result<Entry, FlowFault>
    requires own { seat.old.turn ≡ lake.now }
    requires short_type { length content_type.now ≤ 255 }
    requires ticket { (found : LakeValue K)
        → Finds (record { kept = K.kept; faults = K.faults; calls = K.calls; successes = K.successes })
        seat.old found
        → HasTicket (state found) seat.old.number number }
    ensures { (versions : List ℕ) × BodyTried target.now.repo.now target.now.branch.now target.now.path.now
        (body_entry number body.now now content_type.now) call
        seat.old seat.new (P.calls pause.old) (P.calls pause.new) versions result }
{
    let content_type = match content_type.copy(alloc) {
        Ok(content_type) => content_type,
        Err(_) => return Err(FlowFault::NoMemory),
    };
    let entry = Entry {
        place: Place::Own {
            number,
            digest: Digest::of(body),
        },
        size: body.len() as u64,
        mtime: now,
        content_type,
        metadata: Pairs::new(alloc),
    };
    let change = Change::Put(entry);
    let what = What::Change(&change);
    let outcome = attempts(rt, alloc, lake, seat, pause, call, target, &what);
    entry_told(outcome, change)
}

// The entry that was put, where its tries weren't refused.
fn entry_told(outcome: Result<Option<Entry>, FlowFault>, change: Change) -> Result<Entry, FlowFault>
    ensures { result ≡ told_by outcome change }
{
    match outcome {
        Ok(_) => match change {
            Change::Put(entry) => Ok(entry),
            Change::Delete => Err(FlowFault::NoMemory),
        },
        Err(fault) => Err(fault),
    }
}

// Gives a number up, which is on a ticket of the seat, where a call was refused.
fn give_up<K: Keeper, W: Wait>(
    rt: &W,
    lake: &Shared<K>,
    seat: &mut LakeSeat,
    call: u64,
    number: u64,
    fault: FlowFault,
) -> FlowAnswer<Done, FlowFault>
    requires own { seat.old.turn ≡ lake.now }
    requires ticket { (found : LakeValue K)
        → Finds (record { kept = K.kept; faults = K.faults; calls = K.calls; successes = K.successes })
        seat.old found
        → HasTicket (state found) seat.old.number number }
    ensures gave { GaveUp call number seat.old seat.new fault result }
    ensures turn { seat.new.turn ≡ seat.old.turn }
{
    let position = seat.seen();
    let dropped = lake.drop_ticket(rt, seat, call, number);
    let edge = seat.seen();
    after_drop(fault, position, edge, dropped)
}

// What is answered of a call that was refused before its number was given up, by what came of that: with how many
// entries the seat had seen before and then.
fn after_drop(
    fault: FlowFault,
    before: u64,
    now: u64,
    dropped: Result<u64, StepFault>,
) -> FlowAnswer<Done, FlowFault>
    ensures { result ≡ answer_of_drop fault before now dropped }
{
    match dropped {
        Ok(_) => refused(fault, before, now),
        Err(StepFault::StoreFault) => refused(FlowFault::Step(StepFault::StoreFault), now, now),
        Err(StepFault::NoMemory) => refused(FlowFault::NoMemory, now, now),
        Err(_) => refused(fault, before, before),
    }
}

// A flow was refused.
fn refused(fault: FlowFault, position: u64, edge: u64) -> FlowAnswer<Done, FlowFault>
    ensures { result ≡ refused_at fault position edge }
{
    FlowAnswer {
        outcome: Err(fault),
        position,
        edge,
    }
}
