//! The calls that make a new head of a branch.
ghost use Rattle.std.specs.Prelude.{◌≡◌};
ghost use Rattle.lake_calls.specs.declared.call.Call.TheVariants.{Heads};
ghost use Rattle.lake_calls.specs.declared.heads.HeadCall.TheVariants as head;
ghost use Rattle.call_objects.specs.CallWords.{counted_between};
ghost use Rattle.call_objects.specs.AnsweredCalls.{IsCallAnswered};

use crate::remarks::{of_commit, of_merge, of_pick};
use crate::replies::{cherry_picked, committed, merged, names_at, reply, reverted};
use block_store::Blocks;
use call_objects::{Answered, Client, LakeSeat, Names, Pause, Shared, out_of_memory};
use commit_flow::{
    cherry_pick as pick_head, commit as commit_head, merge as merge_head, revert as revert_head,
};
use keeper::Keeper;
use lake_calls::{CommitCall, MergeCall, PickCall};
use std::alloc::Global;
use std::sync::Wait;

/// Commits what is staged and sealed on a branch. Stopped, HistoryFull, NoRepo, NoRef, Protected, NoChanges,
/// HookDenied, Expired, NameClash, TooManyTries, StoreFault. It waits.
pub fn commit<K: Keeper, B: Blocks, P: Pause, W: Wait>(
    rt: &W,
    alloc: Global,
    lake: &Shared<K>,
    seat: &mut LakeSeat,
    client: &mut Client<'_, '_, B, P>,
    call: &CommitCall,
) -> Answered
    requires { seat.old.turn ≡ lake.now }
    ensures served { IsCallAnswered seat.old seat.new client.old.call (Heads (head.Commit call.now)) client.old.now
        (counted_between (B.faults client.old.blocks.now) (B.misses client.old.blocks.now)
        (B.faults client.new.blocks.now) (B.misses client.new.blocks.now) (B.missed client.new.blocks.now))
        (B.held client.old.blocks.now) (B.held client.new.blocks.now) result }
    ensures blocks { client.new.blocks.ghost_name ≡ client.old.blocks.ghost_name }
    ensures pause { client.new.pause.ghost_name ≡ client.old.pause.ghost_name }
    ensures call { (client.new.call ≡ client.old.call) × (client.new.now ≡ client.old.now) }
{
    let about = match of_commit(alloc, call, client.now) {
        Ok(about) => about,
        Err(_) => return out_of_memory(rt, lake, seat, &call.repo),
    };
    let flow = commit_head(
        rt,
        alloc,
        lake,
        seat,
        client,
        &call.repo,
        &call.branch,
        about,
    );
    let told = committed(flow.outcome);
    let names = Names::of_name(&call.repo, call.branch.as_str());
    Answered {
        reply: reply(alloc, &names, told),
        position: flow.position,
        edge: flow.edge,
    }
}

/// Merges the commit of an expression into a branch. Stopped, HistoryFull, NoRepo, NoRef, NoParent, Expired, Dirty,
/// NoChanges, Conflicts, HookDenied, NameClash, TooManyTries, StoreFault. It waits.
pub fn merge<K: Keeper, B: Blocks, P: Pause, W: Wait>(
    rt: &W,
    alloc: Global,
    lake: &Shared<K>,
    seat: &mut LakeSeat,
    client: &mut Client<'_, '_, B, P>,
    call: &MergeCall,
) -> Answered
    requires { seat.old.turn ≡ lake.now }
    ensures served { IsCallAnswered seat.old seat.new client.old.call (Heads (head.Merge call.now)) client.old.now
        (counted_between (B.faults client.old.blocks.now) (B.misses client.old.blocks.now)
        (B.faults client.new.blocks.now) (B.misses client.new.blocks.now) (B.missed client.new.blocks.now))
        (B.held client.old.blocks.now) (B.held client.new.blocks.now) result }
    ensures blocks { client.new.blocks.ghost_name ≡ client.old.blocks.ghost_name }
    ensures pause { client.new.pause.ghost_name ≡ client.old.pause.ghost_name }
    ensures call { (client.new.call ≡ client.old.call) × (client.new.now ≡ client.old.now) }
{
    let about = match of_merge(alloc, call, client.now) {
        Ok(about) => about,
        Err(_) => return out_of_memory(rt, lake, seat, &call.repo),
    };
    let flow = merge_head(
        rt,
        alloc,
        lake,
        seat,
        client,
        &call.repo,
        call.source.expr(),
        &call.branch,
        call.strategy,
        about,
    );
    let told = merged(flow.outcome);
    let names = names_at(&call.repo, &call.branch, &call.source);
    Answered {
        reply: reply(alloc, &names, told),
        position: flow.position,
        edge: flow.edge,
    }
}

/// Undoes what a commit changed over one of its parents, on a branch. Stopped, HistoryFull, NoRepo, NoRef, NoParent,
/// NeedsParentNumber, Expired, Dirty, NoChanges, Conflicts, HookDenied, NameClash, TooManyTries, StoreFault. It waits.
pub fn revert<K: Keeper, B: Blocks, P: Pause, W: Wait>(
    rt: &W,
    alloc: Global,
    lake: &Shared<K>,
    seat: &mut LakeSeat,
    client: &mut Client<'_, '_, B, P>,
    call: &PickCall,
) -> Answered
    requires { seat.old.turn ≡ lake.now }
    ensures served { IsCallAnswered seat.old seat.new client.old.call (Heads (head.Revert call.now)) client.old.now
        (counted_between (B.faults client.old.blocks.now) (B.misses client.old.blocks.now)
        (B.faults client.new.blocks.now) (B.misses client.new.blocks.now) (B.missed client.new.blocks.now))
        (B.held client.old.blocks.now) (B.held client.new.blocks.now) result }
    ensures blocks { client.new.blocks.ghost_name ≡ client.old.blocks.ghost_name }
    ensures pause { client.new.pause.ghost_name ≡ client.old.pause.ghost_name }
    ensures call { (client.new.call ≡ client.old.call) × (client.new.now ≡ client.old.now) }
{
    let about = match of_pick(alloc, call, client.now) {
        Ok(about) => about,
        Err(_) => return out_of_memory(rt, lake, seat, &call.repo),
    };
    let flow = revert_head(
        rt,
        alloc,
        lake,
        seat,
        client,
        &call.repo,
        &call.branch,
        call.at.expr(),
        call.parent,
        about,
    );
    let told = reverted(flow.outcome);
    let names = names_at(&call.repo, &call.branch, &call.at);
    Answered {
        reply: reply(alloc, &names, told),
        position: flow.position,
        edge: flow.edge,
    }
}

/// Takes what a commit changed over one of its parents into a branch. Stopped, HistoryFull, NoRepo, NoRef, NoParent,
/// NeedsParentNumber, Expired, Dirty, NoChanges, Conflicts, HookDenied, NameClash, TooManyTries, StoreFault. It waits.
pub fn cherry_pick<K: Keeper, B: Blocks, P: Pause, W: Wait>(
    rt: &W,
    alloc: Global,
    lake: &Shared<K>,
    seat: &mut LakeSeat,
    client: &mut Client<'_, '_, B, P>,
    call: &PickCall,
) -> Answered
    requires { seat.old.turn ≡ lake.now }
    ensures served { IsCallAnswered seat.old seat.new client.old.call (Heads (head.CherryPick call.now)) client.old.now
        (counted_between (B.faults client.old.blocks.now) (B.misses client.old.blocks.now)
        (B.faults client.new.blocks.now) (B.misses client.new.blocks.now) (B.missed client.new.blocks.now))
        (B.held client.old.blocks.now) (B.held client.new.blocks.now) result }
    ensures blocks { client.new.blocks.ghost_name ≡ client.old.blocks.ghost_name }
    ensures pause { client.new.pause.ghost_name ≡ client.old.pause.ghost_name }
    ensures call { (client.new.call ≡ client.old.call) × (client.new.now ≡ client.old.now) }
{
    let about = match of_pick(alloc, call, client.now) {
        Ok(about) => about,
        Err(_) => return out_of_memory(rt, lake, seat, &call.repo),
    };
    let flow = pick_head(
        rt,
        alloc,
        lake,
        seat,
        client,
        &call.repo,
        &call.branch,
        call.at.expr(),
        call.parent,
        about,
    );
    let told = cherry_picked(flow.outcome);
    let names = names_at(&call.repo, &call.branch, &call.at);
    Answered {
        reply: reply(alloc, &names, told),
        position: flow.position,
        edge: flow.edge,
    }
}
