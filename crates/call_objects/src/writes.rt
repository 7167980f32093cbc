//! Objects are uploaded, linked, copied and deleted, and changes are dropped.
ghost use Rattle.std.specs.Prelude.{◌≡◌, IfOk, [], false};
ghost use Rattle.lake_calls.specs.CallRefusals.{CallNames};
ghost use Rattle.lake_calls.specs.Courses.{copied_from, link_entry};
ghost use Rattle.lake_calls.specs.declared.call.Call.TheVariants.{Names as OfNames, Objects};
ghost use Rattle.lake_calls.specs.declared.names.NamingCall.TheVariants as naming;
ghost use Rattle.lake_calls.specs.declared.objects.ObjectCall.TheVariants as object;
ghost use Rattle.read_flow.specs.ObjectReads.{counted_between};
ghost use Rattle.call_readings.specs.ToldFaults.{AreNames};
ghost use Rattle.call_objects.specs.AnsweredCalls.{IsCallAnswered};
ghost use Rattle.call_objects.specs.ToldFlows.{IsObjectReplied, IsOutcomeReplied};

use crate::refusals::{change_reply, flow_refusal};
use block_store::Blocks;
use call_readings::{Answered, Names, out_of_memory};
use commit_graph::RefExpr;
use keeper::Keeper;
use lake_base::{NoMemory, Path, RefName, Sequence, TryCopy};
use lake_calls::{
    CallReply, CopyCall, DeleteCall, Done, LinkCall, ObjectStatistics, ResetCall, UploadCall,
};
use lake_values::{Entry, Place};
use read_flow::{
    Client, Done as FlowDone, FlowFault, LakeSeat, Pause, Shared, copy_object, delete_object,
    link_object, put_object, reset_branch,
};
use std::alloc::Global;
use std::sync::Wait;

/// Uploads a body, which becomes an object at a path of a branch. Stopped, HistoryFull, NoRepo, NoRef, Protected,
/// TooManyTries, BlockFault, StoreFault. It waits.
pub fn upload<K: Keeper, B: Blocks, P: Pause, W: Wait>(
    rt: &W,
    alloc: Global,
    lake: &Shared<K>,
    seat: &mut LakeSeat,
    client: &mut Client<'_, '_, B, P>,
    call: &UploadCall,
) -> Answered
    requires { seat.old.turn ≡ lake.now }
    ensures served { IsCallAnswered seat.old seat.new client.old.call (Objects (object.Upload call.now)) client.old.now
        (counted_between (B.faults client.old.blocks.now) (B.misses client.old.blocks.now)
        (B.faults client.new.blocks.now) (B.misses client.new.blocks.now) (B.missed client.new.blocks.now))
        (B.held client.old.blocks.now) (B.held client.new.blocks.now) result }
    ensures blocks { client.new.blocks.ghost_name ≡ client.old.blocks.ghost_name }
    ensures pause { client.new.pause.ghost_name ≡ client.old.pause.ghost_name }
    ensures call { (client.new.call ≡ client.old.call) × (client.new.now ≡ client.old.now) }
{
    let path = match call.path.copy(alloc) {
        Ok(path) => path,
        Err(_) => return out_of_memory(rt, lake, seat, &call.repo),
    };
    let answer = put_object(
        rt,
        alloc,
        lake,
        seat,
        client,
        &call.repo,
        &call.branch,
        &call.path,
        call.body.as_slice(),
        &call.content_type,
    );
    let names = Names::of_name(&call.repo, call.branch.as_str());
    Answered {
        reply: object_reply(alloc, &names, answer.outcome, path, Stands::Uploaded),
        position: answer.position,
        edge: answer.edge,
    }
}

/// Links an object outside at a path of a branch; without a time of change it has the moment of the call. Stopped,
/// HistoryFull, NoRepo, NoRef, Protected, TooManyTries, StoreFault. It waits.
pub fn link<K: Keeper, B: Blocks, P: Pause, W: Wait>(
    rt: &W,
    alloc: Global,
    lake: &Shared<K>,
    seat: &mut LakeSeat,
    client: &mut Client<'_, '_, B, P>,
    call: &LinkCall,
) -> Answered
    requires { seat.old.turn ≡ lake.now }
    ensures served { IsCallAnswered seat.old seat.new client.old.call (Objects (object.Link call.now)) client.old.now
        (counted_between (B.faults client.old.blocks.now) (B.misses client.old.blocks.now)
        (B.faults client.new.blocks.now) (B.misses client.new.blocks.now) (B.missed client.new.blocks.now))
        (B.held client.old.blocks.now) (B.held client.new.blocks.now) result }
    ensures blocks { client.new.blocks.ghost_name ≡ client.old.blocks.ghost_name }
    ensures pause { client.new.pause.ghost_name ≡ client.old.pause.ghost_name }
    ensures call { (client.new.call ≡ client.old.call) × (client.new.now ≡ client.old.now) }
{
    let (path, entry) = match linked(alloc, call, client.now) {
        Ok(linked) => linked,
        Err(_) => return out_of_memory(rt, lake, seat, &call.repo),
    };
    let answer = link_object(
        rt,
        alloc,
        lake,
        seat,
        client,
        &call.repo,
        &call.branch,
        &call.path,
        entry,
    );
    let names = Names::of_name(&call.repo, call.branch.as_str());
    Answered {
        reply: object_reply(alloc, &names, answer.outcome, path, Stands::Linked),
        position: answer.position,
        edge: answer.edge,
    }
}

/// Deletes what stands at a path of a branch. Stopped, HistoryFull, NoRepo, NoRef, Protected, TooManyTries, StoreFault.
/// It waits.
pub fn delete<K: Keeper, B: Blocks, P: Pause, W: Wait>(
    rt: &W,
    alloc: Global,
    lake: &Shared<K>,
    seat: &mut LakeSeat,
    client: &mut Client<'_, '_, B, P>,
    call: &DeleteCall,
) -> Answered
    requires { seat.old.turn ≡ lake.now }
    ensures served { IsCallAnswered seat.old seat.new client.old.call (Objects (object.Delete call.now)) client.old.now
        (counted_between (B.faults client.old.blocks.now) (B.misses client.old.blocks.now)
        (B.faults client.new.blocks.now) (B.misses client.new.blocks.now) (B.missed client.new.blocks.now))
        (B.held client.old.blocks.now) (B.held client.new.blocks.now) result }
    ensures blocks { client.new.blocks.ghost_name ≡ client.old.blocks.ghost_name }
    ensures pause { client.new.pause.ghost_name ≡ client.old.pause.ghost_name }
    ensures call { (client.new.call ≡ client.old.call) × (client.new.now ≡ client.old.now) }
{
    let answer = delete_object(
        rt,
        alloc,
        lake,
        seat,
        client,
        &call.repo,
        &call.branch,
        &call.path,
    );
    let names = Names::of_name(&call.repo, call.branch.as_str());
    Answered {
        reply: change_reply(alloc, &names, answer.outcome, Done::ObjectDeleted),
        position: answer.position,
        edge: answer.edge,
    }
}

/// Copies the entry that an expression, or without one the branch itself, has at a path to a path of the branch.
/// Stopped, HistoryFull, NoRepo, NoRef, NoParent, Protected, NoPath, Expired, TooManyTries, StoreFault. It waits.
pub fn copy<K: Keeper, B: Blocks, P: Pause, W: Wait>(
    rt: &W,
    alloc: Global,
    lake: &Shared<K>,
    seat: &mut LakeSeat,
    client: &mut Client<'_, '_, B, P>,
    call: &CopyCall,
) -> Answered
    requires { seat.old.turn ≡ lake.now }
    ensures served { IsCallAnswered seat.old seat.new client.old.call (Objects (object.Copy call.now)) client.old.now
        (counted_between (B.faults client.old.blocks.now) (B.misses client.old.blocks.now)
        (B.faults client.new.blocks.now) (B.misses client.new.blocks.now) (B.missed client.new.blocks.now))
        (B.held client.old.blocks.now) (B.held client.new.blocks.now) result }
    ensures blocks { client.new.blocks.ghost_name ≡ client.old.blocks.ghost_name }
    ensures pause { client.new.pause.ghost_name ≡ client.old.pause.ghost_name }
    ensures call { (client.new.call ≡ client.old.call) × (client.new.now ≡ client.old.now) }
{
    let (path, own) = match copied(alloc, call) {
        Ok(copied) => copied,
        Err(_) => return out_of_memory(rt, lake, seat, &call.repo),
    };
    let (e, expression) = source_of(call, &own);
    let answer = copy_object(
        rt,
        alloc,
        lake,
        seat,
        client,
        &call.repo,
        &call.branch,
        &call.path,
        e,
        &call.source_path,
    );
    let names = Names {
        repo: &call.repo,
        named: call.branch.as_str(),
        expression,
        path: Some(&call.source_path),
        after: None,
    };
    Answered {
        reply: object_reply(alloc, &names, answer.outcome, path, Stands::Copied),
        position: answer.position,
        edge: answer.edge,
    }
}

/// Drops changes of a branch that aren't committed. Stopped, HistoryFull, NoRepo, NoRef, Protected, StoreFault. It
/// waits.
pub fn reset<K: Keeper, B: Blocks, P: Pause, W: Wait>(
    rt: &W,
    alloc: Global,
    lake: &Shared<K>,
    seat: &mut LakeSeat,
    client: &mut Client<'_, '_, B, P>,
    call: &ResetCall,
) -> Answered
    requires { seat.old.turn ≡ lake.now }
    ensures served { IsCallAnswered seat.old seat.new client.old.call (OfNames (naming.ResetBranch call.now))
        client.old.now (counted_between (B.faults client.old.blocks.now) (B.misses client.old.blocks.now)
        (B.faults client.new.blocks.now) (B.misses client.new.blocks.now) (B.missed client.new.blocks.now))
        (B.held client.old.blocks.now) (B.held client.new.blocks.now) result }
    ensures blocks { client.new.blocks.ghost_name ≡ client.old.blocks.ghost_name }
    ensures pause { client.new.pause.ghost_name ≡ client.old.pause.ghost_name }
    ensures call { (client.new.call ≡ client.old.call) × (client.new.now ≡ client.old.now) }
{
    let what = match call.what.copy(alloc) {
        Ok(what) => what,
        Err(_) => return out_of_memory(rt, lake, seat, &call.repo),
    };
    let answer = reset_branch(rt, lake, seat, client, &call.repo, &call.branch, what);
    let names = Names::of_name(&call.repo, call.branch.as_str());
    Answered {
        reply: change_reply(alloc, &names, answer.outcome, Done::BranchReset),
        position: answer.position,
        edge: answer.edge,
    }
}

// How an object came to stand at its path.
#[derive(Clone, Copy)]
enum Stands {
    Uploaded,
    Linked,
    Copied,
}

// The reply to a flow that puts an object at a path: the object that stands there now, or why none was put.
fn object_reply(
    alloc: Global,
    names: &Names<'_, '_>,
    outcome: Result<FlowDone, FlowFault>,
    path: Path,
    stands: Stands,
) -> CallReply
    ensures { (call : CallNames) → AreNames names.now call
        → IsOutcomeReplied call (λ done told. IsObjectReplied path stands done.entry told) outcome result }
{
    match outcome {
        Ok(done) => stood(path, done.entry, stands),
        Err(fault) => flow_refusal(alloc, names, fault),
    }
}

// The reply to one that was done.
fn stood(path: Path, entry: Option<Entry>, stands: Stands) -> CallReply
    ensures { IsObjectReplied path stands entry result }
{
    let Some(entry) = entry else {
        return CallReply::NoMemory;
    };
    let object = ObjectStatistics { path, entry };
    CallReply::Done(match stands {
        Stands::Uploaded => Done::Uploaded(object),
        Stands::Linked => Done::Linked(object),
        Stands::Copied => Done::Copied(object),
    })
}

// The entry of a link, with the moment of its call, and a copy of its path.
fn linked(alloc: Global, call: &LinkCall, moment: u64) -> Result<(Path, Entry), NoMemory>
    ensures path { IfOk result (λ r. r.0 ≡ call.now.path) }
    ensures entry { IfOk result (λ r. r.1 ≡ link_entry call.now moment) }
{
    let entry = Entry {
        place: Place::External {
            at: call.address.copy(alloc)?,
            checksum: call.checksum.copy(alloc)?,
        },
        size: call.size,
        mtime: call.mtime.unwrap_or(moment),
        content_type: call.content_type.copy(alloc)?,
        metadata: call.metadata.copy(alloc)?,
    };
    Ok((call.path.copy(alloc)?, entry))
}

// The expression that is copied from, with its text: without one it is the branch itself.
fn source_of<'a>(call: &'a CopyCall, own: &'a RefExpr) -> (&'a RefExpr, &'a str)
    requires { own.now ≡ record { name = call.now.branch; at = false; moves = [] } }
    ensures e { result.0.now ≡ (copied_from call.now).e }
    ensures text { result.1.now ≡ (copied_from call.now).text }
{
    match &call.source {
        Some(source) => (source.expr(), source.text().as_str()),
        None => (own, call.branch.as_str()),
    }
}

// A copy of the path, and the branch itself as an expression.
fn copied(alloc: Global, call: &CopyCall) -> Result<(Path, RefExpr), NoMemory>
    ensures path { IfOk result (λ r. r.0 ≡ call.now.path) }
    ensures own { IfOk result (λ r. r.1 ≡ record { name = call.now.branch; at = false; moves = [] }) }
{
    let own = RefExpr {
        name: call.branch.copy(alloc)?,
        at: false,
        moves: Sequence::of(Vec::new(alloc)),
    };
    Ok((call.path.copy(alloc)?, own))
}
