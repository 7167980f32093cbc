//! An object's bytes are read.
ghost use Rattle.std.specs.Prelude.{◌≡◌};
ghost use Rattle.lake_calls.specs.CallRefusals.{CallNames};
ghost use Rattle.lake_calls.specs.declared.call.Call.TheVariants.{Objects};
ghost use Rattle.lake_calls.specs.declared.objects.ObjectCall.TheVariants as object;
ghost use Rattle.read_flow.specs.ObjectReads.{counted_between};
ghost use Rattle.call_readings.specs.ToldFaults.{AreNames};
ghost use Rattle.call_objects.specs.AnsweredCalls.{IsCallAnswered};
ghost use Rattle.call_objects.specs.ToldFlows.{IsBytesReplied, IsOutcomeReplied};

use crate::refusals::flow_refusal;
use block_store::Blocks;
use call_readings::{Answered, Names};
use keeper::Keeper;
use lake_calls::{CallReply, Done, ReadCall};
use read_flow::{Client, FlowFault, LakeSeat, ObjectRead, Pause, Shared, read_object};
use std::alloc::Global;
use std::sync::Wait;

/// Reads the bytes of the object that an expression has at a path. NoRepo, NoRef, NoParent, NoPath, Gone, NotHeld,
/// Lost, Damaged, TooManyTries, BlockFault. It waits.
pub fn read<K: Keeper, B: Blocks, P: Pause, W: Wait>(
    rt: &W,
    alloc: Global,
    lake: &Shared<K>,
    seat: &mut LakeSeat,
    client: &mut Client<'_, '_, B, P>,
    call: &ReadCall,
) -> Answered
    requires { seat.old.turn ≡ lake.now }
    ensures served { IsCallAnswered seat.old seat.new client.old.call (Objects (object.Read call.now)) client.old.now
        (counted_between (B.faults client.old.blocks.now) (B.misses client.old.blocks.now)
        (B.faults client.new.blocks.now) (B.misses client.new.blocks.now) (B.missed client.new.blocks.now))
        (B.held client.old.blocks.now) (B.held client.new.blocks.now) result }
    ensures blocks { client.new.blocks.ghost_name ≡ client.old.blocks.ghost_name }
    ensures pause { client.new.pause.ghost_name ≡ client.old.pause.ghost_name }
    ensures call { (client.new.call ≡ client.old.call) × (client.new.now ≡ client.old.now) }
{
    let answer = read_object(
        rt,
        lake,
        seat,
        client,
        &call.repo,
        call.at.expr(),
        &call.path,
    );
    let names = Names {
        repo: &call.repo,
        named: "",
        expression: call.at.text().as_str(),
        path: Some(&call.path),
        after: None,
    };
    Answered {
        reply: bytes_reply(alloc, &names, answer.outcome),
        position: answer.position,
        edge: answer.edge,
    }
}

// The reply to a reading: the object's content type and bytes, or why there are none.
fn bytes_reply(
    alloc: Global,
    names: &Names<'_, '_>,
    outcome: Result<ObjectRead, FlowFault>,
) -> CallReply
    ensures { (call : CallNames) → AreNames names.now call → IsOutcomeReplied call IsBytesReplied outcome result }
{
    match outcome {
        Ok((done, body)) => match done.entry {
            Some(entry) => CallReply::Done(Done::Object {
                content_type: entry.content_type,
                body,
            }),
            None => CallReply::NoMemory,
        },
        Err(fault) => flow_refusal(alloc, names, fault),
    }
}
