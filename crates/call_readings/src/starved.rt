//! A call at which memory ran out before its step.
ghost use Rattle.std.specs.Prelude.{◌≡◌};
ghost use Rattle.lake_calls.specs.declared.call.Call.{Call};
ghost use Rattle.lake_calls.specs.declared.reply.CallReply.TheVariants.{NoMemory};
ghost use Rattle.call_readings.specs.AnsweredReadings.{IsReadingAnswered};

use crate::answers::{Answered, placed};
use keeper::Keeper;
use lake_base::RepoName;
use lake_calls::CallReply;
use lake_values::NoteName;
use shared_lake::{LakeSeat, Shared};
use std::sync::Wait;

/// Whatever the call is, memory ran out before its step. Its seat sees the lake, so that its reply has a position, and
/// adds nothing. It waits.
pub fn out_of_memory<K: Keeper, W: Wait>(
    rt: &W,
    lake: &Shared<K>,
    seat: &mut LakeSeat,
    repo: &RepoName,
) -> Answered
    requires { seat.old.turn ≡ lake.now }
    ensures served { (call : Call) → IsReadingAnswered seat.old seat.new call result }
    ensures reply { result.reply ≡ NoMemory }
{
    let _seen = lake.note(rt, seat, repo, NoteName::Retention);
    placed(seat, CallReply::NoMemory)
}
