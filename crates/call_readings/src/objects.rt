//! Objects: what is known of one, and pages of them.
ghost use Rattle.std.specs.Prelude.{◌≡◌, Ok};
ghost use Rattle.lake_model.specs.Readings.{◌then◌};
ghost use Rattle.lake_model.specs.Refusals.{Gives};
ghost use Rattle.core_readings.specs.Answers.{page_answer};
ghost use Rattle.lake_calls.specs.CallReadings.{found_entry};
ghost use Rattle.lake_calls.specs.declared.call.Call.TheVariants.{Objects};
ghost use Rattle.lake_calls.specs.declared.objects.ObjectCall.TheVariants as object;
ghost use Rattle.lake_calls.specs.declared.reply.Done.TheVariants as done;
ghost use Rattle.call_readings.specs.AnsweredReadings.{IsReadingAnswered};

use crate::answers::{Answered, answer};
use crate::refusals::Names;
use keeper::Keeper;
use lake_base::{Path, TryCopy};
use lake_calls::{Done, ListCall, ObjectStatistics, ReadCall};
use lake_model::{Seen, StepFault};
use lake_pages::Page;
use shared_lake::{LakeSeat, Shared};
use std::alloc::Global;
use std::sync::Wait;

/// What is known of the object at a path of an expression. NoRepo, NoRef, NoParent, NoPath. It waits.
pub fn stat_object<K: Keeper, W: Wait>(
    rt: &W,
    alloc: Global,
    lake: &Shared<K>,
    seat: &mut LakeSeat,
    call: &ReadCall,
) -> Answered
    requires { seat.old.turn ≡ lake.now }
    ensures { IsReadingAnswered seat.old seat.new (Objects (object.Stat call.now)) result }
{
    let seen = lake.look(rt, seat, &call.repo, call.at.expr(), &call.path);
    let outcome = object_seen(alloc, &call.path, seen);
    let names = Names {
        repo: &call.repo,
        named: "",
        expression: call.at.text().as_str(),
        path: Some(&call.path),
        after: None,
    };
    answer(alloc, seat, &names, outcome)
}

/// A page of what an expression leads to. NoRepo, NoRef, NoParent. It waits.
pub fn list_objects<K: Keeper, W: Wait>(
    rt: &W,
    alloc: Global,
    lake: &Shared<K>,
    seat: &mut LakeSeat,
    call: &ListCall,
) -> Answered
    requires { seat.old.turn ≡ lake.now }
    ensures { IsReadingAnswered seat.old seat.new (Objects (object.List call.now)) result }
{
    let found = lake.page(rt, seat, &call.repo, call.at.expr(), &call.query);
    let outcome = page_found(found);
    let names = Names {
        repo: &call.repo,
        named: "",
        expression: call.at.text().as_str(),
        path: None,
        after: None,
    };
    answer(alloc, seat, &names, outcome)
}

// What is told of what was seen at a path.
fn object_seen(alloc: Global, path: &Path, seen: Result<Seen, StepFault>) -> Result<Done, StepFault>
    ensures { Gives result (seen then λ seen. found_entry seen then λ entry.
        Ok (done.Statistics (record { path = path.now; entry = entry }))) }
{
    let seen = seen?;
    let Some(entry) = seen.found else {
        return Err(StepFault::NoPath);
    };
    let path = path.copy(alloc)?;
    Ok(Done::Statistics(ObjectStatistics { path, entry }))
}

// What a page tells.
fn page_found(found: Result<(u64, Page), StepFault>) -> Result<Done, StepFault>
    ensures { Gives result (page_answer found then λ page.
        Ok (done.Listing (record { items = page.items; has_more = page.more }))) }
{
    let (_, page) = found?;
    Ok(Done::Listing(page))
}
