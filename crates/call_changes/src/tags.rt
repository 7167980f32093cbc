//! Tags that are made and deleted.
ghost use Rattle.std.specs.Prelude.{◌≡◌, ℕ, IfOk, Ok};
ghost use Rattle.lake_model.specs.Readings.{◌then◌};
ghost use Rattle.lake_calls.specs.declared.call.Call.TheVariants.{Names as OfNames};
ghost use Rattle.lake_calls.specs.declared.names.NamingCall.TheVariants as naming;
ghost use Rattle.lake_calls.specs.declared.reply.Done.TheVariants as done;
ghost use Rattle.call_changes.specs.AnsweredChanges.{IsChangeAnswered};

use call_readings::{Answered, Names, answer, out_of_memory};
use keeper::Keeper;
use lake_base::{NoMemory, RefName, TryCopy};
use lake_calls::{Done, NameCall, NamedCommit, NewNameCall};
use lake_model::StepFault;
use lake_values::CommitId;
use shared_lake::{LakeSeat, Shared};
use std::alloc::Global;
use std::sync::Wait;

/// Makes a tag of the commit of an expression. Stopped, HistoryFull, NoRepo, NoRef, NoParent, Exists, Expired,
/// StoreFault. It waits.
pub fn create_tag<K: Keeper, W: Wait>(
    rt: &W,
    alloc: Global,
    lake: &Shared<K>,
    seat: &mut LakeSeat,
    number: u64,
    call: &NewNameCall,
) -> Answered
    requires { seat.old.turn ≡ lake.now }
    ensures { (moment : ℕ)
        → IsChangeAnswered seat.old seat.new number (OfNames (naming.CreateTag call.now)) moment result }
{
    let (name, told) = match copies(alloc, &call.name) {
        Ok(copies) => copies,
        Err(_) => return out_of_memory(rt, lake, seat, &call.repo),
    };
    let made = lake.create_tag(rt, seat, number, &call.repo, name, call.source.expr());
    let outcome = tag_made(made, told);
    let names = Names {
        repo: &call.repo,
        named: call.name.as_str(),
        expression: call.source.text().as_str(),
        path: None,
        after: None,
    };
    answer(alloc, seat, &names, outcome)
}

/// Deletes a tag. Stopped, HistoryFull, NoRepo, NoRef, StoreFault. It waits.
pub fn delete_tag<K: Keeper, W: Wait>(
    rt: &W,
    alloc: Global,
    lake: &Shared<K>,
    seat: &mut LakeSeat,
    number: u64,
    call: &NameCall,
) -> Answered
    requires { seat.old.turn ≡ lake.now }
    ensures { (moment : ℕ)
        → IsChangeAnswered seat.old seat.new number (OfNames (naming.DeleteTag call.now)) moment result }
{
    let deleted = lake.delete_tag(rt, seat, number, &call.repo, &call.name);
    let outcome = tag_deleted(deleted);
    let names = Names::of_name(&call.repo, call.name.as_str());
    answer(alloc, seat, &names, outcome)
}

// A name for the step, and one for the reply.
fn copies(alloc: Global, name: &RefName) -> Result<(RefName, RefName), NoMemory>
    ensures step { IfOk result (λ r. r.0 ≡ name.now) }
    ensures reply { IfOk result (λ r. r.1 ≡ name.now) }
{
    Ok((name.copy(alloc)?, name.copy(alloc)?))
}

// What the step told, as the call's client is told it.
fn tag_made(made: Result<(u64, CommitId), StepFault>, name: RefName) -> Result<Done, StepFault>
    ensures { result ≡ (made then λ one. Ok (done.TagCreated (record { name = name; commit = one.1 }))) }
{
    match made {
        Ok((_, commit)) => Ok(Done::TagCreated(NamedCommit { name, commit })),
        Err(fault) => Err(fault),
    }
}

// The same of a deletion.
fn tag_deleted(deleted: Result<u64, StepFault>) -> Result<Done, StepFault>
    ensures { result ≡ (deleted then λ at. Ok done.TagDeleted) }
{
    match deleted {
        Ok(_) => Ok(Done::TagDeleted),
        Err(fault) => Err(fault),
    }
}
