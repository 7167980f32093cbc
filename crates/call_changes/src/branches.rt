//! Branches that are made and deleted.
ghost use Rattle.std.specs.Prelude.{◌≡◌, ℕ, Ok};
ghost use Rattle.lake_model.specs.Readings.{◌then◌};
ghost use Rattle.lake_calls.specs.declared.call.Call.TheVariants.{Names as OfNames};
ghost use Rattle.lake_calls.specs.declared.names.NamingCall.TheVariants as naming;
ghost use Rattle.lake_calls.specs.declared.reply.Done.TheVariants as done;
ghost use Rattle.call_changes.specs.AnsweredChanges.{IsChangeAnswered};

use call_readings::{Answered, Names, answer, out_of_memory};
use keeper::Keeper;
use lake_base::TryCopy;
use lake_calls::{Done, NameCall, NewNameCall};
use lake_model::StepFault;
use lake_values::CommitId;
use shared_lake::{LakeSeat, Shared};
use std::alloc::Global;
use std::sync::Wait;

/// Makes a branch at the commit of an expression. Stopped, HistoryFull, NoRepo, NoRef, NoParent, Exists, Expired,
/// StoreFault. It waits.
pub fn create_branch<K: Keeper, W: Wait>(
    rt: &W,
    alloc: Global,
    lake: &Shared<K>,
    seat: &mut LakeSeat,
    number: u64,
    call: &NewNameCall,
) -> Answered
    requires { seat.old.turn ≡ lake.now }
    ensures { (moment : ℕ)
        → IsChangeAnswered seat.old seat.new number (OfNames (naming.CreateBranch call.now)) moment result }
{
    let name = match call.name.copy(alloc) {
        Ok(name) => name,
        Err(_) => return out_of_memory(rt, lake, seat, &call.repo),
    };
    let made = lake.create_branch(rt, seat, number, &call.repo, name, call.source.expr());
    let outcome = branch_made(made);
    let names = Names {
        repo: &call.repo,
        named: call.name.as_str(),
        expression: call.source.text().as_str(),
        path: None,
        after: None,
    };
    answer(alloc, seat, &names, outcome)
}

/// Deletes a branch with its changes. Stopped, HistoryFull, NoRepo, NoRef, DefaultBranch, Protected, StoreFault. It
/// waits.
pub fn delete_branch<K: Keeper, W: Wait>(
    rt: &W,
    alloc: Global,
    lake: &Shared<K>,
    seat: &mut LakeSeat,
    number: u64,
    call: &NameCall,
) -> Answered
    requires { seat.old.turn ≡ lake.now }
    ensures { (moment : ℕ)
        → IsChangeAnswered seat.old seat.new number (OfNames (naming.DeleteBranch call.now)) moment result }
{
    let deleted = lake.delete_branch(rt, seat, number, &call.repo, &call.name);
    let outcome = branch_deleted(deleted);
    let names = Names::of_name(&call.repo, call.name.as_str());
    answer(alloc, seat, &names, outcome)
}

// What the step told, as the call's client is told it.
fn branch_made(made: Result<(u64, CommitId), StepFault>) -> Result<Done, StepFault>
    ensures { result ≡ (made then λ one. Ok (done.BranchCreated one.1)) }
{
    match made {
        Ok((_, commit)) => Ok(Done::BranchCreated(commit)),
        Err(fault) => Err(fault),
    }
}

// The same of a deletion.
fn branch_deleted(deleted: Result<u64, StepFault>) -> Result<Done, StepFault>
    ensures { result ≡ (deleted then λ at. Ok done.BranchDeleted) }
{
    match deleted {
        Ok(_) => Ok(Done::BranchDeleted),
        Err(fault) => Err(fault),
    }
}
