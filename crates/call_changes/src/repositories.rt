//! Repositories that are made.
ghost use Rattle.std.specs.Prelude.{◌≡◌, IfOk, Ok};
ghost use Rattle.lake_model.specs.Readings.{◌then◌};
ghost use Rattle.lake_calls.specs.declared.call.Call.TheVariants.{Names as OfNames};
ghost use Rattle.lake_calls.specs.declared.names.NamingCall.TheVariants as naming;
ghost use Rattle.lake_calls.specs.declared.reply.Done.TheVariants as done;
ghost use Rattle.call_changes.specs.AnsweredChanges.{IsChangeAnswered};

use call_readings::{Answered, Names, answer, out_of_memory};
use keeper::Keeper;
use lake_base::{NoMemory, RefName, RepoName, TryCopy};
use lake_calls::{Done, NewRepositoryCall};
use lake_model::{RepoInfo, StepFault};
use shared_lake::{LakeSeat, Shared};
use std::alloc::Global;
use std::sync::Wait;

/// Makes a repository at the moment of its call, in seconds since 1970, with its default branch at its first commit.
/// Stopped, HistoryFull, Exists, NameClash, StoreFault. It waits.
pub fn create_repository<K: Keeper, W: Wait>(
    rt: &W,
    alloc: Global,
    lake: &Shared<K>,
    seat: &mut LakeSeat,
    number: u64,
    moment: u64,
    call: &NewRepositoryCall,
) -> Answered
    requires { seat.old.turn ≡ lake.now }
    ensures { IsChangeAnswered seat.old seat.new number (OfNames (naming.CreateRepository call.now)) moment result }
{
    let (name, branch, told) = match copies(alloc, call, moment) {
        Ok(copies) => copies,
        Err(_) => return out_of_memory(rt, lake, seat, &call.name),
    };
    let made = lake.create_repo(rt, seat, number, name, branch, moment);
    let outcome = repository_made(made, told);
    let names = Names::of_name(&call.name, call.name.as_str());
    answer(alloc, seat, &names, outcome)
}

// The names that the step takes, and what is told of the repository.
fn copies(
    alloc: Global,
    call: &NewRepositoryCall,
    moment: u64,
) -> Result<(RepoName, RefName, RepoInfo), NoMemory>
    ensures name { IfOk result (λ r. r.0 ≡ call.now.name) }
    ensures branch { IfOk result (λ r. r.1 ≡ call.now.default_branch) }
    ensures told { IfOk result (λ r. r.2
        ≡ record { name = call.now.name; default_branch = call.now.default_branch; created = moment }) }
{
    let told = RepoInfo {
        name: call.name.copy(alloc)?,
        default_branch: call.default_branch.copy(alloc)?,
        created: moment,
    };
    Ok((
        call.name.copy(alloc)?,
        call.default_branch.copy(alloc)?,
        told,
    ))
}

// What the step told, as the call's client is told it.
fn repository_made(made: Result<u64, StepFault>, told: RepoInfo) -> Result<Done, StepFault>
    ensures { result ≡ (made then λ at. Ok (done.RepositoryCreated told)) }
{
    match made {
        Ok(_) => Ok(Done::RepositoryCreated(told)),
        Err(fault) => Err(fault),
    }
}
