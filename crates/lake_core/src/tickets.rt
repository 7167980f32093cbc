//! Tickets of uploads.
ghost use Rattle.std.specs.Prelude.{◌≡◌, ◌↔◌, [], Some, IfOk, IsTrue, OnOk};
ghost use Rattle.std.specs.FinMap.{get};
ghost use Rattle.lake_model.specs.declared.history.Operation.TheVariants.{TicketDrop, TicketTake};
ghost use Rattle.lake_model.specs.Refusals.{GivesOrFails};
ghost use Rattle.lake_model.specs.Steps.{drop_ticket_reply, take_ticket_reply};
ghost use Rattle.lake_model.specs.Uncommitted.{HasTicket};
ghost use Rattle.core_changes.specs.LakeRoom.{HasTicketRoom};
ghost use Rattle.core_state.specs.Counts.{AreFew};
ghost use Rattle.core_state.specs.LakeStates.{lake_value, tickets_of};
ghost use Rattle.core_puts.specs.Puts.{ticket_puts};
ghost use Rattle.lake_core.specs.Lakes.{state};
ghost use Rattle.lake_core.specs.Makings.{drop_ticket, take_ticket};
ghost use Rattle.lake_core.specs.ReadyChanges.{IsReadyChange};
ghost use Rattle.lake_core.specs.Leaving.{Leaves};

use crate::lake::Lake;
use crate::ready::Ready;
use core_causes::{test_change, test_write};
use core_changes::lake as change;
use core_keeping::laws_of_followed_tickets;
use core_puts::{keep, place, ticket_puts};
use core_standing::laws_of_tickets;
use core_state::LakeState;
use keeper::Keeper;
use lake_base::{NoMemory, RefName, RepoName, TryCopy};
use lake_laws::causes::laws_of_causes;
use lake_model::{By, Operation, StepFault};
use std::alloc::Global;
use std::collections::BTreeMap;

impl<K: Keeper> Lake<K> {
    /// Whether a number is on a ticket of the seat, so that the seat may drop it, or put an object of it. It takes no
    /// memory.
    #[tactic(auto, unfolding(core_state::specs::LakeStates::lake_value))]
    pub fn has_ticket(&self, seat: u32, number: u64) -> bool
        ensures { IsTrue result ↔ HasTicket (state self.now) seat number }
    {
        is_ticket_of(&self.present.tickets, seat, number)
    }

    /// Gives out a number for an upload to a branch, on a ticket of the seat: the place of the entry, and the number,
    /// which is the next one. Stopped, HistoryFull, NoRepo, NoRef, Protected.
    pub fn take_ticket(
        &mut self,
        by: By,
        repo: &RepoName,
        branch: &RefName,
    ) -> Result<(u64, u64), StepFault>
        ensures reply { GivesOrFails result (take_ticket_reply (state self.old) repo.now branch.now) }
        ensures leaves { Leaves (record { kept = K.kept; faults = K.faults; calls = K.calls; successes = K.successes })
            by (Some (take_ticket by.seat repo.now branch.now (lake_value self.old.present))) result self.old self.new }
    {
        // Test.
        laws_of_causes();
        test_write(&self.present, repo, branch)?;
        laws_of_tickets();
        laws_of_followed_tickets();

        // Take memory.
        let number = self.present.next_number;
        let Ready { operation, puts } = ready_ticket(self.alloc, &mut self.present, repo, branch)?;

        // Keep.
        keep(
            &mut self.keeper,
            &mut self.history,
            &mut self.present,
            by,
            operation,
            puts,
        )?;

        // Change.
        change::take_ticket(&mut self.present, by.seat);
        Ok((place(&self.present), number))
    }

    /// Gives up the upload of a number, which is on a ticket of the seat: the place of the entry. Stopped, HistoryFull.
    pub fn drop_ticket(&mut self, by: By, number: u64) -> Result<u64, StepFault>
        requires { HasTicket (state self.old) by.seat number }
        ensures reply { GivesOrFails result (drop_ticket_reply (state self.old)) }
        ensures leaves { Leaves (record { kept = K.kept; faults = K.faults; calls = K.calls; successes = K.successes })
            by (Some (drop_ticket number)) result self.old self.new }
    {
        // Test.
        laws_of_causes();
        test_change(&self.present)?;
        laws_of_tickets();
        laws_of_followed_tickets();

        // Take memory: none, since a ticket isn't kept.
        let Ready { operation, puts } = ready_drop(self.alloc, number);

        // Keep.
        keep(
            &mut self.keeper,
            &mut self.history,
            &mut self.present,
            by,
            operation,
            puts,
        )?;

        // Change.
        change::drop_ticket(&mut self.present, number);
        Ok(place(&self.present))
    }
}

// Whether a number is on a ticket of the seat.
fn is_ticket_of(tickets: &BTreeMap<u64, Option<u32>>, seat: u32, number: u64) -> bool
    ensures { IsTrue result ↔ (get (tickets_of tickets.now.entries) number ≡ Some seat) }
{
    match seat_of(tickets, number) {
        Some(holder) => holder == seat,
        None => false,
    }
}

// The seat on whose ticket a number is.
fn seat_of(tickets: &BTreeMap<u64, Option<u32>>, number: u64) -> Option<u32>
    ensures { result ≡ get (tickets_of tickets.now.entries) number }
{
    // Its length tells that the numbers ascend.
    let _count = tickets.len();
    match tickets.get(&number) {
        Some(place) => *place,
        None => None,
    }
}

// A number that is to be given out. It changes nothing that the lake says.
#[tactic(auto, unfolding(core_state::specs::LakeStates::lake_value))]
fn ready_ticket(
    alloc: Global,
    lake: &mut LakeState,
    repo: &RepoName,
    branch: &RefName,
) -> Result<Ready, NoMemory>
    requires few { AreFew (lake_value lake.old) }
    ensures same { lake_value lake.new ≡ lake_value lake.old }
    ensures names { lake.new.names ≡ lake.old.names }
    ensures room { OnOk result (HasTicketRoom lake.new) }
    ensures ready { IfOk result (IsReadyChange (TicketTake repo.now branch.now (lake_value lake.old).next_number)
        (ticket_puts (lake_value lake.old))) }
{
    let operation = Operation::TicketTake {
        repo: repo.copy(alloc)?,
        branch: branch.copy(alloc)?,
        number: lake.next_number,
    };
    let puts = ticket_puts(alloc, lake)?;
    change::make_ticket_room(lake)?;
    Ok(Ready { operation, puts })
}

// An upload that is to be given up: there is nothing to put.
fn ready_drop(alloc: Global, number: u64) -> Ready
    ensures { IsReadyChange (TicketDrop number) [] result }
{
    Ready {
        operation: Operation::TicketDrop { number },
        puts: Vec::new(alloc),
    }
}
