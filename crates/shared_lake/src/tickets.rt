//! Tickets of uploads.
ghost use Rattle.std.specs.Prelude.{◌≡◌, Some};
ghost use Rattle.core_state.specs.LakeStates.{lake_value};
ghost use Rattle.lake_core.specs.Lakes.{LakeValue, state};
ghost use Rattle.lake_model.specs.Refusals.{GivesOrFails};
ghost use Rattle.lake_model.specs.Steps.{drop_ticket_reply, take_ticket_reply};
ghost use Rattle.lake_model.specs.Uncommitted.{HasTicket};
ghost use Rattle.shared_lake.specs.SeatSteps.{Finds, IsChanged};
ghost use Rattle.lake_core.specs.Makings.{take_ticket, drop_ticket};

use crate::shared::{LakeSeat, Shared};
use keeper::Keeper;
use lake_base::{RefName, RepoName};
use lake_model::{By, StepFault};
use std::sync::Wait;

impl<K: Keeper> Shared<K> {
    /// Gives out a number for an upload to a branch, on a ticket of the seat: the place of the entry, and the number.
    /// Stopped, HistoryFull, NoRepo, NoRef, Protected. It waits.
    pub fn take_ticket<W: Wait>(
        &self,
        rt: &W,
        seat: &mut LakeSeat,
        call: u64,
        repo: &RepoName,
        branch: &RefName,
    ) -> Result<(u64, u64), StepFault>
        requires { seat.old.turn ≡ self.now }
        ensures { IsChanged (record { kept = K.kept; faults = K.faults; calls = K.calls; successes = K.successes })
            (record { seat = seat.old.number; call = call }) seat.old seat.new
            (λ l. Some (take_ticket seat.old.number repo.now branch.now (lake_value l.present)))
            (λ l. GivesOrFails result (take_ticket_reply (state l) repo.now branch.now)) result }
    {
        self.turn.with_change(
            rt,
            seat,
            move |lake, own| lake.take_ticket(By { seat: own, call }, repo, branch),
        )
    }

    /// Gives up the upload of a number, which is on a ticket of the seat in each lake that it may find: the place of
    /// the entry. Stopped, HistoryFull. It waits.
    pub fn drop_ticket<W: Wait>(
        &self,
        rt: &W,
        seat: &mut LakeSeat,
        call: u64,
        number: u64,
    ) -> Result<u64, StepFault>
        requires own { seat.old.turn ≡ self.now }
        requires ticket { (found : LakeValue K)
            → Finds (record { kept = K.kept; faults = K.faults; calls = K.calls; successes = K.successes })
            seat.old found
            → HasTicket (state found) seat.old.number number }
        ensures { IsChanged (record { kept = K.kept; faults = K.faults; calls = K.calls; successes = K.successes })
            (record { seat = seat.old.number; call = call }) seat.old seat.new
            (λ l. Some (drop_ticket number))
            (λ l. GivesOrFails result (drop_ticket_reply (state l))) result }
    {
        self.turn.with_change(
            rt,
            seat,
            move |lake, own| lake.drop_ticket(By { seat: own, call }, number),
        )
    }
}
