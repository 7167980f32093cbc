//! Tickets, and what is written to a branch.
ghost use Rattle.std.specs.Prelude.{◌≡◌, List, ℕ, None, Some, IfSome};
ghost use Rattle.lake_values.specs.Entry.{EntryValue};
ghost use Rattle.lake_values.specs.declared.commit.ResetWhat.{ResetWhat};
ghost use Rattle.lake_values.specs.declared.entry.Change.{Change};
ghost use Rattle.commit_graph.specs.Expressions.{RefExprValue};
ghost use Rattle.lake_model.specs.declared.history.By.{By};
ghost use Rattle.lake_model.specs.declared.history.CopySource.{CopySource};
ghost use Rattle.lake_model.specs.declared.history.HistoryEntry.{HistoryEntry};
ghost use Rattle.lake_model.specs.declared.history.Operation.TheVariants.{Copy, Reset, Seal, Stage, TicketDrop};
ghost use Rattle.lake_model.specs.declared.history.Operation.TheVariants.{TicketTake};
ghost use Rattle.lake_model.specs.declared.history.SealFor.{SealFor};
ghost use Rattle.lake_model.specs.Refusals.{causes_of_change, first_cause};
ghost use Rattle.lake_model.specs.Steps.{copied_entry, copy_causes, copy_source, in_it, seal_causes, stage_causes};
ghost use Rattle.lake_model.specs.Steps.{write_causes};
ghost use Rattle.lake_model.specs.Uncommitted.{HasTicket, put_number};
ghost use Rattle.core_state.specs.LakeStates.{LakeStateValue, state_of};
ghost use Rattle.core_changes.specs.LakeChanges.{after_copy, after_reset, after_seal, after_stage, after_ticket_drop};
ghost use Rattle.core_changes.specs.LakeChanges.{after_ticket_take};
ghost use Rattle.core_standing.specs.Standing.{MayMake, Stands, versions_since};

use core_changes::{laws_of_counts, laws_of_few, laws_of_indexes, laws_of_states, laws_of_tokens};
use lake_laws::soundness::law_of_soundness;
use lake_laws::tickets::law_of_ticket_steps;
use lake_laws::writes::law_of_write_steps;

/// Where no cause holds, the next number may be given out, and a ticket of the seat's own may go.
pub fn laws_of_tickets()
    ensures take { (opened : LakeStateValue) (history : List HistoryEntry) (present : LakeStateValue)
        (by : By) (repo branch : List ℕ)
        → Stands opened history present
        → first_cause (write_causes (state_of present) repo branch) ≡ None
        → MayMake opened history present by (TicketTake repo branch present.next_number) (after_ticket_take by.seat) }
    ensures drop { (opened : LakeStateValue) (history : List HistoryEntry) (present : LakeStateValue)
        (by : By) (number : ℕ)
        → Stands opened history present
        → first_cause (causes_of_change (state_of present)) ≡ None
        → HasTicket (state_of present) by.seat number
        → MayMake opened history present by (TicketDrop number) (after_ticket_drop number) }
{
    law_of_ticket_steps();
    laws_of_states();
    laws_of_counts();
    laws_of_tokens();
    laws_of_few();
    laws_of_indexes();
}

/// Where no cause holds, a change may be staged whose number, where it puts one, is on a ticket of the seat; an entry
/// may be copied that was found; changes may be dropped; and staged changes may be sealed.
pub fn laws_of_writes()
    ensures stage { (opened : LakeStateValue) (history : List HistoryEntry) (present : LakeStateValue)
        (by : By) (repo branch : List ℕ) (version : ℕ) (path : List ℕ) (change : Change)
        → Stands opened history present
        → first_cause (stage_causes (state_of present) (versions_since opened history) repo branch version) ≡ None
        → IfSome (put_number change) (HasTicket (state_of present) by.seat)
        → MayMake opened history present by (Stage repo branch path change) (after_stage repo branch path change) }
    ensures copy { (opened : LakeStateValue) (history : List HistoryEntry) (present : LakeStateValue)
        (by : By) (repo branch : List ℕ) (version : ℕ) (path : List ℕ)
        (e : RefExprValue) (source : CopySource) (from : List ℕ) (entry : EntryValue)
        → Stands opened history present
        → first_cause (copy_causes (state_of present) (versions_since opened history) repo branch version e from) ≡ None
        → copied_entry (state_of present) repo e from ≡ Some entry
        → in_it (state_of present) repo (λ r. copy_source r e) ≡ Some source
        → MayMake opened history present by (Copy repo branch path source from entry)
        (after_copy repo branch path entry) }
    ensures reset { (opened : LakeStateValue) (history : List HistoryEntry) (present : LakeStateValue)
        (by : By) (repo branch : List ℕ) (what : ResetWhat)
        → Stands opened history present
        → first_cause (write_causes (state_of present) repo branch) ≡ None
        → MayMake opened history present by (Reset repo branch what) (after_reset repo branch what) }
    ensures seal { (opened : LakeStateValue) (history : List HistoryEntry) (present : LakeStateValue)
        (by : By) (repo branch : List ℕ) (why : SealFor)
        → Stands opened history present
        → first_cause (seal_causes why (state_of present) repo branch) ≡ None
        → MayMake opened history present by (Seal repo branch why) (after_seal repo branch) }
{
    law_of_write_steps();
    law_of_soundness();
    laws_of_states();
    laws_of_counts();
    laws_of_tokens();
    laws_of_few();
    laws_of_indexes();
}
