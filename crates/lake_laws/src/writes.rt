//! What is written to a branch: where no cause of the step holds, its entry may come next.
ghost use Rattle.std.specs.Prelude.{◌≡◌, List, ℕ, None, Some, IfSome};
ghost use Rattle.lake_values.specs.Entry.{EntryValue};
ghost use Rattle.lake_values.specs.declared.commit.ResetWhat.{ResetWhat};
ghost use Rattle.lake_values.specs.declared.entry.Change.{Change};
ghost use Rattle.commit_graph.specs.Expressions.{RefExprValue};
ghost use Rattle.lake_model.specs.declared.history.By.{By};
ghost use Rattle.lake_model.specs.declared.history.CopySource.{CopySource};
ghost use Rattle.lake_model.specs.declared.history.Operation.TheVariants.{Copy, Reset, Seal, Stage};
ghost use Rattle.lake_model.specs.declared.history.SealFor.{SealFor};
ghost use Rattle.lake_model.specs.State.{State};
ghost use Rattle.lake_model.specs.Uncommitted.{HasTicket, put_number};
ghost use Rattle.lake_model.specs.History.{Allows, accepted_entry};
ghost use Rattle.lake_model.specs.Soundness.{IsSound};
ghost use Rattle.lake_model.specs.Refusals.{first_cause};
ghost use Rattle.lake_model.specs.Steps.{copied_entry, copy_causes, copy_source, in_it, seal_causes, stage_causes};
ghost use Rattle.lake_model.specs.Steps.{write_causes};
ghost use Rattle.lake_model.specs.Versions.{VersionsGiven};

/// Where no cause holds, a change may be staged whose number, where it puts one, is on a ticket of the seat; in a
/// sound lake an entry may be copied that was found; changes may be dropped; and staged changes may be sealed.
pub fn law_of_write_steps()
    ensures stage { (state : State) (given : VersionsGiven) (by : By) (repo branch : List ℕ) (version : ℕ)
        (path : List ℕ) (change : Change)
        → first_cause (stage_causes state given repo branch version) ≡ None
        → IfSome (put_number change) (HasTicket state by.seat)
        → Allows state (accepted_entry by (Stage repo branch path change)) }
    ensures copy { (state : State) (given : VersionsGiven) (by : By) (repo branch : List ℕ) (version : ℕ)
        (path : List ℕ) (e : RefExprValue) (source : CopySource) (from : List ℕ) (entry : EntryValue)
        → IsSound state
        → first_cause (copy_causes state given repo branch version e from) ≡ None
        → copied_entry state repo e from ≡ Some entry
        → in_it state repo (λ r. copy_source r e) ≡ Some source
        → Allows state (accepted_entry by (Copy repo branch path source from entry)) }
    ensures reset { (state : State) (by : By) (repo branch : List ℕ) (what : ResetWhat)
        → first_cause (write_causes state repo branch) ≡ None
        → Allows state (accepted_entry by (Reset repo branch what)) }
    ensures seal { (state : State) (by : By) (repo branch : List ℕ) (why : SealFor)
        → first_cause (seal_causes why state repo branch) ≡ None
        → Allows state (accepted_entry by (Seal repo branch why)) }
{}
