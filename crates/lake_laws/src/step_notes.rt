//! Settings: where no cause of the step holds, its entry may come next.
ghost use Rattle.std.specs.Prelude.{◌≡◌, List, ℕ, Option, None, IfSome};
ghost use Rattle.lake_values.specs.NoteNames.{note_name};
ghost use Rattle.lake_values.specs.declared.settings.Note.{Note};
ghost use Rattle.lake_values.specs.declared.settings.NoteName.{NoteName};
ghost use Rattle.lake_model.specs.declared.history.By.{By};
ghost use Rattle.lake_model.specs.declared.history.Operation.TheVariants.{NoteSet};
ghost use Rattle.lake_model.specs.State.{State};
ghost use Rattle.lake_model.specs.History.{Allows, accepted_entry};
ghost use Rattle.lake_model.specs.Refusals.{first_cause};
ghost use Rattle.lake_model.specs.Steps.{set_note_causes};
ghost use Rattle.lake_model.specs.Versions.{VersionsGiven};

/// Where no cause holds, a setting of the name may be set, or the one that is there may be deleted.
pub fn law_of_note_steps()
    ensures set_note { (state : State) (given : VersionsGiven) (by : By) (repo : List ℕ) (expected : Option ℕ)
        (name : NoteName) (note : Option Note)
        → first_cause (set_note_causes state given repo expected name note) ≡ None
        → IfSome note (λ n. note_name n ≡ name)
        → Allows state (accepted_entry by (NoteSet repo name note)) }
{}
