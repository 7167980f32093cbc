//! What holds of a lake that stands for its history.
ghost use Rattle.std.specs.Prelude.{◌≡◌, List, length};
ghost use Rattle.lake_model.specs.declared.history.HistoryEntry.{HistoryEntry};
ghost use Rattle.lake_model.specs.Soundness.{IsSound};
ghost use Rattle.core_state.specs.LakeStates.{LakeStateValue, state_of};
ghost use Rattle.core_standing.specs.Standing.{Stands};

use lake_laws::soundness::law_of_soundness;

/// The state of a lake that stands for its history is sound.
pub fn law_of_present()
    ensures { (opened : LakeStateValue) (history : List HistoryEntry) (present : LakeStateValue)
        → Stands opened history present → IsSound (state_of present) }
{
    law_of_soundness();
}

/// A lake that stands for its history counts the entries of it, so the place of the next one is one more.
pub fn law_of_entries()
    ensures { (opened : LakeStateValue) (history : List HistoryEntry) (present : LakeStateValue)
        → Stands opened history present → present.entries ≡ length history }
{}
