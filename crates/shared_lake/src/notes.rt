//! Settings.
ghost use Rattle.std.specs.Prelude.{◌≡◌, Some, IfSome};
ghost use Rattle.core_puts.specs.Puts.{HasText};
ghost use Rattle.core_state.specs.LakeStates.{lake_value};
ghost use Rattle.lake_core.specs.Lakes.{state, versions};
ghost use Rattle.lake_model.specs.Refusals.{GivesOrFails};
ghost use Rattle.lake_model.specs.Steps.{set_note_reply};
ghost use Rattle.lake_values.specs.NoteNames.{note_name};
ghost use Rattle.shared_lake.specs.SeatSteps.{IsChanged};
ghost use Rattle.lake_core.specs.Makings.{set_note};

use crate::shared::{LakeSeat, Shared};
use keeper::Keeper;
use lake_base::RepoName;
use lake_model::{By, StepFault};
use lake_values::{Note, NoteName};
use std::sync::Wait;

impl<K: Keeper> Shared<K> {
    /// Sets a setting of the name, or deletes it where no new one is given, where the settings have the version that is
    /// expected, if one is: the place of the entry. Retention has no text yet, so it isn't set. Stopped, HistoryFull,
    /// NoRepo, NoNote, Changed. It waits.
    pub fn set_note<W: Wait>(
        &self,
        rt: &W,
        seat: &mut LakeSeat,
        call: u64,
        repo: &RepoName,
        expected: Option<u64>,
        name: NoteName,
        note: Option<Note>,
    ) -> Result<u64, StepFault>
        requires own { seat.old.turn ≡ self.now }
        requires name { IfSome note (λ n. note_name n ≡ name) }
        requires text { IfSome note HasText }
        ensures { IsChanged (record { kept = K.kept; faults = K.faults; calls = K.calls; successes = K.successes })
            (record { seat = seat.old.number; call = call }) seat.old seat.new
            (λ l. Some (set_note repo.now name note (lake_value l.present)))
            (λ l. GivesOrFails result
            (set_note_reply (state l) (versions l) repo.now expected name note)) result }
    {
        self.turn.with_change(
            rt,
            seat,
            move |lake, own| lake.set_note(By { seat: own, call }, repo, expected, name, note),
        )
    }
}
