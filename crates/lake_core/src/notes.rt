//! Settings.
ghost use Rattle.std.specs.Prelude.{◌≡◌, Some, IfOk, IfSome, IsSome, OnOk, false};
ghost use Rattle.std.specs.FinMap.{get};
ghost use Rattle.std.specs.Option.{ForSome};
ghost use Rattle.lake_base.specs.Names.{is_like_id};
ghost use Rattle.lake_values.specs.NoteNames.{note_name};
ghost use Rattle.lake_format.specs.Spelling.{AreBytes};
ghost use Rattle.lake_model.specs.declared.history.Operation.TheVariants as operation;
ghost use Rattle.lake_model.specs.Refusals.{GivesOrFails};
ghost use Rattle.lake_model.specs.Steps.{set_note_reply};
ghost use Rattle.core_state.specs.Counts.{AreFew};
ghost use Rattle.core_state.specs.LakeStates.{lake_value};
ghost use Rattle.core_puts.specs.Puts as puts;
ghost use Rattle.core_puts.specs.Puts.{HasText, note_text};
ghost use Rattle.lake_core.specs.Lakes.{state, versions};
ghost use Rattle.lake_core.specs.Makings.{set_note};
ghost use Rattle.lake_core.specs.ReadyChanges.{IsReadyChange};
ghost use Rattle.lake_core.specs.Leaving.{Leaves};

use crate::lake::Lake;
use crate::ready::Ready;
use core_causes::test_set_note;
use core_changes::lake as change;
use core_keeping::laws_of_followed_names;
use core_puts::{keep, place, set_note_puts};
use core_standing::{law_of_settings, laws_of_plain_names};
use core_state::LakeState;
use keeper::Keeper;
use lake_base::{NoMemory, RepoName, TryCopy};
use lake_laws::causes::laws_of_causes;
use lake_model::{By, Operation, StepFault};
use lake_values::{Note, NoteName};
use std::alloc::Global;

impl<K: Keeper> Lake<K> {
    /// Sets a setting of the name, or deletes it where no new one is given, where the settings have the version that is
    /// expected, if one is: the place of the entry. Stopped, HistoryFull, NoRepo, NoNote, Changed. Retention has no
    /// text yet in which it could be kept, so it isn't set.
    pub fn set_note(
        &mut self,
        by: By,
        repo: &RepoName,
        expected: Option<u64>,
        name: NoteName,
        note: Option<Note>,
    ) -> Result<u64, StepFault>
        requires name { IfSome note (λ n. note_name n ≡ name) }
        requires text { IfSome note HasText }
        ensures reply { GivesOrFails result
            (set_note_reply (state self.old) (versions self.old) repo.now expected name note) }
        ensures leaves { Leaves (record { kept = K.kept; faults = K.faults; calls = K.calls; successes = K.successes })
            by (Some (set_note repo.now name note (lake_value self.old.present))) result self.old self.new }
    {
        // Test.
        laws_of_causes();
        test_set_note(&self.present, repo, expected, name, &note)?;
        law_of_settings();
        laws_of_followed_names();
        laws_of_plain_names();

        // Take memory.
        let Ready { operation, puts } = ready_note(self.alloc, &self.present, repo, name, &note)?;

        // Keep.
        keep(
            &mut self.keeper,
            &mut self.history,
            &mut self.present,
            by,
            operation,
            puts,
        )?;

        // Change.
        change::set_note(&mut self.present, repo, name, note);
        Ok(place(&self.present))
    }
}

// A setting that is to be set or deleted.
fn ready_note(
    alloc: Global,
    lake: &LakeState,
    repo: &RepoName,
    name: NoteName,
    note: &Option<Note>,
) -> Result<Ready, NoMemory>
    requires name { IfSome note.now (λ n. note_name n ≡ name) }
    requires text { IfSome note.now HasText }
    requires plain { ForSome (get (lake_value lake.now).repositories repo.now)
        (λ r. is_like_id r.default_branch ≡ false) }
    requires few { AreFew (lake_value lake.now) }
    ensures ready { IfOk result (IsReadyChange (operation.NoteSet repo.now name note.now)
        (puts.set_note_puts repo.now name note.now (lake_value lake.now))) }
    ensures limits { OnOk result (IsSome (get (lake_value lake.now).repositories repo.now)
        → IfSome note.now (λ n. AreBytes (note_text n))) }
{
    let operation = Operation::NoteSet {
        repo: repo.copy(alloc)?,
        name,
        note: copy_of(alloc, note)?,
    };
    let puts = set_note_puts(alloc, lake, repo, name, note.as_ref())?;
    Ok(Ready { operation, puts })
}

// A copy of a setting, where there is one.
fn copy_of(alloc: Global, note: &Option<Note>) -> Result<Option<Note>, NoMemory>
    ensures { IfOk result (λ copy. copy ≡ note.now) }
{
    match note {
        Some(note) => Ok(Some(note.copy(alloc)?)),
        None => Ok(None),
    }
}
