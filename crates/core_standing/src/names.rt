//! Branches and tags that come and go, and settings.
ghost use Rattle.std.specs.Prelude.{◌≡◌, List, ℕ, Option, None, Some, IfSome, false};
ghost use Rattle.lake_base.specs.Names.{is_like_id};
ghost use Rattle.lake_base.specs.declared.digest.Digest.{Digest};
ghost use Rattle.lake_values.specs.NoteNames.{note_name};
ghost use Rattle.lake_values.specs.declared.settings.Note.{Note};
ghost use Rattle.lake_values.specs.declared.settings.NoteName.{NoteName};
ghost use Rattle.commit_graph.specs.Expressions.{RefExprValue};
ghost use Rattle.lake_model.specs.declared.history.By.{By};
ghost use Rattle.lake_model.specs.declared.history.HistoryEntry.{HistoryEntry};
ghost use Rattle.lake_model.specs.declared.history.Operation.TheVariants.{BranchCreate, BranchDelete, NoteSet};
ghost use Rattle.lake_model.specs.declared.history.Operation.TheVariants.{TagCreate, TagDelete};
ghost use Rattle.lake_model.specs.Refusals.{first_cause};
ghost use Rattle.lake_model.specs.Steps.{create_branch_causes, create_tag_causes, delete_branch_causes};
ghost use Rattle.lake_model.specs.Steps.{delete_tag_causes, in_it, set_note_causes, target_in};
ghost use Rattle.core_state.specs.LakeStates.{LakeStateValue, state_of};
ghost use Rattle.core_changes.specs.LakeChanges.{after_branch_create, after_branch_delete, after_note_set};
ghost use Rattle.core_changes.specs.LakeChanges.{after_tag_create, after_tag_delete};
ghost use Rattle.core_standing.specs.Standing.{MayMake, Stands, versions_since};

use core_changes::{laws_of_counts, laws_of_few, laws_of_indexes, laws_of_states, laws_of_tokens};
use lake_laws::soundness::law_of_soundness;
use lake_laws::step_names::law_of_name_steps;
use lake_laws::step_notes::law_of_note_steps;

/// Where no cause holds, a branch and a tag may be made, under a name that is like no id, at the commit of an
/// expression; and a branch and a tag may go.
pub fn laws_of_names()
    ensures create_branch { (opened : LakeStateValue) (history : List HistoryEntry) (present : LakeStateValue)
        (by : By) (repo name : List ℕ) (e : RefExprValue) (commit : Digest)
        → Stands opened history present → is_like_id name ≡ false
        → first_cause (create_branch_causes (state_of present) repo name e) ≡ None
        → in_it (state_of present) repo (λ r. target_in r e) ≡ Some commit
        → MayMake opened history present by (BranchCreate repo name commit) (after_branch_create repo name commit) }
    ensures delete_branch { (opened : LakeStateValue) (history : List HistoryEntry) (present : LakeStateValue)
        (by : By) (repo name : List ℕ)
        → Stands opened history present
        → first_cause (delete_branch_causes (state_of present) repo name) ≡ None
        → MayMake opened history present by (BranchDelete repo name) (after_branch_delete repo name) }
    ensures create_tag { (opened : LakeStateValue) (history : List HistoryEntry) (present : LakeStateValue)
        (by : By) (repo name : List ℕ) (e : RefExprValue) (commit : Digest)
        → Stands opened history present → is_like_id name ≡ false
        → first_cause (create_tag_causes (state_of present) repo name e) ≡ None
        → in_it (state_of present) repo (λ r. target_in r e) ≡ Some commit
        → MayMake opened history present by (TagCreate repo name commit) (after_tag_create repo name commit) }
    ensures delete_tag { (opened : LakeStateValue) (history : List HistoryEntry) (present : LakeStateValue)
        (by : By) (repo name : List ℕ)
        → Stands opened history present
        → first_cause (delete_tag_causes (state_of present) repo name) ≡ None
        → MayMake opened history present by (TagDelete repo name) (after_tag_delete repo name) }
{
    law_of_name_steps();
    law_of_soundness();
    laws_of_states();
    laws_of_counts();
    laws_of_tokens();
    laws_of_few();
    laws_of_indexes();
}

/// Where no cause holds, a setting of the name may be set, or the one that is there may be deleted.
pub fn law_of_settings()
    ensures { (opened : LakeStateValue) (history : List HistoryEntry) (present : LakeStateValue)
        (by : By) (repo : List ℕ) (expected : Option ℕ) (name : NoteName) (note : Option Note)
        → Stands opened history present
        → first_cause (set_note_causes (state_of present) (versions_since opened history) repo expected name note)
        ≡ None
        → IfSome note (λ n. note_name n ≡ name)
        → MayMake opened history present by (NoteSet repo name note) (after_note_set repo name note) }
{
    law_of_note_steps();
    laws_of_states();
    laws_of_counts();
    laws_of_tokens();
    laws_of_few();
    laws_of_indexes();
}
