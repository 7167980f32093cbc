//! Maps and settings that can be read.
ghost use Rattle.std.specs.Prelude.{ℕ, List, Option, IfSome};
ghost use Rattle.lake_base.specs.declared.digest.Digest.{Digest};
ghost use Rattle.lake_values.specs.Entry.{EntryValue};
ghost use Rattle.lake_values.specs.NoteNames.{note_name};
ghost use Rattle.lake_values.specs.declared.commit.ResetWhat.{ResetWhat};
ghost use Rattle.lake_values.specs.declared.entry.Change.{Change};
ghost use Rattle.lake_values.specs.declared.settings.Note.{Note};
ghost use Rattle.lake_values.specs.declared.settings.NoteName.{NoteName};
ghost use Rattle.lake_format.specs.declared.cut.Cut.{Cut as AnyCut};
ghost use Rattle.meta_range.specs.Files.{FitsTree};
ghost use Rattle.pair_trees.specs.SettingTexts.{IsTextOf};
ghost use Rattle.core_state.specs.FirstStates.{fresh_lake};
ghost use Rattle.core_state.specs.LakeStates.{LakeStateValue};
ghost use Rattle.core_state.specs.NewCommits.{NewCommit};
ghost use Rattle.core_changes.specs.LakeChanges.{after_branch_create, after_branch_delete, after_copy, after_fault};
ghost use Rattle.core_changes.specs.LakeChanges.{after_new_head, after_note_set, after_repository_create, after_reset};
ghost use Rattle.core_changes.specs.LakeChanges.{after_seal, after_stage, after_tag_create, after_tag_delete};
ghost use Rattle.core_changes.specs.LakeChanges.{after_ticket_drop, after_ticket_take};
ghost use Rattle.core_puts.specs.Puts.{note_text};
ghost use Rattle.reading_again.specs.ReadableLakes.{HasReadableParts};

/// The maps and the settings of a lake can be read at the start, and go on to be so: where a tree can hold the map of
/// a new commit, and the text of a setting that is set reads as that setting.
pub fn laws_of_readable_parts()
    ensures fresh { (cut : AnyCut) → HasReadableParts (fresh_lake cut) }
    ensures ticket_take { (l : LakeStateValue) (seat : ℕ) → HasReadableParts l
        → HasReadableParts (after_ticket_take seat l) }
    ensures ticket_drop { (l : LakeStateValue) (number : ℕ) → HasReadableParts l
        → HasReadableParts (after_ticket_drop number l) }
    ensures fault { (l : LakeStateValue) → HasReadableParts l → HasReadableParts (after_fault l) }
    ensures stage { (l : LakeStateValue) (repo name path : List ℕ) (change : Change) → HasReadableParts l
        → HasReadableParts (after_stage repo name path change l) }
    ensures copy { (l : LakeStateValue) (repo name path : List ℕ) (entry : EntryValue) → HasReadableParts l
        → HasReadableParts (after_copy repo name path entry l) }
    ensures reset { (l : LakeStateValue) (repo name : List ℕ) (what : ResetWhat) → HasReadableParts l
        → HasReadableParts (after_reset repo name what l) }
    ensures seal { (l : LakeStateValue) (repo name : List ℕ) → HasReadableParts l
        → HasReadableParts (after_seal repo name l) }
    ensures branch_create { (l : LakeStateValue) (repo name : List ℕ) (commit : Digest) → HasReadableParts l
        → HasReadableParts (after_branch_create repo name commit l) }
    ensures branch_delete { (l : LakeStateValue) (repo name : List ℕ) → HasReadableParts l
        → HasReadableParts (after_branch_delete repo name l) }
    ensures tag_create { (l : LakeStateValue) (repo name : List ℕ) (commit : Digest) → HasReadableParts l
        → HasReadableParts (after_tag_create repo name commit l) }
    ensures tag_delete { (l : LakeStateValue) (repo name : List ℕ) → HasReadableParts l
        → HasReadableParts (after_tag_delete repo name l) }
    ensures note_set { (l : LakeStateValue) (repo : List ℕ) (name : NoteName) (note : Option Note)
        → HasReadableParts l → IfSome note (λ n. IsTextOf (note_name n) (note_text n) n)
        → HasReadableParts (after_note_set repo name note l) }
    ensures new_head { (l : LakeStateValue) (repo name : List ℕ) (new : NewCommit) → HasReadableParts l
        → FitsTree new.tree.map → HasReadableParts (after_new_head repo name new l) }
    ensures repository_create { (l : LakeStateValue) (repo branch : List ℕ) (date : ℕ) → HasReadableParts l
        → HasReadableParts (after_repository_create repo branch date l) }
{}
