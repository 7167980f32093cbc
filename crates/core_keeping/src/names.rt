//! Branches and tags that come and go, and settings.
ghost use Rattle.std.specs.Prelude.{ℕ, List, Option, IfSome, IsSome};
ghost use Rattle.std.specs.FinMap.{get};
ghost use Rattle.lake_base.specs.declared.digest.Digest.{Digest};
ghost use Rattle.lake_values.specs.declared.settings.Note.{Note};
ghost use Rattle.lake_values.specs.declared.settings.NoteName.{NoteName};
ghost use Rattle.lake_format.specs.Spelling.{AreBytes, IsDigest};
ghost use Rattle.lake_model.specs.declared.history.By.{By};
ghost use Rattle.lake_model.specs.declared.history.HistoryEntry.{HistoryEntry};
ghost use Rattle.lake_model.specs.declared.history.Operation.TheVariants.{BranchCreate, BranchDelete, NoteSet};
ghost use Rattle.lake_model.specs.declared.history.Operation.TheVariants.{TagCreate, TagDelete};
ghost use Rattle.pair_format.specs.PairSpelling.{IsRefName};
ghost use Rattle.core_state.specs.LakeStates.{LakeStateValue};
ghost use Rattle.core_changes.specs.LakeChanges.{after_branch_create, after_branch_delete, after_note_set};
ghost use Rattle.core_changes.specs.LakeChanges.{after_tag_create, after_tag_delete};
ghost use Rattle.core_head_pairs.specs.PairWords.{create_branch_puts, create_tag_puts, delete_branch_puts, delete_tag_puts};
ghost use Rattle.core_head_pairs.specs.PairWords.{note_text, set_note_puts};
ghost use Rattle.core_head_pairs.specs.PairWords.{MayMake, Stands};
ghost use Rattle.core_keeping.specs.Following.{KeepsFollowing};

use core_head_pairs::{laws_of_kept_names, laws_of_places, laws_of_tokens_apart};

/// A branch that may be made or may go, a tag, and a setting, where it was spelled.
pub fn laws_of_followed_names()
    ensures create_branch { (opened : LakeStateValue) (history : List HistoryEntry) (l : LakeStateValue) (by : By)
        (repo name : List ℕ) (commit : Digest)
        → Stands opened history l
        → MayMake opened history l by (BranchCreate repo name commit) (after_branch_create repo name commit)
        → IsRefName name × IsDigest commit.0
        → KeepsFollowing l (create_branch_puts repo name commit l) (after_branch_create repo name commit) }
    ensures delete_branch { (opened : LakeStateValue) (history : List HistoryEntry) (l : LakeStateValue) (by : By)
        (repo name : List ℕ)
        → Stands opened history l
        → MayMake opened history l by (BranchDelete repo name) (after_branch_delete repo name)
        → KeepsFollowing l (delete_branch_puts repo name l) (after_branch_delete repo name) }
    ensures create_tag { (opened : LakeStateValue) (history : List HistoryEntry) (l : LakeStateValue) (by : By)
        (repo name : List ℕ) (commit : Digest)
        → Stands opened history l
        → MayMake opened history l by (TagCreate repo name commit) (after_tag_create repo name commit)
        → IsRefName name × IsDigest commit.0
        → KeepsFollowing l (create_tag_puts repo name commit) (after_tag_create repo name commit) }
    ensures delete_tag { (opened : LakeStateValue) (history : List HistoryEntry) (l : LakeStateValue) (by : By)
        (repo name : List ℕ)
        → Stands opened history l
        → MayMake opened history l by (TagDelete repo name) (after_tag_delete repo name)
        → IsRefName name
        → KeepsFollowing l (delete_tag_puts repo name) (after_tag_delete repo name) }
    ensures set_note { (opened : LakeStateValue) (history : List HistoryEntry) (l : LakeStateValue) (by : By)
        (repo : List ℕ) (name : NoteName) (note : Option Note)
        → Stands opened history l
        → MayMake opened history l by (NoteSet repo name note) (after_note_set repo name note)
        → (IsSome (get l.repositories repo) → IfSome note (λ n. AreBytes (note_text n)))
        → KeepsFollowing l (set_note_puts repo name note l) (after_note_set repo name note) }
{
    laws_of_kept_names();
    laws_of_tokens_apart();
    laws_of_places();
}
