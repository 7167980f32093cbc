//! What else is so of a lake whose pairs can be read again.
ghost use Rattle.std.specs.Prelude.{◌≡◌, ℕ, List, Option, None};
ghost use Rattle.std.specs.FinMap.{get};
ghost use Rattle.lake_base.specs.declared.digest.Digest.{Digest};
ghost use Rattle.lake_values.specs.Entry.{EntryValue};
ghost use Rattle.lake_values.specs.declared.commit.ResetWhat.{ResetWhat};
ghost use Rattle.lake_values.specs.declared.entry.Change.{Change};
ghost use Rattle.lake_values.specs.declared.settings.Note.{Note};
ghost use Rattle.lake_values.specs.declared.settings.NoteName.{NoteName};
ghost use Rattle.core_state.specs.LakeStates.{LakeStateValue};
ghost use Rattle.core_state.specs.NewCommits.{NewCommit};
ghost use Rattle.core_changes.specs.FreshTokens.{AreTokensBelow};
ghost use Rattle.core_changes.specs.LakeChanges.{after_branch_create, after_branch_delete, after_copy, after_fault};
ghost use Rattle.core_changes.specs.LakeChanges.{after_new_head, after_note_set, after_repository_create, after_reset};
ghost use Rattle.core_changes.specs.LakeChanges.{after_seal, after_stage, after_tag_create, after_tag_delete};
ghost use Rattle.core_changes.specs.LakeChanges.{after_ticket_drop, after_ticket_take};
ghost use Rattle.core_pairs.specs.LakePairs.{AreTokensApart};

/// Two branches that name one token go on to be the same, and changes to stand only under tokens that their branch
/// names: the next token isn't named yet.
pub fn laws_of_tokens_apart()
    ensures ticket_take { (l : LakeStateValue) (seat : ℕ) → AreTokensApart l
        → AreTokensApart (after_ticket_take seat l) }
    ensures ticket_drop { (l : LakeStateValue) (number : ℕ) → AreTokensApart l
        → AreTokensApart (after_ticket_drop number l) }
    ensures fault { (l : LakeStateValue) → AreTokensApart l → AreTokensApart (after_fault l) }
    ensures stage { (l : LakeStateValue) (repo name path : List ℕ) (change : Change) → AreTokensApart l
        → AreTokensApart (after_stage repo name path change l) }
    ensures copy { (l : LakeStateValue) (repo name path : List ℕ) (entry : EntryValue) → AreTokensApart l
        → AreTokensApart (after_copy repo name path entry l) }
    ensures reset { (l : LakeStateValue) (repo name : List ℕ) (what : ResetWhat) → AreTokensApart l
        → AreTokensApart (after_reset repo name what l) }
    ensures seal { (l : LakeStateValue) (repo name : List ℕ) → AreTokensApart l → AreTokensBelow l
        → AreTokensApart (after_seal repo name l) }
    ensures branch_create { (l : LakeStateValue) (repo name : List ℕ) (commit : Digest)
        → AreTokensApart l → AreTokensBelow l
        → AreTokensApart (after_branch_create repo name commit l) }
    ensures branch_delete { (l : LakeStateValue) (repo name : List ℕ) → AreTokensApart l
        → AreTokensApart (after_branch_delete repo name l) }
    ensures tag_create { (l : LakeStateValue) (repo name : List ℕ) (commit : Digest) → AreTokensApart l
        → AreTokensApart (after_tag_create repo name commit l) }
    ensures tag_delete { (l : LakeStateValue) (repo name : List ℕ) → AreTokensApart l
        → AreTokensApart (after_tag_delete repo name l) }
    ensures note_set { (l : LakeStateValue) (repo : List ℕ) (name : NoteName) (note : Option Note) → AreTokensApart l
        → AreTokensApart (after_note_set repo name note l) }
    ensures new_head { (l : LakeStateValue) (repo name : List ℕ) (new : NewCommit) → AreTokensApart l
        → AreTokensApart (after_new_head repo name new l) }
    ensures repository_create { (l : LakeStateValue) (repo branch : List ℕ) (date : ℕ)
        → AreTokensApart l → AreTokensBelow l → get l.repositories repo ≡ None
        → AreTokensApart (after_repository_create repo branch date l) }
{}
