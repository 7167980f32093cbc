//! The pairs after the puts of a change stand for what the change makes of the lake. Each law is the contract of a
//! function that does nothing.
ghost use Rattle.std.specs.Prelude.{◌≡◌, ◌<◌, ◌^◌, ℕ, List, Option, None, IsSome, IfSome, length};
ghost use Rattle.std.specs.FinMap.{get};
ghost use Rattle.lake_base.specs.Names.{path_fault};
ghost use Rattle.lake_base.specs.declared.digest.Digest.{Digest};
ghost use Rattle.lake_values.specs.Entry.{EntryValue};
ghost use Rattle.lake_values.specs.NoteNames.{note_name};
ghost use Rattle.lake_values.specs.declared.commit.ResetWhat.{ResetWhat};
ghost use Rattle.lake_values.specs.declared.entry.Change.{Change};
ghost use Rattle.lake_values.specs.declared.entry.Change.TheVariants.{Put};
ghost use Rattle.lake_values.specs.declared.settings.Note.{Note};
ghost use Rattle.lake_values.specs.declared.settings.NoteName.{NoteName};
ghost use Rattle.lake_format.specs.Spelling.{AreBytes, IsDigest, IsEntry};
ghost use Rattle.pair_format.specs.PairSpelling.{IsRefName, IsSpelledChange};
ghost use Rattle.keeper.specs.Keepers.{KeptPairs, pairs_after};
ghost use Rattle.core_state.specs.BranchStates.{with_fresh};
ghost use Rattle.core_state.specs.Counts.{AreFew};
ghost use Rattle.core_state.specs.LakeStates.{LakeStateValue};
ghost use Rattle.core_changes.specs.LakeChanges.{after_branch_create, after_branch_delete, after_copy, after_fault};
ghost use Rattle.core_changes.specs.LakeChanges.{after_note_set, after_reset, after_seal, after_stage};
ghost use Rattle.core_changes.specs.LakeChanges.{after_tag_create};
ghost use Rattle.core_changes.specs.LakeChanges.{after_tag_delete, after_ticket_drop, after_ticket_take};
ghost use Rattle.core_puts.specs.Puts.{branch_at, create_branch_puts, create_tag_puts, delete_branch_puts};
ghost use Rattle.core_puts.specs.Puts.{delete_tag_puts, note_text, reset_puts, seal_puts, set_note_puts, stage_puts};
ghost use Rattle.core_puts.specs.Puts.{ticket_puts};
ghost use Rattle.core_pairs.specs.LakePairs.{AreTokensApart, HasBranchIn, StandFor, at_rest};

/// A ticket that is taken, or goes, and a fault of the store; pairs that stand for a lake stand for it put to rest, and
/// the other way round.
pub fn laws_of_kept_tickets()
    ensures take { (pairs : KeptPairs) (l : LakeStateValue) (seat : ℕ) → StandFor pairs l → AreFew l
        → StandFor (pairs_after (ticket_puts l) pairs) (after_ticket_take seat l) }
    ensures drop { (pairs : KeptPairs) (l : LakeStateValue) (number : ℕ) → StandFor pairs l
        → StandFor pairs (after_ticket_drop number l) }
    ensures fault { (pairs : KeptPairs) (l : LakeStateValue) → StandFor pairs l → StandFor pairs (after_fault l) }
    ensures rest { (pairs : KeptPairs) (l : LakeStateValue) → StandFor pairs l → StandFor pairs (at_rest l) }
    ensures awake { (pairs : KeptPairs) (l : LakeStateValue) → StandFor pairs (at_rest l) → StandFor pairs l }
{}

/// What is written to a branch that is there: a change is staged, an entry copied, changes are dropped, staged ones
/// are sealed.
pub fn laws_of_kept_writes()
    ensures stage { (pairs : KeptPairs) (l : LakeStateValue) (repo name path : List ℕ) (change : Change)
        → StandFor pairs l → AreTokensApart l → IsSome (branch_at repo name l)
        → path_fault path ≡ None → IsSpelledChange change
        → StandFor (pairs_after (stage_puts repo name path change l) pairs) (after_stage repo name path change l) }
    ensures copy { (pairs : KeptPairs) (l : LakeStateValue) (repo name path : List ℕ) (entry : EntryValue)
        → StandFor pairs l → AreTokensApart l → IsSome (branch_at repo name l)
        → path_fault path ≡ None → IsEntry entry
        → StandFor (pairs_after (stage_puts repo name path (Put entry) l) pairs) (after_copy repo name path entry l) }
    ensures reset { (pairs : KeptPairs) (l : LakeStateValue) (repo name : List ℕ) (what : ResetWhat)
        → StandFor pairs l → AreTokensApart l → AreFew l → IsSome (branch_at repo name l)
        → StandFor (pairs_after (reset_puts repo name what l) pairs) (after_reset repo name what l) }
    ensures seal { (pairs : KeptPairs) (l : LakeStateValue) (repo name : List ℕ)
        → StandFor pairs l → AreFew l
        → HasBranchIn l repo name (λ b. length (with_fresh l.next_token b).sealed < 2 ^ 32)
        → StandFor (pairs_after (seal_puts repo name l) pairs) (after_seal repo name l) }
{}

/// A branch that is made or goes, a tag, a setting, in a repository that is there.
pub fn laws_of_kept_names()
    ensures create_branch { (pairs : KeptPairs) (l : LakeStateValue) (repo name : List ℕ) (commit : Digest)
        → StandFor pairs l → AreFew l → IsSome (get l.repositories repo) → branch_at repo name l ≡ None
        → IsRefName name → IsDigest commit.0
        → StandFor (pairs_after (create_branch_puts repo name commit l) pairs)
        (after_branch_create repo name commit l) }
    ensures delete_branch { (pairs : KeptPairs) (l : LakeStateValue) (repo name : List ℕ)
        → StandFor pairs l → AreTokensApart l → IsSome (branch_at repo name l)
        → StandFor (pairs_after (delete_branch_puts repo name l) pairs) (after_branch_delete repo name l) }
    ensures create_tag { (pairs : KeptPairs) (l : LakeStateValue) (repo name : List ℕ) (commit : Digest)
        → StandFor pairs l → IsSome (get l.repositories repo) → IsRefName name → IsDigest commit.0
        → StandFor (pairs_after (create_tag_puts repo name commit) pairs) (after_tag_create repo name commit l) }
    ensures delete_tag { (pairs : KeptPairs) (l : LakeStateValue) (repo name : List ℕ)
        → StandFor pairs l → IsSome (get l.repositories repo) → IsRefName name
        → StandFor (pairs_after (delete_tag_puts repo name) pairs) (after_tag_delete repo name l) }
    ensures set_note { (pairs : KeptPairs) (l : LakeStateValue) (repo : List ℕ) (name : NoteName) (note : Option Note)
        → StandFor pairs l → AreFew l → IsSome (get l.repositories repo)
        → IfSome note (λ n. note_name n ≡ name) → IfSome note (λ n. AreBytes (note_text n))
        → StandFor (pairs_after (set_note_puts repo name note l) pairs) (after_note_set repo name note l) }
{}
