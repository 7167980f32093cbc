//! What a change makes of the state that a lake stands for, of its versions and of its tokens. Each law is the contract
//! of a function that does nothing.
ghost use Rattle.std.specs.Prelude.{◌≡◌, List, ℕ, Option, Some, None, IsSome};
ghost use Rattle.std.specs.FinMap.{get};
ghost use Rattle.lake_base.specs.declared.digest.Digest.{Digest};
ghost use Rattle.lake_values.specs.Entry.{EntryValue};
ghost use Rattle.lake_values.specs.declared.commit.ResetWhat.{ResetWhat};
ghost use Rattle.lake_values.specs.declared.entry.Change.{Change};
ghost use Rattle.lake_values.specs.declared.settings.Note.{Note};
ghost use Rattle.lake_values.specs.declared.settings.NoteName.{NoteName};
ghost use Rattle.lake_model.specs.declared.history.By.{By};
ghost use Rattle.lake_model.specs.declared.history.CopySource.{CopySource};
ghost use Rattle.lake_model.specs.declared.history.Operation.{Operation};
ghost use Rattle.lake_model.specs.declared.history.Operation.TheVariants.{BranchCreate, BranchDelete, Copy, NoteSet};
ghost use Rattle.lake_model.specs.declared.history.Operation.TheVariants.{RepoCreate, Reset, Seal, Stage, TagCreate};
ghost use Rattle.lake_model.specs.declared.history.Operation.TheVariants.{TagDelete, TicketDrop, TicketTake};
ghost use Rattle.lake_model.specs.declared.history.SealFor.{SealFor};
ghost use Rattle.lake_model.specs.Commits.{IsAdmissible, bare_repository, first_draft};
ghost use Rattle.lake_model.specs.Soundness.{IsSound};
ghost use Rattle.lake_model.specs.History.{accepted_entry, after, faulted_entry};
ghost use Rattle.lake_model.specs.Versions.{VersionsGiven, versions_after};
ghost use Rattle.core_state.specs.Index.{HasIndex};
ghost use Rattle.core_state.specs.Counts.{AreCounted, AreFew, HasVersions};
ghost use Rattle.core_state.specs.LakeStates.{LakeStateValue, state_of};
ghost use Rattle.core_changes.specs.FreshTokens.{AreTokensBelow};
ghost use Rattle.core_changes.specs.LakeChanges.{after_branch_create, after_branch_delete, after_copy, after_fault};
ghost use Rattle.core_changes.specs.LakeChanges.{after_note_set, after_repository_create, after_reset, after_seal};
ghost use Rattle.core_changes.specs.LakeChanges.{after_stage, after_tag_create, after_tag_delete, after_ticket_drop};
ghost use Rattle.core_changes.specs.LakeChanges.{after_ticket_take};

/// What each operation makes of a lake is what its entry makes of the state that the lake stands for. Of a change that
/// is staged, copied or sealed this needs tokens that differ and are below the next one.
pub fn laws_of_states()
    ensures ticket_take { (l : LakeStateValue) (by : By) (repo branch : List ℕ)
        → state_of (after_ticket_take by.seat l)
        ≡ after (state_of l) (accepted_entry by (TicketTake repo branch l.next_number)) }
    ensures ticket_drop { (l : LakeStateValue) (by : By) (number : ℕ)
        → state_of (after_ticket_drop number l) ≡ after (state_of l) (accepted_entry by (TicketDrop number)) }
    ensures stage { (l : LakeStateValue) (by : By) (repo branch path : List ℕ) (change : Change) → AreTokensBelow l
        → state_of (after_stage repo branch path change l)
        ≡ after (state_of l) (accepted_entry by (Stage repo branch path change)) }
    ensures copy { (l : LakeStateValue) (by : By) (repo branch path : List ℕ)
        (from : CopySource) (from_path : List ℕ) (entry : EntryValue)
        → AreTokensBelow l
        → state_of (after_copy repo branch path entry l)
        ≡ after (state_of l) (accepted_entry by (Copy repo branch path from from_path entry)) }
    ensures reset { (l : LakeStateValue) (by : By) (repo branch : List ℕ) (what : ResetWhat)
        → state_of (after_reset repo branch what l) ≡ after (state_of l) (accepted_entry by (Reset repo branch what)) }
    ensures seal { (l : LakeStateValue) (by : By) (repo branch : List ℕ) (why : SealFor) → AreTokensBelow l
        → state_of (after_seal repo branch l) ≡ after (state_of l) (accepted_entry by (Seal repo branch why)) }
    ensures branch_create { (l : LakeStateValue) (by : By) (repo branch : List ℕ) (commit : Digest)
        → state_of (after_branch_create repo branch commit l)
        ≡ after (state_of l) (accepted_entry by (BranchCreate repo branch commit)) }
    ensures branch_delete { (l : LakeStateValue) (by : By) (repo branch : List ℕ)
        → state_of (after_branch_delete repo branch l)
        ≡ after (state_of l) (accepted_entry by (BranchDelete repo branch)) }
    ensures tag_create { (l : LakeStateValue) (by : By) (repo tag : List ℕ) (commit : Digest)
        → state_of (after_tag_create repo tag commit l)
        ≡ after (state_of l) (accepted_entry by (TagCreate repo tag commit)) }
    ensures tag_delete { (l : LakeStateValue) (by : By) (repo tag : List ℕ)
        → state_of (after_tag_delete repo tag l) ≡ after (state_of l) (accepted_entry by (TagDelete repo tag)) }
    ensures note_set { (l : LakeStateValue) (by : By) (repo : List ℕ) (name : NoteName) (note : Option Note)
        → state_of (after_note_set repo name note l) ≡ after (state_of l) (accepted_entry by (NoteSet repo name note)) }
    ensures repository_create { (l : LakeStateValue) (by : By) (repo branch : List ℕ) (date : ℕ)
        → state_of (after_repository_create repo branch date l)
        ≡ after (state_of l) (accepted_entry by (RepoCreate repo branch date)) }
    ensures fault { (l : LakeStateValue) (by : By) (tried : Operation)
        → state_of (after_fault l) ≡ after (state_of l) (faulted_entry by tried) }
{}

/// The versions of a lake stay those that were counted over its history. A setting is set of a repository that is
/// there, and a repository made where none is.
pub fn laws_of_counts()
    ensures ticket_take { (given : VersionsGiven) (l : LakeStateValue) (by : By) (repo branch : List ℕ) (number : ℕ)
        → HasVersions given l
        → HasVersions (versions_after given (accepted_entry by (TicketTake repo branch number)))
        (after_ticket_take by.seat l) }
    ensures ticket_drop { (given : VersionsGiven) (l : LakeStateValue) (by : By) (number : ℕ) → HasVersions given l
        → HasVersions (versions_after given (accepted_entry by (TicketDrop number))) (after_ticket_drop number l) }
    ensures stage { (given : VersionsGiven) (l : LakeStateValue) (by : By) (repo branch path : List ℕ) (change : Change)
        → HasVersions given l
        → HasVersions (versions_after given (accepted_entry by (Stage repo branch path change)))
        (after_stage repo branch path change l) }
    ensures copy { (given : VersionsGiven) (l : LakeStateValue) (by : By) (repo branch path : List ℕ)
        (from : CopySource) (from_path : List ℕ) (entry : EntryValue)
        → HasVersions given l
        → HasVersions (versions_after given (accepted_entry by (Copy repo branch path from from_path entry)))
        (after_copy repo branch path entry l) }
    ensures reset { (given : VersionsGiven) (l : LakeStateValue) (by : By) (repo branch : List ℕ) (what : ResetWhat)
        → HasVersions given l
        → HasVersions (versions_after given (accepted_entry by (Reset repo branch what)))
        (after_reset repo branch what l) }
    ensures seal { (given : VersionsGiven) (l : LakeStateValue) (by : By) (repo branch : List ℕ) (why : SealFor)
        → HasVersions given l
        → HasVersions (versions_after given (accepted_entry by (Seal repo branch why))) (after_seal repo branch l) }
    ensures branch_create { (given : VersionsGiven) (l : LakeStateValue) (by : By) (repo branch : List ℕ)
        (commit : Digest)
        → HasVersions given l
        → HasVersions (versions_after given (accepted_entry by (BranchCreate repo branch commit)))
        (after_branch_create repo branch commit l) }
    ensures branch_delete { (given : VersionsGiven) (l : LakeStateValue) (by : By) (repo branch : List ℕ)
        → HasVersions given l
        → HasVersions (versions_after given (accepted_entry by (BranchDelete repo branch)))
        (after_branch_delete repo branch l) }
    ensures tag_create { (given : VersionsGiven) (l : LakeStateValue) (by : By) (repo tag : List ℕ) (commit : Digest)
        → HasVersions given l
        → HasVersions (versions_after given (accepted_entry by (TagCreate repo tag commit)))
        (after_tag_create repo tag commit l) }
    ensures tag_delete { (given : VersionsGiven) (l : LakeStateValue) (by : By) (repo tag : List ℕ)
        → HasVersions given l
        → HasVersions (versions_after given (accepted_entry by (TagDelete repo tag))) (after_tag_delete repo tag l) }
    ensures note_set { (given : VersionsGiven) (l : LakeStateValue) (by : By) (repo : List ℕ)
        (name : NoteName) (note : Option Note)
        → HasVersions given l
        → IsSome (get l.repositories repo)
        → HasVersions (versions_after given (accepted_entry by (NoteSet repo name note)))
        (after_note_set repo name note l) }
    ensures repository_create { (given : VersionsGiven) (l : LakeStateValue)
        (by : By) (repo branch : List ℕ) (date : ℕ)
        → HasVersions given l
        → get l.repositories repo ≡ None
        → HasVersions (versions_after given (accepted_entry by (RepoCreate repo branch date)))
        (after_repository_create repo branch date l) }
    ensures fault { (given : VersionsGiven) (l : LakeStateValue) (by : By) (tried : Operation) → HasVersions given l
        → HasVersions (versions_after given (faulted_entry by tried)) (after_fault l) }
{}

/// The tokens of each branch stay below the next one, and differ.
pub fn laws_of_tokens()
    ensures ticket_take { (l : LakeStateValue) (seat : ℕ) → AreTokensBelow l
        → AreTokensBelow (after_ticket_take seat l) }
    ensures ticket_drop { (l : LakeStateValue) (number : ℕ)
        → AreTokensBelow l → AreTokensBelow (after_ticket_drop number l) }
    ensures stage { (l : LakeStateValue) (repo branch path : List ℕ) (change : Change)
        → AreTokensBelow l → AreTokensBelow (after_stage repo branch path change l) }
    ensures copy { (l : LakeStateValue) (repo branch path : List ℕ) (entry : EntryValue)
        → AreTokensBelow l → AreTokensBelow (after_copy repo branch path entry l) }
    ensures reset { (l : LakeStateValue) (repo branch : List ℕ) (what : ResetWhat)
        → AreTokensBelow l → AreTokensBelow (after_reset repo branch what l) }
    ensures seal { (l : LakeStateValue) (repo branch : List ℕ)
        → AreTokensBelow l → AreTokensBelow (after_seal repo branch l) }
    ensures branch_create { (l : LakeStateValue) (repo branch : List ℕ) (commit : Digest)
        → AreTokensBelow l → AreTokensBelow (after_branch_create repo branch commit l) }
    ensures branch_delete { (l : LakeStateValue) (repo branch : List ℕ)
        → AreTokensBelow l → AreTokensBelow (after_branch_delete repo branch l) }
    ensures tag_create { (l : LakeStateValue) (repo tag : List ℕ) (commit : Digest)
        → AreTokensBelow l → AreTokensBelow (after_tag_create repo tag commit l) }
    ensures tag_delete { (l : LakeStateValue) (repo tag : List ℕ)
        → AreTokensBelow l → AreTokensBelow (after_tag_delete repo tag l) }
    ensures note_set { (l : LakeStateValue) (repo : List ℕ) (name : NoteName) (note : Option Note)
        → AreTokensBelow l → AreTokensBelow (after_note_set repo name note l) }
    ensures repository_create { (l : LakeStateValue) (repo branch : List ℕ) (date : ℕ)
        → AreTokensBelow l → AreTokensBelow (after_repository_create repo branch date l) }
    ensures fault { (l : LakeStateValue) → AreTokensBelow l → AreTokensBelow (after_fault l) }
{}

/// The counts of a lake stay small: each change counts at most one.
pub fn laws_of_few()
    ensures ticket_take { (l : LakeStateValue) (seat : ℕ) → AreFew l → AreCounted (after_ticket_take seat l) }
    ensures ticket_drop { (l : LakeStateValue) (number : ℕ) → AreFew l → AreCounted (after_ticket_drop number l) }
    ensures stage { (l : LakeStateValue) (repo branch path : List ℕ) (change : Change)
        → AreFew l → AreCounted (after_stage repo branch path change l) }
    ensures copy { (l : LakeStateValue) (repo branch path : List ℕ) (entry : EntryValue)
        → AreFew l → AreCounted (after_copy repo branch path entry l) }
    ensures reset { (l : LakeStateValue) (repo branch : List ℕ) (what : ResetWhat)
        → AreFew l → AreCounted (after_reset repo branch what l) }
    ensures seal { (l : LakeStateValue) (repo branch : List ℕ) → AreFew l → AreCounted (after_seal repo branch l) }
    ensures branch_create { (l : LakeStateValue) (repo branch : List ℕ) (commit : Digest)
        → AreFew l → AreCounted (after_branch_create repo branch commit l) }
    ensures branch_delete { (l : LakeStateValue) (repo branch : List ℕ)
        → AreFew l → AreCounted (after_branch_delete repo branch l) }
    ensures tag_create { (l : LakeStateValue) (repo tag : List ℕ) (commit : Digest)
        → AreFew l → AreCounted (after_tag_create repo tag commit l) }
    ensures tag_delete { (l : LakeStateValue) (repo tag : List ℕ)
        → AreFew l → AreCounted (after_tag_delete repo tag l) }
    ensures note_set { (l : LakeStateValue) (repo : List ℕ) (name : NoteName) (note : Option Note)
        → AreFew l → AreCounted (after_note_set repo name note l) }
    ensures repository_create { (l : LakeStateValue) (repo branch : List ℕ) (date : ℕ)
        → AreFew l → AreCounted (after_repository_create repo branch date l) }
    ensures fault { (l : LakeStateValue) → AreFew l → AreCounted (after_fault l) }
{}

/// The index of a lake goes on to tell of just what is kept. A repository is made where none is, with a first commit
/// that is admissible.
pub fn laws_of_indexes()
    ensures ticket_take { (l : LakeStateValue) (seat : ℕ) → HasIndex l → HasIndex (after_ticket_take seat l) }
    ensures ticket_drop { (l : LakeStateValue) (number : ℕ) → HasIndex l → HasIndex (after_ticket_drop number l) }
    ensures stage { (l : LakeStateValue) (repo branch path : List ℕ) (change : Change)
        → HasIndex l → HasIndex (after_stage repo branch path change l) }
    ensures copy { (l : LakeStateValue) (repo branch path : List ℕ) (entry : EntryValue)
        → HasIndex l → HasIndex (after_copy repo branch path entry l) }
    ensures reset { (l : LakeStateValue) (repo branch : List ℕ) (what : ResetWhat)
        → HasIndex l → HasIndex (after_reset repo branch what l) }
    ensures seal { (l : LakeStateValue) (repo branch : List ℕ) → HasIndex l → HasIndex (after_seal repo branch l) }
    ensures branch_create { (l : LakeStateValue) (repo branch : List ℕ) (commit : Digest)
        → HasIndex l → HasIndex (after_branch_create repo branch commit l) }
    ensures branch_delete { (l : LakeStateValue) (repo branch : List ℕ)
        → HasIndex l → HasIndex (after_branch_delete repo branch l) }
    ensures tag_create { (l : LakeStateValue) (repo tag : List ℕ) (commit : Digest)
        → HasIndex l → HasIndex (after_tag_create repo tag commit l) }
    ensures tag_delete { (l : LakeStateValue) (repo tag : List ℕ)
        → HasIndex l → HasIndex (after_tag_delete repo tag l) }
    ensures note_set { (l : LakeStateValue) (repo : List ℕ) (name : NoteName) (note : Option Note)
        → HasIndex l → HasIndex (after_note_set repo name note l) }
    ensures repository_create { (l : LakeStateValue) (repo branch : List ℕ) (date : ℕ)
        → HasIndex l
        → IsSound (state_of l)
        → get l.repositories repo ≡ None
        → IsAdmissible (state_of l) (bare_repository date branch) (first_draft date)
        → HasIndex (after_repository_create repo branch date l) }
    ensures fault { (l : LakeStateValue) → HasIndex l → HasIndex (after_fault l) }
{}
