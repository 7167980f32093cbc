//! What the index of a lake tells of the files that are kept.
ghost use Rattle.std.specs.Prelude.{◌≡◌, ℕ, List, Option, Some, None};
ghost use Rattle.std.specs.FinMap.{empty, get};
ghost use Rattle.lake_base.specs.Maps.{ByteMap};
ghost use Rattle.lake_base.specs.declared.digest.Digest.{Digest};
ghost use Rattle.lake_values.specs.Entry.{EntryValue};
ghost use Rattle.lake_values.specs.declared.commit.ResetWhat.{ResetWhat};
ghost use Rattle.lake_values.specs.declared.entry.Change.{Change};
ghost use Rattle.lake_values.specs.declared.settings.Note.{Note};
ghost use Rattle.lake_values.specs.declared.settings.NoteName.{NoteName};
ghost use Rattle.lake_format.specs.declared.cut.Cut.{Cut as AnyCut};
ghost use Rattle.lake_model.specs.Commits.{Draft, IsAdmissible};
ghost use Rattle.lake_model.specs.Soundness.{IsSound};
ghost use Rattle.core_state.specs.FirstStates.{first_tree, fresh_lake};
ghost use Rattle.core_state.specs.Index.{HasIndex};
ghost use Rattle.core_state.specs.LakeStates.{LakeStateValue, state_of};
ghost use Rattle.core_state.specs.NewCommits.{NewCommit, commit_of_draft};
ghost use Rattle.core_state.specs.RepositoryStates.{RepositoryStateValue, repository_of};
ghost use Rattle.core_state.specs.declared.file_place.FilePlace.{FilePlace as AnyFilePlace};
ghost use Rattle.core_changes.specs.LakeChanges.{after_branch_create, after_branch_delete, after_copy, after_fault};
ghost use Rattle.core_changes.specs.LakeChanges.{after_new_head, after_note_set, after_repository_create, after_reset};
ghost use Rattle.core_changes.specs.LakeChanges.{after_seal, after_stage, after_tag_create, after_tag_delete};
ghost use Rattle.core_changes.specs.LakeChanges.{after_ticket_drop, after_ticket_take};
ghost use Rattle.core_pairs.specs.KeptPlaces.{HasNewPlaces, HasPlaces};

/// The places that an index has go on to be those of files of trees of the lake, of the kinds that they have there. A
/// new head and a new repository add places of files of their trees; every other change adds none.
pub fn laws_of_places()
    ensures fresh { (kept : ByteMap (Option AnyFilePlace)) (cut : AnyCut)
        → HasNewPlaces empty kept (first_tree cut) → HasPlaces kept (fresh_lake cut) }
    ensures new_head { (before after : ByteMap (Option AnyFilePlace)) (l : LakeStateValue) (repo name : List ℕ)
        (r : RepositoryStateValue) (draft : Draft) (new : NewCommit)
        → HasPlaces before l → HasIndex l → IsSound (state_of l) → get l.repositories repo ≡ Some r
        → IsAdmissible (state_of l) (repository_of r) draft → new ≡ commit_of_draft l.cut r.commits draft
        → HasNewPlaces before after new.tree → HasPlaces after (after_new_head repo name new l) }
    ensures repository_create { (before after : ByteMap (Option AnyFilePlace)) (l : LakeStateValue)
        (repo branch : List ℕ) (date : ℕ)
        → HasPlaces before l → get l.repositories repo ≡ None → HasNewPlaces before after (first_tree l.cut)
        → HasPlaces after (after_repository_create repo branch date l) }
    ensures ticket_take { (kept : ByteMap (Option AnyFilePlace)) (l : LakeStateValue) (seat : ℕ)
        → HasPlaces kept l → HasPlaces kept (after_ticket_take seat l) }
    ensures ticket_drop { (kept : ByteMap (Option AnyFilePlace)) (l : LakeStateValue) (number : ℕ)
        → HasPlaces kept l → HasPlaces kept (after_ticket_drop number l) }
    ensures fault { (kept : ByteMap (Option AnyFilePlace)) (l : LakeStateValue)
        → HasPlaces kept l → HasPlaces kept (after_fault l) }
    ensures stage { (kept : ByteMap (Option AnyFilePlace)) (l : LakeStateValue)
        (repo name path : List ℕ) (change : Change)
        → HasPlaces kept l → HasPlaces kept (after_stage repo name path change l) }
    ensures copy { (kept : ByteMap (Option AnyFilePlace)) (l : LakeStateValue)
        (repo name path : List ℕ) (entry : EntryValue)
        → HasPlaces kept l → HasPlaces kept (after_copy repo name path entry l) }
    ensures reset { (kept : ByteMap (Option AnyFilePlace)) (l : LakeStateValue)
        (repo name : List ℕ) (what : ResetWhat)
        → HasPlaces kept l → HasPlaces kept (after_reset repo name what l) }
    ensures seal { (kept : ByteMap (Option AnyFilePlace)) (l : LakeStateValue) (repo name : List ℕ)
        → HasPlaces kept l → HasPlaces kept (after_seal repo name l) }
    ensures branch_create { (kept : ByteMap (Option AnyFilePlace)) (l : LakeStateValue)
        (repo name : List ℕ) (commit : Digest)
        → HasPlaces kept l → HasPlaces kept (after_branch_create repo name commit l) }
    ensures branch_delete { (kept : ByteMap (Option AnyFilePlace)) (l : LakeStateValue) (repo name : List ℕ)
        → HasPlaces kept l → HasPlaces kept (after_branch_delete repo name l) }
    ensures tag_create { (kept : ByteMap (Option AnyFilePlace)) (l : LakeStateValue)
        (repo name : List ℕ) (commit : Digest)
        → HasPlaces kept l → HasPlaces kept (after_tag_create repo name commit l) }
    ensures tag_delete { (kept : ByteMap (Option AnyFilePlace)) (l : LakeStateValue) (repo name : List ℕ)
        → HasPlaces kept l → HasPlaces kept (after_tag_delete repo name l) }
    ensures note_set { (kept : ByteMap (Option AnyFilePlace)) (l : LakeStateValue)
        (repo : List ℕ) (name : NoteName) (note : Option Note)
        → HasPlaces kept l → HasPlaces kept (after_note_set repo name note l) }
{}
