//! Own numbers go on to have been given out.
ghost use Rattle.std.specs.Prelude.{◌<◌, ℕ, List, Option, IfSome};
ghost use Rattle.lake_base.specs.Maps.{HasAscendingKeys};
ghost use Rattle.lake_base.specs.declared.digest.Digest.{Digest};
ghost use Rattle.lake_values.specs.Entry.{EntryValue};
ghost use Rattle.lake_values.specs.declared.commit.ResetWhat.{ResetWhat};
ghost use Rattle.lake_values.specs.declared.entry.Change.{Change};
ghost use Rattle.lake_values.specs.declared.settings.Note.{Note};
ghost use Rattle.lake_values.specs.declared.settings.NoteName.{NoteName};
ghost use Rattle.lake_format.specs.declared.cut.Cut.{Cut as AnyCut};
ghost use Rattle.lake_model.specs.Uncommitted.{own_number, put_number};
ghost use Rattle.pair_format.specs.declared.pair.Pair.{Pair as AnyPair};
ghost use Rattle.keeper.specs.Keepers.{entries_of};
ghost use Rattle.pair_trees.specs.Things.{things_of};
ghost use Rattle.pair_ties.specs.PairTies.{AreTied};
ghost use Rattle.core_state.specs.FirstStates.{fresh_lake};
ghost use Rattle.core_state.specs.LakeStates.{LakeStateValue};
ghost use Rattle.core_state.specs.NewCommits.{NewCommit};
ghost use Rattle.core_changes.specs.LakeChanges.{after_branch_create, after_branch_delete, after_copy, after_fault};
ghost use Rattle.core_changes.specs.LakeChanges.{after_new_head, after_note_set, after_repository_create, after_reset};
ghost use Rattle.core_changes.specs.LakeChanges.{after_seal, after_stage, after_tag_create, after_tag_delete};
ghost use Rattle.core_changes.specs.LakeChanges.{after_ticket_drop, after_ticket_take};
ghost use Rattle.opening_laws.specs.ReadLakes.{IsReadFrom};
ghost use Rattle.reading_again.specs.GivenNumbers.{AreNumbersGiven, IsMapBelow};

/// The own numbers of a lake were given out at the start, and go on to have been: where the number of a change that is
/// staged, of an entry that is copied, and each in the map of a new commit was.
pub fn laws_of_given_numbers()
    ensures fresh { (cut : AnyCut) → AreNumbersGiven (fresh_lake cut) }
    ensures ticket_take { (l : LakeStateValue) (seat : ℕ) → AreNumbersGiven l
        → AreNumbersGiven (after_ticket_take seat l) }
    ensures ticket_drop { (l : LakeStateValue) (number : ℕ) → AreNumbersGiven l
        → AreNumbersGiven (after_ticket_drop number l) }
    ensures fault { (l : LakeStateValue) → AreNumbersGiven l → AreNumbersGiven (after_fault l) }
    ensures stage { (l : LakeStateValue) (repo name path : List ℕ) (change : Change) → AreNumbersGiven l
        → IfSome (put_number change) (λ number. number < l.next_number)
        → AreNumbersGiven (after_stage repo name path change l) }
    ensures copy { (l : LakeStateValue) (repo name path : List ℕ) (entry : EntryValue) → AreNumbersGiven l
        → IfSome (own_number entry.place) (λ number. number < l.next_number)
        → AreNumbersGiven (after_copy repo name path entry l) }
    ensures reset { (l : LakeStateValue) (repo name : List ℕ) (what : ResetWhat) → AreNumbersGiven l
        → AreNumbersGiven (after_reset repo name what l) }
    ensures seal { (l : LakeStateValue) (repo name : List ℕ) → AreNumbersGiven l
        → AreNumbersGiven (after_seal repo name l) }
    ensures branch_create { (l : LakeStateValue) (repo name : List ℕ) (commit : Digest) → AreNumbersGiven l
        → AreNumbersGiven (after_branch_create repo name commit l) }
    ensures branch_delete { (l : LakeStateValue) (repo name : List ℕ) → AreNumbersGiven l
        → AreNumbersGiven (after_branch_delete repo name l) }
    ensures tag_create { (l : LakeStateValue) (repo name : List ℕ) (commit : Digest) → AreNumbersGiven l
        → AreNumbersGiven (after_tag_create repo name commit l) }
    ensures tag_delete { (l : LakeStateValue) (repo name : List ℕ) → AreNumbersGiven l
        → AreNumbersGiven (after_tag_delete repo name l) }
    ensures note_set { (l : LakeStateValue) (repo : List ℕ) (name : NoteName) (note : Option Note) → AreNumbersGiven l
        → AreNumbersGiven (after_note_set repo name note l) }
    ensures new_head { (l : LakeStateValue) (repo name : List ℕ) (new : NewCommit) → AreNumbersGiven l
        → IsMapBelow l.next_number new.tree.map → AreNumbersGiven (after_new_head repo name new l) }
    ensures repository_create { (l : LakeStateValue) (repo branch : List ℕ) (date : ℕ) → AreNumbersGiven l
        → AreNumbersGiven (after_repository_create repo branch date l) }
{}

/// Those of a lake that was read from tied pairs, whose keys ascend, were given out.
pub fn law_of_read_numbers()
    ensures { (cut : AnyCut) (pairs : List AnyPair) (l : LakeStateValue) → AreTied cut (things_of pairs)
        → HasAscendingKeys (entries_of pairs) → IsReadFrom cut pairs l → AreNumbersGiven l }
{}
