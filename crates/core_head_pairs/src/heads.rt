//! New heads.
ghost use Rattle.std.specs.Prelude.{◌≡◌, ℕ, List, Option, Some, IsSome};
ghost use Rattle.std.specs.FinMap.{get};
ghost use Rattle.lake_base.specs.Maps.{ByteMap};
ghost use Rattle.lake_format.specs.Spelling.{IsSpelledCommit};
ghost use Rattle.meta_range.specs.Files.{FitsTree};
ghost use Rattle.lake_model.specs.Commits.{Draft, IsAdmissible};
ghost use Rattle.lake_model.specs.Soundness.{IsSound};
ghost use Rattle.keeper.specs.Keepers.{KeptPairs, pairs_after};
ghost use Rattle.core_state.specs.Counts.{AreFew};
ghost use Rattle.core_state.specs.Index.{HasIndex};
ghost use Rattle.core_state.specs.LakeStates.{LakeStateValue, state_of};
ghost use Rattle.core_state.specs.NewCommits.{NewCommit, commit_of_draft};
ghost use Rattle.core_state.specs.RepositoryStates.{RepositoryStateValue, repository_of};
ghost use Rattle.core_state.specs.declared.file_place.FilePlace.{FilePlace as AnyFilePlace};
ghost use Rattle.core_changes.specs.LakeChanges.{after_new_head};
ghost use Rattle.core_pairs.specs.PutWords.{new_head_puts};
ghost use Rattle.core_pairs.specs.KeptPlaces.{HasPlaces};
ghost use Rattle.core_pairs.specs.LakePairs.{AreTokensApart, StandFor};

/// The commit of an admissible draft, within its limits, becomes the head of a branch that is there: of the files
/// of its tree those are put that the index doesn't tell of as such.
pub fn law_of_kept_heads()
    ensures { (pairs : KeptPairs) (l : LakeStateValue) (kept : ByteMap (Option AnyFilePlace)) (repo name : List ℕ)
        (r : RepositoryStateValue) (draft : Draft) (new : NewCommit)
        → StandFor pairs l → AreTokensApart l → AreFew l → HasIndex l → IsSound (state_of l) → HasPlaces kept l
        → get l.repositories repo ≡ Some r → IsSome (get r.branches name)
        → IsAdmissible (state_of l) (repository_of r) draft → new ≡ commit_of_draft l.cut r.commits draft
        → IsSpelledCommit new.content → FitsTree draft.objects
        → StandFor (pairs_after (new_head_puts repo name new kept l) pairs) (after_new_head repo name new l) }
{}
