//! New repositories, and the fresh lake.
ghost use Rattle.std.specs.Prelude.{◌≡◌, ◌<◌, ◌^◌, ℕ, List, None};
ghost use Rattle.std.specs.FinMap.{empty, get};
ghost use Rattle.lake_base.specs.Names.{repo_fault};
ghost use Rattle.lake_format.specs.declared.cut.Cut.{Cut as AnyCut};
ghost use Rattle.lake_model.specs.Commits.{IsAdmissible, bare_repository, first_draft};
ghost use Rattle.lake_model.specs.Soundness.{IsSound};
ghost use Rattle.pair_format.specs.PairSpelling.{IsRefName};
ghost use Rattle.keeper.specs.Keepers.{KeptPairs, pairs_after};
ghost use Rattle.core_state.specs.Counts.{AreFew};
ghost use Rattle.core_state.specs.FirstStates.{fresh_lake};
ghost use Rattle.core_state.specs.Index.{HasIndex};
ghost use Rattle.core_state.specs.LakeStates.{LakeStateValue, state_of};
ghost use Rattle.core_changes.specs.LakeChanges.{after_repository_create};
ghost use Rattle.core_pairs.specs.PutWords.{fresh_puts};
ghost use Rattle.core_pairs.specs.PutWords.{create_repository_puts};
ghost use Rattle.core_pairs.specs.LakePairs.{AreTokensApart, StandFor};

/// A repository is made under a name that isn't taken, with an admissible first commit.
pub fn law_of_kept_repositories()
    ensures { (pairs : KeptPairs) (l : LakeStateValue) (repo branch : List ℕ) (date : ℕ)
        → StandFor pairs l → AreFew l → HasIndex l → IsSound (state_of l) → get l.repositories repo ≡ None
        → IsAdmissible (state_of l) (bare_repository date branch) (first_draft date)
        → repo_fault repo ≡ None → IsRefName branch → date < 2 ^ 64
        → StandFor (pairs_after (create_repository_puts repo branch date l) pairs)
        (after_repository_create repo branch date l) }
{}

/// Where there were no pairs, those after the puts of the fresh lake stand for it, and its tokens are apart.
pub fn law_of_fresh_pairs()
    ensures pairs { (cut : AnyCut) → StandFor (pairs_after (fresh_puts cut) empty) (fresh_lake cut) }
    ensures tokens { (cut : AnyCut) → AreTokensApart (fresh_lake cut) }
{}
