//! What holds of a new repository and of the fresh lake. A law is the contract of a function that does nothing.
ghost use Rattle.std.specs.Prelude.{◌≡◌, ◌∷◌, ◌++◌, [], ℕ, List, codes};
ghost use Rattle.std.specs.FinMap.{empty};
ghost use Rattle.lake_format.specs.Cutting.{files};
ghost use Rattle.lake_format.specs.declared.cut.Cut.{Cut as AnyCut};
ghost use Rattle.lake_model.specs.Commits.{new_repository};
ghost use Rattle.lake_model.specs.Soundness.{fresh};
ghost use Rattle.lake_model.specs.Versions.{fresh_versions};
ghost use Rattle.core_state.specs.BranchStates.{new_branch};
ghost use Rattle.core_state.specs.Counts.{AreCounted, HasVersions};
ghost use Rattle.core_state.specs.FirstStates.{first_id, first_record, founded_repository, fresh_lake};
ghost use Rattle.core_state.specs.Index.{HasIndex};
ghost use Rattle.core_state.specs.LakeStates.{state_of};
ghost use Rattle.core_state.specs.RepositoryStates.{repository_of};
ghost use Rattle.core_changes.specs.FreshTokens.{AreTokensBelow};
ghost use Rattle.core_puts.specs.Puts.{branch_put, commit_put, counts_put, file_puts, repository_put};
ghost use Rattle.core_puts.specs.FreshLakes.{fresh_puts};

use core_changes::laws_of_indexes;

/// A new repository and the fresh lake stand for those of the one-thread lake. In the fresh lake the versions are the
/// fresh ones, every token is below the next one, the counts are small, and the index tells of just what is kept. Its
/// puts are those of its repository, the branch, the commit and the files of that one's tree, and of its counts.
pub fn laws_of_founding()
    ensures repository { (cut : AnyCut) (date : ℕ) (branch : List ℕ) (version token : ℕ)
        → repository_of (founded_repository cut date branch version token) ≡ new_repository cut date branch }
    ensures state { (cut : AnyCut) → state_of (fresh_lake cut) ≡ fresh cut }
    ensures versions { (cut : AnyCut) → HasVersions fresh_versions (fresh_lake cut) }
    ensures tokens { (cut : AnyCut) → AreTokensBelow (fresh_lake cut) }
    ensures counted { (cut : AnyCut) → AreCounted (fresh_lake cut) }
    ensures index { (cut : AnyCut) → HasIndex (fresh_lake cut) }
    ensures puts { (cut : AnyCut) → fresh_puts cut
        ≡ repository_put (codes "quickstart") (founded_repository cut 0 (codes "main") 1 0)
        ∷ branch_put (codes "quickstart") (codes "main") (new_branch 1 (first_id cut 0) 0)
        ∷ commit_put (codes "quickstart") (first_id cut 0) (first_record cut 0)
        ∷ (file_puts (files cut empty) ++ counts_put (fresh_lake cut) ∷ []) }
{
    laws_of_indexes();
}
