//! What an id and a tag name stays, and so does the merge base of two commits.
ghost use Rattle.std.specs.Prelude.{◌≡◌, List, ℕ, Some};
ghost use Rattle.std.specs.FinMap.{get};
ghost use Rattle.lake_base.specs.declared.digest.Digest.{Digest};
ghost use Rattle.lake_values.specs.Ancestry.{base, commit_of};
ghost use Rattle.lake_values.specs.Commit.{CommitRecordValue};
ghost use Rattle.lake_model.specs.declared.history.HistoryEntry.{HistoryEntry};
ghost use Rattle.lake_model.specs.State.{Repository, State, HasCommit, HasRepository, map_of};
ghost use Rattle.lake_model.specs.History.{IsLegal, replay};
ghost use Rattle.lake_model.specs.Soundness.{IsSound};
ghost use Rattle.lake_laws.specs.Tags.{DeletesNot};

/// After a legal history a commit has the record and the map that it had before, and a tag that no entry deleted the
/// commit. In a sound lake two commits have the merge base that they had before.
pub fn law_of_identity()
    ensures commits { (state : State) (entries : List HistoryEntry) (repo : List ℕ) (r : Repository) (id : Digest)
        (commit : CommitRecordValue)
        → IsLegal state entries → get state.repositories repo ≡ Some r → commit_of r.commits id ≡ Some commit
        → HasRepository (replay state entries) repo
        (λ s. (commit_of s.commits id ≡ Some commit) × (map_of s id ≡ map_of r id)) }
    ensures tags { (state : State) (entries : List HistoryEntry) (repo tag : List ℕ) (r : Repository) (id : Digest)
        → IsLegal state entries → get state.repositories repo ≡ Some r → get r.tags tag ≡ Some id
        → DeletesNot repo tag entries
        → HasRepository (replay state entries) repo (λ s. get s.tags tag ≡ Some id) }
    ensures bases { (state : State) (entries : List HistoryEntry) (repo : List ℕ) (r : Repository) (a b : Digest)
        → IsSound state → IsLegal state entries → get state.repositories repo ≡ Some r → HasCommit r a → HasCommit r b
        → HasRepository (replay state entries) repo (λ s. base s.commits a b ≡ base r.commits a b) }
{}
