//! What is read by the id of a commit.
ghost use Rattle.std.specs.Prelude.{◌≡◌, List, ℕ, Bool, Some, Ok};
ghost use Rattle.std.specs.FinMap.{get};
ghost use Rattle.lake_base.specs.declared.digest.Digest.{Digest};
ghost use Rattle.lake_model.specs.declared.history.HistoryEntry.{HistoryEntry};
ghost use Rattle.lake_model.specs.State.{HasCommit, HasRepository, Repository, State, map_of};
ghost use Rattle.lake_model.specs.History.{IsLegal, replay};
ghost use Rattle.lake_model.specs.Readings.{expression_map};
ghost use Rattle.lake_model.specs.Resolving.{by_id};
ghost use Rattle.lake_model.specs.Soundness.{IsSound};

use lake_laws::identity::law_of_identity;
use lake_laws::soundness::law_of_soundness;

/// A sound lake reads by the id of a commit the commit's map, and goes on to read just this map by it, whatever legal
/// entries follow. (A law: it does nothing.)
pub fn law_of_reading_by_id()
    ensures now { (state : State) (repo : List ℕ) (r : Repository) (id : Digest) (at : Bool)
        → IsSound state → get state.repositories repo ≡ Some r → HasCommit r id
        → expression_map r (by_id id at) ≡ Ok (map_of r id) }
    ensures later { (state : State) (entries : List HistoryEntry) (repo : List ℕ) (r : Repository) (id : Digest)
        (at : Bool)
        → IsSound state → IsLegal state entries → get state.repositories repo ≡ Some r → HasCommit r id
        → HasRepository (replay state entries) repo
        (λ s. expression_map s (by_id id at) ≡ expression_map r (by_id id at)) }
{
    law_of_identity();
    law_of_soundness();
}
