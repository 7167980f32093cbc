//! What stays along a legal history: the ticket of a seat, a commit, and that the text of its id leads to it.
ghost use Rattle.std.specs.Prelude.{◌≡◌, ◌++◌, All, Bool, List, ℕ, Ok, Some, slice_get};
ghost use Rattle.std.specs.FinMap.{get};
ghost use Rattle.lake_base.specs.declared.digest.Digest.{Digest};
ghost use Rattle.lake_values.specs.Ancestry.{parents};
ghost use Rattle.commit_graph.specs.Expressions.{RefExprValue};
ghost use Rattle.lake_model.specs.declared.history.HistoryEntry.{HistoryEntry};
ghost use Rattle.lake_model.specs.State.{Repository, State, HasCommit, HasRepository, map_of};
ghost use Rattle.lake_model.specs.Uncommitted.{HasTicket};
ghost use Rattle.lake_model.specs.History.{IsLegal, replay};
ghost use Rattle.lake_model.specs.Readings.{expression_map};
ghost use Rattle.lake_model.specs.Resolving.{by_id, expression_target};
ghost use Rattle.lake_model.specs.Soundness.{IsSound};
ghost use Rattle.lake_laws.specs.OtherSeats.{AreOfOtherSeats};
ghost use Rattle.lake_laws.specs.SameCommit.{HasSameCommit};
ghost use Rattle.lake_laws.specs.TicketEnds.{LeavesTicket};

/// In a legal history from a sound state, a number that is on a ticket of a seat stays on it until the seat itself
/// drops the ticket or stages an own object of the number. So entries of other seats never take it.
pub fn law_of_kept_tickets()
    ensures kept { (state : State) (seen history more : List HistoryEntry) (seat number : ℕ)
        → IsSound state → seen ≡ history ++ more → IsLegal state seen
        → HasTicket (replay state history) seat number → All (LeavesTicket seat number) more
        → HasTicket (replay state seen) seat number }
    ensures others { (state : State) (seen history more : List HistoryEntry) (seat number : ℕ)
        → IsSound state → seen ≡ history ++ more → IsLegal state seen
        → HasTicket (replay state history) seat number → AreOfOtherSeats seat more
        → HasTicket (replay state seen) seat number }
{}

/// In a sound lake an expression leads to a commit, and the parents of a commit are commits. In a legal history a
/// commit stays, with its record and its map, and so do those that an expression and a parent led to.
pub fn law_of_kept_commits()
    ensures expression { (state : State) (repo : List ℕ) (r : Repository) (e : RefExprValue) (id : Digest)
        → IsSound state → get state.repositories repo ≡ Some r → expression_target r e ≡ Ok id → HasCommit r id }
    ensures parent { (state : State) (repo : List ℕ) (r : Repository) (id parent : Digest) (place : ℕ)
        → IsSound state → get state.repositories repo ≡ Some r
        → slice_get (parents r.commits id) place ≡ Some parent → HasCommit r parent }
    ensures stays { (state : State) (seen history more : List HistoryEntry) (repo : List ℕ) (r : Repository)
        (id : Digest)
        → seen ≡ history ++ more → IsLegal state seen
        → get (replay state history).repositories repo ≡ Some r → HasCommit r id
        → HasRepository (replay state seen) repo (HasSameCommit r id) }
    ensures expression_stays { (state : State) (seen history more : List HistoryEntry) (repo : List ℕ) (r : Repository)
        (e : RefExprValue) (id : Digest)
        → IsSound state → seen ≡ history ++ more → IsLegal state seen
        → get (replay state history).repositories repo ≡ Some r → expression_target r e ≡ Ok id
        → HasRepository (replay state seen) repo (HasSameCommit r id) }
    ensures parent_stays { (state : State) (seen history more : List HistoryEntry) (repo : List ℕ) (r : Repository)
        (id parent : Digest) (place : ℕ)
        → IsSound state → seen ≡ history ++ more → IsLegal state seen
        → get (replay state history).repositories repo ≡ Some r
        → slice_get (parents r.commits id) place ≡ Some parent
        → HasRepository (replay state seen) repo (HasSameCommit r parent) }
{}

/// In a sound lake the 64 lower-case hex digits of a commit's id, as an expression without moves, with `@` or without,
/// lead to the commit, and what is read there is its map. In a legal history they lead to it at each later position,
/// where it has the same record and map; so at any two positions the same map is read by an id.
pub fn law_of_commit_expressions()
    ensures leads { (state : State) (repo : List ℕ) (r : Repository) (id : Digest) (at : Bool)
        → IsSound state → get state.repositories repo ≡ Some r → HasCommit r id
        → expression_target r (by_id id at) ≡ Ok id }
    ensures stays { (state : State) (seen history more : List HistoryEntry) (repo : List ℕ) (r : Repository)
        (id : Digest) (at : Bool)
        → IsSound state → seen ≡ history ++ more → IsLegal state seen
        → get (replay state history).repositories repo ≡ Some r → HasCommit r id
        → HasRepository (replay state seen) repo
        (λ s. (expression_target s (by_id id at) ≡ Ok id) × HasSameCommit r id s) }
    ensures reads { (state : State) (repo : List ℕ) (r : Repository) (id : Digest) (at : Bool)
        → IsSound state → get state.repositories repo ≡ Some r → HasCommit r id
        → expression_map r (by_id id at) ≡ Ok (map_of r id) }
    ensures reads_same { (state : State) (seen history more : List HistoryEntry) (repo : List ℕ) (r : Repository)
        (id : Digest) (at : Bool)
        → IsSound state → seen ≡ history ++ more → IsLegal state seen
        → get (replay state history).repositories repo ≡ Some r → HasCommit r id
        → HasRepository (replay state seen) repo
        (λ s. expression_map s (by_id id at) ≡ expression_map r (by_id id at)) }
{}
