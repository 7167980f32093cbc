//! What is gone stays gone, and isn't read on a branch, nor of a commit that isn't expired.
ghost use Rattle.std.specs.Prelude.{◌≡◌, true, false, List, ℕ, Some, IsSome, Ok};
ghost use Rattle.std.specs.FinMap.{get};
ghost use Rattle.lake_base.specs.declared.digest.Digest.{Digest};
ghost use Rattle.commit_graph.specs.Expressions.{RefExprValue};
ghost use Rattle.lake_model.specs.declared.history.HistoryEntry.{HistoryEntry};
ghost use Rattle.lake_model.specs.declared.reply.Seen.{Seen};
ghost use Rattle.lake_model.specs.State.{Repository, State, is_expired};
ghost use Rattle.lake_model.specs.History.{replay};
ghost use Rattle.lake_model.specs.Resolving.{expression_target, is_plain_branch};
ghost use Rattle.lake_model.specs.Readings.{look_reply};
ghost use Rattle.lake_model.specs.Soundness.{IsSound};

/// A number that is gone stays gone. In a sound lake what is read on a plain branch is never gone, nor what is read of
/// a commit that isn't expired.
pub fn law_of_gone()
    ensures stays { (state : State) (entries : List HistoryEntry) (number : ℕ)
        → IsSome (get state.gone number) → IsSome (get (replay state entries).gone number) }
    ensures branch { (state : State) (repo : List ℕ) (r : Repository) (e : RefExprValue) (path : List ℕ) (seen : Seen)
        → IsSound state → get state.repositories repo ≡ Some r → is_plain_branch r e ≡ true
        → look_reply state repo e path ≡ Ok seen → seen.gone ≡ false }
    ensures commit { (state : State) (repo : List ℕ) (r : Repository) (e : RefExprValue) (id : Digest)
        (path : List ℕ) (seen : Seen) → IsSound state → get state.repositories repo ≡ Some r
        → expression_target r e ≡ Ok id → is_expired r id ≡ false
        → look_reply state repo e path ≡ Ok seen → seen.gone ≡ false }
{}
