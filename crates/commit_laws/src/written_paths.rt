//! What becomes of a change that isn't committed, along a history in which others are staged at its path.
ghost use Rattle.std.specs.Prelude.{◌≡◌, ◌⊎◌, ◌++◌, List, [], ◌∷◌, ℕ, Some};
ghost use Rattle.std.specs.FinMap.{get};
ghost use Rattle.lake_values.specs.Commit.{AboutValue};
ghost use Rattle.lake_values.specs.declared.entry.Change.{Change};
ghost use Rattle.lake_model.specs.declared.history.By.{By};
ghost use Rattle.lake_model.specs.declared.history.HistoryEntry.{HistoryEntry};
ghost use Rattle.lake_model.specs.declared.history.Operation.TheVariants.{Seal};
ghost use Rattle.lake_model.specs.declared.history.SealFor.{SealFor};
ghost use Rattle.lake_model.specs.declared.reply.SwapKind.{SwapKind};
ghost use Rattle.lake_model.specs.State.{State, HasBranch};
ghost use Rattle.lake_model.specs.History.{IsLegal, accepted_entry, replay};
ghost use Rattle.lake_model.specs.Steps.{swap_operation};
ghost use Rattle.lake_laws.specs.SealedPaths.{uncommitted_change};
ghost use Rattle.commit_laws.specs.NewestChanges.{IsNewest, IsNewestTakenOrDropped};

/// Along a legal history, whoever makes its entries, what a branch has at a path and isn't committed is the change
/// that was staged there at last, or the one that stood there before where none was; unless a new head took the
/// newest at the last seal before it, or an entry dropped the path (`stays`). A seal seals it so (`seals`). And the
/// next commit, merge or pick of the branch behind a seal takes the change that was the newest at the last seal
/// before it, unless a new head in between did, or an entry dropped the path (`goes_in`).
pub fn law_of_written_paths()
    ensures stays { (state : State) (entries : List HistoryEntry) (repo branch path : List ℕ) (change : Change)
        → IsLegal state entries
        → HasBranch state repo branch (λ r b. uncommitted_change b path ≡ Some change)
        → ((newest : Change) × IsNewest repo branch path change entries newest
        × HasBranch (replay state entries) repo branch (λ r b. uncommitted_change b path ≡ Some newest))
        ⊎ IsNewestTakenOrDropped repo branch path change state entries }
    ensures seals { (state : State) (between : List HistoryEntry) (repo branch path : List ℕ) (change : Change)
        (sealer : By) (why : SealFor)
        → IsLegal state (between ++ accepted_entry sealer (Seal repo branch why) ∷ [])
        → HasBranch state repo branch (λ r b. uncommitted_change b path ≡ Some change)
        → ((newest : Change) × IsNewest repo branch path change between newest
        × HasBranch (replay state (between ++ accepted_entry sealer (Seal repo branch why) ∷ [])) repo branch
        (λ r b. get b.sealed path ≡ Some newest))
        ⊎ IsNewestTakenOrDropped repo branch path change state between }
    ensures goes_in { (state : State) (entries between meanwhile : List HistoryEntry) (repo branch path : List ℕ)
        (change : Change) (sealer maker : By) (why : SealFor) (kind : SwapKind) (about : AboutValue)
        → entries ≡ between ++ accepted_entry sealer (Seal repo branch why)
        ∷ (meanwhile ++ accepted_entry maker (swap_operation repo branch kind about) ∷ [])
        → IsLegal state entries
        → HasBranch state repo branch (λ r b. uncommitted_change b path ≡ Some change)
        → IsNewestTakenOrDropped repo branch path change state entries }
{}
