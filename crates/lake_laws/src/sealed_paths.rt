//! A change that isn't committed stays until a new head takes it, or an entry drops it.
ghost use Rattle.std.specs.Prelude.{◌≡◌, ◌⊎◌, ◌++◌, List, [], ◌∷◌, ℕ, Some, None, IsSome};
ghost use Rattle.std.specs.FinMap.{get};
ghost use Rattle.lake_values.specs.Commit.{AboutValue};
ghost use Rattle.lake_values.specs.declared.entry.Change.{Change};
ghost use Rattle.lake_model.specs.declared.history.By.{By};
ghost use Rattle.lake_model.specs.declared.history.HistoryEntry.{HistoryEntry};
ghost use Rattle.lake_model.specs.declared.history.Operation.TheVariants.{Commit, Seal};
ghost use Rattle.lake_model.specs.declared.history.SealFor.{SealFor};
ghost use Rattle.lake_model.specs.State.{Branch, Repository, State, HasBranch, head_map, sealed_map};
ghost use Rattle.lake_model.specs.History.{Allows, IsLegal, accepted_entry, after, replay};
ghost use Rattle.lake_laws.specs.SealedPaths.{IsDropped, IsTakenOrDropped, NoneIsAccepted, SealsBranch};
ghost use Rattle.lake_laws.specs.SealedPaths.{TakesChange, TakesPath};
ghost use Rattle.lake_laws.specs.SealedPaths.{WritesPath, uncommitted_change};

/// After a Seal each change of the branch that isn't committed is sealed, and nothing is staged. A legal Commit's map
/// is that of the sealed changes made on the old head's map.
pub fn law_of_sealed_branches()
    ensures seal { (state : State) (by : By) (repo branch : List ℕ) (why : SealFor) (r : Repository) (b : Branch)
        → get state.repositories repo ≡ Some r → get r.branches branch ≡ Some b
        → HasBranch (after state (accepted_entry by (Seal repo branch why))) repo branch
        (λ s c. (path : List ℕ) → (get c.sealed path ≡ uncommitted_change b path) × (get c.staged path ≡ None)) }
    ensures commit { (state : State) (by : By) (repo branch : List ℕ) (about : AboutValue) (r : Repository) (b : Branch)
        → Allows state (accepted_entry by (Commit repo branch about))
        → get state.repositories repo ≡ Some r → get r.branches branch ≡ Some b
        → HasBranch (after state (accepted_entry by (Commit repo branch about))) repo branch
        (λ s c. head_map s c ≡ sealed_map r b) }
{}

/// Along a legal history, whoever makes its entries, a change that isn't committed stays until a new head of the branch
/// takes it, or a reset of the path or a deletion of the branch drops it. A commit takes what is sealed; a merge and a
/// pick come only where the head's map has already what the sealed changes say, so they find it made (`TakesChange`).
/// It is the same change where none of the entries stages another at the path (`uncommitted`), and else some change
/// (`uncommitted_written`). A staged change stays staged where no seal comes, whatever commits, merges and picks do
/// (`staged`). A sealed change stays sealed: the same one where no other seal comes (`sealed`), or where nothing else
/// is staged at the path (`sealed_over`), and else some change (`sealed_written`). So what was seen before a seal goes
/// into the next commit behind it, or into a head that was made in between, unless an entry drops it: where nothing is
/// staged at the path meanwhile (`goes_in`), where nothing is before the seal and no other seal comes behind it
/// (`goes_in_sealed`), and else some change (`goes_in_written`).
pub fn law_of_sealed_paths()
    ensures uncommitted { (state : State) (entries : List HistoryEntry) (repo branch path : List ℕ) (change : Change)
        → IsLegal state entries → NoneIsAccepted (WritesPath repo branch path) entries
        → HasBranch state repo branch (λ r b. uncommitted_change b path ≡ Some change)
        → HasBranch (replay state entries) repo branch (λ r b. uncommitted_change b path ≡ Some change)
        ⊎ IsTakenOrDropped repo branch path (TakesChange repo branch path change) state entries }
    ensures uncommitted_written { (state : State) (entries : List HistoryEntry) (repo branch path : List ℕ)
        → IsLegal state entries
        → HasBranch state repo branch (λ r b. IsSome (uncommitted_change b path))
        → HasBranch (replay state entries) repo branch (λ r b. IsSome (uncommitted_change b path))
        ⊎ IsTakenOrDropped repo branch path (TakesPath repo branch path) state entries }
    ensures staged { (state : State) (entries : List HistoryEntry) (repo branch path : List ℕ) (change : Change)
        → IsLegal state entries → NoneIsAccepted (WritesPath repo branch path) entries
        → NoneIsAccepted (SealsBranch repo branch) entries
        → HasBranch state repo branch (λ r b. get b.staged path ≡ Some change)
        → HasBranch (replay state entries) repo branch (λ r b. get b.staged path ≡ Some change)
        ⊎ IsDropped repo branch path state entries }
    ensures sealed { (state : State) (entries : List HistoryEntry) (repo branch path : List ℕ) (change : Change)
        → IsLegal state entries → NoneIsAccepted (SealsBranch repo branch) entries
        → HasBranch state repo branch (λ r b. get b.sealed path ≡ Some change)
        → HasBranch (replay state entries) repo branch (λ r b. get b.sealed path ≡ Some change)
        ⊎ IsTakenOrDropped repo branch path (TakesChange repo branch path change) state entries }
    ensures sealed_over { (state : State) (entries : List HistoryEntry) (repo branch path : List ℕ) (change : Change)
        → IsLegal state entries → NoneIsAccepted (WritesPath repo branch path) entries
        → HasBranch state repo branch
        (λ r b. (get b.sealed path ≡ Some change) × (uncommitted_change b path ≡ Some change))
        → HasBranch (replay state entries) repo branch
        (λ r b. (get b.sealed path ≡ Some change) × (uncommitted_change b path ≡ Some change))
        ⊎ IsTakenOrDropped repo branch path (TakesChange repo branch path change) state entries }
    ensures sealed_written { (state : State) (entries : List HistoryEntry) (repo branch path : List ℕ)
        → IsLegal state entries
        → HasBranch state repo branch (λ r b. IsSome (get b.sealed path))
        → HasBranch (replay state entries) repo branch (λ r b. IsSome (get b.sealed path))
        ⊎ IsTakenOrDropped repo branch path (TakesPath repo branch path) state entries }
    ensures goes_in { (state : State) (entries between meanwhile : List HistoryEntry) (repo branch path : List ℕ)
        (change : Change) (sealer committer : By) (why : SealFor) (about : AboutValue)
        → entries ≡ between ++ accepted_entry sealer (Seal repo branch why)
        ∷ (meanwhile ++ accepted_entry committer (Commit repo branch about) ∷ [])
        → IsLegal state entries → NoneIsAccepted (WritesPath repo branch path) entries
        → HasBranch state repo branch (λ r b. uncommitted_change b path ≡ Some change)
        → IsTakenOrDropped repo branch path (TakesChange repo branch path change) state entries }
    ensures goes_in_sealed { (state : State) (entries between meanwhile : List HistoryEntry)
        (repo branch path : List ℕ) (change : Change) (sealer committer : By) (why : SealFor) (about : AboutValue)
        → entries ≡ between ++ accepted_entry sealer (Seal repo branch why)
        ∷ (meanwhile ++ accepted_entry committer (Commit repo branch about) ∷ [])
        → IsLegal state entries
        → NoneIsAccepted (WritesPath repo branch path) between → NoneIsAccepted (SealsBranch repo branch) meanwhile
        → HasBranch state repo branch (λ r b. uncommitted_change b path ≡ Some change)
        → IsTakenOrDropped repo branch path (TakesChange repo branch path change) state entries }
    ensures goes_in_written { (state : State) (entries between meanwhile : List HistoryEntry)
        (repo branch path : List ℕ) (sealer committer : By) (why : SealFor) (about : AboutValue)
        → entries ≡ between ++ accepted_entry sealer (Seal repo branch why)
        ∷ (meanwhile ++ accepted_entry committer (Commit repo branch about) ∷ [])
        → IsLegal state entries
        → HasBranch state repo branch (λ r b. IsSome (uncommitted_change b path))
        → IsTakenOrDropped repo branch path (TakesPath repo branch path) state entries }
{}
