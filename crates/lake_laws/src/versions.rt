//! What has the same version is the same.
ghost use Rattle.std.specs.Prelude.{◌≡◌, ◌++◌, List, ℕ, Some};
ghost use Rattle.std.specs.FinMap.{get};
ghost use Rattle.lake_model.specs.declared.history.HistoryEntry.{HistoryEntry};
ghost use Rattle.lake_model.specs.State.{Branch, Repository, State, branch_of};
ghost use Rattle.lake_model.specs.History.{IsLegal, replay};
ghost use Rattle.lake_model.specs.Versions.{VersionsGiven, AreBelowNext, branch_version, settings_version};
ghost use Rattle.lake_model.specs.Versions.{count_versions, versions_after, fresh_versions};
ghost use Rattle.lake_laws.specs.References.{SameReferences};

/// Versions that were given are below the next one: in a fresh lake, and after each entry.
pub fn law_of_next_versions()
    ensures fresh { AreBelowNext fresh_versions }
    ensures after { (given : VersionsGiven) (entry : HistoryEntry) → AreBelowNext given
        → AreBelowNext (versions_after given entry) }
{}

/// In one legal history two states in which a branch has the same version have the same head and sealed changes of it,
/// two in which a repository has the same version of its settings the same settings, and two with the same version of
/// references the same heads, tags, commits, expired commits and settings.
pub fn laws_of_versions()
    ensures branch { (state : State) (given : VersionsGiven) (entries more : List HistoryEntry) (repo branch : List ℕ)
        (old new : Branch)
        → AreBelowNext given → IsLegal state (entries ++ more)
        → branch_of (replay state entries) repo branch ≡ Some old
        → branch_of (replay state (entries ++ more)) repo branch ≡ Some new
        → branch_version (count_versions given entries) repo branch
        ≡ branch_version (count_versions given (entries ++ more)) repo branch
        → (new.head ≡ old.head) × (new.sealed ≡ old.sealed) }
    ensures settings { (state : State) (given : VersionsGiven) (entries more : List HistoryEntry) (repo : List ℕ)
        (old new : Repository)
        → AreBelowNext given → IsLegal state (entries ++ more)
        → get (replay state entries).repositories repo ≡ Some old
        → get (replay state (entries ++ more)).repositories repo ≡ Some new
        → settings_version (count_versions given entries) repo
        ≡ settings_version (count_versions given (entries ++ more)) repo
        → new.notes ≡ old.notes }
    ensures references { (state : State) (given : VersionsGiven) (entries more : List HistoryEntry)
        → IsLegal state (entries ++ more)
        → (count_versions given entries).references ≡ (count_versions given (entries ++ more)).references
        → SameReferences (replay state entries) (replay state (entries ++ more)) }
{}
