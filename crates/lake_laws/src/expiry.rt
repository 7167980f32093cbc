//! The same commits may expire where the version of the references is the same.
ghost use Rattle.std.specs.Prelude.{◌≡◌, ◌↔◌, ◌++◌, List, ℕ};
ghost use Rattle.lake_model.specs.declared.history.HistoryEntry.{HistoryEntry};
ghost use Rattle.lake_model.specs.declared.history.RepositoryCommit.{RepositoryCommit};
ghost use Rattle.lake_model.specs.State.{State};
ghost use Rattle.lake_model.specs.History.{IsLegal, replay};
ghost use Rattle.lake_model.specs.Removal.{IsExpirable, MayExpire};
ghost use Rattle.lake_model.specs.Versions.{VersionsGiven, count_versions};

/// At two positions of a legal history at which the version of the references is the same, the same commits can expire
/// at each moment, and so the same lists of them may.
pub fn law_of_same_references()
    ensures expirable { (state : State) (given : VersionsGiven) (seen history more : List HistoryEntry) (now : ℕ)
        (one : RepositoryCommit)
        → seen ≡ history ++ more → IsLegal state seen
        → (count_versions given history).references ≡ (count_versions given seen).references
        → IsExpirable (replay state history) now one ↔ IsExpirable (replay state seen) now one }
    ensures expire { (state : State) (given : VersionsGiven) (seen history more : List HistoryEntry) (now : ℕ)
        (commits : List RepositoryCommit)
        → seen ≡ history ++ more → IsLegal state seen
        → (count_versions given history).references ≡ (count_versions given seen).references
        → MayExpire (replay state history) now commits ↔ MayExpire (replay state seen) now commits }
{}
