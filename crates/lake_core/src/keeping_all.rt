//! Lakes of which nothing was removed.
ghost use Rattle.std.specs.Prelude.{◌≡◌, List, ℕ, Err, Some};
ghost use Rattle.std.specs.FinMap.{get};
ghost use Rattle.lake_format.specs.declared.cut.Cut.{Cut};
ghost use Rattle.lake_values.specs.declared.settings.NoteName.TheVariants as name;
ghost use Rattle.lake_model.specs.declared.fault.StepFault.TheVariants.{NoNote};
ghost use Rattle.lake_model.specs.declared.history.HistoryEntry.{HistoryEntry};
ghost use Rattle.lake_model.specs.State.{Repository, State};
ghost use Rattle.lake_model.specs.History.{replay};
ghost use Rattle.lake_model.specs.Readings.{note_reply};
ghost use Rattle.lake_model.specs.Soundness.{fresh};
ghost use Rattle.lake_model.specs.Versions.{VersionsGiven};
ghost use Rattle.lake_core.specs.KeepingAll.{KeepsAll, RemoveNothing, StepsRemoveNothing};

/// A fresh lake keeps all: no commit is expired, no number is gone, and no retention is set. So does each lake after a
/// history of which no entry expires a commit, condemns a number or sets a retention; and `note` answers NoNote there,
/// where it is asked for the retention of a repository. No step of a lake makes such an entry.
pub fn law_of_keeping_all()
    ensures fresh { (cut : Cut) → KeepsAll (fresh cut) }
    ensures stays { (state : State) (history : List HistoryEntry)
        → RemoveNothing history → KeepsAll state → KeepsAll (replay state history) }
    ensures steps { StepsRemoveNothing }
    ensures note { (state : State) (given : VersionsGiven) (repo : List ℕ) (r : Repository)
        → KeepsAll state → get state.repositories repo ≡ Some r
        → note_reply state given repo name.Retention ≡ Err NoNote }
{}
