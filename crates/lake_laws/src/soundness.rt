//! A legal entry keeps a state sound.
ghost use Rattle.std.specs.Prelude.{◌≡◌, List};
ghost use Rattle.lake_format.specs.declared.cut.Cut.{Cut};
ghost use Rattle.lake_model.specs.declared.history.HistoryEntry.{HistoryEntry};
ghost use Rattle.lake_model.specs.State.{State};
ghost use Rattle.lake_model.specs.History.{Allows, IsLegal, after, replay};
ghost use Rattle.lake_model.specs.Soundness.{IsSound, fresh};

/// A fresh lake is sound, and its history is empty. What follows a sound state by legal entries is sound.
pub fn law_of_soundness()
    ensures fresh { (cut : Cut) → IsSound (fresh cut) }
    ensures empty { (cut : Cut) → (fresh cut).entries ≡ 0 }
    ensures after { (state : State) (entry : HistoryEntry) → IsSound state → Allows state entry
        → IsSound (after state entry) }
    ensures replay { (state : State) (entries : List HistoryEntry) → IsSound state → IsLegal state entries
        → IsSound (replay state entries) }
{}
