//! Garbage stays garbage.
ghost use Rattle.std.specs.Prelude.{List, ℕ};
ghost use Rattle.lake_model.specs.declared.history.HistoryEntry.{HistoryEntry};
ghost use Rattle.lake_model.specs.State.{State};
ghost use Rattle.lake_model.specs.History.{Allows, IsLegal, after, replay};
ghost use Rattle.lake_model.specs.Naming.{IsGarbage};
ghost use Rattle.lake_model.specs.Soundness.{IsSound};

/// A number that is garbage in a sound state is garbage after a legal entry, and after a legal history.
pub fn law_of_garbage()
    ensures after { (state : State) (entry : HistoryEntry) (number : ℕ) → IsSound state → Allows state entry
        → IsGarbage state number → IsGarbage (after state entry) number }
    ensures replay { (state : State) (entries : List HistoryEntry) (number : ℕ) → IsSound state → IsLegal state entries
        → IsGarbage state number → IsGarbage (replay state entries) number }
{}
