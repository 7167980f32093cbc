//! A position of a legal history: what stands before it is legal, and so is what comes after it.
ghost use Rattle.std.specs.Prelude.{◌≡◌, ◌++◌, List};
ghost use Rattle.lake_model.specs.declared.history.HistoryEntry.{HistoryEntry};
ghost use Rattle.lake_model.specs.State.{State};
ghost use Rattle.lake_model.specs.History.{IsLegal, replay};
ghost use Rattle.lake_model.specs.Soundness.{IsSound};

/// The entries before a position of a legal history are legal, and lead a sound state to a sound one. From there the
/// later entries are legal, and lead to where the whole history leads.
pub fn law_of_positions()
    ensures earlier { (state : State) (seen history more : List HistoryEntry)
        → seen ≡ history ++ more → IsLegal state seen → IsLegal state history }
    ensures later { (state : State) (seen history more : List HistoryEntry)
        → seen ≡ history ++ more → IsLegal state seen → IsLegal (replay state history) more }
    ensures replay { (state : State) (seen history more : List HistoryEntry)
        → seen ≡ history ++ more → replay state seen ≡ replay (replay state history) more }
    ensures sound { (state : State) (seen history more : List HistoryEntry)
        → IsSound state → seen ≡ history ++ more → IsLegal state seen → IsSound (replay state history) }
{}
