//! Nothing follows a fault of the store.
ghost use Rattle.std.specs.Prelude.{◌≡◌, ◌++◌, ◌∷◌, [], List};
ghost use Rattle.lake_model.specs.declared.history.By.{By};
ghost use Rattle.lake_model.specs.declared.history.EntryKind.TheVariants.{Faulted};
ghost use Rattle.lake_model.specs.declared.history.HistoryEntry.{HistoryEntry};
ghost use Rattle.lake_model.specs.declared.history.Operation.{Operation};
ghost use Rattle.lake_model.specs.State.{State};
ghost use Rattle.lake_model.specs.History.{IsLegal};

/// In a legal history no entry follows a fault, so at most one entry is a fault.
pub fn law_of_faults()
    ensures { (state : State) (before later : List HistoryEntry) (by : By) (tried : Operation)
        → IsLegal state (before ++ record { by = by; kind = Faulted tried } ∷ later) → later ≡ [] }
{}
