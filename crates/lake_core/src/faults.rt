//! Faults of the store that stand in a history.
ghost use Rattle.std.specs.Prelude.{◌≡◌, ◌↔◌, true, List};
ghost use Rattle.lake_base.specs.Outside.{Quiet, Rose};
ghost use Rattle.keeper.specs.Keepers.{KeptPairs};
ghost use Rattle.lake_model.specs.declared.history.HistoryEntry.{HistoryEntry};
ghost use Rattle.core_state.specs.LakeStates.{LakeStateValue};
ghost use Rattle.core_standing.specs.Standing.{Stands};
ghost use Rattle.core_puts.specs.KeeperViews.{KeeperView};
ghost use Rattle.lake_core.specs.Faults.{HasFault};
ghost use Rattle.lake_core.specs.Lakes.{Holds, LakeValue};

use keeper::{Keeper, SureKeeper};

/// A lake's history has a fault of the store only where the keeper's count of faults rose since the lake was opened, or
/// stands at its last value. So it has none where nothing was counted; and where it has none, nothing was counted.
pub fn law_of_store_faults<K>()
    ensures rose { (view : KeeperView K) (lake : LakeValue K)
        → Holds view lake → HasFault lake.history → Rose (view.faults lake.first) (view.faults lake.keeper) }
    ensures quiet { (view : KeeperView K) (lake : LakeValue K)
        → Holds view lake → Quiet (view.faults lake.first) (view.faults lake.keeper) → HasFault lake.history → ⊥ }
    ensures same { (view : KeeperView K) (lake : LakeValue K)
        → Holds view lake → (HasFault lake.history → ⊥) → view.faults lake.keeper ≡ view.faults lake.first }
{}

/// A lake that stands for its history is stopped exactly where that has a fault of the store.
pub fn law_of_stops()
    ensures { (opened : LakeStateValue) (history : List HistoryEntry) (present : LakeStateValue)
        → Stands opened history present → (present.stopped ≡ true) ↔ HasFault history }
{}

/// Over a keeper in memory that never fails no lake's history has a fault of the store.
pub fn law_of_sure_lakes()
    ensures { let view : KeeperView KeptPairs = record {
      kept = ⟦<SureKeeper as Keeper>⟧.kept;
      faults = ⟦<SureKeeper as Keeper>⟧.faults;
      calls = ⟦<SureKeeper as Keeper>⟧.calls;
      successes = ⟦<SureKeeper as Keeper>⟧.successes;
    } in
        (lake : LakeValue KeptPairs) → Holds view lake → HasFault lake.history → ⊥ }
{}
