//! What a change makes of the state of a lake, and of its versions.
ghost use Rattle.std.specs.Prelude.{◌≡◌};
ghost use Rattle.lake_model.specs.declared.history.By.{By};
ghost use Rattle.lake_model.specs.History.{accepted_entry, after, faulted_entry};
ghost use Rattle.lake_model.specs.Versions.{versions_after};
ghost use Rattle.core_puts.specs.KeeperViews.{KeeperView};
ghost use Rattle.core_puts.specs.KeptChanges.{IsFaulted, IsMade, Making};
ghost use Rattle.lake_core.specs.Lakes.{LakeValue, state, versions};
ghost use Rattle.lake_core.specs.Leaving.{parts_of};

/// After a change that was made the state of a lake is the law's after its entry, and so are the versions; after a
/// fault of the store it is the law's after the fault, and the versions are as they were. So what the law says of an
/// entry, as that a seal leaves the answers of readings, holds of a lake before and after its change.
pub fn law_of_changes<K>()
    ensures made { (view : KeeperView K) (by : By) (made : Making) (old new : LakeValue K)
        → new.opened ≡ old.opened → IsMade view by made (parts_of old) (parts_of new)
        → (state new ≡ after (state old) (accepted_entry by made.operation))
        × (versions new ≡ versions_after (versions old) (accepted_entry by made.operation)) }
    ensures faulted { (view : KeeperView K) (by : By) (made : Making) (old new : LakeValue K)
        → new.opened ≡ old.opened → IsFaulted view by made (parts_of old) (parts_of new)
        → (state new ≡ after (state old) (faulted_entry by made.operation)) × (versions new ≡ versions old) }
{}
