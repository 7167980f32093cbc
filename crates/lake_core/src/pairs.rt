//! What the pairs of a lake's keeper stand for.
ghost use Rattle.std.specs.Prelude.{◌⊎◌, IfSome};
ghost use Rattle.core_puts.specs.KeeperViews.{KeeperView};
ghost use Rattle.core_keeping.specs.Following.{at_rest};
ghost use Rattle.core_keeping.specs.Following.{KeepLake};
ghost use Rattle.core_state.specs.LakeStates.{LakeStateValue, lake_value};
ghost use Rattle.lake_core.specs.Faults.{HasFault};
ghost use Rattle.lake_core.specs.FollowedLakes.{FollowOrTried, IsTried};
ghost use Rattle.lake_core.specs.Lakes.{Holds, LakeValue};

use core_keeping::laws_of_followed_lakes;

/// The pairs of a lake's keeper, where it tells them, stand for the lake in memory put to rest, which stands for its
/// history: after each change, and over all of them. After a fault of the store they stand for the lake without the
/// entry that was tried, or with it. They follow the lake with its index of files, or keep it with that entry (`all`).
pub fn law_of_kept_pairs<K>()
    ensures follow { (view : KeeperView K) (lake : LakeValue K) → Holds view lake → (HasFault lake.history → ⊥)
        → IfSome (view.kept lake.keeper) (λ pairs. KeepLake pairs (at_rest (lake_value lake.present))) }
    ensures tried { (view : KeeperView K) (lake : LakeValue K) → Holds view lake
        → IfSome (view.kept lake.keeper) (λ pairs. KeepLake pairs (at_rest (lake_value lake.present))
        ⊎ ((tried : LakeStateValue) × (IsTried (lake_value lake.opened) lake.history tried
        × KeepLake pairs (at_rest tried)))) }
    ensures all { (view : KeeperView K) (lake : LakeValue K) → Holds view lake
        → IfSome (view.kept lake.keeper) (FollowOrTried (lake_value lake.opened) lake.history
        lake.present.names.files (lake_value lake.present)) }
{
    laws_of_followed_lakes();
}
