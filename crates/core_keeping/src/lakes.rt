//! The pairs of the fresh lake, of one whose store failed, and of one with an index that has the same places.
ghost use Rattle.std.specs.Prelude.{ℕ, List, Option};
ghost use Rattle.std.specs.FinMap.{empty};
ghost use Rattle.lake_base.specs.Maps.{ByteMap};
ghost use Rattle.lake_format.specs.declared.cut.Cut.{Cut as AnyCut};
ghost use Rattle.keeper.specs.Keepers.{KeptPairs, pairs_after};
ghost use Rattle.core_state.specs.FirstStates.{first_tree, fresh_lake};
ghost use Rattle.core_state.specs.LakeStates.{LakeStateValue};
ghost use Rattle.core_state.specs.declared.file_place.FilePlace.{FilePlace as AnyFilePlace};
ghost use Rattle.core_changes.specs.LakeChanges.{after_fault};
ghost use Rattle.core_changes.specs.NewPlaces.{HasNewPlaces, HaveSamePlaces};
ghost use Rattle.core_head_pairs.specs.PairWords.{fresh_puts};
ghost use Rattle.core_head_pairs.specs.PairWords.{at_rest};
ghost use Rattle.core_keeping.specs.Following.{FollowLake, KeepLake};

use core_head_pairs::{law_of_fresh_pairs, laws_of_places};

/// The pairs of the fresh lake follow it, where there were none before its puts. Those of a lake follow it after a
/// fault of the store, where its puts weren't made; they follow it with another index that has the same places; and
/// those that keep it keep it put to rest.
pub fn laws_of_followed_lakes()
    ensures fresh { (files : ByteMap (Option AnyFilePlace)) (cut : AnyCut)
        → HasNewPlaces empty files (first_tree cut)
        → FollowLake (pairs_after (fresh_puts cut) empty) files (fresh_lake cut) }
    ensures fault { (pairs : KeptPairs) (files : ByteMap (Option AnyFilePlace)) (l : LakeStateValue)
        → FollowLake pairs files l → FollowLake pairs files (after_fault l) }
    ensures same { (pairs : KeptPairs) (files other : ByteMap (Option AnyFilePlace)) (l : LakeStateValue)
        → HaveSamePlaces files other → FollowLake pairs files l → FollowLake pairs other l }
    ensures rest { (pairs : KeptPairs) (l : LakeStateValue) → KeepLake pairs l → KeepLake pairs (at_rest l) }
{
    law_of_fresh_pairs();
    laws_of_places();
}
