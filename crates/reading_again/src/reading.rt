//! Pairs that stand for a lake in order.
ghost use Rattle.std.specs.Prelude.{◌≡◌, ℕ, List, length};
ghost use Rattle.lake_base.specs.Maps.{HasAscendingKeys};
ghost use Rattle.lake_format.specs.declared.cut.Cut.{Cut as AnyCut};
ghost use Rattle.lake_model.specs.declared.history.HistoryEntry.{HistoryEntry};
ghost use Rattle.pair_format.specs.declared.pair.Pair.{Pair as AnyPair};
ghost use Rattle.keeper.specs.Keepers.{entries_of};
ghost use Rattle.pair_trees.specs.Things.{kept_of, things_of};
ghost use Rattle.pair_trees.specs.Unread.{AreReadBefore};
ghost use Rattle.pair_ties.specs.BrokenPairs.{IsFirstBroken};
ghost use Rattle.pair_ties.specs.PairTies.{AreTied};
ghost use Rattle.core_state.specs.LakeStates.{LakeStateValue};
ghost use Rattle.core_standing.specs.Standing.{Stands};
ghost use Rattle.core_pairs.specs.LakePairs.{AreTokensApart, StandFor};
ghost use Rattle.reading_again.specs.ReadableLakes.{CanBeRead, HasReadableParts, IsInOrder};

use core_standing::{law_of_present, law_of_versions_below};
use lake_laws::versions::law_of_next_versions;
use opening_laws::laws_of_reading;

/// A lake that stands for its history, of which no two branches name one token, is in order.
pub fn law_of_order()
    ensures { (opened : LakeStateValue) (history : List HistoryEntry) (present : LakeStateValue)
        → Stands opened history present → AreTokensApart present → IsInOrder present }
{
    law_of_present();
    law_of_next_versions();
    law_of_versions_below();
}

/// The pairs of a lake in order that can be read, whose keys ascend, are tied, so that none of them is broken; and the
/// tree of each commit is read.
pub fn laws_of_reading_again()
    ensures tied { (cut : AnyCut) (pairs : List AnyPair) (l : LakeStateValue) → HasAscendingKeys (entries_of pairs)
        → StandFor (kept_of pairs) l → IsInOrder l → CanBeRead cut l → AreTied cut (things_of pairs) }
    ensures unbroken { (cut : AnyCut) (pairs : List AnyPair) (l : LakeStateValue) (n : ℕ)
        → HasAscendingKeys (entries_of pairs) → StandFor (kept_of pairs) l → IsInOrder l → CanBeRead cut l
        → IsFirstBroken cut pairs n → ⊥ }
    ensures trees { (cut : AnyCut) (pairs : List AnyPair) (l : LakeStateValue) → HasAscendingKeys (entries_of pairs)
        → StandFor (kept_of pairs) l → IsInOrder l → CanBeRead cut l
        → AreReadBefore cut (things_of pairs) (length (things_of pairs)) }
{}

/// A lake in order whose pairs are tied, whose keys ascend, can be read by its cut, where its maps and its settings can
/// be: what it gives out next is below 2^63, and its numbers were given out.
pub fn law_of_tied_lakes()
    ensures { (cut : AnyCut) (pairs : List AnyPair) (l : LakeStateValue) → HasAscendingKeys (entries_of pairs)
        → StandFor (kept_of pairs) l → IsInOrder l → AreTied cut (things_of pairs) → l.cut ≡ cut → HasReadableParts l
        → CanBeRead cut l }
{
    laws_of_reading();
}
