//! A lake that was read from pairs.
ghost use Rattle.std.specs.Prelude.{◌≡◌, ◌<◌, [], List};
ghost use Rattle.lake_base.specs.Maps.{HasAscendingKeys};
ghost use Rattle.lake_format.specs.declared.cut.Cut.{Cut as AnyCut};
ghost use Rattle.lake_model.specs.Soundness.{IsSound};
ghost use Rattle.pair_format.specs.declared.pair.Pair.{Pair as AnyPair};
ghost use Rattle.keeper.specs.Keepers.{entries_of};
ghost use Rattle.pair_trees.specs.Things.{things_of};
ghost use Rattle.pair_ties.specs.PairTies.{AreTied as AreTiedPairs};
ghost use Rattle.core_state.specs.Index.{HasIndex};
ghost use Rattle.core_state.specs.LakeStates.{LakeStateValue, state_of};
ghost use Rattle.core_standing.specs.Standing.{HasNoHistory, Stands};
ghost use Rattle.core_standing.specs.Ties.{AreTied};
ghost use Rattle.core_pairs.specs.LakePairs.{AreTokensApart};
ghost use Rattle.opening_laws.specs.ReadLakes.{IsReadFrom};

use core_standing::{law_of_opening, law_of_ties};

/// Of a lake that was read from tied pairs, whose keys ascend: its versions and tokens are below the next ones and its
/// counts small; no two branches name one token; nothing has happened in it; and its state is sound.
pub fn laws_of_reading()
    ensures ties { (cut : AnyCut) (pairs : List AnyPair) (l : LakeStateValue) → AreTiedPairs cut (things_of pairs)
        → HasAscendingKeys (entries_of pairs) → IsReadFrom cut pairs l → AreTied l }
    ensures apart { (cut : AnyCut) (pairs : List AnyPair) (l : LakeStateValue) → AreTiedPairs cut (things_of pairs)
        → HasAscendingKeys (entries_of pairs) → IsReadFrom cut pairs l → AreTokensApart l }
    ensures fresh { (cut : AnyCut) (pairs : List AnyPair) (l : LakeStateValue) → IsReadFrom cut pairs l
        → HasNoHistory l }
    ensures sound { (cut : AnyCut) (pairs : List AnyPair) (l : LakeStateValue) → AreTiedPairs cut (things_of pairs)
        → HasAscendingKeys (entries_of pairs) → IsReadFrom cut pairs l → IsSound (state_of l) }
{}

/// A lake that was read from tied pairs, whose keys ascend, by a cut whose modulus is above 0, and whose index tells of
/// just what is kept, stands for no entries.
pub fn law_of_read_lakes()
    ensures { (cut : AnyCut) (pairs : List AnyPair) (l : LakeStateValue) → AreTiedPairs cut (things_of pairs)
        → HasAscendingKeys (entries_of pairs) → 0 < cut.modulus → IsReadFrom cut pairs l → HasIndex l → Stands l [] l }
{
    laws_of_reading();
    law_of_ties();
    law_of_opening();
}
