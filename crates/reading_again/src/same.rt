//! What is read from the pairs of a lake.
ghost use Rattle.std.specs.Prelude.{◌≡◌, List};
ghost use Rattle.lake_base.specs.Maps.{HasAscendingKeys};
ghost use Rattle.lake_format.specs.declared.cut.Cut.{Cut as AnyCut};
ghost use Rattle.pair_format.specs.declared.pair.Pair.{Pair as AnyPair};
ghost use Rattle.keeper.specs.Keepers.{entries_of};
ghost use Rattle.pair_trees.specs.Things.{kept_of};
ghost use Rattle.core_state.specs.Counts.{versions_of};
ghost use Rattle.core_state.specs.LakeStates.{LakeStateValue, state_of};
ghost use Rattle.core_pairs.specs.LakePairs.{StandFor, at_rest};
ghost use Rattle.opening_laws.specs.ReadLakes.{IsReadFrom};
ghost use Rattle.reading_again.specs.ReadableLakes.{CanBeRead, HasTexts, IsInOrder};

/// A lake that was read from the pairs of a lake in order, which can be read, has the same state as that one put to
/// rest, the same versions, and the same next token.
pub fn laws_of_same_lakes()
    ensures state { (cut : AnyCut) (pairs : List AnyPair) (l read : LakeStateValue)
        → HasAscendingKeys (entries_of pairs) → StandFor (kept_of pairs) l → IsInOrder l → CanBeRead cut l
        → IsReadFrom cut pairs read → HasTexts read
        → state_of read ≡ state_of (at_rest l) }
    ensures versions { (cut : AnyCut) (pairs : List AnyPair) (l read : LakeStateValue)
        → HasAscendingKeys (entries_of pairs) → StandFor (kept_of pairs) l → IsInOrder l → CanBeRead cut l
        → IsReadFrom cut pairs read → HasTexts read → versions_of read ≡ versions_of (at_rest l) }
    ensures token { (cut : AnyCut) (pairs : List AnyPair) (l read : LakeStateValue)
        → HasAscendingKeys (entries_of pairs) → StandFor (kept_of pairs) l → IsInOrder l → CanBeRead cut l
        → IsReadFrom cut pairs read → HasTexts read
        → read.next_token ≡ l.next_token }
{}
