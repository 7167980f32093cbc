//! The trait of a keeper of pairs.
ghost use Rattle.std.specs.Prelude.{◌≡◌, ℕ, List, Option, Some, is_some, option_map, IfOk, IfSome, IsErrOf, OnErr};
ghost use Rattle.std.specs.Prelude.{OnOk};
ghost use Rattle.std.specs.FinMap as map;
ghost use Rattle.lake_base.specs.Maps.{HasAscendingKeys};
ghost use Rattle.lake_base.specs.Memory.{next_count};
ghost use Rattle.lake_base.specs.declared.outside.Trouble.TheVariants.{Failed as trouble_failed};
ghost use Rattle.lake_base.specs.declared.outside.Trouble.TheVariants.{NoMemory as trouble_no_memory};
ghost use Rattle.keeper.specs.Keepers.{KeptPairs, FailsByFault, MayHaveMade, entries_of, pairs_after};

use crate::put::Put;
use lake_base::Trouble;
use pair_format::Pair;

/// A keeper of pairs. It may tell contracts which pairs it keeps, how often it was called to put, and how often that
/// came to Ok. It counts its faults.
pub trait Keeper: Drop {
    /// The pairs kept, where the keeper tells them.
    ghost kept: { Self → Option KeptPairs };

    /// How often it has failed.
    ghost faults: { Self → ℕ };

    /// How many calls of `put_all` there were, where the keeper tells it. A 64-bit count stands still at its end.
    ghost calls: { Self → Option ℕ };

    /// How many calls of `put_all` came to Ok, where the keeper tells it. It too stands still at its end.
    ghost successes: { Self → Option ℕ };

    /// All pairs, in byte order of their keys.
    fn load(&mut self) -> Result<Vec<Pair>, Trouble>
        ensures pairs { IfOk result (λ pairs. IfSome (kept self.old)
            (λ before. entries_of pairs.items ≡ map.entries before)) }
        ensures ascending { IfOk result (λ pairs. HasAscendingKeys (entries_of pairs.items)) }
        ensures kept { kept self.new ≡ kept self.old }
        ensures calls { calls self.new ≡ calls self.old }
        ensures successes { successes self.new ≡ successes self.old }
        ensures cause { FailsByFault (faults self.old) (faults self.new) result };

    /// Makes the puts, one after the other: all of them, or none.
    fn put_all(&mut self, puts: &[Put]) -> Result<(), Trouble>
        ensures kept { OnOk result (IfSome (kept self.old)
            (λ before. kept self.new ≡ Some (pairs_after puts.now before))) }

        // After a failure of the keeper all of them were made or none; running out of memory changes nothing.
        ensures failed { IsErrOf result trouble_failed → IfSome (kept self.old)
            (λ before. IfSome (kept self.new) (MayHaveMade puts.now before)) }
        ensures no_memory { IsErrOf result trouble_no_memory → kept self.new ≡ kept self.old }

        ensures told { is_some (kept self.new) ≡ is_some (kept self.old) }
        ensures called { calls self.new ≡ option_map next_count (calls self.old) }
        ensures succeeded { OnOk result (successes self.new ≡ option_map next_count (successes self.old)) }
        ensures not_succeeded { OnErr result (successes self.new ≡ successes self.old) }
        ensures cause { FailsByFault (faults self.old) (faults self.new) result };
}
