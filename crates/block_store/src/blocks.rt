//! The trait of a store of objects.
ghost use Rattle.std.specs.Prelude.{◌≡◌, ◌≤◌, ℕ, Option, Some, is_some, option_map, IfOk, IfSome, IfNone, OnOk, OnErr};
ghost use Rattle.std.specs.Prelude.{OnSome, IsErrOf};
ghost use Rattle.std.specs.List.Sorted.{IsStrictlyIncreasing};
ghost use Rattle.std.specs.FinMap as map;
ghost use Rattle.lake_base.specs.declared.outside.Trouble.TheVariants.{Failed as trouble_failed};
ghost use Rattle.lake_base.specs.declared.outside.Trouble.TheVariants.{NoMemory as trouble_no_memory};
ghost use Rattle.block_store.specs.Blocks.{HeldObjects, FailsByFault, Misses, NoMiss, MayHavePut, MayHaveRemoved};

use lake_base::Trouble;

/// A store that keeps objects' bytes, each under a number. It may tell contracts what it holds. It counts
/// its faults and its misses.
pub trait Blocks: Drop {
    /// The objects held, where the store tells them.
    ghost held: { Self → Option HeldObjects };

    /// How often it has failed.
    ghost faults: { Self → ℕ };

    /// How often a number that was asked wasn't there.
    ghost misses: { Self → ℕ };

    /// The number missed last.
    ghost missed: { Self → ℕ };

    /// Puts these bytes under the number, in place of what it held.
    fn put(&mut self, number: u64, bytes: &[u8]) -> Result<(), Trouble>
        ensures put { OnOk result (IfSome (held self.old)
            (λ before. held self.new ≡ Some (map.insert before number bytes.now))) }

        // After a failure of the store the number holds nothing or the bytes; running out of memory changes nothing.
        ensures failed { IsErrOf result trouble_failed → IfSome (held self.old)
            (λ before. IfSome (held self.new) (MayHavePut number bytes.now before)) }
        ensures no_memory { IsErrOf result trouble_no_memory → held self.new ≡ held self.old }

        ensures told { is_some (held self.new) ≡ is_some (held self.old) }
        ensures cause { FailsByFault (faults self.old) (faults self.new) result }
        ensures no_miss { NoMiss (misses self.old) (misses self.new) (missed self.old) (missed self.new) };

    /// The bytes under the number. None is a miss, which is counted.
    fn get(&mut self, number: u64) -> Result<Option<Vec<u8>>, Trouble>
        ensures got { IfOk result (λ got. IfSome (held self.old)
            (λ before. option_map (λ bytes. bytes.items) got ≡ map.get before number)) }
        ensures held { held self.new ≡ held self.old }

        // None comes only with a miss of this number, and nothing else counts one.
        ensures miss { IfOk result (λ got. IfNone got
            (Misses number (misses self.old) (misses self.new) (missed self.new))) }
        ensures no_miss { IfOk result (λ got. OnSome got
            (NoMiss (misses self.old) (misses self.new) (missed self.old) (missed self.new))) }
        ensures no_miss_failed { OnErr result
            (NoMiss (misses self.old) (misses self.new) (missed self.old) (missed self.new)) }
        ensures later { misses self.old ≤ misses self.new }

        ensures cause { FailsByFault (faults self.old) (faults self.new) result };

    /// Takes away what the number holds, and answers whether it held something.
    fn remove(&mut self, number: u64) -> Result<bool, Trouble>
        ensures was { IfOk result (λ was. IfSome (held self.old)
            (λ before. was ≡ map.contains_key before number)) }
        ensures removed { OnOk result (IfSome (held self.old)
            (λ before. held self.new ≡ Some (map.remove before number))) }

        // After a failure the number is held as before or not at all.
        ensures failed { OnErr result (IfSome (held self.old)
            (λ before. IfSome (held self.new) (MayHaveRemoved number before))) }

        ensures told { is_some (held self.new) ≡ is_some (held self.old) }
        ensures cause { FailsByFault (faults self.old) (faults self.new) result }
        ensures no_miss { NoMiss (misses self.old) (misses self.new) (missed self.old) (missed self.new) };

    /// The numbers that hold something, ascending.
    fn list(&mut self) -> Result<Vec<u64>, Trouble>
        ensures numbers { IfOk result (λ numbers. IfSome (held self.old)
            (λ before. numbers.items ≡ map.keys before)) }
        ensures ascending { IfOk result (λ numbers. IsStrictlyIncreasing numbers.items) }
        ensures held { held self.new ≡ held self.old }
        ensures cause { FailsByFault (faults self.old) (faults self.new) result }
        ensures no_miss { NoMiss (misses self.old) (misses self.new) (missed self.old) (missed self.new) };
}
