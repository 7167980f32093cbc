//! A store in memory.
ghost use Rattle.std.specs.Prelude.{◌≡◌, ◌≤◌, is_some, option_map, IfOk, IfNone, IsOk, OnErr, OnSome, if◌then◌else◌};
ghost use Rattle.std.specs.Ordering.{nat_cmp};
ghost use Rattle.std.specs.BTreeMap.{keys, IsOrdered};
ghost use Rattle.std.specs.FinMap as map;
ghost use Rattle.lake_base.specs.Memory.{next_count};
ghost use Rattle.block_store.specs.Blocks.{FailsByFault, Misses, NoMiss, MayHaveRemoved};

use crate::blocks::Blocks;
use lake_base::{Sequence, Trouble};
use std::alloc::{AllocError, Global};
use std::collections::BTreeMap;
use std::marker::Model;

/// A store in memory. It never fails but for memory, and counts its misses.
#[derive(Debug, Drop)]
pub struct SureBlocks {
    objects: BTreeMap<u64, Sequence<u8>>,
    misses: u64,
    missed: u64,
    alloc: Global,
}

impl Model for SureBlocks {
    ghost use Rattle.std.specs.FinMap as map;
    ghost use Rattle.block_store.specs.Sure.{SureBlocksValue, sure_blocks_code};

    ghost Value = { SureBlocksValue };

    ghost coded = { sure_blocks_code };

    ghost view = { λ blocks. record {
      held = map.from_entries blocks.objects.entries;
      misses = blocks.misses;
      missed = blocks.missed;
    } };
}

impl SureBlocks {
    /// A store that holds nothing. It takes no memory.
    pub fn new(alloc: Global) -> SureBlocks
        ensures { result ≡ record { held = map.empty; misses = 0; missed = 0 } }
    {
        SureBlocks {
            objects: BTreeMap::new(alloc),
            misses: 0,
            missed: 0,
            alloc,
        }
    }
}

// The numbers in the tree.
fn numbers_of(alloc: Global, objects: &BTreeMap<u64, Sequence<u8>>) -> Result<Vec<u64>, AllocError>
    ensures numbers { IfOk result (λ numbers. numbers.items ≡ keys objects.now) }
    ensures ordered { IfOk result (λ _. IsOrdered nat_cmp objects.now) }
{
    let numbers = objects.keys().copied().collect(alloc)?;
    Ok(numbers)
}

impl Blocks for SureBlocks {
    ghost use Rattle.std.specs.Prelude.{Some};

    ghost held = { λ blocks. Some blocks.held };

    ghost faults = { λ _. 0 };

    ghost misses = { λ blocks. blocks.misses };

    ghost missed = { λ blocks. blocks.missed };

    fn put(&mut self, number: u64, bytes: &[u8]) -> Result<(), Trouble> {
        let copy = Vec::from_slice(self.alloc, bytes)?;
        self.objects.insert(number, Sequence::of(copy))?;
        Ok(())
    }

    fn get(&mut self, number: u64) -> Result<Option<Vec<u8>>, Trouble>
        ensures got { IfOk result
            (λ got. option_map (λ bytes. bytes.items) got ≡ map.get self.old.held number) }
        ensures held { self.new.held ≡ self.old.held }
        ensures miss { IfOk result (λ got. IfNone got
            (Misses number self.old.misses self.new.misses self.new.missed)) }
        ensures no_miss { IfOk result (λ got. OnSome got
            (NoMiss self.old.misses self.new.misses self.old.missed self.new.missed)) }
        ensures no_miss_failed { OnErr result
            (NoMiss self.old.misses self.new.misses self.old.missed self.new.missed) }
        ensures later { self.old.misses ≤ self.new.misses }
        ensures cause { FailsByFault 0 0 result }

        // A miss counts one.
        ensures counted { IfOk result (λ got. self.new.misses
            ≡ (if is_some got then self.old.misses else next_count self.old.misses)) }
    {
        let Some(object) = self.objects.get(&number) else {
            self.misses = self.misses.saturating_add(1);
            self.missed = number;
            return Ok(None);
        };
        let copy = Vec::from_slice(self.alloc, object.as_slice())?;
        Ok(Some(copy))
    }

    fn remove(&mut self, number: u64) -> Result<bool, Trouble>
        ensures was { IfOk result (λ was. was ≡ map.contains_key self.old.held number) }
        ensures removed { self.new.held ≡ map.remove self.old.held number }
        ensures failed { OnErr result (MayHaveRemoved number self.old.held self.new.held) }
        ensures no_miss { NoMiss self.old.misses self.new.misses self.old.missed self.new.missed }
        ensures cause { FailsByFault 0 0 result }

        // It takes no memory.
        ensures sure { IsOk result }
    {
        let was = self.objects.remove(&number).is_some();
        Ok(was)
    }

    fn list(&mut self) -> Result<Vec<u64>, Trouble> {
        let numbers = numbers_of(self.alloc, &self.objects)?;
        Ok(numbers)
    }
}
