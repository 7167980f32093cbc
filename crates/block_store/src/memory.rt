//! A store in memory that fails where it is told to, for tests.
ghost use Rattle.std.specs.Prelude.{◌≡◌, ◌≢◌, ◌≤◌, true, false, Some, None, IsTrue, IfOk, IfErr, IfNone, OnOk, OnErr};
ghost use Rattle.std.specs.Prelude.{OnSome, IsErrOf, IsErr, IsOk, option_map};
ghost use Rattle.std.specs.List.{list_any};
ghost use Rattle.std.specs.List.Sorted.{IsStrictlyIncreasing};
ghost use Rattle.std.specs.FinMap as map;
ghost use Rattle.lake_base.specs.Memory.{next_count};
ghost use Rattle.lake_base.specs.Troubles.{failures_after};
ghost use Rattle.lake_base.specs.declared.outside.Trouble.TheVariants.{Failed as trouble_failed};
ghost use Rattle.lake_base.specs.declared.outside.Trouble.TheVariants.{NoMemory as trouble_no_memory};
ghost use Rattle.block_store.specs.Blocks.{FailsByFault, Misses, NoMiss, MayHavePut, MayHaveRemoved};
ghost use Rattle.block_store.specs.FailingBlocks.{is_get, is_get_to_fail, is_list, is_list_to_fail};
ghost use Rattle.block_store.specs.FailingBlocks.{landing_put, landing_remove};
ghost use Rattle.block_store.specs.FailingBlocks.{first_landing_put, first_landing_remove};
ghost use Rattle.block_store.specs.FailingBlocks.{put_landing, remove_landing};
ghost use Rattle.block_store.specs.FailingBlocks.{misses_after, missed_after};

use crate::blocks::Blocks;
use crate::sure::SureBlocks;
use lake_base::outside::{NoMemory, Trouble};
use std::alloc::Global;
use std::marker::Model;

/// A call that is to fail. Calls of each kind are counted apart, from 1.
#[derive(Clone, Copy, Debug, PartialEq, Eq)]
pub enum BlockFail {
    /// The put of this number, which leaves the bytes all the same or nothing.
    Put { call: u64, lands: bool },
    /// The get of this number.
    Get(u64),
    /// The remove of this number, which takes away all the same or leaves what was held.
    Remove { call: u64, lands: bool },
    /// The list of this number.
    List(u64),
}

/// A store in memory that fails at the calls that it was told, and where no memory is left. Where one call is listed
/// twice, the first counts. It counts its faults and its misses.
#[derive(Debug, Drop)]
pub struct MemoryBlocks {
    blocks: SureBlocks,
    fails: Vec<BlockFail>,
    puts: u64,
    gets: u64,
    removes: u64,
    lists: u64,
    faults: u64,
}

impl Model for MemoryBlocks {
    ghost use Rattle.block_store.specs.FailingBlocks.{MemoryBlocksValue, memory_blocks_code};

    ghost Value = { MemoryBlocksValue };

    ghost coded = { memory_blocks_code };

    ghost view = { λ blocks. record {
      held = blocks.blocks.held;
      fails = blocks.fails.items;
      puts = blocks.puts;
      gets = blocks.gets;
      removes = blocks.removes;
      lists = blocks.lists;
      faults = blocks.faults;
      misses = blocks.blocks.misses;
      missed = blocks.blocks.missed;
    } };
}

impl MemoryBlocks {
    /// A store that holds nothing, with the calls that are to fail. It takes no memory.
    pub fn new(alloc: Global, fails: Vec<BlockFail>) -> MemoryBlocks
        ensures { result ≡ record {
          held = map.empty;
          fails = fails.items;
          puts = 0;
          gets = 0;
          removes = 0;
          lists = 0;
          faults = 0;
          misses = 0;
          missed = 0;
        } }
    {
        MemoryBlocks {
            blocks: SureBlocks::new(alloc),
            fails,
            puts: 0,
            gets: 0,
            removes: 0,
            lists: 0,
            faults: 0,
        }
    }
}

// Whether the get of this number is listed.
fn is_get_listed(fails: &[BlockFail], number: u64) -> bool
    ensures { result ≡ list_any (is_get number) fails.now }
{
    fails.iter().any(|fail| is_get(fail, number))
}

// Whether this is the failure of a get of this number.
fn is_get(fail: &BlockFail, number: u64) -> bool
    ensures { result ≡ is_get number fail.now }
{
    match fail {
        BlockFail::Get(call) => *call == number,
        BlockFail::Put { .. } | BlockFail::Remove { .. } | BlockFail::List(_) => false,
    }
}

// Whether the list of this number is listed.
fn is_list_listed(fails: &[BlockFail], number: u64) -> bool
    ensures { result ≡ list_any (is_list number) fails.now }
{
    fails.iter().any(|fail| is_list(fail, number))
}

// Whether this is the failure of a list of this number.
fn is_list(fail: &BlockFail, number: u64) -> bool
    ensures { result ≡ is_list number fail.now }
{
    match fail {
        BlockFail::List(call) => *call == number,
        BlockFail::Put { .. } | BlockFail::Get(_) | BlockFail::Remove { .. } => false,
    }
}

// Whether the put of this number is made, where this is its failure.
fn landing_put(fail: &BlockFail, number: u64) -> Option<bool>
    ensures { result ≡ landing_put number fail.now }
{
    match fail {
        BlockFail::Put { call, lands } => { if *call == number { Some(*lands) } else { None } }
        BlockFail::Get(_) | BlockFail::Remove { .. } | BlockFail::List(_) => None,
    }
}

// Whether the remove of this number is made, where this is its failure.
fn landing_remove(fail: &BlockFail, number: u64) -> Option<bool>
    ensures { result ≡ landing_remove number fail.now }
{
    match fail {
        BlockFail::Remove { call, lands } => { if *call == number { Some(*lands) } else { None } }
        BlockFail::Put { .. } | BlockFail::Get(_) | BlockFail::List(_) => None,
    }
}

// Of the first failure that names the put of this number, whether it is made.
fn first_landing_put(fails: &[BlockFail], number: u64) -> Option<bool>
    ensures { result ≡ first_landing_put number fails.now }
{
    for fail in fails {
        if let Some(lands) = landing_put(fail, number) {
            return Some(lands);
        }
    }
    None
}

// Of the first failure that names the remove of this number, whether it is made.
fn first_landing_remove(fails: &[BlockFail], number: u64) -> Option<bool>
    ensures { result ≡ first_landing_remove number fails.now }
{
    for fail in fails {
        if let Some(lands) = landing_remove(fail, number) {
            return Some(lands);
        }
    }
    None
}

impl Blocks for MemoryBlocks {
    ghost held = { λ blocks. Some blocks.held };

    ghost faults = { λ blocks. blocks.faults };

    ghost misses = { λ blocks. blocks.misses };

    ghost missed = { λ blocks. blocks.missed };

    fn put(&mut self, number: u64, bytes: &[u8]) -> Result<(), Trouble>
        ensures put { OnOk result (self.new.held ≡ map.insert self.old.held number bytes.now) }
        ensures no_memory { IsErrOf result trouble_no_memory → self.new.held ≡ self.old.held }
        ensures failed { IsErrOf result trouble_failed
            → MayHavePut number bytes.now self.old.held self.new.held }
        ensures cause { FailsByFault self.old.faults self.new.faults result }

        // It fails only where it was told to, or for memory.
        ensures sure { put_landing self.old.fails self.old.puts ≡ None
            → IfErr result (λ trouble. trouble ≡ trouble_no_memory) }
        ensures fails { put_landing self.old.fails self.old.puts ≢ None → IsErr result }

        // What the number then holds: nothing, or the bytes.
        ensures empties { put_landing self.old.fails self.old.puts ≡ Some false
            → IsErrOf result trouble_failed × (self.new.held ≡ map.remove self.old.held number) }
        ensures lands { put_landing self.old.fails self.old.puts ≡ Some true
            → IsErrOf result trouble_failed → self.new.held ≡ map.insert self.old.held number bytes.now }

        ensures counted { self.new ≡ record self.old {
          held = self.new.held;
          puts = next_count self.old.puts;
          faults = failures_after result self.old.faults;
        } }
    {
        self.puts = self.puts.saturating_add(1);
        match first_landing_put(self.fails.as_slice(), self.puts) {
            None => self.blocks.put(number, bytes),
            Some(lands) => {
                put_where(&mut self.blocks, number, bytes, lands)?;
                self.faults = self.faults.saturating_add(1);
                Err(Trouble::Failed)
            }
        }
    }

    fn get(&mut self, number: u64) -> Result<Option<Vec<u8>>, Trouble>
        ensures got { IfOk result
            (λ got. option_map (λ bytes. bytes.items) got ≡ map.get self.old.held number) }
        ensures miss { IfOk result (λ got. IfNone got
            (Misses number self.old.misses self.new.misses self.new.missed)) }
        ensures no_miss { IfOk result (λ got. OnSome got
            (NoMiss self.old.misses self.new.misses self.old.missed self.new.missed)) }
        ensures no_miss_failed { OnErr result
            (NoMiss self.old.misses self.new.misses self.old.missed self.new.missed) }
        ensures later { self.old.misses ≤ self.new.misses }
        ensures cause { FailsByFault self.old.faults self.new.faults result }

        // It fails exactly where it was told to, and else for memory alone.
        ensures fails { IsTrue (is_get_to_fail self.old.fails self.old.gets)
            → IsErrOf result trouble_failed }
        ensures sure { is_get_to_fail self.old.fails self.old.gets ≡ false
            → IfErr result (λ trouble. trouble ≡ trouble_no_memory) }

        ensures counted { self.new ≡ record self.old {
          gets = next_count self.old.gets;
          faults = failures_after result self.old.faults;
          misses = misses_after result self.old.misses;
          missed = missed_after number result self.old.missed;
        } }
    {
        self.gets = self.gets.saturating_add(1);
        if is_get_listed(self.fails.as_slice(), self.gets) {
            self.faults = self.faults.saturating_add(1);
            return Err(Trouble::Failed);
        }
        self.blocks.get(number)
    }

    fn remove(&mut self, number: u64) -> Result<bool, Trouble>
        ensures was { IfOk result (λ was. was ≡ map.contains_key self.old.held number) }
        ensures removed { OnOk result (self.new.held ≡ map.remove self.old.held number) }
        ensures failed { OnErr result (MayHaveRemoved number self.old.held self.new.held) }
        ensures cause { FailsByFault self.old.faults self.new.faults result }

        // It takes no memory, so it fails exactly where it was told to. Then the number is held as before, or not
        // at all.
        ensures sure { remove_landing self.old.fails self.old.removes ≡ None → IsOk result }
        ensures stays { remove_landing self.old.fails self.old.removes ≡ Some false
            → IsErrOf result trouble_failed × (self.new.held ≡ self.old.held) }
        ensures lands { remove_landing self.old.fails self.old.removes ≡ Some true
            → IsErrOf result trouble_failed × (self.new.held ≡ map.remove self.old.held number) }

        ensures counted { self.new ≡ record self.old {
          held = self.new.held;
          removes = next_count self.old.removes;
          faults = failures_after result self.old.faults;
        } }
    {
        self.removes = self.removes.saturating_add(1);
        match first_landing_remove(self.fails.as_slice(), self.removes) {
            None => self.blocks.remove(number),
            Some(lands) => {
                if lands {
                    let _ = self.blocks.remove(number);
                }
                self.faults = self.faults.saturating_add(1);
                Err(Trouble::Failed)
            }
        }
    }

    fn list(&mut self) -> Result<Vec<u64>, Trouble>
        ensures numbers { IfOk result (λ numbers. numbers.items ≡ map.keys self.old.held) }
        ensures ascending { IfOk result (λ numbers. IsStrictlyIncreasing numbers.items) }
        ensures cause { FailsByFault self.old.faults self.new.faults result }

        // It fails exactly where it was told to, and else for memory alone.
        ensures fails { IsTrue (is_list_to_fail self.old.fails self.old.lists)
            → IsErrOf result trouble_failed }
        ensures sure { is_list_to_fail self.old.fails self.old.lists ≡ false
            → IfErr result (λ trouble. trouble ≡ trouble_no_memory) }

        ensures counted { self.new ≡ record self.old {
          lists = next_count self.old.lists;
          faults = failures_after result self.old.faults;
        } }
    {
        self.lists = self.lists.saturating_add(1);
        if is_list_listed(self.fails.as_slice(), self.lists) {
            self.faults = self.faults.saturating_add(1);
            return Err(Trouble::Failed);
        }
        self.blocks.list()
    }
}

// Puts the bytes under the number where they land, and else empties it.
fn put_where(
    blocks: &mut SureBlocks,
    number: u64,
    bytes: &[u8],
    lands: bool,
) -> Result<(), NoMemory>
    ensures lands { lands ≡ true → OnOk result (blocks.new.held ≡ map.insert blocks.old.held number bytes.now) }
    ensures empties { lands ≡ false → IsOk result × (blocks.new.held ≡ map.remove blocks.old.held number) }
    ensures unchanged { OnErr result (blocks.new.held ≡ blocks.old.held) }
    ensures misses { blocks.new.misses ≡ blocks.old.misses }
    ensures missed { blocks.new.missed ≡ blocks.old.missed }
{
    if !lands {
        let _ = blocks.remove(number);
        return Ok(());
    }
    if blocks.put(number, bytes).is_err() {
        return Err(NoMemory);
    }
    Ok(())
}
