//! A keeper in memory that fails where it is told to, for tests.
ghost use Rattle.std.specs.Prelude.{◌≡◌, ◌≢◌, [], true, false, Some, None, Err, IsTrue, IfOk, IfErr, OnOk, OnErr};
ghost use Rattle.std.specs.Prelude.{IsErrOf, IsErr, IsOk};
ghost use Rattle.std.specs.FinMap as map;
ghost use Rattle.lake_base.specs.Maps.{HasAscendingKeys};
ghost use Rattle.lake_base.specs.Memory.{next_count};
ghost use Rattle.lake_base.specs.Troubles.{failures_after};
ghost use Rattle.lake_base.specs.declared.outside.Trouble.TheVariants.{Failed as trouble_failed};
ghost use Rattle.lake_base.specs.declared.outside.Trouble.TheVariants.{NoMemory as trouble_no_memory};
ghost use Rattle.keeper.specs.Keepers.{FailsByFault, MayHaveMade, entries_of, pairs_after};
ghost use Rattle.keeper.specs.FailingKeepers.{is_load, is_load_to_fail, landing, first_landing, put_landing};
ghost use Rattle.keeper.specs.FailingKeepers.{successes_after};
ghost use Rattle.std.specs.List.{list_any};

use crate::keeper::Keeper;
use crate::put::Put;
use crate::sure::SureKeeper;
use lake_base::outside::{NoMemory, Trouble};
use pair_format::Pair;
use std::alloc::Global;
use std::marker::Model;

/// A call that is to fail. Loads and puts are counted apart, from 1.
#[derive(Clone, Copy, Debug, PartialEq, Eq)]
pub enum KeeperFail {
    /// The load of this number.
    Load(u64),
    /// The call of `put_all` of this number, which makes its puts all the same or makes none.
    Put { call: u64, lands: bool },
}

/// A keeper in memory that fails at the calls that it was told, and where no memory is left. Where one call is listed
/// twice, the first counts.
#[derive(Debug, Drop)]
pub struct MemoryKeeper {
    keeper: SureKeeper,
    fails: Vec<KeeperFail>,
    loads: u64,
    puts: u64,
    successes: u64,
    faults: u64,
}

impl Model for MemoryKeeper {
    ghost use Rattle.keeper.specs.FailingKeepers.{MemoryKeeperValue, memory_keeper_code};

    ghost Value = { MemoryKeeperValue };

    ghost coded = { memory_keeper_code };

    ghost view = { λ keeper. record {
      pairs = keeper.keeper;
      fails = keeper.fails.items;
      loads = keeper.loads;
      puts = keeper.puts;
      successes = keeper.successes;
      faults = keeper.faults;
    } };
}

impl MemoryKeeper {
    /// A keeper of these pairs, whose keys strictly ascend, with the calls that are to fail. It takes no memory.
    pub fn new(alloc: Global, pairs: Vec<Pair>, fails: Vec<KeeperFail>) -> MemoryKeeper
        requires { HasAscendingKeys (entries_of pairs.items) }
        ensures pairs { map.entries result.pairs ≡ entries_of pairs.items }
        ensures counts { result ≡ record {
          pairs = result.pairs;
          fails = fails.items;
          loads = 0;
          puts = 0;
          successes = 0;
          faults = 0;
        } }
    {
        MemoryKeeper {
            keeper: SureKeeper::holding(alloc, pairs),
            fails,
            loads: 0,
            puts: 0,
            successes: 0,
            faults: 0,
        }
    }
}

// Whether the load of this number is listed.
fn is_load_listed(fails: &[KeeperFail], number: u64) -> bool
    ensures { result ≡ list_any (is_load number) fails.now }
{
    fails.iter().any(|fail| is_load(fail, number))
}

// Whether this is the failure of a load of this number.
fn is_load(fail: &KeeperFail, number: u64) -> bool
    ensures { result ≡ is_load number fail.now }
{
    match fail {
        KeeperFail::Load(call) => *call == number,
        KeeperFail::Put { .. } => false,
    }
}

// Whether the puts of this number are made, where this is their failure.
fn landing(fail: &KeeperFail, number: u64) -> Option<bool>
    ensures { result ≡ landing number fail.now }
{
    match fail {
        KeeperFail::Load(_) => None,
        KeeperFail::Put { call, lands } => { if *call == number { Some(*lands) } else { None } }
    }
}

// Of the first failure that names the puts of this number, whether they are made.
fn first_landing(fails: &[KeeperFail], number: u64) -> Option<bool>
    ensures { result ≡ first_landing number fails.now }
{
    for fail in fails {
        if let Some(lands) = landing(fail, number) {
            return Some(lands);
        }
    }
    None
}

impl Keeper for MemoryKeeper {
    ghost kept = { λ keeper. Some keeper.pairs };

    ghost faults = { λ keeper. keeper.faults };

    ghost calls = { λ keeper. Some keeper.puts };

    ghost successes = { λ keeper. Some keeper.successes };

    fn load(&mut self) -> Result<Vec<Pair>, Trouble>
        ensures pairs { IfOk result (λ pairs. entries_of pairs.items ≡ map.entries self.old.pairs) }
        ensures ascending { IfOk result (λ pairs. HasAscendingKeys (entries_of pairs.items)) }
        ensures cause { FailsByFault self.old.faults self.new.faults result }

        // It fails exactly where it was told to, and else for memory alone.
        ensures fails { IsTrue (is_load_to_fail self.old.fails self.old.loads)
            → IsErrOf result trouble_failed }
        ensures sure { is_load_to_fail self.old.fails self.old.loads ≡ false
            → IfErr result (λ trouble. trouble ≡ trouble_no_memory) }
        ensures counted { self.new ≡ record self.old {
          loads = next_count self.old.loads;
          faults = failures_after result self.old.faults;
        } }
    {
        self.loads = self.loads.saturating_add(1);
        if is_load_listed(self.fails.as_slice(), self.loads) {
            self.faults = self.faults.saturating_add(1);
            return Err(Trouble::Failed);
        }
        self.keeper.load()
    }

    fn put_all(&mut self, puts: &[Put]) -> Result<(), Trouble>
        ensures kept { OnOk result (self.new.pairs ≡ pairs_after puts.now self.old.pairs) }
        ensures no_memory { IsErrOf result trouble_no_memory → self.new.pairs ≡ self.old.pairs }
        ensures failed { IsErrOf result trouble_failed
            → MayHaveMade puts.now self.old.pairs self.new.pairs }
        ensures cause { FailsByFault self.old.faults self.new.faults result }

        // It fails only where it was told to, or for memory.
        ensures sure { put_landing self.old.fails self.old.puts ≡ None
            → IfErr result (λ trouble. trouble ≡ trouble_no_memory) }
        ensures fails { put_landing self.old.fails self.old.puts ≢ None → IsErr result }

        // What then stands: as it was, or as if the call had gone well.
        ensures stays { put_landing self.old.fails self.old.puts ≡ Some false
            → IsErrOf result trouble_failed × (self.new.pairs ≡ self.old.pairs) }
        ensures lands { put_landing self.old.fails self.old.puts ≡ Some true
            → IsErrOf result trouble_failed → self.new.pairs ≡ pairs_after puts.now self.old.pairs }

        ensures counted { self.new ≡ record self.old {
          pairs = self.new.pairs;
          puts = next_count self.old.puts;
          successes = successes_after result self.old.successes;
          faults = failures_after result self.old.faults;
        } }
    {
        self.puts = self.puts.saturating_add(1);
        match first_landing(self.fails.as_slice(), self.puts) {
            None => {
                self.keeper.put_all(puts)?;
                self.successes = self.successes.saturating_add(1);
                Ok(())
            }
            Some(lands) => {
                put_where(&mut self.keeper, puts, lands)?;
                self.faults = self.faults.saturating_add(1);
                Err(Trouble::Failed)
            }
        }
    }
}

// Makes the puts where they land.
fn put_where(keeper: &mut SureKeeper, puts: &[Put], lands: bool) -> Result<(), NoMemory>
    ensures lands { lands ≡ true → OnOk result (keeper.new ≡ pairs_after puts.now keeper.old) }
    ensures stays { lands ≡ false → IsOk result × (keeper.new ≡ keeper.old) }
    ensures unchanged { OnErr result (keeper.new ≡ keeper.old) }
{
    if lands && keeper.put_all(puts).is_err() {
        return Err(NoMemory);
    }
    Ok(())
}
