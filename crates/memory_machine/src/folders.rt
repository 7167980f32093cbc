//! Folders in memory.
ghost use Rattle.std.specs.Prelude.{◌≡◌, ◌≢◌, ◌<◌, ◌-◌, ◌↔◌, ◌++◌, ◌∷◌, [], drop, map as list_map, Err, Some, IfOk};
ghost use Rattle.std.specs.Prelude.{IfSome, IsErrOf, IsOk, IsSome, IsTrue, OnErr, OnOk, option_map};
ghost use Rattle.std.specs.FinMap as map;
ghost use Rattle.std.specs.List.{AllByRecursion};
ghost use Rattle.lake_base.specs.Memory.{next_count};
ghost use Rattle.lake_base.specs.declared.outside.Trouble.TheVariants.{Failed as trouble_failed};
ghost use Rattle.lake_base.specs.Troubles.{failures_after};
ghost use Rattle.block_store.specs.Blocks.{FailsByFault};
ghost use Rattle.memory_machine.specs.FoldersInMemory.{IsCalm, keeper_show, objects_in, pairs_in, store_show};

use block_store::{Blocks, MemoryBlocks};
use keeper::{Keeper, KeeperFail, MemoryKeeper};
use lake_base::{Text, Trouble};
use lake_folders::Folders;
use std::alloc::Global;
use std::collections::VecDeque;
use std::marker::Model;

/// Folders in memory, of which one is there. It gives the keepers that it is made of, and fails where none is left, as
/// where another one stands; and the stores that it is made of, and then stores that hold nothing. In another folder
/// there is nothing. It keeps what it is given back, and may be made to fail at first.
#[derive(Drop)]
pub struct MemoryFolders {
    alloc: Global,
    folder: Text,
    keepers: VecDeque<MemoryKeeper>,
    stores: VecDeque<MemoryBlocks>,
    keepers_back: Option<Vec<MemoryKeeper>>,
    stores_back: Option<Vec<MemoryBlocks>>,
    refusals: u64,
    faults: u64,
}

impl Model for MemoryFolders {
    ghost use Rattle.std.specs.List.{AllByRecursion};
    ghost use Rattle.std.specs.Prelude.{◌≡◌, option_map};
    ghost use Rattle.memory_machine.specs.FoldersInMemory.{IsCalm, MemoryFoldersValue, memory_folders_code};

    ghost Value = { MemoryFoldersValue };

    ghost coded = { memory_folders_code };

    ghost view = { λ folders. record {
      folder = folders.folder;
      keepers = folders.keepers.items;
      stores = folders.stores.items;
      keepers_back = option_map (λ back. back.items) folders.keepers_back;
      stores_back = option_map (λ back. back.items) folders.stores_back;
      refusals = folders.refusals;
      faults = folders.faults;
    } };

    ghost invariant = { λ folders. AllByRecursion (λ keeper. keeper.faults ≡ 0) folders.keepers.items
        × AllByRecursion IsCalm folders.stores.items };
}

impl MemoryFolders {
    /// Folders of which that of this name is there. Its keepers and its stores, which have counted nothing, are given
    /// in their order. It takes no memory.
    pub fn new(
        alloc: Global,
        folder: Text,
        keepers: Vec<MemoryKeeper>,
        stores: Vec<MemoryBlocks>,
    ) -> MemoryFolders
        requires keepers { AllByRecursion (λ keeper. keeper.faults ≡ 0) keepers.items }
        requires stores { AllByRecursion IsCalm stores.items }
        ensures { result ≡ record {
          folder = folder;
          keepers = keepers.items;
          stores = stores.items;
          keepers_back = Some [];
          stores_back = Some [];
          refusals = 0;
          faults = 0;
        } }
    {
        MemoryFolders {
            alloc,
            folder,
            keepers: VecDeque::from(keepers),
            stores: VecDeque::from(stores),
            keepers_back: Some(Vec::new(alloc)),
            stores_back: Some(Vec::new(alloc)),
            refusals: 0,
            faults: 0,
        }
    }

    /// The folders, of which the next calls that open one fail, so many of them. It takes no memory.
    pub fn refusing(self, refusals: u64) -> MemoryFolders
        ensures { result ≡ record self { refusals = refusals } }
    {
        let mut folders = self;
        folders.refusals = refusals;
        folders
    }

    /// The keepers and the stores that it was given back, in order, where there was memory for them. It takes no
    /// memory.
    pub fn into_back(self) -> (Option<Vec<MemoryKeeper>>, Option<Vec<MemoryBlocks>>)
        ensures keepers { option_map (λ back. back.items) result.0 ≡ self.keepers_back }
        ensures stores { option_map (λ back. back.items) result.1 ≡ self.stores_back }
    {
        (self.keepers_back, self.stores_back)
    }

    /// The folder as the next program finds it: the pairs of the keeper that was given back last, whose calls are to
    /// fail that are told here, and one store with the objects of those that were given back. Failed where no keeper
    /// was, or where one of these calls is to fail.
    pub fn again(self, fails: Vec<KeeperFail>) -> Result<MemoryFolders, Trouble> {
        let alloc = self.alloc;
        let folder = self.folder;
        let (Some(mut keepers_back), Some(mut stores_back)) = (self.keepers_back, self.stores_back)
        else {
            return Err(Trouble::NoMemory);
        };
        let Some(mut keeper) = keepers_back.pop() else {
            return Err(Trouble::Failed);
        };
        let pairs = keeper.load()?;
        let objects = gathered(alloc, stores_back.as_mut_slice())?;
        let mut keepers = Vec::new(alloc);
        keepers.push(MemoryKeeper::new(alloc, pairs, fails))?;
        let mut stores = Vec::new(alloc);
        stores.push(objects)?;
        Ok(MemoryFolders::new(alloc, folder, keepers, stores))
    }

    // Whether this call is one that is to fail.
    fn is_refused(&mut self) -> bool
        ensures told { IsTrue result ↔ (0 < self.old.refusals) }
        ensures counted { self.new ≡ record self.old { refusals = self.old.refusals - 1 } }
    {
        if self.refusals > 0 {
            self.refusals -= 1;
            return true;
        }
        false
    }

    // A failure, which is counted.
    fn refused<T>(&mut self) -> Result<T, Trouble>
        ensures same { result ≡ Err trouble_failed }
        ensures cause { FailsByFault self.old.faults self.new.faults result }
        ensures counted { self.new ≡ record self.old { faults = next_count self.old.faults } }
    {
        self.faults = self.faults.saturating_add(1);
        Err(Trouble::Failed)
    }
}

// A keeper of no pairs, which doesn't fail but for memory.
fn bare_keeper(alloc: Global) -> MemoryKeeper
    ensures none { result.pairs ≡ map.empty }
    ensures calm { result.faults ≡ 0 }
{
    let pairs = Vec::new(alloc);
    let fails = Vec::new(alloc);
    MemoryKeeper::new(alloc, pairs, fails)
}

// Puts what a store holds into another one.
fn put_all(from: &mut MemoryBlocks, into: &mut MemoryBlocks) -> Result<(), Trouble>
    ensures faults { OnOk result (into.new.faults ≡ into.old.faults) }
    ensures misses { into.new.misses ≡ into.old.misses }
{
    for number in from.list()? {
        if let Some(bytes) = from.get(number)? {
            into.put(number, bytes.as_slice())?;
        }
    }
    Ok(())
}

// A store with what these hold.
fn gathered(alloc: Global, stores: &mut [MemoryBlocks]) -> Result<MemoryBlocks, Trouble>
    ensures calm { IfOk result IsCalm }
{
    let mut all = MemoryBlocks::new(alloc, Vec::new(alloc));
    for store in stores {
        put_all(store, &mut all)?;
    }
    Ok(all)
}

// Keeps one more, where there is memory for it, and else none.
fn keep<T: Drop>(kept: &mut Option<Vec<T>>, value: T)
    ensures kept { IfSome kept.new (λ after. IfSome kept.old (λ before. after.items ≡ before.items ++ value ∷ [])) }
    ensures told { IfSome kept.new (λ _. IsSome kept.old) }
{
    let lost = match kept {
        Some(values) => values.push(value).is_err(),
        None => false,
    };
    if lost {
        *kept = None;
    }
}

impl Folders for MemoryFolders {
    type Pairs = MemoryKeeper;

    type Objects = MemoryBlocks;

    ghost use Rattle.std.specs.Prelude.{Some};

    ghost pairs = { λ folders name. pairs_in folders name };

    ghost objects = { λ folders name. objects_in folders name };

    ghost keepers_back = { λ folders. option_map (list_map keeper_show) folders.keepers_back };

    ghost stores_back = { λ folders. option_map (list_map store_show) folders.stores_back };

    ghost faults = { λ folders. folders.faults };

    fn keeper(&mut self, folder: &Text) -> Result<MemoryKeeper, Trouble>
        ensures held { IfOk result (λ keeper. IfSome (pairs_in self.old folder.now) (λ held. keeper.pairs ≡ held)) }
        ensures calm { IfOk result (λ keeper. keeper.faults ≡ 0) }
        ensures cause { FailsByFault self.old.faults self.new.faults result }

        // It gives the keeper that has waited longest, and of another folder one without pairs. It fails just where it
        // was told to, or where none is left.
        ensures next { IfOk result (λ keeper. folder.now ≡ self.old.folder
            → self.old.keepers ≡ keeper ∷ self.new.keepers) }
        ensures other { folder.now ≢ self.old.folder → self.new.keepers ≡ self.old.keepers }
        ensures refused { 0 < self.old.refusals → IsErrOf result trouble_failed }
        ensures last { self.old.refusals ≡ 0 → OnErr result ((folder.now ≡ self.old.folder) × (self.old.keepers ≡ [])) }
        ensures counted { self.new ≡ record self.old {
          keepers = self.new.keepers;
          refusals = self.old.refusals - 1;
          faults = failures_after result self.old.faults;
        } }
    {
        if self.is_refused() {
            return self.refused();
        }
        if *folder != self.folder {
            return Ok(bare_keeper(self.alloc));
        }
        match self.keepers.pop_front() {
            Some(keeper) => Ok(keeper),
            None => self.refused(),
        }
    }

    fn blocks(&mut self, folder: &Text) -> Result<MemoryBlocks, Trouble>
        ensures held { IfOk result (λ blocks. IfSome (objects_in self.old folder.now) (λ held. blocks.held ≡ held)) }
        ensures calm { IfOk result (λ blocks. (blocks.faults ≡ 0) × (blocks.misses ≡ 0)) }
        ensures cause { FailsByFault self.old.faults self.new.faults result }

        // It gives the store that has waited longest, and where none is left, and of another folder, one that holds
        // nothing. It fails just where it was told to.
        ensures next { IfOk result (λ blocks. folder.now ≡ self.old.folder
            → self.new.stores ≡ drop 1 self.old.stores) }
        ensures other { folder.now ≢ self.old.folder → self.new.stores ≡ self.old.stores }
        ensures refused { 0 < self.old.refusals → IsErrOf result trouble_failed }
        ensures sure { self.old.refusals ≡ 0 → IsOk result }
        ensures counted { self.new ≡ record self.old {
          stores = self.new.stores;
          refusals = self.old.refusals - 1;
          faults = failures_after result self.old.faults;
        } }
    {
        if self.is_refused() {
            return self.refused();
        }
        if *folder != self.folder {
            return Ok(MemoryBlocks::new(self.alloc, Vec::new(self.alloc)));
        }
        match self.stores.pop_front() {
            Some(blocks) => Ok(blocks),
            None => Ok(MemoryBlocks::new(self.alloc, Vec::new(self.alloc))),
        }
    }

    fn back(&mut self, keeper: MemoryKeeper)
        ensures keepers { IfSome self.new.keepers_back (λ after. IfSome self.old.keepers_back
            (λ before. after ≡ before ++ keeper ∷ [])) }
        ensures told { IfSome self.new.keepers_back (λ _. IsSome self.old.keepers_back) }

        // Nothing else changes.
        ensures others { self.new ≡ record self.old { keepers_back = self.new.keepers_back } }
    {
        keep(&mut self.keepers_back, keeper);
    }

    fn back_blocks(&mut self, blocks: MemoryBlocks)
        ensures stores { IfSome self.new.stores_back (λ after. IfSome self.old.stores_back
            (λ before. after ≡ before ++ blocks ∷ [])) }
        ensures told { IfSome self.new.stores_back (λ _. IsSome self.old.stores_back) }

        // Nothing else changes.
        ensures others { self.new ≡ record self.old { stores_back = self.new.stores_back } }
    {
        keep(&mut self.stores_back, blocks);
    }
}
