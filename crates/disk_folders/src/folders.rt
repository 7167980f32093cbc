//! The folders of the machine, as thin as can be. They tell contracts nothing of what they hold, since no contract can
//! say what a file holds.
ghost use Rattle.std.specs.Prelude.{◌≡◌, Err};
ghost use Rattle.block_store.specs.Blocks.{FailsByFault};

use crate::objects::FolderObjects;
use crate::pairs::FolderPairs;
use lake_base::{Text, Trouble};
use lake_folders::Folders;
use std::alloc::Global;
use std::rt::HostRuntime;

/// The folders of the machine, each under its path. A failed call is counted, unless it found no memory.
#[derive(Drop)]
pub struct DiskFolders<'a> {
    rt: &'a HostRuntime,
    alloc: Global,
    faults: u64,
}

impl<'a> DiskFolders<'a> {
    /// The folders that a runtime reaches.
    pub fn new(rt: &'a HostRuntime, alloc: Global) -> DiskFolders<'a>
        ensures { result.faults ≡ 0 }
    {
        DiskFolders {
            rt,
            alloc,
            faults: 0,
        }
    }

    // A refused call, which is counted where it is a failure.
    fn refused<T>(&mut self, trouble: Trouble) -> Result<T, Trouble>
        ensures same { result ≡ Err trouble }
        ensures cause { FailsByFault self.old.faults self.new.faults result }
    {
        if trouble == Trouble::Failed {
            self.faults = self.faults.saturating_add(1);
        }
        Err(trouble)
    }
}

impl<'a> Folders for DiskFolders<'a> {
    ghost use Rattle.std.specs.Prelude.{None};

    type Pairs = FolderPairs;

    type Objects = FolderObjects;

    ghost pairs = { λ _ _. None };

    ghost objects = { λ _ _. None };

    ghost keepers_back = { λ _. None };

    ghost stores_back = { λ _. None };

    ghost faults = { λ folders. folders.faults };

    fn keeper(&mut self, folder: &Text) -> Result<FolderPairs, Trouble> {
        match FolderPairs::at(self.rt, self.alloc, folder) {
            Ok(keeper) => Ok(keeper),
            Err(trouble) => self.refused(trouble),
        }
    }

    fn blocks(&mut self, folder: &Text) -> Result<FolderObjects, Trouble> {
        match FolderObjects::at(self.rt, self.alloc, folder) {
            Ok(blocks) => Ok(blocks),
            Err(trouble) => self.refused(trouble),
        }
    }

    fn back(&mut self, keeper: FolderPairs) {
        let _ended = keeper;
    }

    fn back_blocks(&mut self, blocks: FolderObjects) {
        let _ended = blocks;
    }
}
