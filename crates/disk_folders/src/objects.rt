//! The store of a folder's objects.
ghost use Rattle.std.specs.Prelude.{◌≡◌, IfOk};

use block_store::Blocks;
use folder_blocks::FolderBlocks;
use lake_base::{Text, Trouble};
use std::alloc::Global;
use std::rt::HostRuntime;

/// The store of a folder's objects, a file each.
pub struct FolderObjects {
    blocks: FolderBlocks<HostRuntime>,
}

// Written out, so that its proof stands here alone, and not again in each program that has folders.
impl Drop for FolderObjects {
    fn drop(self) {
        let FolderObjects { blocks: _blocks } = self;
    }
}

impl FolderObjects {
    /// The store of a folder, which is made where it isn't there.
    pub(crate) fn at(
        rt: &HostRuntime,
        alloc: Global,
        folder: &Text,
    ) -> Result<FolderObjects, Trouble>
        ensures { IfOk result (λ store. (store.blocks.faults ≡ 0) × (store.blocks.misses ≡ 0)) }
    {
        match FolderBlocks::at(*rt, alloc, folder) {
            Ok(blocks) => Ok(FolderObjects { blocks }),
            Err(trouble) => Err(trouble),
        }
    }
}

impl Blocks for FolderObjects {
    ghost use Rattle.std.specs.Prelude.{None};

    ghost held = { λ _. None };

    ghost faults = { λ store. store.blocks.faults };

    ghost misses = { λ store. store.blocks.misses };

    ghost missed = { λ store. store.blocks.missed };

    fn put(&mut self, number: u64, bytes: &[u8]) -> Result<(), Trouble> {
        self.blocks.put(number, bytes)
    }

    fn get(&mut self, number: u64) -> Result<Option<Vec<u8>>, Trouble> {
        self.blocks.get(number)
    }

    fn remove(&mut self, number: u64) -> Result<bool, Trouble> {
        self.blocks.remove(number)
    }

    fn list(&mut self) -> Result<Vec<u64>, Trouble> {
        self.blocks.list()
    }
}
