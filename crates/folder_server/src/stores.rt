//! The stores of a folder's objects are taken, and given back.
ghost use Rattle.std.specs.Prelude.{◌≡◌, length, map, IfOk, MatchResult};
ghost use Rattle.lake_folders.specs.Folders.{FoldersView};
ghost use Rattle.folder_server.specs.Stores.{AreBack, AreNoStores, AreStoresOut};

use lake_base::{Text, Trouble};
use lake_folders::Folders;
use std::alloc::Global;

/// So many stores of a folder's objects. Those that were taken before one is refused are given back. Failed, NoMemory.
pub(crate) fn stores_of<D: Folders>(
    alloc: Global,
    folders: &mut D,
    folder: &Text,
    count: usize,
) -> Result<Vec<D::Objects>, Trouble>
    ensures stores { let before : FoldersView = record {
      pairs = D.pairs folders.old;
      objects = D.objects folders.old;
      keepers_back = D.keepers_back folders.old;
      stores_back = D.stores_back folders.old;
      faults = D.faults folders.old;
    } in
        let after : FoldersView = record {
          pairs = D.pairs folders.new;
          objects = D.objects folders.new;
          keepers_back = D.keepers_back folders.new;
          stores_back = D.stores_back folders.new;
          faults = D.faults folders.new;
        } in
        MatchResult result
        (λ stores. AreStoresOut folder.now
        (map (λ blocks. record {
          held = D.Objects.held blocks;
          faults = D.Objects.faults blocks;
          misses = D.Objects.misses blocks;
          missed = D.Objects.missed blocks;
        }) stores.items) before after)
        (λ trouble. AreNoStores folder.now trouble before after) }
    ensures count { IfOk result (λ stores. length stores.items ≡ count) }
{
    let Ok(mut stores) = Vec::with_capacity(alloc, count) else {
        return Err(Trouble::NoMemory);
    };
    while stores.len() < count {
        match folders.blocks(folder) {
            Ok(blocks) => stores.push_reserved(blocks),
            Err(trouble) => {
                give_back(folders, stores);
                return Err(trouble);
            }
        }
    }
    Ok(stores)
}

/// Gives stores back, in order.
pub(crate) fn give_back<D: Folders>(folders: &mut D, stores: Vec<D::Objects>)
    ensures { AreBack
        (map (λ blocks. record {
          held = D.Objects.held blocks;
          faults = D.Objects.faults blocks;
          misses = D.Objects.misses blocks;
          missed = D.Objects.missed blocks;
        }) stores.items)
        (record {
          pairs = D.pairs folders.old;
          objects = D.objects folders.old;
          keepers_back = D.keepers_back folders.old;
          stores_back = D.stores_back folders.old;
          faults = D.faults folders.old;
        })
        (record {
          pairs = D.pairs folders.new;
          objects = D.objects folders.new;
          keepers_back = D.keepers_back folders.new;
          stores_back = D.stores_back folders.new;
          faults = D.faults folders.new;
        }) }
{
    for blocks in stores {
        folders.back_blocks(blocks);
    }
}
