//! The lake of a folder is opened, and closed.
ghost use Rattle.std.specs.Prelude.{◌≡◌, ◌<◌, ◌≤◌, true, length, All, IfOk, MatchResult};
ghost use Rattle.lake_folders.specs.Folders.{FoldersView};
ghost use Rattle.folder_lakes.specs.FolderLakes.{IsFolderClosed, IsFolderOpened, IsFolderRefused};

use crate::fault::FolderFault;
use lake_base::Text;
use lake_core::{law_of_kept_pairs, law_of_store_faults};
use lake_folders::Folders;
use lake_format::USUAL_CUT;
use lake_opening::open_lake;
use shared_lake::{LakeSeat, Shared};
use std::alloc::Global;
use std::sync::Wait;

/// The lake for which a folder's pairs stand, the fresh one where there are none, and so many seats at it, numbered
/// from 0. Where the folder isn't opened, its keeper is given back, unless memory ran out behind that. Failed, Refused,
/// NoMemory.
pub fn open_folder<D: Folders>(
    alloc: Global,
    folders: &mut D,
    folder: &Text,
    seats: u32,
) -> Result<(Shared<D::Pairs>, Vec<LakeSeat>), FolderFault>
    requires { 0 < seats }
    ensures turn { IfOk result (λ r. All (λ seat. seat.turn ≡ r.0) r.1.items) }
    ensures count { IfOk result (λ r. length r.1.items ≡ seats) }
    ensures opens { let before : FoldersView = record {
      pairs = D.pairs folders.old;
      objects = D.objects folders.old;
      keepers_back = D.keepers_back folders.old;
      stores_back = D.stores_back folders.old;
      faults = D.faults folders.old;
    } in
        let after : FoldersView = record {
          pairs = D.pairs folders.new;
          objects = D.objects folders.new;
          keepers_back = D.keepers_back folders.new;
          stores_back = D.stores_back folders.new;
          faults = D.faults folders.new;
        } in
        MatchResult result (λ r. IsFolderOpened folder.now before after r.1.items)
        (IsFolderRefused folder.now before after) }
    ensures later { D.faults folders.old ≤ D.faults folders.new }
    ensures alone { IfOk result (λ r. seats ≡ 1 → All (λ seat. seat.alone ≡ true) r.1.items) }
{
    let keeper = folders.keeper(folder)?;
    let lake = match open_lake(alloc, keeper, USUAL_CUT) {
        Ok(lake) => lake,
        Err((fault, keeper)) => {
            folders.back(keeper);
            return Err(FolderFault::from(fault));
        }
    };
    match Shared::new(alloc, lake, seats) {
        Ok(shared) => Ok(shared),
        Err(_) => Err(FolderFault::NoMemory),
    }
}

/// Joins the seats at a folder's lake, of which there is one at least, and gives its keeper back. It waits.
pub fn close_folder<D: Folders, W: Wait>(
    rt: &W,
    folders: &mut D,
    lake: Shared<D::Pairs>,
    seats: Vec<LakeSeat>,
)
    requires some { 0 < length seats.items }
    requires own { All (λ seat. seat.turn ≡ lake) seats.items }
    ensures { IsFolderClosed seats.items
        (record {
          pairs = D.pairs folders.old;
          objects = D.objects folders.old;
          keepers_back = D.keepers_back folders.old;
          stores_back = D.stores_back folders.old;
          faults = D.faults folders.old;
        })
        (record {
          pairs = D.pairs folders.new;
          objects = D.objects folders.new;
          keepers_back = D.keepers_back folders.new;
          stores_back = D.stores_back folders.new;
          faults = D.faults folders.new;
        }) }
{
    law_of_kept_pairs::<D::Pairs>();
    law_of_store_faults::<D::Pairs>();
    let closed = lake.close(rt, seats);
    folders.back(closed.into_keeper());
}
