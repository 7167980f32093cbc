//! A desk at the lake of a folder is opened, and closed.
ghost use Rattle.std.specs.Prelude.{◌≡◌, ◌≤◌, MatchResult};
ghost use Rattle.lake_folders.specs.Folders.{FoldersView};
ghost use Rattle.folder_batch.specs.Desks.{IsReady};
ghost use Rattle.folder_batch.specs.OpenDesks.{IsDeskOpened, IsDeskRefused, IsLeft};

use crate::desk::OpenDesk;
use batch_lines::ExitStatus;
use folder_lakes::{close_folder, open_folder, status_by, status_of_trouble};
use lake_base::Text;
use lake_folders::Folders;
use std::alloc::Global;
use std::sync::Wait;

/// The only desk at the lake of a folder, or the status of a run whose folder isn't opened; then what was taken of it
/// is given back. It waits.
pub(crate) fn open_desk<R: Wait, D: Folders>(
    rt: &R,
    alloc: Global,
    folders: &mut D,
    folder: &Text,
) -> Result<OpenDesk<D::Pairs, D::Objects>, ExitStatus>
    ensures opens { let before : FoldersView = record {
      pairs = D.pairs folders.old;
      objects = D.objects folders.old;
      keepers_back = D.keepers_back folders.old;
      stores_back = D.stores_back folders.old;
      faults = D.faults folders.old;
    } in
        let after : FoldersView = record {
          pairs = D.pairs folders.new;
          objects = D.objects folders.new;
          keepers_back = D.keepers_back folders.new;
          stores_back = D.stores_back folders.new;
          faults = D.faults folders.new;
        } in
        MatchResult result
        (λ desk. IsDeskOpened folder.now before after
        (record {
          store = record {
            held = D.Objects.held desk.blocks;
            faults = D.Objects.faults desk.blocks;
            misses = D.Objects.misses desk.blocks;
            missed = D.Objects.missed desk.blocks;
          };
          seat = desk.seat;
        }))
        (IsDeskRefused folder.now before after) }
    ensures ready { MatchResult result IsReady (λ _. Unit {0}) }
    ensures later { D.faults folders.old ≤ D.faults folders.new }
{
    let (lake, mut seats) = match open_folder(alloc, folders, folder, 1) {
        Ok(opened) => opened,
        Err(fault) => return Err(status_by(fault)),
    };
    let blocks = match folders.blocks(folder) {
        Ok(blocks) => blocks,
        Err(trouble) => {
            close_folder(rt, folders, lake, seats);
            return Err(status_of_trouble(trouble));
        }
    };
    match seats.pop() {
        Some(seat) => Ok(OpenDesk {
            lake,
            seat,
            room: seats,
            blocks,
        }),
        None => unreachable!(),
    }
}

/// Closes a folder's lake, and gives its keeper and then the store back. It waits.
pub(crate) fn close_desk<R: Wait, D: Folders>(
    rt: &R,
    folders: &mut D,
    desk: OpenDesk<D::Pairs, D::Objects>,
)
    requires { IsReady desk }
    ensures left { IsLeft
        (record {
          store = record {
            held = D.Objects.held desk.blocks;
            faults = D.Objects.faults desk.blocks;
            misses = D.Objects.misses desk.blocks;
            missed = D.Objects.missed desk.blocks;
          };
          seat = desk.seat;
        })
        (record {
          pairs = D.pairs folders.old;
          objects = D.objects folders.old;
          keepers_back = D.keepers_back folders.old;
          stores_back = D.stores_back folders.old;
          faults = D.faults folders.old;
        })
        (record {
          pairs = D.pairs folders.new;
          objects = D.objects folders.new;
          keepers_back = D.keepers_back folders.new;
          stores_back = D.stores_back folders.new;
          faults = D.faults folders.new;
        }) }
    ensures faults { D.faults folders.new ≡ D.faults folders.old }
{
    let OpenDesk {
        lake,
        seat,
        mut room,
        blocks,
    } = desk;
    room.push_reserved(seat);
    close_folder(rt, folders, lake, room);
    folders.back_blocks(blocks);
}
