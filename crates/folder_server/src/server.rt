//! A server on the lake of a folder.
ghost use Rattle.std.specs.Prelude.{◌≡◌, ◌<◌, ◌≤◌};
ghost use Rattle.folder_server.specs.FolderServers.{FolderServes, status_of};

use crate::stores::{give_back, stores_of};
use batch_lines::ExitStatus;
use folder_lakes::{close_folder, open_folder, status_by, status_of_trouble};
use lake_base::Text;
use lake_folders::Folders;
use lake_host::{Host, ServerEnd, serve_listeners};
use program_words::Service;
use std::alloc::Global;
use std::sync::Wait;
use std::thread::Threads;

/// Serves the connections of a host's listeners at an address, on the lake of a folder, by so many workers, each with a
/// store of the folder's objects, until each has served its share of the connections, or a listener failed. What was
/// taken of the folder is given back. It waits.
pub fn serve_folder_host<R: Threads + Wait + Sync, H: Host, D: Folders>(
    rt: &R,
    alloc: Global,
    at: &Text,
    folder: &Text,
    service: Service,
    host: &mut H,
    folders: &mut D,
) -> ExitStatus
    requires { 0 < service.workers }
    ensures serves { FolderServes
        (record {
          kept = D.Pairs.kept;
          faults = D.Pairs.faults;
          calls = D.Pairs.calls;
          successes = D.Pairs.successes;
        })
        (record { at = at.now; folder = folder.now; service = service })
        (record { opened = H.opened host.old; returned = H.returned host.old; faults = H.faults host.old })
        (record { opened = H.opened host.new; returned = H.returned host.new; faults = H.faults host.new })
        (record {
          pairs = D.pairs folders.old;
          objects = D.objects folders.old;
          keepers_back = D.keepers_back folders.old;
          stores_back = D.stores_back folders.old;
          faults = D.faults folders.old;
        })
        (record {
          pairs = D.pairs folders.new;
          objects = D.objects folders.new;
          keepers_back = D.keepers_back folders.new;
          stores_back = D.stores_back folders.new;
          faults = D.faults folders.new;
        })
        result }
    ensures host { H.faults host.old ≤ H.faults host.new }
    ensures folders { D.faults folders.old ≤ D.faults folders.new }
{
    let (lake, seats) = match open_folder(alloc, folders, folder, service.workers) {
        Ok(opened) => opened,
        Err(fault) => return status_by(fault),
    };
    let stores = match stores_of(alloc, folders, folder, seats.len()) {
        Ok(stores) => stores,
        Err(trouble) => {
            close_folder(rt, folders, lake, seats);
            return status_of_trouble(trouble);
        }
    };
    let (end, lake, stores) = serve_listeners(
        rt,
        alloc,
        lake,
        seats,
        stores,
        host,
        at,
        service.connections,
    );
    folders.back(lake.into_keeper());
    give_back(folders, stores);
    status_of(end)
}

// The status of a run whose server ended so.
fn status_of(end: ServerEnd) -> ExitStatus
    ensures { result ≡ status_of end }
{
    match end {
        ServerEnd::Done => ExitStatus::Done,
        ServerEnd::Failed => ExitStatus::HostFailed,
        ServerEnd::NoMemory => ExitStatus::OutOfMemory,
    }
}
