//! A server on a fresh lake in memory.
ghost use Rattle.std.specs.FinMap.{empty};
ghost use Rattle.std.specs.Prelude.{◌≡◌, ◌<◌, ◌≤◌, ◌⊎◌, replicate, IfOk};
ghost use Rattle.folder_server.specs.HostWords.{HostView};
ghost use Rattle.lake_program.specs.Servers.{IsServed, IsUnserved, status_of};

use batch_lines::ExitStatus;
use block_store::SureBlocks;
use folder_server::{Host, ServerEnd, serve_listeners};
use fresh_lakes::fresh_lake;
use lake_base::{NoMemory, Text};
use program_words::Service;
use std::alloc::Global;
use std::sync::Wait;
use std::thread::Threads;

/// Serves the connections of a host's listeners at an address, on a fresh lake in memory, by so many workers, until
/// each has served its share of the connections, or a listener failed. It waits.
pub fn serve_host<R: Threads + Wait + Sync, H: Host>(
    rt: &R,
    alloc: Global,
    at: &Text,
    service: Service,
    host: &mut H,
) -> ExitStatus
    requires { 0 < service.workers }
    ensures served { let before : HostView =
        record { opened = H.opened host.old; returned = H.returned host.old; faults = H.faults host.old } in
        let after : HostView =
        record { opened = H.opened host.new; returned = H.returned host.new; faults = H.faults host.new } in
        IsServed (record { at = at.now; service = service }) before after result ⊎ IsUnserved before after result }
    ensures later { H.faults host.old ≤ H.faults host.new }
{
    let Ok(stores) = empty_stores(alloc, service.workers) else {
        return ExitStatus::OutOfMemory;
    };
    let Ok((lake, seats)) = fresh_lake(alloc, service.workers) else {
        return ExitStatus::OutOfMemory;
    };
    let (end, _, _) = serve_listeners(
        rt,
        alloc,
        lake,
        seats,
        stores,
        host,
        at,
        service.connections,
    );
    status_of(end)
}

// So many stores of objects in memory, which hold nothing.
fn empty_stores(alloc: Global, count: u32) -> Result<Vec<SureBlocks>, NoMemory>
    ensures { IfOk result
        (λ stores. stores.items ≡ replicate count (record { held = empty; misses = 0; missed = 0 })) }
{
    let mut stores = Vec::new(alloc);
    for _ in 0..count {
        stores.push(SureBlocks::new(alloc))?;
    }
    Ok(stores)
}

// The status of a run whose server ended so.
fn status_of(end: ServerEnd) -> ExitStatus
    ensures { result ≡ status_of end }
{
    match end {
        ServerEnd::Done => ExitStatus::Done,
        ServerEnd::Failed => ExitStatus::HostFailed,
        ServerEnd::NoMemory => ExitStatus::OutOfMemory,
    }
}
