//! A server over a shared lake.
ghost use Rattle.std.specs.Prelude.{◌≡◌, ◌<◌, ◌≤◌, ◌⊎◌, map, length, All, Some, if◌then◌else◌};
ghost use Rattle.core_puts.specs.KeeperViews.{KeeperView};
ghost use Rattle.lake_core.specs.Lakes.{Holds};
ghost use Rattle.shared_lake.specs.SeatSteps.{origin_of};
ghost use Rattle.lake_server.specs.ServedConnections.{IsReady, part_views, worker_view};
ghost use Rattle.lake_server.specs.Workers.{HaveServed};
ghost use Rattle.lake_host.specs.Doors.{HostView};
ghost use Rattle.lake_host.specs.Servers.{HasNotBegun, HasServedAll};
ghost use Rattle.lake_host.specs.Workers.{store_view};

use crate::hiring::{dismiss, hire};
use crate::host::Host;
use block_store::Blocks;
use keeper::Keeper;
use lake_base::{Clock, Text, Trouble};
use lake_core::Lake;
use lake_server::{Listen, Worker, serve_workers};
use shared_lake::{LakeSeat, Shared};
use std::alloc::Global;
use std::sync::Wait;
use std::thread::Threads;

/// How a server ended.
#[derive(Clone, Copy, Debug, PartialEq, Eq)]
pub enum ServerEnd {
    /// Each worker has served its share of the connections.
    Done,
    /// The host gave no listeners, or a listener failed its worker.
    Failed,
    /// Memory ran out before anything was accepted.
    NoMemory,
}

/// Serves the connections of a host's listeners at an address, a worker at each seat, with the store of objects at its
/// place, and each in a thread of its own where one can be had, until each has served its share of the connections, or
/// its listener failed. Where no number is said, a worker ends only by its listener. Each listener is given back to the
/// host. The lake is closed and handed out, and so are the stores, in order. It waits.
pub fn serve_listeners<K: Keeper + Send, B: Blocks + Send, H: Host, W: Threads + Wait + Sync>(
    rt: &W,
    alloc: Global,
    lake: Shared<K>,
    seats: Vec<LakeSeat>,
    stores: Vec<B>,
    host: &mut H,
    at: &Text,
    connections: Option<u64>,
) -> (ServerEnd, Lake<K>, Vec<B>)
    requires some { 0 < length seats.items }
    requires own { All (λ seat. seat.turn ≡ lake) seats.items }
    requires stores { length stores.items ≡ length seats.items }
    ensures server { let view : KeeperView K =
        record { kept = K.kept; faults = K.faults; calls = K.calls; successes = K.successes } in
        let show = store_view B.held B.faults B.misses B.missed in
        let before : HostView =
        record { opened = H.opened host.old; returned = H.returned host.old; faults = H.faults host.old } in
        let after : HostView =
        record { opened = H.opened host.new; returned = H.returned host.new; faults = H.faults host.new } in
        HasServedAll view seats.items (map show stores.items) at.now connections before after result.0 result.1
        (map show result.2.items)
        ⊎ HasNotBegun view seats.items stores.items before after result.0 result.1 result.2.items }
    ensures origin { All (λ seat. seat.origin ≡ Some (origin_of
        (record { kept = K.kept; faults = K.faults; calls = K.calls; successes = K.successes }) result.1)) seats.items }
    ensures stands { Holds (record { kept = K.kept; faults = K.faults; calls = K.calls; successes = K.successes })
        result.1 }
    ensures later { H.faults host.old ≤ H.faults host.new }
{
    let Ok(workers) = Vec::with_capacity(alloc, seats.len()) else {
        return (ServerEnd::NoMemory, lake.close(rt, seats), stores);
    };
    let Ok(seats_back) = Vec::with_capacity(alloc, seats.len()) else {
        return (ServerEnd::NoMemory, lake.close(rt, seats), stores);
    };
    let Ok(stores_back) = Vec::with_capacity(alloc, seats.len()) else {
        return (ServerEnd::NoMemory, lake.close(rt, seats), stores);
    };
    match host.listen(at, seats.len()) {
        Ok(doors) => {
            let workers = hire(workers, seats, stores, doors, host, connections);
            let workers = serve_all(rt, alloc, &lake, workers);
            let (failed, seats, stores) = dismiss(workers, seats_back, stores_back, host);
            (end_of(failed), lake.close(rt, seats), stores)
        }
        Err(trouble) => (end_by(trouble), lake.close(rt, seats), stores),
    }
}

// Has workers serve, and hands them back.
fn serve_all<
    K: Keeper + Send,
    B: Blocks + Send,
    C: Clock + Send,
    L: Listen + Send,
    W: Threads + Wait + Sync,
>(rt: &W, alloc: Global, lake: &Shared<K>, workers: Vec<Worker<B, C, L>>) -> Vec<Worker<B, C, L>>
    requires { All (λ worker. IsReady lake.now worker) workers.items }
    ensures { let show = part_views B.held B.faults B.misses B.missed C.readings L.accepted L.returned L.faults in
        HaveServed (map (worker_view show) workers.items) (map (worker_view show) result.items) }
{
    let mut workers = workers;
    serve_workers(rt, alloc, lake, workers.as_mut_slice());
    workers
}

// How a server ends that has served.
fn end_of(failed: bool) -> ServerEnd
    ensures { result ≡ (if failed then ServerEnd.Failed else ServerEnd.Done) }
{
    if failed {
        ServerEnd::Failed
    } else {
        ServerEnd::Done
    }
}

// How a server ends whose host gave no listeners.
fn end_by(trouble: Trouble) -> ServerEnd
    ensures { ((result ≡ ServerEnd.NoMemory) × (trouble ≡ Trouble.NoMemory))
        ⊎ ((result ≡ ServerEnd.Failed) × (trouble ≡ Trouble.Failed)) }
{
    match trouble {
        Trouble::NoMemory => ServerEnd::NoMemory,
        Trouble::Failed => ServerEnd::Failed,
    }
}
