//! Workers, a thread each.
ghost use Rattle.std.specs.Prelude.{All, map};
ghost use Rattle.lake_server.specs.ServedConnections.{HasServed, IsReady, part_views, worker_view};
ghost use Rattle.lake_server.specs.Workers.{HaveServed};

use crate::listen::Listen;
use crate::worker::{Worker, serve_connections};
use block_store::Blocks;
use keeper::Keeper;
use lake_base::Clock;
use shared_lake::Shared;
use std::alloc::Global;
use std::sync::Wait;
use std::thread::{Threads, for_each_mut};

/// Has each worker accept connections and serve them, one after the other, until its number is reached or its listener
/// fails: a thread a worker, where one can be had, else one worker after another in the threads that are there. It
/// returns when all have ended. It takes no memory of the caller's, and waits.
pub fn serve_workers<
    K: Keeper + Send,
    B: Blocks + Send,
    C: Clock + Send,
    L: Listen + Send,
    W: Threads + Wait + Sync,
>(rt: &W, alloc: Global, lake: &Shared<K>, workers: &mut [Worker<B, C, L>])
    requires { All (λ worker. IsReady lake.now worker) workers.old }
    ensures { let views = part_views B.held B.faults B.misses B.missed C.readings L.accepted L.returned L.faults in
        HaveServed (map (worker_view views) workers.old) (map (worker_view views) workers.new) }
{
    let threads = workers.len().max(1);
    let serve = |_: usize, worker: &mut Worker<B, C, L>|
        requires { IsReady lake.now worker.now }
        ensures { let views = part_views B.held B.faults B.misses B.missed C.readings L.accepted L.returned L.faults in
            HasServed (worker_view views worker.entry.now) (worker_view views worker.exit.now) }
    { serve_connections(rt, alloc, lake, worker) };
    for_each_mut(rt, workers, threads, &serve);
}
