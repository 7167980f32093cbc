//! A worker, which serves one connection after the other.
ghost use Rattle.std.specs.Prelude.{◌≡◌, ◌≢◌, ◌≤◌, Some, IfSome, MatchBool};
ghost use Rattle.lake_base.specs.Outside.{last_count};
ghost use Rattle.lake_server.specs.ServedConnections.{HasServed, IsReady, part_views, worker_view};
ghost use Rattle.lake_server.specs.WorkerSteps.{GoesOnCounting, ServesOrFails};

use crate::listen::Listen;
use block_store::Blocks;
use keeper::Keeper;
use lake_base::{Clock, Failed};
use lake_session::serve_session;
use shared_lake::{LakeSeat, Shared};
use std::alloc::Global;
use std::sync::Wait;

/// What serves connections: a seat at the lake, a store of objects, a clock, and what hands the connections out; how
/// many it is to serve, if that is said; how many it has served, which stands still at the last value of a u64; and
/// whether its listener failed it.
#[derive(Drop)]
pub struct Worker<B, C, L> {
    pub seat: LakeSeat,
    pub blocks: B,
    pub clock: C,
    pub listener: L,
    pub connections: Option<u64>,
    pub served: u64,
    pub failed: bool,
}

/// Accepts connections, serves each by a session of the worker's seat, and gives it back, one after the other, until
/// the worker's number is reached or its listener fails. It waits.
pub fn serve_connections<K: Keeper, B: Blocks, C: Clock, L: Listen, W: Wait>(
    rt: &W,
    alloc: Global,
    lake: &Shared<K>,
    worker: &mut Worker<B, C, L>,
)
    requires { IsReady lake.now worker.old }
    ensures { let views = part_views B.held B.faults B.misses B.missed C.readings L.accepted L.returned L.faults in
        HasServed (worker_view views worker.old) (worker_view views worker.new) }
{
    for _ in rt.forever() {
        if is_reached(worker.connections, worker.served) {
            return;
        }
        if serve_one(rt, alloc, lake, worker).is_err() {
            worker.failed = true;
            return;
        }
        worker.served = worker.served.saturating_add(1);
    }
    unreachable!()
}

// Whether so many connections are all that are to be served.
fn is_reached(connections: Option<u64>, served: u64) -> bool
    ensures reached { MatchBool result (connections ≡ Some served) (connections ≢ Some served) }
    ensures fits { IfSome connections (λ number. number ≤ last_count) }
{
    match connections {
        Some(number) => number == served,
        None => false,
    }
}

// Accepts a connection, serves it by a session, and gives it back.
fn serve_one<K: Keeper, B: Blocks, C: Clock, L: Listen, W: Wait>(
    rt: &W,
    alloc: Global,
    lake: &Shared<K>,
    worker: &mut Worker<B, C, L>,
) -> Result<(), Failed>
    requires { worker.old.seat.turn ≡ lake.now }
    ensures serves { let views = part_views B.held B.faults B.misses B.missed C.readings L.accepted L.returned L.faults in
        ServesOrFails (worker_view views worker.old) (worker_view views worker.new) result }
    ensures counting { let views = part_views B.held B.faults B.misses B.missed C.readings L.accepted L.returned L.faults in
        GoesOnCounting (worker_view views worker.old) (worker_view views worker.new) }
{
    let (mut input, mut output) = worker.listener.accept()?;
    let report = serve_session(
        rt,
        alloc,
        lake,
        &mut worker.seat,
        &mut worker.blocks,
        &mut worker.clock,
        &mut input,
        &mut output,
    );
    worker.listener.done(input, output, report);
    Ok(())
}
