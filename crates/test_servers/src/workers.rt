//! Two workers over one lake. The upload to the first waits until the second has given its connection back, so that it
//! is refused where they serve one after the other.
ghost use Rattle.std.specs.Prelude.{◌≡◌, IfOk};
ghost use Rattle.lake_host.specs.Servers.{IsReady};

use crate::gate::{GateListener, GatedBlocks};
use fresh_lakes::fresh_lake;
use keeper::SureKeeper;
use lake_base::FixedClock;
use lake_host::{MemoryListener, Worker, serve_connections, serve_workers};
use shared_lake::{LakeSeat, Shared};
use std::alloc::Global;
use std::sync::Wait;
use std::sync::atomic::AtomicBool;
use std::test::Fail;
use std::thread::Threads;

static UPLOAD: &[u8] =
    b"POST /api/v1/repositories/quickstart/branches/main/objects?path=a HTTP/1.1\r\n\
Host: localhost\r\nContent-Length: 5\r\nConnection: close\r\n\r\nhello";

static READING: &[u8] =
    b"GET /api/v1/repositories/quickstart/branches HTTP/1.1\r\nHost: localhost\r\nConnection: close\r\n\r\n";

type GateWorker<'a> = Worker<GatedBlocks<'a>, FixedClock, GateListener<'a>>;

// A worker of one connection at a seat of a lake.
fn worker_of<'a>(
    alloc: Global,
    _lake: &Shared<SureKeeper>,
    seat: LakeSeat,
    request: &[u8],
    blocks: GatedBlocks<'a>,
    opens: Option<&'a AtomicBool>,
) -> Result<GateWorker<'a>, Fail>
    requires { seat.turn ≡ _lake.now }
    ensures { IfOk result (λ worker. IsReady _lake.now worker) }
{
    let mut inputs = Vec::new(alloc);
    inputs.push(Vec::from_slice(alloc, request)?)?;
    let listener = MemoryListener::new(alloc, inputs)?;
    Ok(Worker {
        seat,
        blocks,
        clock: FixedClock::new(1_700_000_000),
        listener: GateListener::new(listener, opens),
        connections: Some(1),
        served: 0,
        failed: false,
    })
}

// How the two serve, and how the answers of the first and of the second begin.
static WAYS: [(bool, u32, &[u8], &[u8]); 2] = [
    (
        true,
        1_000_000,
        b"HTTP/1.1 201 Created\r\n",
        b"HTTP/1.1 200 OK\r\n",
    ),
    (
        false,
        10,
        b"HTTP/1.1 503 Service Unavailable\r\n",
        b"HTTP/1.1 200 OK\r\n",
    ),
];

// Has the two serve at once.
fn serve_at_once<'a, R: Threads + Wait + Sync>(
    rt: &R,
    alloc: Global,
    lake: &Shared<SureKeeper>,
    first: GateWorker<'a>,
    second: GateWorker<'a>,
) -> Result<Vec<GateWorker<'a>>, Fail>
    requires first { IsReady lake.now first }
    requires second { IsReady lake.now second }
{
    let mut workers = Vec::new(alloc);
    workers.push(first)?;
    workers.push(second)?;
    serve_workers(rt, alloc, lake, workers.as_mut_slice());
    Ok(workers)
}

// Has the two serve, one after the other.
fn serve_in_turn<'a, W: Wait>(
    rt: &W,
    alloc: Global,
    lake: &Shared<SureKeeper>,
    first: GateWorker<'a>,
    second: GateWorker<'a>,
) -> Result<Vec<GateWorker<'a>>, Fail>
    requires first { IsReady lake.now first }
    requires second { IsReady lake.now second }
{
    let mut one = first;
    let mut other = second;
    serve_connections(rt, alloc, lake, &mut one);
    serve_connections(rt, alloc, lake, &mut other);
    let mut workers = Vec::new(alloc);
    workers.push(one)?;
    workers.push(other)?;
    Ok(workers)
}

// The workers behind a fresh lake that they have served, where the first one's upload looks so often whether the second
// is done.
fn serve_fresh<'a, R: Threads + Wait + Sync>(
    rt: &R,
    alloc: Global,
    gate: &'a AtomicBool,
    at_once: bool,
    looks: u32,
) -> Result<Vec<GateWorker<'a>>, Fail> {
    let (lake, mut seats) = fresh_lake(alloc, 2)?;
    let other = seats.pop().ok_or("no seat")?;
    let seat = seats.pop().ok_or("no seat")?;
    let waiting = GatedBlocks::new(alloc, Some(gate), looks);
    let free = GatedBlocks::new(alloc, None, 0);
    let first = worker_of(alloc, &lake, seat, UPLOAD, waiting, None)?;
    let second = worker_of(alloc, &lake, other, READING, free, Some(gate))?;
    if at_once {
        serve_at_once(rt, alloc, &lake, first, second)
    } else {
        serve_in_turn(rt, alloc, &lake, first, second)
    }
}

#[test]
fn workers_serve_at_once(rt: HostRuntime) -> Result<(), Fail> {
    for (at_once, looks, upload, reading) in &WAYS {
        let gate = AtomicBool::new(false);
        let workers = serve_fresh(&rt, rt.alloc(), &gate, *at_once, *looks)?;
        assert_eq!(rt; workers.len(), 2);
        let first = workers[0].listener.written().ok_or("nothing is written")?;
        let second = workers[1].listener.written().ok_or("nothing is written")?;
        assert!(rt; first.starts_with(upload), "at once: {at_once}");
        assert!(rt; second.starts_with(reading), "at once: {at_once}");
    }
    Ok(())
}
