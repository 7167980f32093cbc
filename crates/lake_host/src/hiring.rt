//! Workers are made of seats and listeners, and taken apart again.
ghost use Rattle.std.specs.Prelude.{◌≡◌, ◌≤◌, ◌++◌, [], map, length, Some, IfSome, vec_len, vec_capacity};
ghost use Rattle.lake_server.specs.ServedConnections.{part_views, worker_view};
ghost use Rattle.lake_host.specs.Doors.{AreOut, door_of, door_view};
ghost use Rattle.lake_host.specs.Workers.{AreBegun, any_failed, store_of, store_view};

use crate::host::Host;
use crate::shares::share_of;
use block_store::Blocks;
use lake_server::Worker;
use shared_lake::LakeSeat;
use std::collections::VecDeque;

/// Makes a worker of each seat, and the store of objects and the listener at its place, in room that was made for them,
/// each with a clock of the host's, and its share of the connections. It takes no memory.
pub fn hire<B: Blocks, H: Host>(
    workers: Vec<Worker<B, H::Time, H::Door>>,
    seats: Vec<LakeSeat>,
    stores: Vec<B>,
    doors: Vec<H::Door>,
    host: &mut H,
    connections: Option<u64>,
) -> Vec<Worker<B, H::Time, H::Door>>
    requires empty { workers.items ≡ [] }
    requires room { length seats.items ≤ vec_capacity workers }
    requires stores { length stores.items ≡ length seats.items }
    requires doors { length doors.items ≡ length seats.items }
    ensures begun { let show = part_views B.held B.faults B.misses B.missed
        H.Time.readings H.Door.accepted H.Door.returned H.Door.faults in
        AreBegun connections (length seats.items) 0 seats.items (map (worker_view show) result.items) }
    ensures stores { let show = part_views B.held B.faults B.misses B.missed
        H.Time.readings H.Door.accepted H.Door.returned H.Door.faults in
        map store_of (map (worker_view show) result.items)
        ≡ map (store_view B.held B.faults B.misses B.missed) stores.items }
    ensures listeners { let show = part_views B.held B.faults B.misses B.missed
        H.Time.readings H.Door.accepted H.Door.returned H.Door.faults in
        map door_of (map (worker_view show) result.items)
        ≡ map (door_view H.Door.accepted H.Door.returned H.Door.faults) doors.items }
    ensures opened { H.opened host.new ≡ H.opened host.old }
    ensures returned { H.returned host.new ≡ H.returned host.old }
    ensures faults { H.faults host.new ≡ H.faults host.old }
{
    let mut workers = workers;
    let mut stores = VecDeque::from(stores);
    let mut doors = VecDeque::from(doors);
    let count = seats.len() as u64;
    let mut number = 0;
    for seat in seats {
        let Some(blocks) = stores.pop_front() else {
            unreachable!()
        };
        let Some(listener) = doors.pop_front() else {
            unreachable!()
        };
        workers.push_reserved(Worker {
            seat,
            blocks,
            clock: host.clock(),
            listener,
            connections: share_of(connections, count, number),
            served: 0,
            failed: false,
        });
        number += 1;
    }
    workers
}

/// Takes workers apart: gives their listeners back to the host, in order, and hands out their seats and their stores of
/// objects, in room that was made for them. It tells whether a listener failed its worker. It takes no memory.
pub fn dismiss<B: Blocks, H: Host>(
    workers: Vec<Worker<B, H::Time, H::Door>>,
    seats: Vec<LakeSeat>,
    stores: Vec<B>,
    host: &mut H,
) -> (bool, Vec<LakeSeat>, Vec<B>)
    requires no_seats { seats.items ≡ [] }
    requires no_stores { stores.items ≡ [] }
    requires room { vec_len workers ≤ vec_capacity seats }
    requires place { vec_len workers ≤ vec_capacity stores }
    requires out { AreOut (vec_len workers) (H.opened host.old) (H.returned host.old) }
    ensures opened { H.opened host.new ≡ H.opened host.old }
    ensures returned { let show = part_views B.held B.faults B.misses B.missed
        H.Time.readings H.Door.accepted H.Door.returned H.Door.faults in
        IfSome (H.returned host.old) (λ doors. H.returned host.new
        ≡ Some (doors ++ map door_of (map (worker_view show) workers.items))) }
    ensures seats { let show = part_views B.held B.faults B.misses B.missed
        H.Time.readings H.Door.accepted H.Door.returned H.Door.faults in
        result.1.items ≡ map (λ worker. worker.carried.seat) (map (worker_view show) workers.items) }
    ensures stores { let show = part_views B.held B.faults B.misses B.missed
        H.Time.readings H.Door.accepted H.Door.returned H.Door.faults in
        map (store_view B.held B.faults B.misses B.missed) result.2.items
        ≡ map store_of (map (worker_view show) workers.items) }
    ensures tells { let show = part_views B.held B.faults B.misses B.missed
        H.Time.readings H.Door.accepted H.Door.returned H.Door.faults in
        result.0 ≡ any_failed (map (worker_view show) workers.items) }
    ensures faults { H.faults host.new ≡ H.faults host.old }
{
    let mut seats = seats;
    let mut stores = stores;
    let mut any_failed = false;
    for worker in workers {
        let Worker {
            seat,
            blocks,
            listener,
            failed,
            ..
        } = worker;
        seats.push_reserved(seat);
        stores.push_reserved(blocks);
        host.shut(listener);
        any_failed |= failed;
    }
    (any_failed, seats, stores)
}
