//! A server over a host in memory.
use machine_runs::{SURE, run_with};
use memory_machine::MemoryHost;
use std::alloc::Global;
use std::process::Abort;
use std::test::Fail;

static ASKED: &[u8] =
    b"GET /api/v1/repositories HTTP/1.1\r\nHost: localhost\r\nConnection: close\r\n\r\n";

// So many connections, each of one request.
fn connections(alloc: Global, count: usize) -> Result<Vec<Vec<u8>>, Fail> {
    let mut made = Vec::new(alloc);
    for _ in 0..count {
        made.push(Vec::from_slice(alloc, ASKED)?)?;
    }
    Ok(made)
}

// A host of two listeners with two connections each.
fn two_doors(alloc: Global) -> Result<MemoryHost, Fail> {
    let mut doors = Vec::new(alloc);
    doors.push(connections(alloc, 2)?)?;
    doors.push(connections(alloc, 2)?)?;
    Ok(MemoryHost::new(alloc, doors))
}

// Checks that the listener at a place was given back with so many connections, each answered.
fn check_door(rt: &impl Abort, host: &MemoryHost, place: usize, count: usize) {
    let Some(door) = host.returned().get(place) else {
        panic!(rt; "a listener wasn't given back");
    };
    assert_eq!(rt; door.returned().len(), count);
    for served in door.returned() {
        assert!(rt; served.output.written().starts_with(b"HTTP/1.1 200 OK\r\n"));
    }
}

static OF_THREE: [&str; 7] = [
    "run",
    "--listen",
    "localhost:0",
    "--workers",
    "2",
    "--connections",
    "3",
];

static OF_FIVE: [&str; 7] = [
    "run",
    "--listen",
    "localhost:0",
    "--workers",
    "2",
    "--connections",
    "5",
];

#[test]
fn each_worker_serves_its_share(rt: HostRuntime) -> Result<(), Fail> {
    let mut host = two_doors(rt.alloc())?;
    let came = run_with(&rt, rt.alloc(), &OF_THREE, b"", &SURE, &mut host)?;
    assert_eq!(&rt; came.status, 0);
    check_door(&rt, &host, 0, 2);
    check_door(&rt, &host, 1, 1);
    let mut other = two_doors(rt.alloc())?;
    let failed = run_with(&rt, rt.alloc(), &OF_FIVE, b"", &SURE, &mut other)?;
    assert_eq!(&rt; failed.status, 5);
    check_door(&rt, &other, 0, 2);
    check_door(&rt, &other, 1, 2);
    Ok(())
}
