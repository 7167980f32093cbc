//! A command and a server on the lake of a folder.

use crate::machine::{Came, empty_keeper, run_in, sound_keeper};
use memory_machine::MemoryHost;
use std::alloc::Global;
use std::process::Abort;
use std::test::Fail;

static UPLOAD: [&str; 10] = [
    "ctl",
    "--at",
    "1700000000",
    "--local",
    "folder",
    "fs",
    "upload",
    "lakefs://quickstart/main/a",
    "--text",
    "one",
];

static STAT: [&str; 6] = [
    "ctl",
    "--local",
    "folder",
    "fs",
    "stat",
    "lakefs://quickstart/main/a",
];

static OTHER: [&str; 6] = [
    "ctl",
    "--local",
    "folder",
    "fs",
    "stat",
    "lakefs://quickstart/main/b",
];

// Checks that a run came to a status, and that the folder's keeper and its store were given back.
fn check_came(rt: &impl Abort, came: &Came, status: u8) {
    assert_eq!(rt; came.status, status);
    assert_eq!(rt; came.keepers.len(), 1);
    assert_eq!(rt; came.stores, 1);
}

#[test]
fn a_command_finds_what_another_left(rt: HostRuntime) -> Result<(), Fail> {
    let alloc = rt.alloc();
    let mut host = MemoryHost::new(alloc, Vec::new(alloc));
    let keeper = empty_keeper(alloc, Vec::new(alloc));
    let left = run_in(&rt, alloc, &UPLOAD, "", &mut host, keeper)?;
    check_came(&rt, &left, 0);
    assert!(rt; left.out.as_slice().starts_with(b"Path: a\nSize: 3\n"));
    let keeper = sound_keeper(alloc, left)?;
    let found = run_in(&rt, alloc, &STAT, "", &mut host, keeper)?;
    check_came(&rt, &found, 0);
    assert!(rt;
        found
            .out
            .as_slice()
            .starts_with(b"Path: a\nModified Time: ")
    );
    let keeper = sound_keeper(alloc, found)?;
    let none = run_in(&rt, alloc, &OTHER, "", &mut host, keeper)?;
    check_came(&rt, &none, 1);
    assert!(rt; none.out.is_empty());
    assert_eq!(rt;
        none.errors.as_slice(),
        b"Error: path not found: b [404]\n".as_slice()
    );
    Ok(())
}

static SERVER: [&str; 9] = [
    "run",
    "--listen",
    "localhost:0",
    "--folder",
    "folder",
    "--workers",
    "1",
    "--connections",
    "1",
];

static ASKED: &[u8] =
    b"GET /api/v1/repositories HTTP/1.1\r\nHost: localhost\r\nConnection: close\r\n\r\n";

// A host of one listener with one connection, of one request.
fn one_door(alloc: Global) -> Result<MemoryHost, Fail> {
    let mut connections = Vec::new(alloc);
    connections.push(Vec::from_slice(alloc, ASKED)?)?;
    let mut doors = Vec::new(alloc);
    doors.push(connections)?;
    Ok(MemoryHost::new(alloc, doors))
}

#[test]
fn a_server_answers_and_gives_the_folder_back(rt: HostRuntime) -> Result<(), Fail> {
    let alloc = rt.alloc();
    let mut host = one_door(alloc)?;
    let keeper = empty_keeper(alloc, Vec::new(alloc));
    let came = run_in(&rt, alloc, &SERVER, "", &mut host, keeper)?;
    check_came(&rt, &came, 0);
    let door = host.returned().first().ok_or("no listener was given back")?;
    let served = door.returned().first().ok_or("no connection was served")?;
    assert!(rt; served.output.written().starts_with(b"HTTP/1.1 200 OK\r\n"));
    Ok(())
}
