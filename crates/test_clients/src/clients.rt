//! A command over a network in memory: what is sent, and what is shown of what comes back.

use crate::words::texts_of;
use lake_base::{MemorySink, MemorySource, Text, Trouble};
use lakectl_client::send_command;
use lakectl_shown::Shown;
use memory_machine::{MemoryConnection, MemoryFiles, MemoryNetwork};
use std::alloc::Global;
use std::process::Abort;
use std::test::Fail;

static WORDS: [&str; 3] = ["branch", "show", "lakefs://quickstart/main"];

static SENT: &[u8] = b"GET /api/v1/repositories/quickstart/branches/main HTTP/1.1\r\n\
Host: server:80\r\nConnection: close\r\n\r\n";

const REPLY: &[u8] =
    b"HTTP/1.1 200 OK\r\nContent-Length: 29\r\n\r\n{\"commit_id\":\"I\",\"id\":\"main\"}";

// What comes back, in pieces of seven bytes; which read and which write fails, counted from 1, so that 0 is none; how
// many bytes are sent; and the status and the output, or none where the command stops.
struct Case {
    back: &'static [u8],
    read: u64,
    write: u64,
    sent: usize,
    shown: Option<(u8, &'static [u8])>,
}

static CASES: [Case; 4] = [
    Case {
        back: REPLY,
        read: 0,
        write: 0,
        sent: 98,
        shown: Some((0, b"main\tI\n")),
    },
    Case {
        back: b"HTTP/1.1 200 OK\r\nContent-Length: 29\r\n\r\n{",
        read: 0,
        write: 0,
        sent: 98,
        shown: Some((8, b"")),
    },
    Case {
        back: REPLY,
        read: 2,
        write: 0,
        sent: 98,
        shown: None,
    },
    Case {
        back: REPLY,
        read: 0,
        write: 2,
        sent: 7,
        shown: None,
    },
];

// A network of the connection of a case, and of one that gives the reply.
fn network_of(alloc: Global, case: &Case) -> Result<MemoryNetwork, Fail> {
    let back = Vec::from_slice(alloc, case.back)?;
    let reads = Vec::from_slice(alloc, &[case.read])?;
    let writes = Vec::from_slice(alloc, &[case.write])?;
    let mut connections = Vec::new(alloc);
    connections.push(MemoryConnection {
        input: MemorySource::new(back, 7, reads),
        output: MemorySink::new(alloc, 7, writes),
    })?;
    connections.push(MemoryConnection::giving(alloc, Vec::from_slice(alloc, REPLY)?))?;
    Ok(MemoryNetwork::new(alloc, connections)?)
}

// The command over a network.
fn ask(alloc: Global, network: &mut MemoryNetwork) -> Result<Shown, Trouble> {
    let mut files = MemoryFiles::new(alloc, Vec::new(alloc));
    let at = Text::of(String::from_str(alloc, "server:80")?);
    let words = texts_of(alloc, &WORDS)?;
    send_command(alloc, &mut files, network, &at, words.as_slice())
}

// Checks what came of the command, that a second goes well, and that a third finds no connection.
fn check_case(rt: &impl Abort, alloc: Global, case: &Case, number: usize) -> Result<(), Fail> {
    let mut network = network_of(alloc, case)?;
    match (ask(alloc, &mut network), case.shown) {
        (Ok(shown), Some((status, out))) => {
            assert_eq!(rt; shown.status, status, "in {number}");
            assert_eq!(rt; shown.out.as_slice(), out, "in {number}");
        }
        (Err(trouble), None) => assert_eq!(rt; trouble, Trouble::Failed, "in {number}"),
        _ => panic!(rt; "another end in {number}"),
    }
    let second = ask(alloc, &mut network)?;
    assert_eq!(rt; second.status, 0, "behind {number}");
    assert!(rt; ask(alloc, &mut network).is_err(), "behind {number}");
    let lengths = [case.sent, SENT.len()];
    assert_eq!(rt; network.hung_up().len(), lengths.len(), "in {number}");
    for (connection, length) in network.hung_up().iter().zip(&lengths) {
        let sent = connection.output.written();
        assert_eq!(rt; sent.len(), *length, "in {number}");
        assert!(rt; SENT.starts_with(sent), "in {number}");
    }
    Ok(())
}

#[test]
fn a_command_is_sent_and_shown(rt: HostRuntime) -> Result<(), Fail> {
    for (number, case) in CASES.iter().enumerate() {
        check_case(&rt, rt.alloc(), case, number)?;
    }
    Ok(())
}
