//! Commands that go to a server, over a network in memory: what is printed of what comes back.

use machine_runs::{Came, SURE, Streams, run_among};
use memory_machine::{MemoryConnection, MemoryHost, MemoryNetwork};
use std::alloc::Global;
use std::sync::Wait;
use std::test::Fail;
use std::thread::Threads;

const SHOW: &[&str] = &[
    "ctl",
    "--server",
    "server:80",
    "branch",
    "show",
    "lakefs://quickstart/main",
];

const TIMED: &[&str] = &[
    "ctl",
    "--at",
    "5",
    "--server",
    "server:80",
    "branch",
    "show",
    "lakefs://quickstart/main",
];

const WORDLESS: &[&str] = &["ctl", "--server", "server:80"];

const NO_FILE: &[&str] = &[
    "ctl",
    "--server",
    "server:80",
    "fs",
    "upload",
    "lakefs://quickstart/main/a",
    "--source",
    "none",
];

const FOUND: &[u8] =
    b"HTTP/1.1 200 OK\r\nContent-Length: 29\r\n\r\n{\"commit_id\":\"I\",\"id\":\"main\"}";

const REFUSED: &[u8] =
    b"HTTP/1.1 404 Not Found\r\nContent-Length: 39\r\n\r\n{\"message\":\"reference not found: main\"}";

const STARVED: &[u8] =
    b"HTTP/1.1 507 Insufficient Storage\r\nContent-Length: 27\r\n\r\n{\"message\":\"out of memory\"}";

const OTHER_FORM: &[u8] = b"HTTP/1.1 200 OK\r\nContent-Length: 13\r\n\r\n{\"id\":\"main\"}";

// What comes back, where a server is there; how many connections are hung up then; and the status, the output and the
// errors.
struct Case {
    words: &'static [&'static str],
    reply: Option<&'static [u8]>,
    hung_up: usize,
    status: u8,
    out: &'static [u8],
    errors: &'static [u8],
}

static CASES: [Case; 9] = [
    Case {
        words: SHOW,
        reply: Some(FOUND),
        hung_up: 1,
        status: 0,
        out: b"main\tI\n",
        errors: b"",
    },
    Case {
        words: TIMED,
        reply: Some(FOUND),
        hung_up: 1,
        status: 0,
        out: b"main\tI\n",
        errors: b"",
    },
    Case {
        words: SHOW,
        reply: Some(REFUSED),
        hung_up: 1,
        status: 1,
        out: b"",
        errors: b"Error: reference not found: main [404]\n",
    },
    Case {
        words: SHOW,
        reply: Some(STARVED),
        hung_up: 1,
        status: 7,
        out: b"",
        errors: b"Error: out of memory [507]\n",
    },
    Case {
        words: SHOW,
        reply: Some(OTHER_FORM),
        hung_up: 1,
        status: 8,
        out: b"",
        errors: b"",
    },
    Case {
        words: SHOW,
        reply: Some(b""),
        hung_up: 1,
        status: 8,
        out: b"",
        errors: b"",
    },
    Case {
        words: SHOW,
        reply: None,
        hung_up: 0,
        status: 5,
        out: b"",
        errors: b"",
    },
    Case {
        words: WORDLESS,
        reply: Some(FOUND),
        hung_up: 0,
        status: 2,
        out: b"",
        errors: b"Error: no command\n",
    },
    Case {
        words: NO_FILE,
        reply: Some(FOUND),
        hung_up: 0,
        status: 1,
        out: b"",
        errors: b"Error: no such file: none\n",
    },
];

// What a run comes to over a network of at most one connection, and how many were hung up.
fn run_case<R: Threads + Wait + Sync>(
    rt: &R,
    alloc: Global,
    case: &Case,
    streams: &Streams,
) -> Result<(Came, usize), Fail> {
    let mut connections = Vec::new(alloc);
    if let Some(reply) = case.reply {
        let bytes = Vec::from_slice(alloc, reply)?;
        connections.push(MemoryConnection::giving(alloc, bytes))?;
    }
    let mut network = MemoryNetwork::new(alloc, connections)?;
    let mut host = MemoryHost::new(alloc, Vec::new(alloc));
    let came = run_among(rt, alloc, case.words, b"", streams, &mut host, &mut network)?;
    Ok((came, network.hung_up().len()))
}

#[test]
fn a_command_goes_to_a_server(rt: HostRuntime) -> Result<(), Fail> {
    for case in &CASES {
        let (came, hung_up) = run_case(&rt, rt.alloc(), case, &SURE)?;
        assert_eq!(&rt; came.whole(), (case.status, case.out, case.errors));
        assert_eq!(&rt; hung_up, case.hung_up);
    }
    Ok(())
}

static FIRST_WRITE: Streams = Streams {
    piece: 4_096,
    read: 0,
    write: 1,
};

#[test]
fn a_failed_sink_is_told(rt: HostRuntime) -> Result<(), Fail> {
    for number in [0, 2] {
        let case = CASES.get(number).ok_or("no case")?;
        let (came, _) = run_case(&rt, rt.alloc(), case, &FIRST_WRITE)?;
        assert_eq!(&rt; came.whole(), (4, b"".as_slice(), b"".as_slice()));
    }
    Ok(())
}
