//! A server and a client of it over sockets, in two threads of one process.

use crate::patient::PatientNetwork;
use crate::words::texts_of;
use block_store::SureBlocks;
use fresh_lakes::fresh_lake;
use lake_base::{Text, Trouble};
use lake_host::{ServerEnd, serve_listeners};
use lake_sockets::SocketHost;
use lakectl_client::send_command;
use lakectl_shown::Shown;
use memory_machine::MemoryFiles;
use std::alloc::Global;
use std::io;
use std::net::{Net, TcpListener, TcpStream};
use std::sync::Wait;
use std::test::Fail;
use std::thread::{Threads, join};
use std::time::Clock;

// Commands and what is shown of them, one after the other. Each goes to another worker, which has no bytes of the
// other's objects.
static COMMANDS: [(&[&str], &[u8]); 2] = [
    (
        &[
            "fs",
            "upload",
            "lakefs://quickstart/main/a",
            "--text",
            "hello",
        ],
        b"Path: a\nSize: 5\nChecksum: 2cf24dba5fb0a30e26e83b2ac5b9e29e1b161e5c1fa7425e73043362938b9824\n",
    ),
    (
        &["branch", "list", "lakefs://quickstart"],
        b"main\ta52d600cf8f59ab14da57bd6123a7d90026916379eec82cad90310c61423b7c1\n",
    ),
];

// An address that nobody listens at.
fn free_address<R: Net<Stream = TcpStream, Listener = TcpListener>>(
    rt: &R,
    alloc: Global,
) -> io::Result<Text> {
    let listener = TcpListener::bind(rt, "127.0.0.1:0")?;
    let at = listener.local_addr()?;
    Ok(Text::of(format!(in alloc; "{at}")?))
}

// A server of two connections, by two workers. None: memory ran out first.
fn serve<R: Net<Stream = TcpStream, Listener = TcpListener> + Clock + Threads + Wait + Sync>(
    rt: &R,
    alloc: Global,
    at: &Text,
) -> Option<ServerEnd> {
    let (lake, seats) = fresh_lake(alloc, 2).ok()?;
    let stores = vec![in alloc; SureBlocks::new(alloc), SureBlocks::new(alloc)].ok()?;
    let mut host = SocketHost::new(rt, alloc);
    let (end, _, _) = serve_listeners(rt, alloc, lake, seats, stores, &mut host, at, Some(2));
    Some(end)
}

// What is shown of the commands, in order.
fn ask<R: Net<Stream = TcpStream> + Clock>(
    rt: &R,
    alloc: Global,
    at: &Text,
) -> Result<Vec<Shown>, Trouble> {
    let mut files = MemoryFiles::new(alloc, Vec::new(alloc));
    let mut network = PatientNetwork::new(rt);
    let mut all = Vec::new(alloc);
    for (words, _) in &COMMANDS {
        let texts = texts_of(alloc, words)?;
        all.push(send_command(alloc, &mut files, &mut network, at, texts.as_slice())?)?;
    }
    Ok(all)
}

// The server and the client at once.
fn run_both<R: Net<Stream = TcpStream, Listener = TcpListener> + Clock + Threads + Wait + Sync>(
    rt: &R,
    alloc: Global,
    at: &Text,
) -> (Option<ServerEnd>, Result<Vec<Shown>, Trouble>) {
    join(rt, || serve(rt, alloc, at), || ask(rt, alloc, at))
}

#[test]
fn commands_go_over_sockets(rt: HostRuntime) -> Result<(), Fail> {
    let at = free_address(&rt, rt.alloc())?;
    let (end, shown) = run_both(&rt, rt.alloc(), &at);
    assert_eq!(rt; end, Some(ServerEnd::Done));
    let shown = shown?;
    assert_eq!(rt; shown.len(), COMMANDS.len());
    for (one, (_, out)) in shown.iter().zip(&COMMANDS) {
        assert_eq!(rt; one.out.as_slice(), *out);
        assert_eq!(rt; one.err.as_slice(), b"".as_slice());
        assert_eq!(rt; one.status, 0);
    }
    Ok(())
}
