//! A run of the program over a machine in memory, and what it comes to.

use crate::streams::{Streams, sink_of, source_of, texts_of};
use lake_base::{ScriptClock, Text};
use lake_program::run::run;
use memory_machine::{MemoryFiles, MemoryFolders, MemoryHost, MemoryNetwork};
use std::alloc::Global;
use std::sync::Wait;
use std::test::Fail;
use std::thread::Threads;

/// What a run comes to.
#[derive(Debug, Drop)]
pub struct Came {
    pub status: u8,
    pub out: Vec<u8>,
    pub errors: Vec<u8>,
}

impl Came {
    /// The status, the output and the errors, to be compared at once.
    pub fn whole(&self) -> (u8, &[u8], &[u8]) {
        (self.status, self.out.as_slice(), self.errors.as_slice())
    }
}

/// What a run of the program with these words over an input comes to, with no files at first, a host without
/// listeners, a network without connections, and no folder.
pub fn run_over<R: Threads + Wait + Sync>(
    rt: &R,
    alloc: Global,
    words: &[&str],
    input: &[u8],
    streams: &Streams,
) -> Result<Came, Fail> {
    let mut host = MemoryHost::new(alloc, Vec::new(alloc));
    run_with(rt, alloc, words, input, streams, &mut host)
}

/// The same, with a host.
pub fn run_with<R: Threads + Wait + Sync>(
    rt: &R,
    alloc: Global,
    words: &[&str],
    input: &[u8],
    streams: &Streams,
    host: &mut MemoryHost,
) -> Result<Came, Fail> {
    let mut network = MemoryNetwork::new(alloc, Vec::new(alloc))?;
    run_among(rt, alloc, words, input, streams, host, &mut network)
}

/// The same, with a network too.
pub fn run_among<R: Threads + Wait + Sync>(
    rt: &R,
    alloc: Global,
    words: &[&str],
    input: &[u8],
    streams: &Streams,
    host: &mut MemoryHost,
    network: &mut MemoryNetwork,
) -> Result<Came, Fail> {
    let folder = Text::of(String::from_str(alloc, "folder")?);
    let mut folders = MemoryFolders::new(alloc, folder, Vec::new(alloc), Vec::new(alloc));
    run_on(
        rt,
        alloc,
        words,
        input,
        streams,
        host,
        network,
        &mut folders,
    )
}

/// What a run comes to with a host and folders, and a network without connections.
pub fn run_in<R: Threads + Wait + Sync>(
    rt: &R,
    alloc: Global,
    words: &[&str],
    input: &[u8],
    streams: &Streams,
    host: &mut MemoryHost,
    folders: &mut MemoryFolders,
) -> Result<Came, Fail> {
    let mut network = MemoryNetwork::new(alloc, Vec::new(alloc))?;
    run_on(
        rt,
        alloc,
        words,
        input,
        streams,
        host,
        &mut network,
        folders,
    )
}

// The only name under which no file can be written.
static NEVER: [&str; 1] = ["never"];

// What a run comes to over all that a machine has.
fn run_on<R: Threads + Wait + Sync>(
    rt: &R,
    alloc: Global,
    words: &[&str],
    input: &[u8],
    streams: &Streams,
    host: &mut MemoryHost,
    network: &mut MemoryNetwork,
    folders: &mut MemoryFolders,
) -> Result<Came, Fail> {
    let texts = texts_of(alloc, words)?;
    let mut source = source_of(alloc, input, streams)?;
    let mut sink = sink_of(alloc, streams)?;
    let mut errors = sink_of(alloc, streams)?;
    let never = texts_of(alloc, &NEVER)?;
    let (status, _, _) = run(
        rt,
        alloc,
        texts.as_slice(),
        &mut source,
        &mut sink,
        &mut errors,
        ScriptClock::new(Vec::new(alloc)),
        MemoryFiles::new(alloc, never),
        host,
        network,
        folders,
    );
    Ok(Came {
        status,
        out: Vec::from_slice(alloc, sink.written())?,
        errors: Vec::from_slice(alloc, errors.written())?,
    })
}
