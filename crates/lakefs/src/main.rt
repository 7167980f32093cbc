//! The program `lakefs`: a lake of objects with Git-like branches, driven by lakectl's commands and over HTTP.
//!
//! What it does is `lake_program::run::run`; here are only the real streams, clock, files, sockets, folders and words.
#![tactic(auto)]

use batch_lines::ExitStatus;
use disk_folders::DiskFolders;
use lake_base::{NoMemory, Text};
use lake_machine::{StdFiles, StdSink, StdSource, SystemClock};
use lake_program::run::run;
use lake_program::status::number_of;
use lake_sockets::{SocketHost, SocketNetwork};
use std::env;
use std::io::ErrorKind;
use std::process::ExitCode;
use std::rt::Env;

// The program's words, without its name. Words that aren't UTF-8 are none of its own.
fn words<R: Env + AllocGlobal>(rt: &R) -> Result<Vec<Text>, NoMemory> {
    let mut words = Vec::new(rt.alloc());
    let arguments = match env::args(rt) {
        Ok(arguments) => arguments,
        Err(error) if error.kind() == ErrorKind::OutOfMemory => return Err(NoMemory),
        Err(_) => return Ok(words),
    };
    for argument in arguments.skip(1) {
        words.push(Text::of(argument))?;
    }
    Ok(words)
}

fn main(rt: HostRuntime) -> ExitCode {
    let Ok(words) = words(&rt) else {
        return ExitCode::from(number_of(ExitStatus::OutOfMemory));
    };
    let alloc = rt.alloc();
    let mut source = StdSource::new(rt.stdin());
    let mut sink = StdSink::new(rt.stdout());
    let mut errors = StdSink::new(rt.stderr());
    let mut host = SocketHost::new(&rt, alloc);
    let mut network = SocketNetwork::new(&rt);
    let mut folders = DiskFolders::new(&rt, alloc);
    let (status, _, _) = run(
        &rt,
        alloc,
        words.as_slice(),
        &mut source,
        &mut sink,
        &mut errors,
        SystemClock::new(&rt),
        StdFiles::new(&rt, alloc),
        &mut host,
        &mut network,
        &mut folders,
    );
    ExitCode::from(status)
}
