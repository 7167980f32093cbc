//! Real files and the real clock.

use lake_base::{Clock, Sink, Source, Text, Trouble};
use lake_machine::{StdFiles, StdSink, StdSource, SystemClock};
use lakectl_commands::Files;
use std::fs;
use std::test::Fail;

#[test]
fn a_file_is_read_whole_and_written(rt: HostRuntime) -> Result<(), Fail> {
    let mut sink = StdSink::new(fs::create(&rt, "adapter.txt")?);
    assert_eq!(rt; sink.write(b"bytes"), Ok(5));
    drop(sink);
    let mut source = StdSource::new(fs::open(&rt, "adapter.txt")?);
    let mut room = [0u8; 8];
    assert_eq!(rt; source.read(&mut room), Ok(5));
    assert_eq!(rt; room[..5], b"bytes"[..]);
    assert_eq!(rt; source.read(&mut room), Ok(0));
    Ok(())
}

#[test]
fn the_clock_is_after_2020_and_goes_on(rt: HostRuntime) {
    let mut clock = SystemClock::new(&rt);
    let first = clock.now();
    let second = clock.now();
    assert!(rt; first > 1_577_836_800);
    assert!(rt; first <= second);
}

#[test]
fn a_named_file_is_written_and_read(rt: HostRuntime) -> Result<(), Fail> {
    let alloc = rt.alloc();
    let mut files = StdFiles::new(&rt, alloc);
    let name = Text::of(String::from_str(alloc, "named.txt")?);
    let other = Text::of(String::from_str(alloc, "none.txt")?);
    let folder = Text::of(String::from_str(alloc, "none/named.txt")?);
    assert_eq!(rt; files.write_file(&name, b"bytes"), Ok(()));
    assert_eq!(rt; files.write_file(&name, b"less"), Ok(()));
    assert_eq!(rt; files.write_file(&folder, b"bytes"), Err(Trouble::Failed));
    let read = files.read_file(&name).ok().ok_or("it isn't read")?;
    let bytes = read.ok_or("it isn't there")?;
    assert_eq!(rt; bytes.as_slice(), b"less".as_slice());
    let read = files.read_file(&other).ok().ok_or("it isn't read")?;
    assert!(rt; read.is_none());
    Ok(())
}
