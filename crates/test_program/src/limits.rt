//! How long a line, a text that is held back and a batch may be.
ghost use Rattle.std.specs.Prelude.{◌<◌};

use crate::demo::{DEMO, DEMO_PRINTS, run_batch};
use batch_lines::output::PendingOutput;
use lake_base::FixedClock;
use lake_batch::serve_batch;
use machine_runs::{SURE, Streams, number_of, sink_of, source_of};
use memory_machine::MemoryFiles;
use program_words::Timing;
use std::alloc::Global;
use std::process::Abort;
use std::sync::Wait;
use std::test::Fail;
use std::thread::Threads;

// A text, so many bytes after it, and another text.
fn padded(
    alloc: Global,
    front: &[u8],
    fill: u8,
    count: usize,
    end: &[u8],
) -> Result<Vec<u8>, Fail> {
    let mut line = Vec::from_slice(alloc, front)?;
    let filling = vec![in alloc; fill; count]?;
    line.extend_from_slice(filling.as_slice())?;
    line.extend_from_slice(end)?;
    Ok(line)
}

static CAT: &[u8] = b"fs cat lakefs://quickstart/main/b";

static NEXT_CAT: &[u8] = b"\r\nfs cat lakefs://quickstart/main/c\n";

static NO_PATH: &[u8] = b"Error: path not found: b [404]\n";

static NEXT_NO_PATH: &[u8] = b"Error: path not found: c [404]\n";

static BAD_LINE: &[u8] = b"Error: bad line\n";

// A line of 33 bytes and so many spaces prints this, and the next line is served.
fn check_long_line(
    rt: &(impl Threads + Wait + Sync + Abort),
    alloc: Global,
    spaces: usize,
    prints: &[u8],
) -> Result<(), Fail> {
    let line = padded(alloc, CAT, b' ', spaces, NEXT_CAT)?;
    let came = run_batch(rt, alloc, line.as_slice())?;
    assert!(rt;
        came.out.as_slice().starts_with(prints),
        "after {spaces} spaces"
    );
    assert!(rt;
        came.out.as_slice().ends_with(NEXT_NO_PATH),
        "after {spaces} spaces"
    );
    Ok(())
}

#[test]
fn a_long_line_is_refused(rt: HostRuntime) -> Result<(), Fail> {
    check_long_line(&rt, rt.alloc(), 65_503, NO_PATH)?;
    check_long_line(&rt, rt.alloc(), 65_504, BAD_LINE)?;
    check_long_line(&rt, rt.alloc(), 135_503, BAD_LINE)
}

#[test]
fn a_long_comment_is_passed_over(rt: HostRuntime) -> Result<(), Fail> {
    let line = padded(rt.alloc(), b"#", b'x', 70_000, b"")?;
    let came = run_batch(&rt, rt.alloc(), line.as_slice())?;
    assert_eq!(rt; came.out.len(), 0);
    assert_eq!(rt; came.status, 0);
    Ok(())
}

// So many bytes are shown behind others, and this is written before they are flushed, and then all.
fn check_pending(rt: &impl Abort, alloc: Global, count: usize, written: usize) -> Result<(), Fail> {
    let text = padded(alloc, b"", b'x', count, b"")?;
    let mut sink = sink_of(alloc, &SURE)?;
    let mut output = PendingOutput::new(alloc)?;
    assert_eq!(rt; output.show(&mut sink, b"pending"), Ok(()));
    assert_eq!(rt; output.show(&mut sink, text.as_slice()), Ok(()));
    assert_eq!(rt; sink.written().len(), written, "of {count}");
    assert_eq!(rt; output.flush(&mut sink), Ok(()));
    assert_eq!(rt;
        sink.written()
            .strip_prefix(b"pending")
            .map(|rest| rest.len()),
        Some(count)
    );
    Ok(())
}

#[test]
fn a_text_is_held_back_where_there_is_room(rt: HostRuntime) -> Result<(), Fail> {
    check_pending(&rt, rt.alloc(), 65_529, 0)?;
    check_pending(&rt, rt.alloc(), 65_530, 7)?;
    check_pending(&rt, rt.alloc(), 65_537, 65_544)
}

static SMALL_PIECES: Streams = Streams {
    piece: 7,
    read: 0,
    write: 0,
};

static CUT: &[u8] =
    b"Path: a\nSize: 5\nChecksum: 2cf24dba5fb0a30e26e83b2ac5b9e29e1b161e5c1fa7425e73043362938b9824\n\
Error: batch too long\n";

// Under this limit the demonstration prints this and has this status.
fn check_limit(
    rt: &(impl Threads + Wait + Sync + Abort),
    alloc: Global,
    limit: u64,
    status: u8,
    prints: &[u8],
) -> Result<(), Fail>
    requires { limit < 100 }
{
    let mut source = source_of(alloc, DEMO, &SMALL_PIECES)?;
    let mut sink = sink_of(alloc, &SMALL_PIECES)?;
    let (found, _, _) = serve_batch(
        rt,
        alloc,
        limit,
        Timing::Clock,
        &mut source,
        &mut sink,
        FixedClock::new(0),
        MemoryFiles::new(alloc, Vec::new(alloc)),
    );
    assert_eq!(rt; number_of(found), status, "at {limit}");
    assert_eq!(rt; sink.written(), prints, "at {limit}");
    Ok(())
}

#[test]
fn a_batch_above_its_limit_serves_the_lines_that_ended(rt: HostRuntime) -> Result<(), Fail> {
    check_limit(&rt, rt.alloc(), 84, 0, DEMO_PRINTS)?;
    check_limit(&rt, rt.alloc(), 83, 1, CUT)
}
