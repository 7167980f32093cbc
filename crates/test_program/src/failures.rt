//! The demonstration over streams of any pieces, and over streams that fail.

use crate::demo::{DEMO, DEMO_PRINTS};
use machine_runs::{SURE, Streams, run_over};
use std::test::Fail;

// The size of the pieces, the read and the write that fail, the status, and how much of what the demonstration prints
// is printed. It has 84 bytes, of which the first line has 50, and prints 96, of which that line prints 91.
static RUNS: [(usize, u64, u64, u8, usize); 8] = [
    (1, 0, 0, 0, 96),
    (7, 0, 0, 0, 96),
    (4_096, 0, 0, 0, 96),
    (7, 1, 0, 3, 0),
    (7, 8, 0, 3, 0),
    (7, 9, 0, 3, 91),
    (7, 0, 1, 4, 0),
    (7, 0, 2, 4, 7),
];

static BATCH: [&str; 1] = ["batch"];

#[test]
fn streams_that_fail_leave_a_front(rt: HostRuntime) -> Result<(), Fail> {
    for (piece, read, write, status, length) in &RUNS {
        let streams = Streams {
            piece: *piece,
            read: *read,
            write: *write,
        };
        let came = run_over(&rt, rt.alloc(), &BATCH, DEMO, &streams)?;
        assert_eq!(rt; came.status, *status, "over {streams:?}");
        assert_eq!(rt; came.out.len(), *length, "over {streams:?}");
        assert!(rt; DEMO_PRINTS.starts_with(came.out.as_slice()));
        assert!(rt; came.errors.is_empty());
    }
    Ok(())
}

// A file is written and read; then one that can't be written, behind which no line is served.
static LOST: &[u8] = b"fs upload lakefs://quickstart/main/a --text hello\n\
fs download lakefs://quickstart/main/a copy\nfs upload lakefs://quickstart/main/b --source copy\n\
fs download lakefs://quickstart/main/a never\nfs cat lakefs://quickstart/main/a\n";

static LOST_END: &[u8] =
    b"Path: b\nSize: 5\nChecksum: 2cf24dba5fb0a30e26e83b2ac5b9e29e1b161e5c1fa7425e73043362938b9824\n";

#[test]
fn a_file_that_cannot_be_written_ends_the_batch(rt: HostRuntime) -> Result<(), Fail> {
    let came = run_over(&rt, rt.alloc(), &BATCH, LOST, &SURE)?;
    assert_eq!(rt; came.status, 5);
    assert!(rt; came.out.as_slice().ends_with(LOST_END));
    Ok(())
}
