//! The demonstration, and batches at one moment.

use machine_runs::{Came, SURE, run_over};
use std::alloc::Global;
use std::process::Abort;
use std::sync::Wait;
use std::test::Fail;
use std::thread::Threads;

/// The demonstration: an upload, and what it uploaded.
pub(crate) static DEMO: &[u8] =
    b"fs upload lakefs://quickstart/main/a --text hello\nfs cat lakefs://quickstart/main/a\n";

/// What it prints.
pub(crate) static DEMO_PRINTS: &[u8] =
    b"Path: a\nSize: 5\nChecksum: 2cf24dba5fb0a30e26e83b2ac5b9e29e1b161e5c1fa7425e73043362938b9824\nhello";

static AT_ZERO: [&str; 3] = ["batch", "--at", "0"];

/// What a batch at moment 0 comes to.
pub(crate) fn run_batch<R: Threads + Wait + Sync>(
    rt: &R,
    alloc: Global,
    input: &[u8],
) -> Result<Came, Fail> {
    run_over(rt, alloc, &AT_ZERO, input, &SURE)
}

/// Checks that a run came to a status and these bytes of both sinks.
pub(crate) fn check_came(rt: &impl Abort, came: &Came, status: u8, out: &[u8], errors: &[u8]) {
    assert_eq!(rt; came.whole(), (status, out, errors));
}
