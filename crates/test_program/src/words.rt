//! The words that the program is started with.

use crate::demo::{DEMO, DEMO_PRINTS, check_came};
use machine_runs::{SURE, Streams, run_over};
use std::test::Fail;

static OTHER_WORDS: [&[&str]; 27] = [
    &[],
    &["lakefs"],
    &["batch", "--at"],
    &["batch", "--at", ""],
    &["batch", "--at", "+1"],
    &["batch", "--at", "-1"],
    &["batch", "--at", "12345678901234567890"],
    &["batch", "--at", "1", "x"],
    &["--help"],
    &["run"],
    &["run", "--listen"],
    &["run", "--listen", ""],
    &["run", "--listen", "x", "--workers", "0"],
    &["run", "--listen", "x", "--workers", "65"],
    &["run", "--listen", "x", "--connections", "+1"],
    &[
        "run",
        "--listen",
        "x",
        "--connections",
        "1",
        "--workers",
        "1",
    ],
    &["run", "--listen", "x", "--workers", "1", "--workers", "1"],
    &["ctl"],
    &["ctl", "--server"],
    &["ctl", "--server", ""],
    &["ctl", "--at", "x", "--server", "a:1", "fs"],
    &["ctl", "--local"],
    &["ctl", "--local", "", "fs"],
    &["batch", "--local"],
    &["batch", "--local", ""],
    &["batch", "--local", "x", "--at", "1"],
    &["run", "--listen", "x", "--folder", ""],
];

static USAGE: &[u8] = b"Error: usage\n";

#[test]
fn other_words_are_a_usage_fault(rt: HostRuntime) -> Result<(), Fail> {
    for words in &OTHER_WORDS {
        let came = run_over(&rt, rt.alloc(), words, DEMO, &SURE)?;
        check_came(&rt, &came, 2, b"", USAGE);
    }
    Ok(())
}

static LATEST: [&str; 3] = ["batch", "--at", "9999999999999999999"];

static HELP: [&str; 1] = ["--help"];

static USAGE_FRONT: &[u8] = b"Error: ";

static SECOND_WRITE: Streams = Streams {
    piece: 7,
    read: 0,
    write: 2,
};

#[test]
fn words_at_their_edges(rt: HostRuntime) -> Result<(), Fail> {
    let most = run_over(&rt, rt.alloc(), &LATEST, DEMO, &SURE)?;
    check_came(&rt, &most, 0, DEMO_PRINTS, b"");
    let cut = run_over(&rt, rt.alloc(), &HELP, DEMO, &SECOND_WRITE)?;
    check_came(&rt, &cut, 4, b"", USAGE_FRONT);
    Ok(())
}
