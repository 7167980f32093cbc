//! What the generator prints, and which words are none of its own.

use machine_runs::{SURE, Streams, run_over};
use std::alloc::Global;
use std::sync::Wait;
use std::test::Fail;
use std::thread::Threads;

// Words, which name a number and how many objects, and what is printed then.
static WORDS: [&[&str]; 4] = [
    &["gen", "--number", "0", "--objects", "1"],
    &[
        "gen",
        "--number",
        "00000000000000000001",
        "--objects",
        "010",
    ],
    &["gen", "--number", "7", "--objects", "40"],
    &["gen", "--number", "7", "--objects", "5000"],
];

static PRINTED: [&[u8]; 4] = [
    b"objects: 1\ncommits: 1\npaths: 1\n\
      metarange: accf99b67878c901242426d04aefb10e5ca5966596d53a9fbdf60247fa638ef1\n",
    b"objects: 10\ncommits: 3\npaths: 10\n\
      metarange: cad38a47441678bf8c78211d3fe7c35994cfeab2e64a881254e50431ee48c41c\n",
    b"objects: 40\ncommits: 3\npaths: 40\n\
      metarange: 302586502a43f7825766769238355a9feacb14b5e93afeb2a618705f36fda0f6\n",
    b"objects: 5000\ncommits: 11\npaths: 4998\n\
      metarange: a3ca93a2a5f72ee8bedfcef63d44a7da910666cfb6af4cfa4782c19310090f69\n",
];

// Whether the run of these words prints this, and ends well.
fn prints<R: Threads + Wait + Sync>(
    rt: &R,
    alloc: Global,
    words: &[&str],
    due: &[u8],
) -> Result<bool, Fail> {
    let came = run_over(rt, alloc, words, b"", &SURE)?;
    let (status, printed, errors) = came.whole();
    Ok(status == 0 && printed == due && errors.is_empty())
}

#[test]
fn four_lines_are_printed(rt: HostRuntime) -> Result<(), Fail> {
    for row in 0..4 {
        let due = prints(&rt, rt.alloc(), WORDS[row], PRINTED[row])?;
        assert!(rt; due, "row {row}");
    }
    Ok(())
}

static USAGE: &[u8] = b"Error: usage\n";

static OTHER_WORDS: [&[&str]; 11] = [
    &["gen"],
    &["gen", "--number", "0"],
    &["gen", "--number", "0", "--objects"],
    &["gen", "--number", "0", "--objects", "0"],
    &["gen", "--number", "0", "--objects", "100001"],
    &["gen", "--number", "0", "--objects", "+1"],
    &["gen", "--number", "", "--objects", "1"],
    &["gen", "--number", "000000000000000000000", "--objects", "1"],
    &["gen", "--number", "18446744073709551616", "--objects", "1"],
    &["gen", "--objects", "1", "--number", "0"],
    &["gen", "--number", "0", "--objects", "1", "--objects"],
];

#[test]
fn other_words_are_a_usage_fault(rt: HostRuntime) -> Result<(), Fail> {
    for words in &OTHER_WORDS {
        let came = run_over(&rt, rt.alloc(), words, b"", &SURE)?;
        assert_eq!(rt; came.whole(), (2, b"".as_slice(), USAGE));
    }
    Ok(())
}

static SECOND_WRITE: Streams = Streams {
    piece: 16,
    read: 0,
    write: 2,
};

static ONE: [&str; 5] = ["gen", "--number", "0", "--objects", "1"];

#[test]
fn a_front_is_printed_where_the_sink_fails(rt: HostRuntime) -> Result<(), Fail> {
    let came = run_over(&rt, rt.alloc(), &ONE, b"", &SECOND_WRITE)?;
    assert_eq!(rt;
        came.whole(),
        (4, b"objects: 1\ncommi".as_slice(), b"".as_slice())
    );
    Ok(())
}
