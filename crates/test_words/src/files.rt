//! Where maps are cut, and the ids of trees and commits. FNV-1a makes `50` and `nq` break keys of the usual cut, and
//! `a`, `b` and `z` none.
use lake_format::cut::{Cut, USUAL_CUT, fnv1a};
use plain_reference::files::{commit_id, files, tree_id};
use plain_reference::segments::changed_ranges;
use std::alloc::Global;
use std::test::Fail;
use test_values::{commits, key_map};

// FNV-1a of its authors' test vectors.
static SUMS: [(&[u8], u64); 3] = [
    (b"", 0xcbf29ce484222325),
    (b"a", 0xaf63dc4c8601ec8c),
    (b"foobar", 0x85944171f73967e8),
];

#[test]
fn sums_are_fnv1a(rt: HostRuntime) {
    for (bytes, sum) in &SUMS {
        assert_eq!(rt; fnv1a(bytes), *sum);
    }
}

// A map, the most bytes of rows in a range, of which each row has 67 and more, how many files the tree has with its
// metarange, and its id (by Python's struct and hashlib).
static TREES: [(&str, u64, usize, &str); 6] = [
    (
        "",
        1048576,
        1,
        "957b88b12730e646e0f33d3618b77dfa579e8231e3c59c7104be7165611c8027",
    ),
    (
        "b2 a1",
        1048576,
        2,
        "b4f2eca676da7c8ebaa2d6883f2b009bc63168bdae794cdf29b5c1dd37449ccf",
    ),
    (
        "501 a1 nq1 z1",
        1048576,
        4,
        "270eec8f5ef680038b970b2adc12688cd5bd48c6949ad4f78320dc240211963a",
    ),
    (
        "a1 b1 c1",
        201,
        2,
        "1b5ba8d846a13667e4b405f506d8260feba7c6fbe0b5c80c31a34718c0550c7f",
    ),
    (
        "a1 b1 c1",
        134,
        3,
        "523140ce0619560bd264cedd8788bd8d45d7a9d94a9f9338fff2fc3dfb8df77b",
    ),
    (
        "a1 b1 c1",
        10,
        4,
        "236dfc8300c5066365986e008c43bd608b2c866e484e5244c254ea1380a951f2",
    ),
];

#[test]
fn trees_are_cut_and_spelled_as_another_program_does(rt: HostRuntime) -> Result<(), Fail> {
    let alloc = rt.alloc();
    for (words, max_bytes, count, id) in &TREES {
        let map = key_map(alloc, words)?;
        let cut = Cut {
            max_bytes: *max_bytes,
            modulus: 1024,
        };
        assert_eq!(rt; files(alloc, &map, &cut)?.len(), *count);
        assert_eq!(rt; tree_id(alloc, &map, &cut)?.hex(alloc)?.as_str(), *id);
    }
    Ok(())
}

// A commit, and its id at the moment 1,700,000,000 (by Python's struct and hashlib).
static COMMITS: [(&str, &str); 2] = [
    (
        "R1",
        "0d8fd295bb4a95e1697d3b9ab0ac7ea89d83a4f70b7d72ef7fb472ae83030072",
    ),
    (
        "M4YX",
        "12d5d523689a1b622188685c322ed7ed6148fd28597732bb85fb23b69e360914",
    ),
];

#[test]
fn commits_are_spelled_as_another_program_does(rt: HostRuntime) -> Result<(), Fail> {
    let alloc = rt.alloc();
    for (words, due) in &COMMITS {
        for (_, commit) in commits(alloc, words, &[1700000000])? {
            assert_eq!(rt; commit_id(alloc, &commit)?.hex(alloc)?.as_str(), *due);
        }
    }
    Ok(())
}

// Maps before and after, and how many ranges are in changed segments.
static CHANGED: [(&str, &str, usize); 6] = [
    ("501 a1 nq1 z1", "501 a1 z1", 1),
    ("501 a1 nq1 z1", "501 a1 nq1 z1", 0),
    ("", "501 a1 nq1 z1", 3),
    ("501 a1 nq1 z1", "501 a2 nq1 z1", 1),
    ("a1 nq1 z1", "501 a1 nq1 z1", 2),
    ("501 a1", "", 0),
];

// How many ranges of the new map are in changed segments.
fn changed(alloc: Global, old: &str, new: &str) -> Result<usize, Fail> {
    let (old, new) = (key_map(alloc, old)?, key_map(alloc, new)?);
    Ok(changed_ranges(old.as_slice(), new.as_slice(), &USUAL_CUT))
}

#[test]
fn ranges_of_equal_segments_are_carried_over(rt: HostRuntime) -> Result<(), Fail> {
    for (old, new, due) in &CHANGED {
        assert_eq!(rt; changed(rt.alloc(), old, new)?, *due);
    }
    Ok(())
}
