//! Ancestors, bases, walks and kept commits of small graphs. A commit is written with a letter, its generation and its
//! parents.
use lake_base::RefName;
use lake_values::CommitId;
use plain_reference::ancestry::{ancestors, back, base, is_graph};
use plain_reference::retention::kept;
use std::alloc::Global;
use std::test::Fail;
use test_values::{commits, id, letters, ref_name, rules};

// A first commit, two upon it, and two merges of these, whose parents stand the one and the other way round.
const CROSSED: &str = "N3YX M3XY Y2R X2R R1";

// Z stands one above the first commit and Y two, so Y is the base of the merges, though its letter is greater and it
// stands first among the parents of one of them only.
const UNEVEN: &str = "A4BY B2R N4YB M4BY Y3Z Z2R R1";

// Two first commits with one upon one of them.
const APART: &str = "R1 X1 Y2X";

// A graph, two letters and that of their base.
static BASES: [(&str, u8, u8, Option<u8>); 11] = [
    (CROSSED, b'M', b'N', Some(b'X')),
    (CROSSED, b'R', b'M', Some(b'R')),
    (CROSSED, b'M', b'M', Some(b'M')),
    (CROSSED, b'X', b'N', Some(b'X')),
    (CROSSED, b'M', b'Z', None),
    (UNEVEN, b'M', b'N', Some(b'Y')),
    (UNEVEN, b'M', b'B', Some(b'B')),
    (UNEVEN, b'Z', b'B', Some(b'R')),
    (APART, b'R', b'X', None),
    (APART, b'R', b'Y', None),
    (APART, b'X', b'Y', Some(b'X')),
];

#[test]
fn a_base_is_of_greatest_generation_and_then_of_least_id(rt: HostRuntime) -> Result<(), Fail> {
    for (words, a, b, due) in &BASES {
        let commits = commits(rt.alloc(), words, &[])?;
        assert!(rt; is_graph(commits.as_slice()));
        assert_eq!(rt;
            base(commits.as_slice(), &id(*a), &id(*b)),
            due.map(|letter| id(letter))
        );
    }
    Ok(())
}

// A letter, its ancestors in the order of the log, and its walk of first parents. Z is no commit.
static WAYS: [(u8, &str, &str); 4] = [
    (b'M', "MXYR", "MXR"),
    (b'N', "NXYR", "NYR"),
    (b'R', "R", "R"),
    (b'Z', "", ""),
];

#[test]
fn ancestors_and_walks_are_those_of_the_table(rt: HostRuntime) -> Result<(), Fail> {
    let alloc = rt.alloc();
    let commits = commits(alloc, CROSSED, &[])?;
    let commits = commits.as_slice();
    assert!(rt; is_graph(commits));
    for (at, old, walk) in &WAYS {
        assert_eq!(rt;
            letters(alloc, ancestors(alloc, commits, &id(*at))?.as_slice())?.as_str(),
            *old
        );
        for steps in 0..4u64 {
            let due = walk.as_bytes().get(steps as usize).copied();
            assert_eq!(rt;
                back(commits, steps, &id(*at)),
                due.map(|letter| id(letter))
            );
        }
    }
    Ok(())
}

// No graph: a parent is missing, or a generation isn't the one due.
static BROKEN: [&str; 4] = ["X2R", "R2", "R1 X3R", "R1 X2R M2XR"];

#[test]
fn parents_are_there_and_generations_are_due(rt: HostRuntime) -> Result<(), Fail> {
    for words in &BROKEN {
        assert!(rt; !is_graph(commits(rt.alloc(), words, &[])?.as_slice()));
    }
    Ok(())
}

// X stands on R and Y on X.
const CHAIN: &str = "Y3X R1 X2R";

// Dates of Y, R and X, so that a branch keeps X by the date of Y, and so that it doesn't by that of X itself.
const RISING: &[u64] = &[1100000, 0, 1000000];

const FALLING: &[u64] = &[0, 0, 1300000];

// The dates; the branch whose head is Y, where there is one; the tagged commits; now; and the kept ones. The branch
// `dev` keeps seven days, others 30.
type Row = (
    &'static [u64],
    &'static str,
    &'static str,
    u64,
    &'static str,
);

static KEPT: [Row; 11] = [
    (RISING, "dev", "", 1704800, "XY"),
    (RISING, "dev", "", 1704801, "Y"),
    (RISING, "dev", "R", 1704801, "RY"),
    (RISING, "dev", "ZX", 1704801, "XY"),
    (RISING, "main", "", 3692000, "XY"),
    (RISING, "main", "", 3692001, "Y"),
    (RISING, "", "", 3692000, "Y"),
    (RISING, "", "", 3692001, ""),
    (RISING, "", "", 2592000, "RXY"),
    (FALLING, "dev", "", 1904800, "RY"),
    (FALLING, "", "", 3892000, "X"),
];

fn heads(alloc: Global, branch: &str) -> Result<Vec<(RefName, CommitId)>, Fail> {
    let mut heads = Vec::new(alloc);
    if !branch.is_empty() {
        heads.push((ref_name(alloc, branch)?, id(b'Y')))?;
    }
    Ok(heads)
}

fn ids(alloc: Global, letters: &str) -> Result<Vec<CommitId>, Fail> {
    let mut ids = Vec::new(alloc);
    for letter in letters.as_bytes() {
        ids.push(id(*letter))?;
    }
    Ok(ids)
}

#[test]
fn a_commit_is_kept_by_the_date_of_the_one_that_follows_it(rt: HostRuntime) -> Result<(), Fail> {
    let alloc = rt.alloc();
    let rules = rules(alloc)?;
    for (dates, branch, tags, now, due) in &KEPT {
        let commits = commits(alloc, CHAIN, dates)?;
        let (heads, tags) = (heads(alloc, branch)?, ids(alloc, tags)?);
        assert!(rt; is_graph(commits.as_slice()));
        let kept = kept(
            alloc,
            commits.as_slice(),
            heads.as_slice(),
            tags.as_slice(),
            Some(&rules),
            *now,
        )?;
        assert_eq!(rt; letters(alloc, kept.as_slice())?.as_str(), *due);
    }
    Ok(())
}

#[test]
fn each_commit_is_kept_once_where_there_are_no_rules(rt: HostRuntime) -> Result<(), Fail> {
    let alloc = rt.alloc();
    let commits = commits(alloc, "Y3X R1 X2R R1", &[])?;
    assert!(rt; is_graph(commits.as_slice()));
    let kept = kept(alloc, commits.as_slice(), &[], &[], None, 1300000)?;
    assert_eq!(rt; letters(alloc, kept.as_slice())?.as_str(), "RXY");
    Ok(())
}
