//! A batch on the lake of a folder whose keeper fails at each of its calls, and what the folder has then.

use crate::machine::{Came, empty_keeper, run_in, sound_keeper};
use keeper::KeeperFail;
use memory_machine::MemoryHost;
use std::alloc::Global;
use std::sync::Wait;
use std::test::Fail;
use std::thread::Threads;

static WORDS: [&str; 5] = ["batch", "--at", "1700000000", "--local", "folder"];

// Lines that change the lake, each by two calls of its keeper. The first call of all makes a fresh lake.
static LINES: [&str; 4] = [
    "fs upload lakefs://quickstart/main/a --text one\n",
    "commit lakefs://quickstart/main -m first\n",
    "fs upload lakefs://quickstart/main/b --text two\n",
    "commit lakefs://quickstart/main -m second\n",
];

// What was uploaded.
static CATS: &str = "fs cat lakefs://quickstart/main/a\nfs cat lakefs://quickstart/main/b\n\
fs cat lakefs://quickstart/main~1/a\nfs cat lakefs://quickstart/main/a\n";

// What a lake has, whose objects aren't at hand.
static LISTS: &str = "fs ls lakefs://quickstart/main/\nlog lakefs://quickstart/main\n";

// What a batch on the lake of the folder comes to, whose keeper fails at these calls, and has no pairs.
fn run_fresh<R: Threads + Wait + Sync>(
    rt: &R,
    alloc: Global,
    input: &str,
    fails: Vec<KeeperFail>,
) -> Result<Came, Fail> {
    let mut host = MemoryHost::new(alloc, Vec::new(alloc));
    let keeper = empty_keeper(alloc, fails);
    run_in(rt, alloc, &WORDS, input, &mut host, keeper)
}

// What a batch shows that begins with a fresh lake, where no call fails.
fn shown_of<R: Threads + Wait + Sync>(rt: &R, alloc: Global, input: &str) -> Result<Vec<u8>, Fail> {
    let came = run_fresh(rt, alloc, input, Vec::new(alloc))?;
    Ok(came.out)
}

// So many of the lines that change the lake.
fn first_lines(alloc: Global, count: usize) -> Result<String, Fail> {
    let mut text = String::new(alloc);
    for line in LINES.iter().take(count) {
        text.push_str(line)?;
    }
    Ok(text)
}

// What more lines show behind the first ones, where no call fails.
fn shown_behind<R: Threads + Wait + Sync>(
    rt: &R,
    alloc: Global,
    count: usize,
    more: &str,
) -> Result<Vec<u8>, Fail> {
    let mut text = first_lines(alloc, count)?;
    let front = shown_of(rt, alloc, text.as_str())?;
    text.push_str(more)?;
    let all = shown_of(rt, alloc, text.as_str())?;
    let behind = all.as_slice().strip_prefix(front.as_slice());
    let behind = behind.ok_or("it shows something else")?;
    Ok(Vec::from_slice(alloc, behind)?)
}

// What the batch shows of which a line fails behind so many: that, the lines that are stopped, and what is read then.
fn stopped_behind<R: Threads + Wait + Sync>(
    rt: &R,
    alloc: Global,
    count: usize,
) -> Result<Vec<u8>, Fail> {
    let mut shown = shown_of(rt, alloc, first_lines(alloc, count)?.as_str())?;
    shown.extend_from_slice(b"Error: store failed [503]\n")?;
    for _ in LINES.iter().skip(count).skip(1) {
        shown.extend_from_slice(b"Error: store stopped [503]\n")?;
    }
    shown.extend_from_slice(shown_behind(rt, alloc, count, CATS)?.as_slice())?;
    Ok(shown)
}

// The call that fails, whether its puts land, behind how many lines that is, and how many the lake has then.
static STOPS: [(u64, bool, usize, usize); 16] = [
    (2, false, 0, 0),
    (2, true, 0, 0),
    (3, false, 0, 0),
    (3, true, 0, 1),
    (4, false, 1, 1),
    (4, true, 1, 1),
    (5, false, 1, 1),
    (5, true, 1, 2),
    (6, false, 2, 2),
    (6, true, 2, 2),
    (7, false, 2, 2),
    (7, true, 2, 3),
    (8, false, 3, 3),
    (8, true, 3, 3),
    (9, false, 3, 3),
    (9, true, 3, 4),
];

// The lines that change the lake, and then what was uploaded.
fn all_lines(alloc: Global) -> Result<String, Fail> {
    let mut text = first_lines(alloc, LINES.len())?;
    text.push_str(CATS)?;
    Ok(text)
}

// What the batch comes to where a call fails.
fn run_failing<R: Threads + Wait + Sync>(
    rt: &R,
    alloc: Global,
    call: u64,
    lands: bool,
) -> Result<Came, Fail> {
    let fails = Vec::from_slice(alloc, &[KeeperFail::Put { call, lands }])?;
    run_fresh(rt, alloc, all_lines(alloc)?.as_str(), fails)
}

// What the lake has, opened again over the pairs of the keeper that was given back.
fn listed_again<R: Threads + Wait + Sync>(
    rt: &R,
    alloc: Global,
    came: Came,
) -> Result<Vec<u8>, Fail> {
    let mut host = MemoryHost::new(alloc, Vec::new(alloc));
    let keeper = sound_keeper(alloc, came)?;
    let again = run_in(rt, alloc, &WORDS, LISTS, &mut host, keeper)?;
    if again.status != 0 {
        return Err("it isn't listed")?;
    }
    Ok(again.out)
}

#[test]
fn a_lake_whose_keeper_fails_has_what_was_put_before(rt: HostRuntime) -> Result<(), Fail> {
    let alloc = rt.alloc();
    for (call, lands, fine, found) in &STOPS {
        let came = run_failing(&rt, alloc, *call, *lands)?;
        let shown = stopped_behind(&rt, alloc, *fine)?;
        assert_eq!(rt; came.out.as_slice(), shown.as_slice(), "at call {call}");
        assert_eq!(rt; came.status, 1, "at call {call}");
        assert_eq!(rt; came.stores, 1, "at call {call}");
        let due = shown_behind(&rt, alloc, *found, LISTS)?;
        let listed = listed_again(&rt, alloc, came)?;
        assert_eq!(rt; listed.as_slice(), due.as_slice(), "at call {call}");
    }
    Ok(())
}

#[test]
fn a_fresh_lake_whose_pairs_are_not_put_fails(rt: HostRuntime) -> Result<(), Fail> {
    let alloc = rt.alloc();
    let due = shown_behind(&rt, alloc, 0, LISTS)?;
    for lands in [false, true] {
        let came = run_failing(&rt, alloc, 1, lands)?;
        assert!(rt; came.out.is_empty());
        assert_eq!(rt; came.status, 5);
        assert_eq!(rt; came.stores, 0);
        let listed = listed_again(&rt, alloc, came)?;
        assert_eq!(rt; listed.as_slice(), due.as_slice());
    }
    Ok(())
}

#[test]
fn the_batch_makes_nine_calls(rt: HostRuntime) -> Result<(), Fail> {
    let alloc = rt.alloc();
    let came = run_failing(&rt, alloc, 10, false)?;
    assert_eq!(rt; came.status, 0);
    assert!(rt; came.out.as_slice().ends_with(b"onetwooneone"));
    Ok(())
}
