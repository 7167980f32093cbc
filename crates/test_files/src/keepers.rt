//! Keepers in memory. Pairs and puts are written with their keys and values, of one byte each, as `a1 b2`, and a put of
//! nothing with a dash, as `a-`.
use keeper::{Keeper, KeeperFail, MemoryKeeper, Pair, Put, SureKeeper, are_ascending};
use lake_base::{Sequence, Trouble, TryCopy};
use std::alloc::Global;
use std::test::Fail;

fn bytes_of(alloc: Global, bytes: &[u8]) -> Result<Sequence<u8>, Fail> {
    Ok(Sequence::of(Vec::from_slice(alloc, bytes)?))
}

// The puts of these words.
fn puts_of(alloc: Global, words: &str) -> Result<Vec<Put>, Fail> {
    let mut puts = Vec::new(alloc);
    for word in words.split_whitespace() {
        let [key @ .., value] = word.as_bytes() else {
            return Err("a put has a key and a value")?;
        };
        let key = bytes_of(alloc, key)?;
        let value = match value {
            b'-' => None,
            value => Some(bytes_of(alloc, &[*value])?),
        };
        puts.push(Put { key, value }.copy(alloc)?)?;
    }
    Ok(puts)
}

// The pairs `a1 b2`.
fn pairs(alloc: Global) -> Result<Vec<Pair>, Fail> {
    let mut pairs = Vec::new(alloc);
    for (key, value) in [(b"a", b"1"), (b"b", b"2")] {
        let key = bytes_of(alloc, key)?;
        let value = bytes_of(alloc, value)?;
        pairs.push(Pair { key, value })?;
    }
    Ok(pairs)
}

// The words of pairs.
fn words_of(alloc: Global, pairs: &[Pair]) -> Result<String, Fail> {
    let mut words = String::new(alloc);
    for pair in pairs {
        for byte in pair.key.as_slice().iter().chain(pair.value.as_slice()) {
            words.push(char::from(*byte))?;
        }
        words.push(' ')?;
    }
    Ok(words)
}

fn trouble_told(alloc: Global, trouble: Trouble) -> Result<String, Fail> {
    match trouble {
        Trouble::Failed => Ok(String::from_str(alloc, "failed")?),
        Trouble::NoMemory => Ok(String::from_str(alloc, "no memory")?),
    }
}

// What a keeper answers to a step: to no word its pairs, and to others that it makes these puts.
fn told<K: Keeper>(alloc: Global, keeper: &mut K, step: &str) -> Result<String, Fail> {
    if step.is_empty() {
        return match keeper.load() {
            Ok(pairs) => words_of(alloc, pairs.as_slice()),
            Err(trouble) => trouble_told(alloc, trouble),
        };
    }
    match keeper.put_all(puts_of(alloc, step)?.as_slice()) {
        Ok(()) => Ok(String::from_str(alloc, "made")?),
        Err(trouble) => trouble_told(alloc, trouble),
    }
}

// Steps, and what is answered to them, by a keeper that never fails and by one that fails at the second and third puts,
// of which the third are made, and at the second load.
static SURE: [(&str, &str); 3] = [("", "a1 b2 "), ("a3 b- c4 a5", "made"), ("", "a5 c4 ")];

static FAILING: [(&str, &str); 7] = [
    ("a3", "made"),
    ("b-", "failed"),
    ("", "a3 b2 "),
    ("b- c4", "failed"),
    ("", "failed"),
    ("a-", "made"),
    ("", "c4 "),
];

static FAILS: [KeeperFail; 3] = [
    KeeperFail::Put {
        call: 2,
        lands: false,
    },
    KeeperFail::Put {
        call: 3,
        lands: true,
    },
    KeeperFail::Load(2),
];

#[test]
fn keepers_keep_what_is_put(rt: HostRuntime) -> Result<(), Fail> {
    let alloc = rt.alloc();
    let pairs = pairs(alloc)?;
    if !are_ascending(pairs.as_slice()) {
        return Err("the pairs don't ascend")?;
    }
    let mut keeper = SureKeeper::holding(alloc, pairs);
    for (step, due) in &SURE {
        assert_eq!(rt; told(alloc, &mut keeper, step)?.as_str(), *due);
    }
    Ok(())
}

#[test]
fn keepers_fail_where_they_are_told(rt: HostRuntime) -> Result<(), Fail> {
    let alloc = rt.alloc();
    let pairs = pairs(alloc)?;
    if !are_ascending(pairs.as_slice()) {
        return Err("the pairs don't ascend")?;
    }
    let fails = Vec::from_slice(alloc, &FAILS)?;
    let mut keeper = MemoryKeeper::new(alloc, pairs, fails);
    for (step, due) in &FAILING {
        assert_eq!(rt; told(alloc, &mut keeper, step)?.as_str(), *due);
    }
    Ok(())
}
