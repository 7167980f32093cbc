//! Changes and maps, written as `a1 b2`: a path with the size of its entry, or with a dash where it is deleted. And
//! counts under names.
use byte_map::ByteMap;
use lake_base::RefName;
use std::alloc::Global;
use std::test::Fail;
use test_values::{changes, changes_told, key_map, map_told, ref_name};

// A map, changes, the map after them, and where that differs from the map before.
static APPLIED: [[&str; 4]; 4] = [
    ["", "", "", ""],
    ["a1 b2", "b4 ab3 a-", "ab3 b4", "a- ab3 b4"],
    ["b1", "a- c2", "b1 c2", "c2"],
    ["a1 b2", "a1", "a1 b2", ""],
];

#[test]
fn changes_are_applied_and_found_again(rt: HostRuntime) -> Result<(), Fail> {
    let alloc = rt.alloc();
    for [old, changed, new, apart] in &APPLIED {
        let old = key_map(alloc, old)?;
        let map = old.apply(alloc, &changes(alloc, changed)?)?;
        assert_eq!(rt; map_told(alloc, &map)?.as_str(), *new);
        assert_eq!(rt;
            changes_told(alloc, &map.differences(alloc, &old)?)?.as_str(),
            *apart
        );
    }
    Ok(())
}

// New changes, old ones, and both with the new ones on top.
static OVER: [[&str; 3]; 4] = [
    ["", "b1 aa1", "aa1 b1"],
    ["b2 c-", "a1 b1", "a1 b2 c-"],
    ["b-", "b1 c1", "b- c1"],
    ["a1 a2", "", "a2"],
];

#[test]
fn newer_changes_stand_over_older_ones(rt: HostRuntime) -> Result<(), Fail> {
    let alloc = rt.alloc();
    for [new, old, both] in &OVER {
        let over = changes(alloc, new)?.over(alloc, &changes(alloc, old)?)?;
        assert_eq!(rt; changes_told(alloc, &over)?.as_str(), *both);
    }
    Ok(())
}

// A name, the count to put under it, where it isn't to be taken out, and what is then there.
static COUNTS: [(&str, Option<u64>, &str); 5] = [
    ("main", Some(1), "main=1 "),
    ("dev", Some(2), "dev=2 main=1 "),
    ("Main", Some(3), "Main=3 dev=2 main=1 "),
    ("dev", Some(4), "Main=3 dev=4 main=1 "),
    ("Main", None, "dev=4 main=1 "),
];

// What is told of counts after one is put or taken out.
fn counts_told(
    alloc: Global,
    counts: &mut ByteMap<RefName, u64>,
    name: RefName,
    count: Option<u64>,
) -> Result<String, Fail> {
    match count {
        Some(count) => counts.insert(name, count)?,
        None => {
            let _had = counts.remove(&name);
        }
    }
    let mut told = String::new(alloc);
    for (name, count) in counts.iter() {
        told.push_str(format!(in alloc; "{}={count} ", name.as_str())?.as_str())?;
    }
    Ok(told)
}

#[test]
fn names_stand_in_byte_order(rt: HostRuntime) -> Result<(), Fail> {
    let alloc = rt.alloc();
    let mut counts = ByteMap::new(alloc);
    for (name, count, due) in &COUNTS {
        let name = ref_name(alloc, name)?;
        assert_eq!(rt;
            counts_told(alloc, &mut counts, name, *count)?.as_str(),
            *due
        );
    }
    Ok(())
}
