//! Merges of small maps, written as `a1 b2`.
use lake_values::Strategy;
use plain_reference::merge::{base_map, conflicts, merge};
use std::alloc::Global;
use std::test::Fail;
use test_values::{key_map, map_told, paths_told};

// Base, source, destination, the merged map where the source wins and where the destination does, and the paths that
// conflict. At `p` the three are equal, different and not there in all fifteen ways.
type Row = [&'static str; 6];

static MERGES: [Row; 17] = [
    ["", "", "", "", "", ""],
    ["", "", "p1", "p1", "p1", ""],
    ["", "p1", "", "p1", "p1", ""],
    ["", "p1", "p1", "p1", "p1", ""],
    ["", "p1", "p2", "p1", "p2", "p"],
    ["p1", "", "", "", "", ""],
    ["p1", "", "p1", "", "", ""],
    ["p1", "", "p2", "", "p2", "p"],
    ["p1", "p1", "", "", "", ""],
    ["p1", "p1", "p1", "p1", "p1", ""],
    ["p1", "p1", "p2", "p2", "p2", ""],
    ["p1", "p2", "", "p2", "", "p"],
    ["p1", "p2", "p1", "p2", "p2", ""],
    ["p1", "p2", "p2", "p2", "p2", ""],
    ["p1", "p2", "p3", "p2", "p3", "p"],
    [
        "a1 c1 Zz1",
        "a2 c2 Zz2",
        "a3 c1 Zz3",
        "Zz2 a2 c2",
        "Zz3 a3 c2",
        "Zz a",
    ],
    ["b1", "a1 b1", "b1 c1", "a1 b1 c1", "a1 b1 c1", ""],
];

fn merge_told(alloc: Global, row: &Row, strategy: Strategy) -> Result<String, Fail> {
    let (base, source) = (key_map(alloc, row[0])?, key_map(alloc, row[1])?);
    let dest = key_map(alloc, row[2])?;
    match merge(alloc, &base, &source, &dest, strategy)? {
        Some(merged) => map_told(alloc, &merged),
        None => Ok(String::from_str(alloc, "refused")?),
    }
}

fn conflicts_told(alloc: Global, row: &Row) -> Result<String, Fail> {
    let (base, source) = (key_map(alloc, row[0])?, key_map(alloc, row[1])?);
    let dest = key_map(alloc, row[2])?;
    let paths = conflicts(alloc, &base, &source, &dest)?;
    paths_told(alloc, paths.as_slice())
}

#[test]
fn merges_are_those_of_the_table(rt: HostRuntime) -> Result<(), Fail> {
    let alloc = rt.alloc();
    for row in &MERGES {
        let clean = if row[5].is_empty() { row[3] } else { "refused" };
        assert_eq!(rt; conflicts_told(alloc, row)?.as_str(), row[5]);
        assert_eq!(rt; merge_told(alloc, row, Strategy::Refuse)?.as_str(), clean);
        assert_eq!(rt;
            merge_told(alloc, row, Strategy::SourceWins)?.as_str(),
            row[3]
        );
        assert_eq!(rt;
            merge_told(alloc, row, Strategy::DestWins)?.as_str(),
            row[4]
        );
    }
    Ok(())
}

#[test]
fn no_common_ancestor_is_an_empty_base(rt: HostRuntime) -> Result<(), Fail> {
    let alloc = rt.alloc();
    let map = key_map(alloc, "a1 b2")?;
    assert_eq!(rt; base_map(alloc, None)?.len(), 0);
    assert_eq!(rt;
        map_told(alloc, &base_map(alloc, Some(&map))?)?.as_str(),
        "a1 b2"
    );
    Ok(())
}
