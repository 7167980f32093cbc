//! Which ranges of a tree are found to be those of the tree that it was made from. Where one is not found, no clause
//! says so, and its file is looked for. Rows have 67 bytes each, and a range has at most two.
use crate::trees::cut;
use lake_values::{Changes, KeyMap};
use meta_range::{Provenance, Tree};
use std::alloc::Global;
use std::test::Fail;
use test_values::{changes, key_map};

// A map, changes of it, and of each range of the tree after them whether it is found to be one of the tree before.
static CHANGES: [(&str, &str, &[bool]); 4] = [
    ("a1 b1 c1 d1 e1 f1", "", &[true, true, true]),
    (
        "a1 b1 c1 d1 e1 f1",
        "a2 d2 g1",
        &[false, false, true, false],
    ),
    ("b1 c1 d1 e1", "a1", &[false, false, false]),
    ("", "a1", &[false]),
];

// Of each range of the tree after the changes, whether it is found.
fn found(alloc: Global, map: &KeyMap, changes: &Changes) -> Result<Vec<bool>, Fail> {
    let old = Tree::build(alloc, map, &cut(134))?;
    let tree = Tree::build(alloc, &map.apply(alloc, changes)?, &cut(134))?;
    let provenance = Provenance::Changed { old: &old, changes };
    let mut found = Vec::new(alloc);
    for place in 1..=tree.range_count() {
        found.push(provenance.has_range(&tree, place))?;
    }
    Ok(found)
}

#[test]
fn ranges_that_did_not_change_are_found(rt: HostRuntime) -> Result<(), Fail> {
    let alloc = rt.alloc();
    for (map, put, due) in &CHANGES {
        let found = found(alloc, &key_map(alloc, map)?, &changes(alloc, put)?)?;
        assert!(rt; found.as_slice() == *due, "{put}");
    }
    Ok(())
}
