//! Merges of trees. A map is written with its paths and the sizes of their entries, as `a1 b2`.
use key_merge::{MergeFault, Strategy, Trio, merge};
use meta_range::Tree;
use range_file::Cut;
use std::alloc::Global;
use std::sync::Arc;
use std::test::Fail;
use test_values::{changes_told, key_map, paths_told};

// Base, source and destination, and what is told of their merge without a strategy, where the source wins, and where
// the destination does.
type Row = [&'static str; 6];

static MERGES: [Row; 6] = [
    ["p1", "p2", "p1", "p2", "p2", "p2"],
    ["p1", "p2", "p2", "", "", ""],
    ["p1", "", "p2", "1 paths conflict: p", "p-", ""],
    ["", "p1", "p2", "1 paths conflict: p", "p1", ""],
    [
        "b1 d1 f1",
        "b1 d2 h1",
        "a1 b1 c1 d1 e1 f1 g1",
        "d2 f- h1",
        "d2 f- h1",
        "d2 f- h1",
    ],
    [
        "b1 d1 f1",
        "b2 d2 f2",
        "a1 b1 c1 d3 e1 g1",
        "2 paths conflict: d f",
        "b2 d2 f2",
        "b2",
    ],
];

// The strategies, in the order of the last three columns.
static STRATEGIES: [Strategy; 3] = [Strategy::Refuse, Strategy::SourceWins, Strategy::DestWins];

// The tree of a map, in ranges of one row where the most bytes are 1.
fn tree_of(alloc: Global, words: &str, max_bytes: u64) -> Result<Arc<Tree, Global>, Fail> {
    let modulus = 1024;
    let cut = Cut { max_bytes, modulus };
    let tree = Tree::build(alloc, &key_map(alloc, words)?, &cut)?;
    Ok(Arc::new(alloc, tree)?)
}

// The three trees of a row.
fn trio_of(alloc: Global, row: &Row, max_bytes: u64) -> Result<Trio, Fail> {
    let base = tree_of(alloc, row[0], max_bytes)?;
    let source = tree_of(alloc, row[1], max_bytes)?;
    let dest = tree_of(alloc, row[2], max_bytes)?;
    if !Trio::agrees(&base, &source, &dest) {
        return Err("the trees don't agree")?;
    }
    Ok(Trio::new(base, source, dest))
}

// The changes of a merge, or its fault with the paths that are listed.
fn told(alloc: Global, trio: &Trio, strategy: Strategy) -> Result<String, Fail> {
    match merge(alloc, trio, strategy) {
        Ok(changes) => changes_told(alloc, &changes),
        Err(fault) => {
            let text = format!(in alloc; "{fault}")?;
            let MergeFault::Conflicts { paths, .. } = fault else {
                return Ok(text);
            };
            let paths = paths_told(alloc, paths.as_slice())?;
            Ok(format!(in alloc; "{}: {}", text.as_str(), paths.as_str())?)
        }
    }
}

#[test]
fn merges_are_those_of_the_table(rt: HostRuntime) -> Result<(), Fail> {
    let alloc = rt.alloc();
    for row in &MERGES {
        for max_bytes in [1, 1048576] {
            let trio = trio_of(alloc, row, max_bytes)?;
            for (strategy, due) in STRATEGIES.iter().zip(&row[3..]) {
                assert_eq!(rt; told(alloc, &trio, *strategy)?.as_str(), *due);
            }
        }
    }
    let fault = MergeFault::NoMemory;
    assert_eq!(rt; format!(in alloc; "{fault}")?.as_str(), "out of memory");
    Ok(())
}
