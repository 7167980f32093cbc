//! Graphs of commits that are told by their numbers. Their ids, and so which of two is the least, are those of another
//! program.
use commit_graph::{CommitId, Graph, GraphFault};
use lake_base::{Digest, TryCopy};
use lake_values::CommitRecord;
use std::alloc::Global;
use std::test::Fail;
use test_values::record;

// Commits by generation, date and the numbers of their parents. Of the merges 3 and 4 the ids of both parents are told.
static COMMITS: [(u64, u64, &[usize]); 8] = [
    (1, 0, &[]),
    (2, 1, &[0]),
    (2, 2, &[0]),
    (3, 3, &[1, 2]),
    (3, 4, &[2, 1]),
    (1, 5, &[]),
    (3, 0, &[2]),
    (4, 9, &[6]),
];

// The commit of these, where the numbers are those of these ids; a parent of another number has an id of zeros.
fn commit(
    alloc: Global,
    ids: &[CommitId],
    generation: u64,
    date: u64,
    numbers: &[usize],
) -> Result<CommitRecord, Fail> {
    let mut parents = Vec::new(alloc);
    for number in numbers {
        parents.push(ids.get(*number).copied().unwrap_or(Digest([0; 32])))?;
    }
    record(alloc, Digest([0; 32]), generation, date, parents)
}

// The graph of the commits, and their ids.
fn grown(alloc: Global) -> Result<(Graph, Vec<CommitId>), Fail> {
    let mut graph = Graph::new(alloc);
    let mut ids = Vec::new(alloc);
    for (generation, date, parents) in &COMMITS {
        let commit = commit(alloc, ids.as_slice(), *generation, *date, parents)?;
        ids.push(graph.add(alloc, commit)?)?;
    }
    Ok((graph.copy(alloc)?, ids))
}

// The numbers of some of the ids.
fn numbers(alloc: Global, ids: &[CommitId], some: &[CommitId]) -> Result<Vec<usize>, Fail> {
    let mut numbers = Vec::new(alloc);
    for id in some {
        let number = ids.iter().position(|other| other == id);
        numbers.push(number.ok_or("another id")?)?;
    }
    Ok(numbers)
}

// A commit's merge base with another one, and the walk of its first parents.
static BASES: [(usize, usize, &[usize], &[usize]); 4] = [
    (1, 2, &[0], &[1, 0]),
    (4, 3, &[2], &[4, 2, 0]),
    (3, 0, &[0], &[3, 1, 0]),
    (5, 3, &[], &[5]),
];

// The numbers of the merge base of two commits, where they have one.
fn base(
    alloc: Global,
    graph: &Graph,
    ids: &[CommitId],
    a: &CommitId,
    b: &CommitId,
) -> Result<Vec<usize>, Fail> {
    graph.get(a).ok_or("absent")?;
    graph.get(b).ok_or("absent")?;
    match graph.base(alloc, a, b)? {
        Some(base) => numbers(alloc, ids, &[base]),
        None => Ok(Vec::new(alloc)),
    }
}

#[test]
fn commits_have_bases_and_first_parents(rt: HostRuntime) -> Result<(), Fail> {
    let alloc = rt.alloc();
    let (graph, ids) = grown(alloc)?;
    let ids = ids.as_slice();
    for (a, b, due, walk) in &BASES {
        let (a, b) = (ids.get(*a).ok_or("absent")?, ids.get(*b).ok_or("absent")?);
        assert!(rt; base(alloc, &graph, ids, a, b)?.as_slice() == *due);
        let parents = graph.first_parents(alloc, a)?;
        assert!(rt; numbers(alloc, ids, parents.as_slice())?.as_slice() == *walk);
    }
    Ok(())
}

// A page: from, after, since, the most commits; the commits on it, and whether there are more.
type Row = (
    usize,
    Option<usize>,
    Option<u64>,
    usize,
    &'static [usize],
    bool,
);

static PAGES: [Row; 5] = [
    (3, None, None, 9, &[3, 2, 1, 0], false),
    (3, Some(2), None, 1, &[1], true),
    (3, None, None, 0, &[], true),
    (7, None, Some(2), 9, &[7, 2], false),
    (2, Some(3), None, 9, &[2, 0], false),
];

// Whether the log has this page.
fn is_page(alloc: Global, graph: &Graph, ids: &[CommitId], row: &Row) -> Result<bool, Fail> {
    let (from, after, since, amount, due, has_more) = row;
    let from = ids.get(*from).ok_or("absent")?;
    graph.get(from).ok_or("absent")?;
    let page = match after {
        Some(number) => {
            let after = ids.get(*number).ok_or("absent")?;
            graph.get(after).ok_or("absent")?;
            graph.log(alloc, from, Some(after), *since, *amount)?
        }
        None => graph.log(alloc, from, None, *since, *amount)?,
    };
    let found = numbers(alloc, ids, page.ids.as_slice())?;
    Ok(found.as_slice() == *due && page.has_more == *has_more)
}

#[test]
fn logs_have_their_pages(rt: HostRuntime) -> Result<(), Fail> {
    let (graph, ids) = grown(rt.alloc())?;
    for row in &PAGES {
        assert!(rt; is_page(rt.alloc(), &graph, ids.as_slice(), row)?);
    }
    Ok(())
}

// Commits that join a graph, and what is told of it.
static JOINS: [(u64, u64, &[usize], &str); 4] = [
    (3, 3, &[1, 2], "it joins"),
    (2, 0, &[8], "a parent is missing"),
    (2, 0, &[1, 3], "generation 2 where 4 is due"),
    (2, 0, &[], "generation 2 where 1 is due"),
];

// What is told of a commit that was to join.
fn told(alloc: Global, joined: Result<CommitId, GraphFault>) -> Result<String, Fail> {
    match joined {
        Ok(_) => Ok(String::from_str(alloc, "it joins")?),
        Err(fault) => Ok(format!(in alloc; "{fault}")?),
    }
}

#[test]
fn commits_join_where_they_are_due(rt: HostRuntime) -> Result<(), Fail> {
    let alloc = rt.alloc();
    let (mut graph, ids) = grown(alloc)?;
    for (generation, date, parents, due) in &JOINS {
        let commit = commit(alloc, ids.as_slice(), *generation, *date, parents)?;
        let joined = graph.add(alloc, commit);
        assert_eq!(rt; told(alloc, joined)?.as_str(), *due);
    }
    assert_eq!(rt; graph.len(), COMMITS.len());
    Ok(())
}

// The last two of 30 generations of merges that cross, each of both commits before, with more than 10^9 ways back.
fn crossed(alloc: Global, graph: &mut Graph) -> Result<[CommitId; 2], Fail> {
    let root = graph.add(alloc, commit(alloc, &[], 1, 0, &[])?)?;
    let mut pair = [root, root];
    for generation in 2..33 {
        let numbers: &[usize] = if generation == 2 { &[0] } else { &[0, 1] };
        let left = graph.add(alloc, commit(alloc, &pair, generation, 1, numbers)?)?;
        let right = graph.add(alloc, commit(alloc, &pair, generation, 2, numbers)?)?;
        pair = [left, right];
    }
    Ok(pair)
}

#[test]
fn merges_that_cross_take_no_long_time(rt: HostRuntime) -> Result<(), Fail> {
    let alloc = rt.alloc();
    let mut graph = Graph::new(alloc);
    let [left, right] = crossed(alloc, &mut graph)?;
    graph.get(&left).ok_or("absent")?;
    graph.get(&right).ok_or("absent")?;
    let base = graph.base(alloc, &left, &right)?.ok_or("no base")?;
    let commit = graph.get(&base).ok_or("absent")?;
    assert_eq!(rt; commit.generation, 31);
    let page = graph.log(alloc, &left, None, None, 99)?;
    assert_eq!(rt; page.ids.as_slice().len(), 62);
    Ok(())
}
