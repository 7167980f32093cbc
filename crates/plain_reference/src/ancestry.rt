//! Commit graphs, plainly and slowly: what tests and readers hold a faster one against.
//!
//! A graph is given as a list of commits by their ids. As an example, a first commit R; X and Y with the parent
//! R; M with the parents X and Y, and N with the parents Y and X:
//!
//! ```text
//!            X --- M        generations: R 1, X and Y 2, M and N 3
//!          /   \ /          ancestors of M: M, X, Y, R
//!        R      x           base of M and N: X or Y, whichever id is less as bytes
//!          \   / \          base of R and M: R
//!            Y --- N        first parents back from M: M, X, R
//! ```
ghost use Rattle.std.specs.Prelude.{◌≡◌, ◌↔◌, ◌+◌, ◌<◌, ◌≤◌, ◌^◌, ℕ, length, slice_get, IsSome, IsTrue, Some, None};
ghost use Rattle.std.specs.Prelude.{IfOk, OnOk, OnErr, MatchOption, option_copied};
ghost use Rattle.std.specs.List.{Contains, insert};
ghost use Rattle.std.specs.List.Sorted.{IsStrictlySortedBy};
ghost use Rattle.lake_values.specs.Ancestry.{Graph, graph_of, commit_of, id_order, ids, parents, generation, date};
ghost use Rattle.lake_values.specs.Ancestry.{due_generation, IsGraph, IsDue, Reaches, IsReachedWithin, IsAncestor};
ghost use Rattle.lake_values.specs.Ancestry.{IsCommon, is_ancestor, log_order, comes_first, ancestors_in_order, base};
ghost use Rattle.lake_values.specs.Ancestry.{IsBase, back, first_parent, IsOnWalk, walk};
ghost use Rattle.plain_reference.specs.AncestrySteps.{first_of};
ghost use Rattle.plain_reference.specs.OrderSteps.{with_item};
ghost use Rattle.lake_base.specs.declared.digest.Digest.{Digest as Id};

use lake_base::outside::NoMemory;
use lake_base::sequence::Sequence;
use lake_values::commit::{CommitId, CommitRecord};
use std::alloc::Global;
use std::cmp::Ordering;

/// The commit of an id; where the id stands twice, its first. It takes no memory.
pub fn commit_of<'a>(
    commits: &'a [(CommitId, CommitRecord)],
    id: &CommitId,
) -> Option<&'a CommitRecord>
    ensures { option_copied result ≡ commit_of (graph_of commits.now) id.now }
{
    for (other, commit) in commits {
        if other.0.as_slice() == id.0.as_slice() {
            return Some(commit);
        }
    }
    None
}

/// Whether every parent is there, and every generation is the one due: 1 plus the greatest of its parents',
/// and 1 without parents. It takes no memory.
pub fn is_graph(commits: &[(CommitId, CommitRecord)]) -> bool
    ensures { IsTrue result ↔ IsGraph (graph_of commits.now) }
{
    commits.iter().all(|(id, _)| is_due(commits, id))
}

/// Whether a commit is an ancestor of another: reached by parents in any number of steps, none included.
/// It looks at each way back, so a graph of many merges takes it very long. It takes no memory.
pub fn is_ancestor(commits: &[(CommitId, CommitRecord)], old: &CommitId, id: &CommitId) -> bool
    requires { IsGraph (graph_of commits.now) }
    ensures { IsTrue result ↔ IsAncestor (graph_of commits.now) old.now id.now }
{
    commit_of(commits, old).is_some() && is_reached(commits, old, id, generation(commits, id))
}

/// The ancestors of a commit, each once, in the order of the log: greatest generation first, ties by least id as
/// bytes.
pub fn ancestors(
    alloc: Global,
    commits: &[(CommitId, CommitRecord)],
    id: &CommitId,
) -> Result<Sequence<CommitId>, NoMemory>
    requires { IsGraph (graph_of commits.now) }
    ensures { IfOk result (λ ids. ids ≡ ancestors_in_order (graph_of commits.now) id.now) }
{
    let mut ancestors = Vec::new(alloc);
    for (old, _) in commits {
        if is_ancestor(commits, old, id) {
            put_in_log(commits, &mut ancestors, old)?;
        }
    }
    Ok(Sequence::of(ancestors))
}

/// The merge base of two commits: of the common ancestors the one of greatest generation, of these the least
/// id as bytes. None exactly where they have no common ancestor. It looks at each way back for each commit, so
/// a graph of many merges takes it very long. It takes no memory.
pub fn base(commits: &[(CommitId, CommitRecord)], a: &CommitId, b: &CommitId) -> Option<CommitId>
    requires { IsGraph (graph_of commits.now) }
    ensures { result ≡ base (graph_of commits.now) a.now b.now }
{
    let mut best = None;
    for (id, _) in commits {
        if is_common(commits, id, a, b) {
            best = Some(first_of(commits, best, id));
        }
    }
    best
}

/// So many first parents back from a commit, as `~n`. None where the walk ends before, and where the id is of
/// no commit. In a graph, as `is_graph` tests it, what is answered is a commit. It takes no memory.
pub fn back(commits: &[(CommitId, CommitRecord)], steps: u64, id: &CommitId) -> Option<CommitId>
    ensures { result ≡ back (graph_of commits.now) steps id.now }
{
    commit_of(commits, id)?;
    let mut at = *id;
    for _ in 0..steps {
        at = first_parent(commits, &at)?;
    }
    Some(at)
}

/// Whether a commit lies on the walk of first parents from a head. It takes no memory.
pub fn is_on_walk(commits: &[(CommitId, CommitRecord)], head: &CommitId, id: &CommitId) -> bool
    requires { IsGraph (graph_of commits.now) }
    ensures { IsTrue result ↔ IsOnWalk (graph_of commits.now) head.now id.now }
{
    if commit_of(commits, head).is_none() {
        return false;
    }
    let mut at = *head;
    for _ in 0..generation(commits, head) {
        if at.0.as_slice() == id.0.as_slice() {
            return true;
        }
        match first_parent(commits, &at) {
            Some(parent) => at = parent,
            None => return false,
        }
    }
    at.0.as_slice() == id.0.as_slice()
}

/// In a graph a parent is of lesser generation than its child; a commit that reaches another in so many steps
/// stands at least so many generations above it; and what is reached in at least one step is of lesser
/// generation. So none of greater generation is reached from one of less. (A law: it does nothing.)
pub fn law_of_generations()
    ensures parents { (graph : Graph) (id parent : Id) → IsGraph graph
        → Contains (parents graph id) parent → generation graph parent < generation graph id }
    ensures steps { (graph : Graph) (steps : ℕ) (id old : Id) → IsGraph graph
        → Reaches graph steps id old → steps + generation graph old ≤ generation graph id }
    ensures lesser { (graph : Graph) (steps : ℕ) (id old : Id) → IsGraph graph
        → 1 ≤ steps → Reaches graph steps id old → generation graph old < generation graph id }
{}

/// In a graph the test of ancestors tells what an ancestor is, and the list of a commit's ancestors has just
/// these; in any graph it strictly ascends in the order of the log. (A law: it does nothing.)
pub fn law_of_ancestors()
    ensures test { (graph : Graph) (old id : Id) → IsGraph graph
        → IsTrue (is_ancestor graph old id) ↔ IsAncestor graph old id }
    ensures all { (graph : Graph) (id old : Id) → IsGraph graph
        → Contains (ancestors_in_order graph id) old ↔ IsAncestor graph old id }
    ensures order { (graph : Graph) (id : Id) → IsStrictlySortedBy (log_order graph) (ancestors_in_order graph id) }
{}

/// In a graph the base of two commits is the one that is meant: the common ancestor that comes first in the
/// log. There is none exactly where no commit is an ancestor of both. (A law: it does nothing.)
pub fn law_of_bases()
    ensures some { (graph : Graph) (a b c : Id) → IsGraph graph
        → (base graph a b ≡ Some c) ↔ IsBase graph a b c }
    ensures none { (graph : Graph) (a b : Id) → IsGraph graph
        → (base graph a b ≡ None) ↔ ((id : Id) → IsCommon graph a b id → ⊥) }
{}

/// In a graph the walk of first parents from a head has just the commits that lie on it, and at each place,
/// counted from 0, the one that stands so many first parents back. (A law: it does nothing.)
pub fn law_of_walks()
    ensures all { (graph : Graph) (head id : Id) → IsGraph graph
        → Contains (walk graph head) id ↔ IsOnWalk graph head id }
    ensures places { (graph : Graph) (head : Id) (steps : ℕ) → IsGraph graph
        → slice_get (walk graph head) steps ≡ back graph steps head }
{}

/// The ids of a graph are just those of its commits, and strictly ascend as bytes. (A law: it does nothing.)
pub fn law_of_ids()
    ensures all { (graph : Graph) (id : Id) → Contains (ids graph) id ↔ IsSome (commit_of graph id) }
    ensures order { (graph : Graph) → IsStrictlySortedBy id_order (ids graph) }
{}

// Its parents; none where there is no such commit.
pub(crate) fn parents<'a>(commits: &'a [(CommitId, CommitRecord)], id: &CommitId) -> &'a [CommitId]
    ensures { result.now ≡ parents (graph_of commits.now) id.now }
{
    match commit_of(commits, id) {
        Some(commit) => commit.parents.as_slice(),
        None => &[],
    }
}

// Its first parent.
pub(crate) fn first_parent(commits: &[(CommitId, CommitRecord)], id: &CommitId) -> Option<CommitId>
    ensures { result ≡ first_parent (graph_of commits.now) id.now }
{
    parents(commits, id).first().copied()
}

// Its generation; 0 where there is no such commit.
pub(crate) fn generation(commits: &[(CommitId, CommitRecord)], id: &CommitId) -> u64
    ensures { result ≡ generation (graph_of commits.now) id.now }
{
    match commit_of(commits, id) {
        Some(commit) => commit.generation,
        None => 0,
    }
}

// Its date; 0 where there is no such commit.
pub(crate) fn date(commits: &[(CommitId, CommitRecord)], id: &CommitId) -> u64
    ensures { result ≡ date (graph_of commits.now) id.now }
{
    match commit_of(commits, id) {
        Some(commit) => commit.date,
        None => 0,
    }
}

// The generation due after these parents; none where a 64-bit number doesn't hold it.
fn due_after(commits: &[(CommitId, CommitRecord)], parents: &[CommitId]) -> Option<u64>
    ensures { MatchOption result (2 ^ 64 ≤ due_generation (graph_of commits.now) parents.now)
        (λ due. due ≡ due_generation (graph_of commits.now) parents.now) }
{
    let mut due = 1u64;
    for parent in parents {
        due = due.max(generation(commits, parent).checked_add(1)?);
    }
    Some(due)
}

// Whether its parents are there, and its generation is the one due.
fn is_due(commits: &[(CommitId, CommitRecord)], id: &CommitId) -> bool
    ensures { IsTrue result ↔ IsDue (graph_of commits.now) id.now }
{
    let parents = parents(commits, id);
    parents
        .iter()
        .all(|parent| commit_of(commits, parent).is_some())
        && due_after(commits, parents) == Some(generation(commits, id))
}

// Whether a commit is reached in at most so many steps.
fn is_reached(
    commits: &[(CommitId, CommitRecord)],
    old: &CommitId,
    id: &CommitId,
    steps: u64,
) -> bool
    ensures { IsTrue result ↔ IsReachedWithin (graph_of commits.now) steps old.now id.now }
{
    if id.0.as_slice() == old.0.as_slice() {
        return true;
    }
    if steps == 0 {
        return false;
    }
    for parent in parents(commits, id) {
        if is_reached(commits, old, parent, steps - 1) {
            return true;
        }
    }
    false
}

// Whether a commit is an ancestor of both.
fn is_common(
    commits: &[(CommitId, CommitRecord)],
    old: &CommitId,
    a: &CommitId,
    b: &CommitId,
) -> bool
    requires { IsGraph (graph_of commits.now) }
    ensures { IsTrue result ↔ IsCommon (graph_of commits.now) a.now b.now old.now }
{
    is_ancestor(commits, old, a) && is_ancestor(commits, old, b)
}

// The first of the best so far and this commit, in the order of the log.
fn first_of(commits: &[(CommitId, CommitRecord)], best: Option<CommitId>, id: &CommitId) -> CommitId
    ensures { result ≡ first_of (graph_of commits.now) best id.now }
{
    match best {
        Some(other) if !comes_first(commits, id, &other) => other,
        _ => *id,
    }
}

// Whether a commit comes before another in the log.
fn comes_first(commits: &[(CommitId, CommitRecord)], id: &CommitId, other: &CommitId) -> bool
    ensures { result ≡ comes_first (graph_of commits.now) id.now other.now }
{
    log_order(commits, id, other) == Ordering::Less
}

// The order of the log: greatest generation first, and of as great ones the least id.
fn log_order(commits: &[(CommitId, CommitRecord)], id: &CommitId, other: &CommitId) -> Ordering
    ensures { result ≡ log_order (graph_of commits.now) id.now other.now }
{
    generation(commits, other)
        .cmp(&generation(commits, id))
        .then(id.0.as_slice().cmp(other.0.as_slice()))
}

// Puts a commit in its place among commits in the order of the log, where it isn't among them.
fn put_in_log(
    commits: &[(CommitId, CommitRecord)],
    list: &mut Vec<CommitId>,
    id: &CommitId,
) -> Result<(), NoMemory>
    ensures put { OnOk result (list.new.items ≡ with_item (log_order (graph_of commits.now)) id.now list.old.items) }
    ensures unchanged { OnErr result (list.new.items ≡ list.old.items) }
{
    if let Some(at) = place_in_log(commits, list.as_slice(), id) {
        list.insert(at, *id)?;
    }
    Ok(())
}

// Where a commit goes among commits in the order of the log; none where it is among them.
fn place_in_log(
    commits: &[(CommitId, CommitRecord)],
    list: &[CommitId],
    id: &CommitId,
) -> Option<usize>
    ensures { MatchOption result
        (with_item (log_order (graph_of commits.now)) id.now list.now ≡ list.now)
        (λ at. (at ≤ length list.now)
        × (with_item (log_order (graph_of commits.now)) id.now list.now ≡ insert list.now at id.now)) }
{
    for (at, other) in list.iter().enumerate() {
        match log_order(commits, id, other) {
            Ordering::Less => return Some(at),
            Ordering::Equal => return None,
            Ordering::Greater => {}
        }
    }
    Some(list.len())
}
