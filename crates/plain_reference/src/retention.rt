//! Which commits the rules of retention keep, plainly and slowly: what tests and readers hold a faster
//! collection against.
//!
//! As an example, `main` stands at C2, whose first parent is C1, whose first parent is the first commit. They
//! are dated 1,100,000, 1,000,000 and 0; the rule is one day, and now is 1,300,000, so that the cutoff is
//! 1,213,600. C2 is kept as a head. C1 follows C2, which is dated before the cutoff, and isn't kept; nor is the
//! first commit, which follows C1. Had C2 been dated 1,213,600, C1 would be kept, whatever its own date.
ghost use Rattle.std.specs.Prelude.{◌≡◌, ◌↔◌, ◌≤◌, ℕ, List, Option, length, IsTrue, IfOk, OnOk, OnErr, MatchOption};
ghost use Rattle.std.specs.Prelude.{Some, option_copied};
ghost use Rattle.std.specs.List.{Contains, insert};
ghost use Rattle.std.specs.List.Sorted.{IsStrictlySortedBy};
ghost use Rattle.lake_values.specs.Ancestry.{Graph, graph_of, IsGraph, id_order};
ghost use Rattle.lake_values.specs.Retention.{cutoff, days_of, IsHead, IsFollower, IsFollowed, IsYoung, IsKept};
ghost use Rattle.lake_values.specs.Retention.{IsKeptBy, kept_ids};
ghost use Rattle.lake_values.specs.Settings.{RulesValue};
ghost use Rattle.lake_base.specs.declared.digest.Digest.{Digest as Id};
ghost use Rattle.plain_reference.specs.OrderSteps.{with_item};

use crate::ancestry::{commit_of, date, first_parent, generation, is_on_walk};
use lake_base::names::RefName;
use lake_base::outside::NoMemory;
use lake_base::sequence::Sequence;
use lake_values::commit::{CommitId, CommitRecord};
use lake_values::retention::{cutoff, days_of};
use lake_values::settings::Rules;
use std::alloc::Global;
use std::cmp::Ordering;

/// Whether a commit of the graph is kept: without rules always; by rules where it is the head of a branch, or
/// tagged; or where on some branch's walk of first parents the commit that it follows has a date at or after
/// that branch's cutoff; or where it lies on no branch's walk and its own date is at or after the default
/// cutoff. An id of no commit is not kept. It takes no memory.
pub fn is_kept(
    commits: &[(CommitId, CommitRecord)],
    heads: &[(RefName, CommitId)],
    tags: &[CommitId],
    rules: Option<&Rules>,
    now: u64,
    id: &CommitId,
) -> bool
    requires { IsGraph (graph_of commits.now) }
    ensures { IsTrue result ↔ IsKept (graph_of commits.now) heads.now tags.now (option_copied rules.entry) now id.now }
{
    commit_of(commits, id).is_some()
        && match rules {
            Some(rules) => is_kept_by(commits, heads, tags, rules, now, id),
            None => true,
        }
}

/// The kept commits of the graph, in order of id: just those that `is_kept` tells.
pub fn kept(
    alloc: Global,
    commits: &[(CommitId, CommitRecord)],
    heads: &[(RefName, CommitId)],
    tags: &[CommitId],
    rules: Option<&Rules>,
    now: u64,
) -> Result<Sequence<CommitId>, NoMemory>
    requires { IsGraph (graph_of commits.now) }
    ensures { IfOk result
        (λ ids. ids ≡ kept_ids (graph_of commits.now) heads.now tags.now (option_copied rules.entry) now) }
{
    let mut kept = Vec::new(alloc);
    for (id, _) in commits {
        if is_kept(commits, heads, tags, rules, now, id) {
            put_in_order(&mut kept, id)?;
        }
    }
    Ok(Sequence::of(kept))
}

/// In a graph the list of the kept commits has just those that are kept; in any graph its ids strictly ascend
/// as bytes. (A law: it does nothing.)
pub fn law_of_kept()
    ensures all { (graph : Graph) (heads : List (List ℕ × Id)) (tags : List Id) (rules : Option RulesValue)
        (now : ℕ) (id : Id)
        → IsGraph graph → Contains (kept_ids graph heads tags rules now) id ↔ IsKept graph heads tags rules now id }
    ensures order { (graph : Graph) (heads : List (List ℕ × Id)) (tags : List Id) (rules : Option RulesValue) (now : ℕ)
        → IsStrictlySortedBy id_order (kept_ids graph heads tags rules now) }
{}

// Puts an id in its place among ids in order, where it isn't among them.
fn put_in_order(ids: &mut Vec<CommitId>, id: &CommitId) -> Result<(), NoMemory>
    ensures put { OnOk result (ids.new.items ≡ with_item id_order id.now ids.old.items) }
    ensures unchanged { OnErr result (ids.new.items ≡ ids.old.items) }
{
    if let Some(at) = place(ids.as_slice(), id) {
        ids.insert(at, *id)?;
    }
    Ok(())
}

// Where an id goes among ids in order; none where it is among them.
fn place(ids: &[CommitId], id: &CommitId) -> Option<usize>
    ensures { MatchOption result
        (with_item id_order id.now ids.now ≡ ids.now)
        (λ at. (at ≤ length ids.now) × (with_item id_order id.now ids.now ≡ insert ids.now at id.now)) }
{
    for (at, other) in ids.iter().enumerate() {
        match id.0.as_slice().cmp(other.0.as_slice()) {
            Ordering::Less => return Some(at),
            Ordering::Equal => return None,
            Ordering::Greater => {}
        }
    }
    Some(ids.len())
}

// Whether the rules keep it, where it is a commit.
fn is_kept_by(
    commits: &[(CommitId, CommitRecord)],
    heads: &[(RefName, CommitId)],
    tags: &[CommitId],
    rules: &Rules,
    now: u64,
    id: &CommitId,
) -> bool
    requires { IsGraph (graph_of commits.now) }
    ensures { IsTrue result ↔ IsKeptBy (graph_of commits.now) heads.now tags.now (Some rules.now) now id.now }
{
    is_head(heads, id)
        || is_among(tags, id)
        || is_followed(commits, heads, rules, now, id)
        || is_young(commits, heads, rules, now, id)
}

// Whether it is the head of a branch.
fn is_head(heads: &[(RefName, CommitId)], id: &CommitId) -> bool
    ensures { IsTrue result ↔ IsHead heads.now id.now }
{
    for (_, head) in heads {
        if head.0.as_slice() == id.0.as_slice() {
            return true;
        }
    }
    false
}

// Whether it is one of these.
fn is_among(ids: &[CommitId], id: &CommitId) -> bool
    ensures { IsTrue result ↔ Contains ids.now id.now }
{
    ids.iter()
        .any(|other| other.0.as_slice() == id.0.as_slice())
}

// Whether on some branch's walk it follows a commit dated at or after that branch's cutoff.
fn is_followed(
    commits: &[(CommitId, CommitRecord)],
    heads: &[(RefName, CommitId)],
    rules: &Rules,
    now: u64,
    id: &CommitId,
) -> bool
    requires { IsGraph (graph_of commits.now) }
    ensures { IsTrue result ↔ IsFollowed (graph_of commits.now) heads.now rules.now now id.now }
{
    for (branch, head) in heads {
        if is_follower(commits, head, cutoff(now, days_of(rules, branch)), id) {
            return true;
        }
    }
    false
}

// Whether on the walk from this head it follows a commit dated at or after the limit.
fn is_follower(
    commits: &[(CommitId, CommitRecord)],
    head: &CommitId,
    limit: u64,
    id: &CommitId,
) -> bool
    requires { IsGraph (graph_of commits.now) }
    ensures { IsTrue result ↔ IsFollower (graph_of commits.now) head.now limit id.now }
{
    if commit_of(commits, head).is_none() {
        return false;
    }
    let mut at = *head;
    for _ in 0..generation(commits, head) {
        let Some(parent) = first_parent(commits, &at) else {
            return false;
        };
        if parent.0.as_slice() == id.0.as_slice() && limit <= date(commits, &at) {
            return true;
        }
        at = parent;
    }
    false
}

// Whether it lies on no branch's walk, and is itself dated at or after the default cutoff.
fn is_young(
    commits: &[(CommitId, CommitRecord)],
    heads: &[(RefName, CommitId)],
    rules: &Rules,
    now: u64,
    id: &CommitId,
) -> bool
    requires { IsGraph (graph_of commits.now) }
    ensures { IsTrue result ↔ IsYoung (graph_of commits.now) heads.now rules.now now id.now }
{
    for (_, head) in heads {
        if is_on_walk(commits, head, id) {
            return false;
        }
    }
    cutoff(now, rules.default_days) <= date(commits, id)
}
