//! The log of a commit, and the merge base of two.
//!
//! Both are walks through ancestors in the order of the log: greatest generation first, and of one generation the
//! least id. The base of two commits is the first that both walks come to. In the example of `graph`, X and Y have
//! the base R, and the log of M, where X has the lesser id, is M, X, Y and R.
ghost use Rattle.std.specs.Prelude.{◌≡◌, ◌≢◌, ◌↔◌, ◌<◌, ◌≤◌, true, ℕ, [], ◌∷◌, length, Option, IfOk, IfSome, IsSome};
ghost use Rattle.std.specs.Prelude.{MatchOption, option_copied};
ghost use Rattle.std.specs.List.{Contains, filter};
ghost use Rattle.std.specs.List.Sorted.{IsStrictlySortedBy};
ghost use Rattle.lake_base.specs.declared.digest.Digest.{Digest as Id};
ghost use Rattle.lake_values.specs.Ancestry.{Graph as GraphValue, IsGraph, IsCommon, IsBase, commit_of, date};
ghost use Rattle.lake_values.specs.Ancestry.{log_order, base};
ghost use Rattle.lake_values.specs.Log.{IsInLog, is_after, is_since, is_in_log, log_after, log_page, log_pages};

use crate::ancestors::Ancestors;
use crate::graph::Graph;
use lake_base::outside::NoMemory;
use lake_base::sequence::Sequence;
use lake_values::commit::CommitId;
use std::alloc::Global;
use std::cmp::Ordering;
use std::marker::Model;

/// One page of a log: ids in the order of the log, each once, and whether one is left after them.
#[derive(Debug, Drop)]
pub struct LogPage {
    pub ids: Sequence<CommitId>,
    pub has_more: bool,
}

impl Model for LogPage {
    ghost use Rattle.lake_values.specs.Log.{LogPageValue};

    ghost Value = { LogPageValue };

    ghost view = { λ page. record { ids = page.ids; has_more = page.has_more } };
}

impl Graph {
    /// The merge base of two commits: of their common ancestors the one of greatest generation, of these the one of
    /// the least id. None exactly where no commit is an ancestor of both. It passes no commit that comes after the
    /// base in the log.
    pub fn base(
        &self,
        alloc: Global,
        a: &CommitId,
        b: &CommitId,
    ) -> Result<Option<CommitId>, NoMemory>
        requires a { IsSome (commit_of self.now a.now) }
        requires b { IsSome (commit_of self.now b.now) }
        ensures found { IfOk result (λ found. found ≡ base self.now a.now b.now) }
        ensures meant { IfOk result (λ found. MatchOption found
            ((id : Id) → IsCommon self.now a.now b.now id → ⊥)
            (IsBase self.now a.now b.now)) }
    {
        let mut left = Ancestors::of(alloc, self, a)?;
        let mut right = Ancestors::of(alloc, self, b)?;
        while let Some(x) = left.first() {
            let Some(y) = right.first() else {
                return Ok(None);
            };
            match self.log_order(&x, &y) {
                Ordering::Equal => return Ok(Some(x)),
                Ordering::Less => left.pass()?,
                Ordering::Greater => right.pass()?,
            }
        }
        Ok(None)
    }

    /// One page of the log of a commit: its ancestors dated at or after `since`, greatest generation first and ties
    /// by least id, at most `amount` of those that come after `after` in this order. It walks from the commit on, up
    /// to the page's end and the one after it.
    pub fn log(
        &self,
        alloc: Global,
        from: &CommitId,
        after: Option<&CommitId>,
        since: Option<u64>,
        amount: usize,
    ) -> Result<LogPage, NoMemory>
        requires from { IsSome (commit_of self.now from.now) }
        requires after { IfSome (option_copied after) (λ id. IsSome (commit_of self.now id)) }
        ensures { IfOk result (λ page. page ≡ log_page self.now from.now (option_copied after.entry) since amount) }
    {
        let mut left = Ancestors::of(alloc, self, from)?;
        let mut ids = Vec::new(alloc);
        while let Some(id) = self.next_in_log(&mut left, after, since)? {
            if ids.len() >= amount {
                return Ok(LogPage {
                    ids: Sequence::of(ids),
                    has_more: true,
                });
            }
            ids.push(id)?;
        }
        Ok(LogPage {
            ids: Sequence::of(ids),
            has_more: false,
        })
    }

    // Passes ancestors up to the next that is in a log, which is passed too.
    fn next_in_log(
        &self,
        left: &mut Ancestors<'_>,
        after: Option<&CommitId>,
        since: Option<u64>,
    ) -> Result<Option<CommitId>, NoMemory>
        ensures { IfOk result (λ found. MatchOption found
            (filter (is_in_log self.now (option_copied after.entry) since) left.old ≡ [])
            (λ id. filter (is_in_log self.now (option_copied after.entry) since) left.old
            ≡ id ∷ filter (is_in_log self.now (option_copied after.entry) since) left.new)) }
    {
        while let Some(id) = left.first() {
            left.pass()?;
            if self.is_in_log(&id, after, since) {
                return Ok(Some(id));
            }
        }
        Ok(None)
    }

    // Whether an ancestor is in a log: it comes after `after`, and is dated at or after `since`.
    fn is_in_log(&self, id: &CommitId, after: Option<&CommitId>, since: Option<u64>) -> bool
        ensures { result ≡ is_in_log self.now (option_copied after.entry) since id.now }
    {
        self.is_after(after, id) && self.is_since(since, id)
    }
    // Whether a commit comes after another in the log. Each does where there is no other.
    fn is_after(&self, other: Option<&CommitId>, id: &CommitId) -> bool
        ensures { result ≡ is_after self.now (option_copied other.entry) id.now }
    {
        match other {
            Some(other) => self.log_order(other, id).is_lt(),
            None => true,
        }
    }

    // Whether a commit is dated at or after a moment. Each is where there is no moment.
    fn is_since(&self, moment: Option<u64>, id: &CommitId) -> bool
        ensures { result ≡ is_since self.now moment id.now }
    {
        match moment {
            Some(moment) => moment <= self.date(id),
            None => true,
        }
    }

    // Which of two commits comes first in the log.
    fn log_order(&self, id: &CommitId, other: &CommitId) -> Ordering
        ensures { result ≡ log_order self.now id.now other.now }
    {
        let by_generation = self.generation(other).cmp(&self.generation(id));
        by_generation.then(id.cmp(other))
    }

    // Its date; 0 where there is no such commit.
    fn date(&self, id: &CommitId) -> u64
        ensures { result ≡ date self.now id.now }
    {
        match self.get(id) {
            Some(commit) => commit.date,
            None => 0,
        }
    }
}

/// In a graph a log has just the ancestors dated at or after the moment that come after the other commit, each once,
/// in the order of the log. Pages of an amount above 0, each taken after the last id of the one before, give all of
/// it, and a page that has more isn't empty. (A law: it does nothing.)
pub fn laws_of_logs()
    ensures all { (graph : GraphValue) (from : Id) (after : Option Id) (since : Option ℕ) (id : Id) → IsGraph graph
        → Contains (log_after graph from after since) id ↔ IsInLog graph from after since id }
    ensures order { (graph : GraphValue) (from : Id) (after : Option Id) (since : Option ℕ)
        → IsStrictlySortedBy (log_order graph) (log_after graph from after since) }
    ensures pages { (n : ℕ) (graph : GraphValue) (from : Id) (after : Option Id) (since : Option ℕ) (amount : ℕ)
        → 0 < amount
        → length (log_after graph from after since) ≤ n
        → log_pages n graph from after since amount ≡ log_after graph from after since }
    ensures more { (graph : GraphValue) (from : Id) (after : Option Id) (since : Option ℕ) (amount : ℕ) → 0 < amount
        → (log_page graph from after since amount).has_more ≡ true
        → (log_page graph from after since amount).ids ≢ [] }
{}
