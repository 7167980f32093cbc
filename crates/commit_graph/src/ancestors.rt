//! The ancestors of a commit, one after the other, in the order of the log.
//!
//! The walk keeps a front: places of commits that it has come to and not passed, in the order of the log. It passes
//! the first of them, and puts its parents in, which are of less generation. So each commit is passed once. From M
//! of the example of `graph`, where X has the lesser id, the fronts are M; X and Y; Y and R; R; and nothing.
ghost use Rattle.std.specs.Prelude.{◌≡◌, drop, slice_get, IfOk, OnOk, IsSome};
ghost use Rattle.std.specs.List.{All};
ghost use Rattle.lake_values.specs.Ancestry.{IsGraph, commit_of, ancestors_in_order};
ghost use Rattle.commit_graph.specs.Fronts.{place_of, IsFront, PutsIn};

use crate::graph::Graph;
use lake_base::outside::NoMemory;
use lake_values::commit::CommitId;
use std::alloc::Global;
use std::cmp::Reverse;
use std::collections::BTreeSet;
use std::marker::Model;

// Where a commit stands in the log: those of greater generation come first, and of one generation those of less id.
type Place = (Reverse<u64>, CommitId);

/// The ancestors of a commit that are still to come, in the order of the log. Contracts see their list.
#[derive(Debug, Drop)]
pub(crate) struct Ancestors<'a> {
    graph: &'a Graph,
    // Those still to come are the ancestors of the commits at these places.
    front: BTreeSet<Place>,
}

impl<'a> Model for Ancestors<'a> {
    ghost use Rattle.std.specs.Prelude.{List};
    ghost use Rattle.lake_base.specs.declared.digest.Digest.{Digest};
    ghost use Rattle.commit_graph.specs.Fronts.{ancestors_left, IsFront};

    ghost Value = { List Digest };

    ghost view = { λ left. ancestors_left left.graph.now left.front.keys };

    ghost invariant = { λ left. IsFront left.graph.now left.front.keys };
}

impl<'a> Ancestors<'a> {
    /// All ancestors of a commit, itself the first.
    pub(crate) fn of(
        alloc: Global,
        graph: &'a Graph,
        id: &CommitId,
    ) -> Result<Ancestors<'a>, NoMemory>
        requires { IsSome (commit_of graph.now id.now) }
        ensures left { IfOk result (λ left. left ≡ ancestors_in_order graph.now id.now) }
        ensures due { IsGraph graph.now }
    {
        let mut front = BTreeSet::new(alloc);
        front.insert(place_of(graph, id))?;
        Ok(Ancestors { graph, front })
    }

    /// The one that comes next. None where none is left. It takes no memory.
    pub(crate) fn first(&self) -> Option<CommitId>
        ensures { result ≡ slice_get self.now 0 }
    {
        match self.front.first() {
            Some(place) => Some(place.1),
            None => None,
        }
    }

    /// Passes the one that comes next.
    pub(crate) fn pass(&mut self) -> Result<(), NoMemory>
        ensures { OnOk result (self.new ≡ drop 1 self.old) }
    {
        match self.front.pop_first() {
            Some((_, id)) => put_in(self.graph, &mut self.front, self.graph.parents(&id)),
            None => Ok(()),
        }
    }
}

// Puts the places of commits into a front.
fn put_in(graph: &Graph, front: &mut BTreeSet<Place>, ids: &[CommitId]) -> Result<(), NoMemory>
    requires { All (λ id. IsSome (commit_of graph.now id)) ids.now }
    ensures put { OnOk result (PutsIn graph.now ids.now front.old.keys front.new.keys) }
    ensures front { IsFront graph.now front.old.keys → IsFront graph.now front.new.keys }
{
    for id in ids {
        front.insert(place_of(graph, id))?;
    }
    Ok(())
}

// The place of a commit.
fn place_of(graph: &Graph, id: &CommitId) -> Place
    ensures place { result ≡ place_of graph.now id.now }
    ensures due { IsGraph graph.now }
{
    (Reverse(graph.generation(id)), *id)
}
