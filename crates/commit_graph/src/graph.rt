//! A graph of commits.
//!
//! As an example, a first commit R; X and Y with the parent R; and M with the parents X and Y. Their generations
//! are 1, 2, 2 and 3. From M, `~` and `^` lead to X, `^2` to Y, and `~2` and `^2~` to R; `~3` leads nowhere.
ghost use Rattle.std.specs.Prelude.{◌≡◌, ◌≤◌, ◌<◌, ◌^◌, is_none, is_some, length, find, slice_get, IfOk, OnErr, IsSome};
ghost use Rattle.std.specs.Prelude.{Some, MatchOption, map, option_copied, option_map};
ghost use Rattle.std.specs.FinMap.{len, empty, entries, insert, remove};
ghost use Rattle.std.specs.Map.Iter.{ShowsInOrder, deref_pair};
ghost use Rattle.std.specs.Option.{option_and_then};
ghost use Rattle.lake_base.specs.Digest.{sha256};
ghost use Rattle.lake_base.specs.declared.digest.Digest.{Digest as AnyDigest};
ghost use Rattle.lake_format.specs.Spelling.{commit_spelling, commit_id};
ghost use Rattle.lake_values.specs.Ancestry.{graph_of, commit_of, parents, generation, due_generation, first_parent};
ghost use Rattle.lake_values.specs.Ancestry.{back, walk};
ghost use Rattle.lake_values.specs.Commit.{CommitRecordValue};
ghost use Rattle.commit_graph.specs.Graphs.{IsSound};
ghost use Rattle.commit_graph.specs.Moves.{move_target, moves_target};
ghost use Rattle.commit_graph.specs.Adding.{Refuses, missing_parent, untimely, clash, refusal};

use crate::encoding::commit_bytes;
use crate::expression::Move;
use crate::fault::GraphFault;
use lake_base::copying::TryCopy;
use lake_base::digest::Digest;
use lake_base::outside::NoMemory;
use lake_base::sequence::Sequence;
use lake_values::commit::{CommitId, CommitRecord};
use std::alloc::Global;
use std::collections::BTreeMap;
use std::collections::btree_map::Iter;
use std::marker::Model;

/// Commits by their ids: each has its parents there and the generation that is due, and its id is the SHA-256 of
/// its bytes. Contracts see the finite map from ids to commits.
#[derive(Debug, Drop)]
pub struct Graph {
    commits: BTreeMap<CommitId, CommitRecord>,
}

impl Model for Graph {
    ghost use Rattle.std.specs.FinMap as map;
    ghost use Rattle.std.specs.Coded.{coded_list, coded_ℕ};
    ghost use Rattle.lake_values.specs.contracts.commit.CommitRecord.{the_row};
    ghost use Rattle.lake_values.specs.Ancestry.{Graph as GraphValue, graph_of};
    ghost use Rattle.commit_graph.specs.Graphs.{IsSound};

    ghost Value = { GraphValue };

    ghost coded = { map.code (coded_list coded_ℕ) the_row.coded };

    ghost view = { λ graph. graph_of graph.commits.entries };

    ghost invariant = { λ graph. IsSound (graph_of graph.commits.entries) };
}

impl Graph {
    /// No commits. It takes no memory.
    pub fn new(alloc: Global) -> Graph
        ensures { result ≡ empty }
    {
        Graph {
            commits: BTreeMap::new(alloc),
        }
    }

    /// How many commits there are. It takes no memory.
    pub fn len(&self) -> usize
        ensures count { result ≡ len self.now }
        ensures valid { IsSound self.now }
    {
        self.commits.len()
    }

    /// The commit of this id. None exactly where it isn't there. It takes no memory.
    pub fn get(&self, id: &CommitId) -> Option<&CommitRecord>
        ensures found { option_copied result ≡ commit_of self.now id.now }
        ensures valid { IsSound self.now }
    {
        self.commits.get(id)
    }

    /// The commit at this place, counted from 0 in order of id. None exactly where there is no such place. It
    /// takes no memory.
    pub fn at(&self, place: usize) -> Option<(&CommitId, &CommitRecord)>
        ensures found { option_map (λ x. (x.0.now.0, x.1.now)) result
            ≡ slice_get (entries self.now) place }
        ensures valid { IsSound self.now }
    {
        self.commits.iter().nth(place)
    }

    /// All commits with their ids, in order of id, each once. It takes no memory.
    pub fn iter(&self) -> Iter<'_, CommitId, CommitRecord>
        ensures all { map (λ x. (x.0.0, x.1)) result ≡ entries self.now }
        ensures runs { ShowsInOrder (deref_pair {K = AnyDigest} {X = CommitRecordValue}) }
        ensures valid { IsSound self.now }
    {
        self.commits.iter()
    }

    // Its parents; none where there is no such commit.
    pub(crate) fn parents(&self, id: &CommitId) -> &[CommitId]
        ensures { result.now ≡ parents self.now id.now }
    {
        match self.get(id) {
            Some(commit) => commit.parents.as_slice(),
            None => &[],
        }
    }

    // Its generation; 0 where there is no such commit.
    pub(crate) fn generation(&self, id: &CommitId) -> u64
        ensures generation { result ≡ generation self.now id.now }
        ensures valid { IsSound self.now }
    {
        match self.get(id) {
            Some(commit) => commit.generation,
            None => 0,
        }
    }

    /// Puts a commit in, and answers its id: the SHA-256 of its bytes. One that is already there changes nothing.
    /// NoParent comes where a parent isn't there, Generation where its generation isn't the one due, and NameClash
    /// where a commit of its id is there that has other bytes, the first of them in this order.
    pub fn add(&mut self, alloc: Global, commit: CommitRecord) -> Result<CommitId, GraphFault>
        ensures added { IfOk result (λ id. (id ≡ commit_id commit)
            × (self.new ≡ insert self.old id.0 commit)) }
        ensures exact { Refuses result (refusal self.old commit) }
        ensures unchanged { OnErr result (self.new ≡ self.old) }
        ensures kept { commit_of self.old (commit_id commit) ≡ Some commit
            → self.new ≡ self.old }
    {
        self.test_parents(commit.parents.as_slice())?;
        self.test_generation(&commit)?;
        let new = commit_bytes(alloc, &commit)?;
        let id = Digest::of(new.as_slice());
        if let Some(kept) = self.get(&id) {
            test_bytes(alloc, id, kept, new)?;
            return Ok(id);
        }
        self.commits.insert(id, commit)?;
        Ok(id)
    }

    /// Takes a commit out, where it is there. It takes no memory.
    ///
    /// No commit may stay whose parent it is: what is left is a graph.
    pub fn remove(&mut self, id: &CommitId)
        requires { IsSound (remove self.old id.now.0) }
        ensures { self.new ≡ remove self.old id.now.0 }
    {
        let _commit = self.commits.remove(id);
    }

    /// The generation due after these parents: one more than the greatest of theirs, and 1 after none. None exactly
    /// where 64 bits don't hold it. It takes no memory.
    pub fn due_after(&self, parents: &[CommitId]) -> Option<u64>
        ensures { MatchOption result (2 ^ 64 ≤ due_generation self.now parents.now)
            (λ due. due ≡ due_generation self.now parents.now) }
    {
        let mut due = 1u64;
        for parent in parents {
            due = due.max(self.generation(parent).checked_add(1)?);
        }
        Some(due)
    }

    /// Where moves lead from a commit. The error is the number of the first move, counted from 0, that finds no such
    /// parent. It takes no memory.
    pub fn resolve(&self, from: &CommitId, moves: &[Move]) -> Result<CommitId, u32>
        requires there { IsSome (commit_of self.now from.now) }
        requires few { length moves.now < 2 ^ 32 }
        ensures found { result ≡ moves_target self.now 0 from.now moves.now }
        ensures there { IfOk result (λ id. IsSome (commit_of self.now id)) }
    {
        // It reads no field, but what holds of them decides that the answer is there.
        let _ = &self.commits;
        let mut at = *from;
        for (number, one) in moves.iter().enumerate() {
            match self.move_target(*one, &at) {
                Some(next) => at = next,
                None => return Err(number as u32),
            }
        }
        Ok(at)
    }

    /// The walk of first parents: the commit itself, its first parent, and so on. Nothing where there is no such
    /// commit.
    pub fn first_parents(&self, alloc: Global, from: &CommitId) -> Result<Vec<CommitId>, NoMemory>
        ensures { IfOk result (λ ids. ids.items ≡ walk self.now from.now) }
    {
        let mut ids = Vec::new(alloc);
        let mut at = *from;
        for _ in 0..self.generation(from) {
            ids.push(at)?;
            let Some(parent) = self.first_parent(&at) else {
                return Ok(ids);
            };
            at = parent;
        }
        Ok(ids)
    }

    // Where a move leads.
    fn move_target(&self, one: Move, id: &CommitId) -> Option<CommitId>
        ensures { result ≡ move_target self.now one id.now }
    {
        match one {
            Move::Back(steps) => self.back(steps, id),
            Move::Parent(0) => Some(*id),
            Move::Parent(number) => self.parents(id).get(number as usize - 1).copied(),
        }
    }

    // So many first parents back.
    fn back(&self, steps: u32, id: &CommitId) -> Option<CommitId>
        ensures { result ≡ back self.now steps id.now }
    {
        self.get(id)?;
        let mut at = *id;
        for _ in 0..steps {
            at = self.first_parent(&at)?;
        }
        Some(at)
    }

    // Its first parent.
    fn first_parent(&self, id: &CommitId) -> Option<CommitId>
        ensures { result ≡ first_parent self.now id.now }
    {
        self.parents(id).first().copied()
    }

    // Refuses parents that aren't all there.
    fn test_parents(&self, parents: &[CommitId]) -> Result<(), GraphFault>
        ensures { Refuses result (option_map GraphFault.NoParent (missing_parent self.now parents.now)) }
    {
        for parent in parents {
            if self.get(parent).is_none() {
                return Err(GraphFault::NoParent(*parent));
            }
        }
        Ok(())
    }

    // Refuses a generation that isn't the one due.
    fn test_generation(&self, commit: &CommitRecord) -> Result<(), GraphFault>
        ensures { Refuses result (untimely self.now commit.now) }
    {
        let given = commit.generation;
        match self.due_after(commit.parents.as_slice()) {
            Some(due) if due == given => Ok(()),
            Some(due) => Err(GraphFault::Generation { given, due }),
            None => Err(GraphFault::Generation {
                given,
                due: u64::MAX,
            }),
        }
    }
}

// Refuses a commit of this name and these bytes where the one that is kept has others.
fn test_bytes(
    alloc: Global,
    name: CommitId,
    kept: &CommitRecord,
    new: Vec<u8>,
) -> Result<(), GraphFault>
    ensures { Refuses result (clash name new.items kept.now) }
{
    let kept = commit_bytes(alloc, kept)?;
    if kept.as_slice() != new.as_slice() {
        return Err(GraphFault::NameClash {
            name,
            kept: Sequence::of(kept),
            new: Sequence::of(new),
        });
    }
    Ok(())
}

impl TryCopy for Graph {
    fn copy(&self, alloc: Global) -> Result<Graph, NoMemory> {
        let commits = copied_commits(alloc, &self.commits)?;
        Ok(Graph { commits })
    }
}

// Equal commits under the same ids.
fn copied_commits(
    alloc: Global,
    commits: &BTreeMap<CommitId, CommitRecord>,
) -> Result<BTreeMap<CommitId, CommitRecord>, NoMemory>
    ensures { IfOk result (λ copy. copy.entries ≡ commits.now.entries) }
{
    let mut copy = BTreeMap::new(alloc);
    for (id, commit) in commits.iter() {
        copy.insert(*id, commit.copy(alloc)?)?;
    }
    Ok(copy)
}
