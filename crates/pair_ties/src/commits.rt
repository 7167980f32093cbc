//! What is right of commits.
ghost use Rattle.std.specs.Prelude.{◌≡◌, ◌↔◌, ◌⊎◌, ◌+◌, ℕ, List, Bool, IfOk, IsSome, IsTrue, option_copied, option_map};
ghost use Rattle.lake_format.specs.Spelling.{commit_id};
ghost use Rattle.std.specs.List.{AllByRecursion};
ghost use Rattle.lake_values.specs.Ancestry.{commit_of, due_generation};
ghost use Rattle.pair_format.specs.declared.stored.Stored.TheVariants as stored;
ghost use Rattle.pair_ties.specs.BrokenPairs.{AreBlamelessBefore, IsRightCommit};
ghost use Rattle.pair_ties.specs.OneCommit.{HasBytesAt, IsOneCommit, commit_at};
ghost use Rattle.pair_trees.specs.Tables.{AreTablesOf};
ghost use Rattle.pair_trees.specs.Things.{commits_in, Spells, thing_at};

use commit_graph::commit_bytes;
use lake_base::{Digest, NoMemory, RepoName};
use lake_values::{CommitId, CommitRecord};
use pair_format::{Pair, Stored};
use pair_trees::{SpelledPairs, Tables, commit_of as found_commit};
use std::alloc::Global;

// Whether the commit at a place is right, where no pair before it is to blame.
pub(crate) fn is_right_commit(
    alloc: Global,
    raw: &[Pair],
    pairs: &SpelledPairs,
    tables: &Tables,
    at: usize,
    repo: &RepoName,
    id: &CommitId,
    commit: &CommitRecord,
) -> Result<bool, NoMemory>
    requires here { (expired : Bool) × Spells pairs.now at (stored.Commit repo.now id.now expired commit.now) }
    requires tables { AreTablesOf pairs.now tables.now }
    requires before { AreBlamelessBefore tables.now.cut raw.now pairs.now at }
    ensures { IfOk result (λ right. IsTrue right ↔ IsRightCommit pairs.now at repo.now id.now commit.now) }
{
    let _ = pairs.as_slice();
    if !is_due(
        alloc,
        pairs,
        repo,
        commit.parents.as_slice(),
        commit.generation,
    )? {
        return Ok(false);
    }
    is_named(alloc, raw, pairs, tables, at, id, commit)
}

// Whether a generation is the one due after parents; it can't be told where one of these isn't read.
fn is_due(
    alloc: Global,
    pairs: &SpelledPairs,
    repo: &RepoName,
    parents: &[CommitId],
    generation: u64,
) -> Result<bool, NoMemory>
    ensures { IfOk result (λ due. IsTrue due
        ↔ (AllByRecursion (λ parent. IsSome (commit_of (commits_in repo.now pairs.now) parent)) parents.now
        → generation ≡ due_generation (commits_in repo.now pairs.now) parents.now)) }
{
    let mut most = 0u64;
    for parent in parents {
        let Some(own) = generation_of(alloc, pairs, repo, parent)? else {
            return Ok(true);
        };
        most = most.max(own);
    }
    Ok(is_next(generation, most))
}

// Whether a number is the next one after another.
fn is_next(number: u64, last: u64) -> bool
    ensures { IsTrue result ↔ (number ≡ last + 1) }
{
    number > last && number - 1 == last
}

// The generation of a commit that is there.
fn generation_of(
    alloc: Global,
    pairs: &SpelledPairs,
    repo: &RepoName,
    id: &CommitId,
) -> Result<Option<u64>, NoMemory>
    ensures { IfOk result (λ found. found
        ≡ option_map (λ commit. commit.generation) (commit_of (commits_in repo.now pairs.now) id.now)) }
{
    match found_commit(alloc, pairs, repo, id)? {
        Some((_, commit)) => Ok(Some(commit.generation)),
        None => Ok(None),
    }
}

// Whether the id of the commit at a place is the SHA-256 of its bytes, and each earlier commit of this id is the same.
fn is_named(
    alloc: Global,
    raw: &[Pair],
    pairs: &SpelledPairs,
    tables: &Tables,
    at: usize,
    id: &CommitId,
    commit: &CommitRecord,
) -> Result<bool, NoMemory>
    requires here { (repo : List ℕ) × (expired : Bool)
        × Spells pairs.now at (stored.Commit repo id.now expired commit.now) }
    requires tables { AreTablesOf pairs.now tables.now }
    requires before { AreBlamelessBefore tables.now.cut raw.now pairs.now at }
    ensures { IfOk result (λ named. IsTrue named
        ↔ ((commit_id commit.now ≡ id.now) × IsOneCommit pairs.now at id.now commit.now)) }
{
    let _ = raw;
    let _ = pairs.as_slice();
    let bytes = commit_bytes(alloc, commit)?;
    if Digest::of(bytes.as_slice()) != *id {
        return Ok(false);
    }
    match tables.commits.get(id) {
        Some(first) => is_like_first(alloc, pairs, *first, at, bytes.as_slice()),
        None => Ok(true),
    }
}

// Whether the commit at the first place of its id has these bytes; where that is this place, it has.
fn is_like_first(
    alloc: Global,
    pairs: &SpelledPairs,
    first: usize,
    at: usize,
    bytes: &[u8],
) -> Result<bool, NoMemory>
    ensures { IfOk result (λ like. IsTrue like ↔ ((first ≡ at) ⊎ HasBytesAt pairs.now first bytes.now)) }
{
    if first == at {
        return Ok(true);
    }
    match commit_at(pairs, first) {
        Some(other) => Ok(commit_bytes(alloc, other)?.as_slice() == bytes),
        None => Ok(false),
    }
}

// The commit at a place.
fn commit_at<'p>(pairs: &'p SpelledPairs, at: usize) -> Option<&'p CommitRecord>
    ensures { option_copied result ≡ commit_at (thing_at pairs.now at) }
{
    match pairs.as_slice().get(at) {
        Some(Some(Stored::Commit { commit, .. })) => Some(commit),
        _ => None,
    }
}
