//! The commit of a spelling.
ghost use Rattle.std.specs.Prelude.{◌≡◌, List, [], ◌≤◌, length, Ok, IfOk};
ghost use Rattle.lake_values.specs.Commit.{CommitRecordValue};
ghost use Rattle.lake_format.specs.Spelling.{commit_spelling, IsSpelledCommit};
ghost use Rattle.lake_format.specs.Reading.{ReadsAs};
ghost use Rattle.commit_graph.specs.CommitReading.{Answers, read_generation, read_ids, read_parents, read_commit};
ghost use Rattle.commit_graph.specs.CommitReading.{commit_from};

use crate::fault::{CommitFault, fault_of};
use lake_base::digest::Digest;
use lake_base::sequence::Sequence;
use lake_format::FieldFault;
use lake_format::fields::{
    read_digest, read_long_text, read_metadata, read_text, read_u16, read_u64,
};
use lake_values::commit::CommitRecord;
use std::alloc::Global;

/// The commit of which these bytes are the spelling. They are read from the left, and the first fault that is met
/// is answered: Version where the first byte isn't 1, Truncated, with the input's length, where the input ends
/// inside a field, Bad, with its place, where a field is outside its limits, and Trailing where bytes follow the
/// commit. The place of Bad is where the innermost field begins: a number, an id, a count, a text with its length.
pub fn commit_read(alloc: Global, bytes: &[u8]) -> Result<CommitRecord, CommitFault>
    // What is read is spelled so.
    ensures found { IfOk result (λ c. IsSpelledCommit c × (bytes.now ≡ commit_spelling c)) }
    // What is spelled so is read, unless memory runs out.
    ensures only { (c : CommitRecordValue) → IsSpelledCommit c → bytes.now ≡ commit_spelling c
        → Answers result (Ok c) }
    // Which fault it is.
    ensures exact { Answers result (commit_from bytes.now) }
{
    let commit = read_whole(alloc, bytes)?;
    Ok(commit)
}

// The commit, and nothing behind it.
#[tactic(auto, unfolding(crate::specs::CommitReading::commit_from))]
fn read_whole(alloc: Global, bytes: &[u8]) -> Result<CommitRecord, CommitFault>
    ensures { Answers result (commit_from bytes.now) }
{
    let [version, fields @ ..] = bytes else {
        return Err(CommitFault::Truncated(bytes.len()));
    };
    if *version != 1 {
        return Err(CommitFault::Version(*version));
    }
    let (commit, rest) = read_commit(alloc, fields).map_err(|fault| fault_of(fault, bytes.len()))?;
    if !rest.is_empty() {
        return Err(CommitFault::Trailing(rest.len()));
    }
    Ok(commit)
}

/// The fields of a commit behind its version, and the bytes after them.
#[tactic(auto, unfolding(crate::specs::CommitReading::read_commit))]
pub fn read_commit(alloc: Global, bytes: &[u8]) -> Result<(CommitRecord, &[u8]), FieldFault>
    ensures { ReadsAs (λ x. (x.0, x.1.now)) result (read_commit bytes.now) }
{
    let (meta_range, rest) = read_digest(bytes)?;
    let (generation, rest) = read_generation(rest)?;
    let (date, rest) = read_u64(rest)?;
    let (parents, rest) = read_parents(alloc, rest)?;
    let (committer, rest) = read_text(alloc, rest, 1, 128)?;
    let (message, rest) = read_long_text(alloc, rest, 65536)?;
    let (metadata, rest) = read_metadata(alloc, rest)?;
    let commit = CommitRecord {
        meta_range,
        generation,
        date,
        parents: Sequence::of(parents),
        committer,
        message,
        metadata,
    };
    Ok((commit, rest))
}

// A generation: a number of eight bytes, at least 1.
#[tactic(auto, unfolding(crate::specs::CommitReading::read_generation))]
fn read_generation(bytes: &[u8]) -> Result<(u64, &[u8]), FieldFault>
    ensures { ReadsAs (λ x. (x.0, x.1.now)) result (read_generation bytes.now) }
{
    let (generation, rest) = read_u64(bytes)?;
    if generation == 0 {
        return Err(FieldFault::Bad { left: bytes.len() });
    }
    Ok((generation, rest))
}

// The ids of parents behind their count, which is at most 2.
#[tactic(auto, unfolding(crate::specs::CommitReading::read_parents))]
fn read_parents(alloc: Global, bytes: &[u8]) -> Result<(Vec<Digest>, &[u8]), FieldFault>
    ensures { ReadsAs (λ x. (x.0.items, x.1.now)) result (read_parents bytes.now) }
{
    let (count, rest) = read_u16(bytes)?;
    if count > 2 {
        return Err(FieldFault::Bad { left: bytes.len() });
    }
    read_ids(alloc, rest, count)
}

// So many ids.
fn read_ids(alloc: Global, bytes: &[u8], count: u16) -> Result<(Vec<Digest>, &[u8]), FieldFault>
    ensures { ReadsAs (λ x. (x.0.items, x.1.now)) result (read_ids count [] bytes.now) }
{
    let mut ids = Vec::new(alloc);
    let mut rest = bytes;
    for _ in 0..count {
        let (id, after) = read_digest(rest)?;
        ids.push(id)?;
        rest = after;
    }
    Ok((ids, rest))
}
