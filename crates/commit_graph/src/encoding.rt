//! Commits as bytes: the project's own format.
//!
//! | field | bytes |
//! |---|---|
//! | version | `01` |
//! | metarange | the 32 bytes of its id |
//! | generation, date | 8 bytes each, the generation at least 1 |
//! | parents | 2 bytes of count, at most 2, and the 32 bytes of each id |
//! | committer | 1 to 128 bytes behind 2 bytes of length |
//! | message | at most 65,536 bytes behind 4 bytes of length |
//! | metadata | as in an entry |
//!
//! Numbers have their high byte first. The first commit of a repository, by `lakefs` with the message
//! `Repository created`, has 83 bytes.
ghost use Rattle.std.specs.Prelude.{◌≡◌, ◌++◌, ◌≤◌, ℕ, List, length, Ok, IfOk, OnOk, OnErr};
ghost use Rattle.std.specs.Int.{w16, to_be_bytes};
ghost use Rattle.std.specs.List.{flat_map, AllByRecursion};
ghost use Rattle.lake_values.specs.Commit.{CommitRecordValue};
ghost use Rattle.lake_format.specs.Spelling.{commit_spelling, IsDigest, IsSpelledCommit, AreBytes};
ghost use Rattle.commit_graph.specs.CommitReading.{commit_from};

use lake_base::digest::Digest;
use lake_base::outside::NoMemory;
use lake_format::fields::{
    pairs_len, put_digest, put_long_text, put_metadata, put_text, put_u16, put_u64,
};
use lake_values::commit::CommitRecord;
use std::alloc::Global;

/// The one spelling of the commit, by whose SHA-256 it is known. Its room is taken once.
pub fn commit_bytes(alloc: Global, commit: &CommitRecord) -> Result<Vec<u8>, NoMemory>
    ensures spelled { IfOk result (λ bytes. bytes.items ≡ commit_spelling commit.now) }
    ensures limits { OnOk result (IsSpelledCommit commit.now) }
{
    let mut out = Vec::with_capacity(alloc, commit_len(commit))?;
    out.push(1)?;
    put_digest(&mut out, &commit.meta_range)?;
    put_u64(&mut out, commit.generation)?;
    put_u64(&mut out, commit.date)?;
    put_parents(&mut out, commit.parents.as_slice())?;
    put_text(&mut out, commit.committer.as_str().as_bytes())?;
    put_long_text(&mut out, commit.message.as_str().as_bytes())?;
    put_metadata(&mut out, &commit.metadata)?;
    Ok(out)
}

// How many bytes the spelling of the commit has.
fn commit_len(commit: &CommitRecord) -> usize {
    57 + 32 * commit.parents.as_slice().len()
        + commit.committer.as_slice().len()
        + commit.message.as_slice().len()
        + pairs_len(&commit.metadata)
}

// Appends the ids of parents behind two bytes of count.
fn put_parents(out: &mut Vec<u8>, parents: &[Digest]) -> Result<(), NoMemory>
    requires { length parents.now ≤ 2 }
    ensures spelled { OnOk result (out.new.items ≡ out.old.items
        ++ (to_be_bytes w16 (length parents.now) ++ flat_map (λ parent. parent.0) parents.now)) }
    ensures limits { OnOk result (AllByRecursion (λ parent. IsDigest parent.0) parents.now) }
{
    put_u16(out, parents.len() as u16)?;
    for parent in parents {
        put_digest(out, parent)?;
    }
    Ok(())
}

/// What is spelled is read again. So no two commits share a spelling. What is read is spelled so. (A law: it does
/// nothing.)
pub fn laws_of_commits()
    ensures again { (c : CommitRecordValue) → IsSpelledCommit c
        → commit_from (commit_spelling c) ≡ Ok c }
    ensures apart { (a b : CommitRecordValue) → IsSpelledCommit a → IsSpelledCommit b
        → commit_spelling a ≡ commit_spelling b → a ≡ b }
    ensures found { (bytes : List ℕ) (c : CommitRecordValue) → AreBytes bytes
        → commit_from bytes ≡ Ok c → IsSpelledCommit c × (bytes ≡ commit_spelling c) }
{}
