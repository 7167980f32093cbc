//! Commits, written with a letter for the id, a digit for the generation and letters for the parents: `M3XY`.
use crate::words::{digest, text};
use lake_base::{Digest, Sequence};
use lake_values::{About, CommitId, CommitRecord, Pairs};
use std::alloc::Global;
use std::test::Fail;

/// The id that stands for a letter: 32 times its byte.
pub fn id(letter: u8) -> CommitId {
    digest(letter)
}

/// The letters of ids, in their order.
pub fn letters(alloc: Global, ids: &[CommitId]) -> Result<String, Fail> {
    let mut letters = String::new(alloc);
    for id in ids {
        letters.push(char::from(id.0[0]))?;
    }
    Ok(letters)
}

/// What is said of a commit: by `me`, with the message `hi` and no metadata, at this moment.
pub fn about(alloc: Global, date: u64) -> Result<About, Fail> {
    let committer = text(alloc, "me")?;
    let message = text(alloc, "hi")?;
    Ok(About {
        committer,
        message,
        metadata: Pairs::new(alloc),
        date,
    })
}

/// A commit by `me` with the message `hi` and no metadata. At most two parents; a generation of 0 counts as 1.
pub fn record(
    alloc: Global,
    meta_range: Digest,
    generation: u64,
    date: u64,
    parents: Vec<CommitId>,
) -> Result<CommitRecord, Fail> {
    if parents.len() > 2 {
        return Err("a commit has at most two parents")?;
    }
    Ok(CommitRecord {
        meta_range,
        generation: generation.max(1),
        date,
        parents: Sequence::of(parents),
        committer: text(alloc, "me")?,
        message: text(alloc, "hi")?,
        metadata: Pairs::new(alloc),
    })
}

// The commit of a word.
fn of_word(alloc: Global, word: &str, date: u64) -> Result<(CommitId, CommitRecord), Fail> {
    let [letter, generation, parents @ ..] = word.as_bytes() else {
        return Err("a commit has a letter and a digit")?;
    };
    let mut ids = Vec::new(alloc);
    for parent in parents {
        ids.push(id(*parent))?;
    }
    let generation = u64::from(generation.saturating_sub(b'0'));
    let record = record(alloc, digest(0x11), generation, date, ids)?;
    Ok((id(*letter), record))
}

/// The commits of these words, with these dates in turn, and 0 where there is none.
pub fn commits(
    alloc: Global,
    words: &str,
    dates: &[u64],
) -> Result<Vec<(CommitId, CommitRecord)>, Fail> {
    let mut commits = Vec::new(alloc);
    let mut dates = dates.iter();
    for word in words.split_whitespace() {
        let date = dates.next().copied().unwrap_or(0);
        commits.push(of_word(alloc, word, date)?)?;
    }
    Ok(commits)
}
