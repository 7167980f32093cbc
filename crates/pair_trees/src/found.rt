//! What is found of one kind.
ghost use Rattle.std.specs.Prelude.{◌≡◌, IfOk, MatchOption, option_copied, option_map};
ghost use Rattle.pair_format.specs.declared.key.OwnedKey.TheVariants as key;
ghost use Rattle.pair_trees.specs.Found.{AreCounts, IsOnlyCommit, IsOnlyMetaRange, IsOnlyRange, commit_part};
ghost use Rattle.pair_trees.specs.Found.{metarange_part};
ghost use Rattle.pair_trees.specs.Found.{counts_part, range_part};
ghost use Rattle.pair_trees.specs.Things.{HasKey};

use crate::spelled::SpelledPairs;
use lake_base::{Digest, NoMemory, RepoName, Sequence};
use lake_values::{CommitId, CommitRecord};
use pair_format::{Stored, StoredKey};
use std::alloc::Global;

// The bytes of the metarange of a name.
pub(crate) fn metarange_of<'p>(
    alloc: Global,
    pairs: &'p SpelledPairs,
    name: &Digest,
) -> Result<Option<&'p Sequence<u8>>, NoMemory>
    ensures { IfOk result (λ found. MatchOption found (HasKey pairs.now (key.MetaRange name.now) → ⊥)
        (λ bytes. IsOnlyMetaRange pairs.now name.now bytes.now)) }
{
    match pairs.find(alloc, &StoredKey::MetaRange { name: *name })? {
        Some(stored) => Ok(metarange_part(stored)),
        None => Ok(None),
    }
}

/// The bytes of the range of a name, by a search.
pub fn range_of<'p>(
    alloc: Global,
    pairs: &'p SpelledPairs,
    name: &Digest,
) -> Result<Option<&'p Sequence<u8>>, NoMemory>
    ensures { IfOk result (λ found. MatchOption found (HasKey pairs.now (key.Range name.now) → ⊥)
        (λ bytes. IsOnlyRange pairs.now name.now bytes.now)) }
{
    match pairs.find(alloc, &StoredKey::Range { name: *name })? {
        Some(stored) => Ok(range_part(stored)),
        None => Ok(None),
    }
}

/// The commit of an id, and whether it is expired, by a search.
pub fn commit_of<'p>(
    alloc: Global,
    pairs: &'p SpelledPairs,
    repo: &RepoName,
    id: &CommitId,
) -> Result<Option<(bool, &'p CommitRecord)>, NoMemory>
    ensures { IfOk result (λ found. MatchOption found (HasKey pairs.now (key.Commit repo.now id.now) → ⊥)
        (λ commit. IsOnlyCommit pairs.now repo.now id.now commit.0 commit.1.now)) }
{
    match pairs.find(alloc, &StoredKey::Commit { repo, id: *id })? {
        Some(stored) => Ok(commit_part(stored)),
        None => Ok(None),
    }
}

/// What is given out next: a number, a version and a token, by a search.
pub fn counts_of(alloc: Global, pairs: &SpelledPairs) -> Result<Option<(u64, u64, u64)>, NoMemory>
    ensures { IfOk result (λ counts. MatchOption counts (HasKey pairs.now key.Counts → ⊥) (AreCounts pairs.now)) }
{
    match pairs.find(alloc, &StoredKey::Counts)? {
        Some(stored) => Ok(counts_part(stored)),
        None => Ok(None),
    }
}

// The bytes of a metarange, where this is one.
fn metarange_part(stored: &Stored) -> Option<&Sequence<u8>>
    ensures { option_copied result ≡ metarange_part stored.now }
{
    match stored {
        Stored::MetaRange { bytes, .. } => Some(bytes),
        _ => None,
    }
}

// The bytes of a range, where this is one.
fn range_part(stored: &Stored) -> Option<&Sequence<u8>>
    ensures { option_copied result ≡ range_part stored.now }
{
    match stored {
        Stored::Range { bytes, .. } => Some(bytes),
        _ => None,
    }
}

// A commit, and whether it is expired, where this is one.
fn commit_part(stored: &Stored) -> Option<(bool, &CommitRecord)>
    ensures { option_map (λ c. (c.0, c.1.now)) result ≡ commit_part stored.now }
{
    match stored {
        Stored::Commit {
            expired,
            commit,
            ..
        } => Some((*expired, commit)),
        _ => None,
    }
}

// The counts, where these are they.
fn counts_part(stored: &Stored) -> Option<(u64, u64, u64)>
    ensures { result ≡ counts_part stored.now }
{
    match stored {
        Stored::Counts {
            number,
            version,
            token,
        } => Some((*number, *version, *token)),
        _ => None,
    }
}
