//! What pairs name is there.
ghost use Rattle.std.specs.Prelude.{◌↔◌, ℕ, List, map, IfOk, IsTrue};
ghost use Rattle.std.specs.List.{AllByRecursion};
ghost use Rattle.lake_base.specs.Maps.{HasAscendingKeys};
ghost use Rattle.keeper.specs.Keepers.{entries_of};
ghost use Rattle.pair_format.specs.declared.key.OwnedKey.TheVariants as key;
ghost use Rattle.pair_format.specs.PairSpelling.{IsSpelledStored};
ghost use Rattle.pair_ties.specs.BrokenPairs.{HasPair, keys_named};

use crate::by_key::has_pair;
use lake_base::{NoMemory, RepoName};
use lake_values::CommitId;
use pair_format::{Pair, Stored, StoredKey};
use std::alloc::Global;

// Whether a pair has each key that this names.
pub(crate) fn are_named_there(
    alloc: Global,
    raw: &[Pair],
    stored: &Stored,
) -> Result<bool, NoMemory>
    requires ascend { HasAscendingKeys (entries_of raw.now) }
    requires limits { IsSpelledStored stored.now }
    ensures { IfOk result (λ there. IsTrue there ↔ AllByRecursion (HasPair raw.now) (keys_named stored.now)) }
{
    match stored {
        Stored::Repository {
            repo,
            default_branch: branch,
            ..
        } => has_pair(alloc, raw, &StoredKey::Branch { repo, branch }),
        Stored::Branch { repo, head, .. } => has_commit(alloc, raw, repo, head),
        Stored::Tag { repo, commit, .. } => has_commit(alloc, raw, repo, commit),
        Stored::Commit { repo, commit, .. } => {
            has_commits(alloc, raw, repo, commit.parents.as_slice())
        }
        Stored::Note { repo, .. } => has_pair(alloc, raw, &StoredKey::Repository { repo }),
        Stored::MetaRange { .. }
        | Stored::Range { .. }
        | Stored::Staged { .. }
        | Stored::Gone { .. }
        | Stored::Counts { .. } => Ok(true),
    }
}

// Whether pairs have the keys of a repository and of a commit of it.
fn has_commit(alloc: Global, raw: &[Pair], repo: &RepoName, id: &CommitId) -> Result<bool, NoMemory>
    requires { HasAscendingKeys (entries_of raw.now) }
    ensures { IfOk result (λ there. IsTrue there
        ↔ (HasPair raw.now (key.Repository repo.now) × HasPair raw.now (key.Commit repo.now id.now))) }
{
    if !has_pair(alloc, raw, &StoredKey::Repository { repo })? {
        return Ok(false);
    }
    has_pair(alloc, raw, &StoredKey::Commit { repo, id: *id })
}

// Whether pairs have the keys of a repository and of commits of it.
fn has_commits(
    alloc: Global,
    raw: &[Pair],
    repo: &RepoName,
    ids: &[CommitId],
) -> Result<bool, NoMemory>
    requires { HasAscendingKeys (entries_of raw.now) }
    ensures { IfOk result (λ there. IsTrue there ↔ (HasPair raw.now (key.Repository repo.now)
        × AllByRecursion (λ id. HasPair raw.now (key.Commit repo.now id)) ids.now)) }
{
    if !has_pair(alloc, raw, &StoredKey::Repository { repo })? {
        return Ok(false);
    }
    for id in ids {
        if !has_pair(alloc, raw, &StoredKey::Commit { repo, id: *id })? {
            return Ok(false);
        }
    }
    Ok(true)
}
