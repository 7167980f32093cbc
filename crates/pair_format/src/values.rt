//! What is read of a value behind its key.
ghost use Rattle.std.specs.Prelude.{◌≡◌};
ghost use Rattle.lake_format.specs.Reading.{ReadsAs};
ghost use Rattle.pair_format.specs.PairReading.{value_fields, read_value};
ghost use Rattle.pair_format.specs.declared.key.OwnedKey.TheVariants.{Repository, Branch, Tag, Commit, MetaRange};
ghost use Rattle.pair_format.specs.declared.key.OwnedKey.TheVariants.{Range, Staged, Note, Counts};

use crate::fields::{read_change, read_flag, read_ref, read_rest, read_tokens, read_versioned};
use crate::key::OwnedKey;
use crate::stored::Stored;
use lake_base::digest::Digest;
use lake_base::names::{Path, RefName, RepoName};
use lake_base::sequence::Sequence;
use lake_format::FieldFault;
use lake_format::fields::{read_digest, read_u64};
use lake_values::commit::CommitId;
use lake_values::settings::NoteName;
use std::alloc::Global;

#[tactic(auto, unfolding(crate::specs::PairReading::value_fields))]
fn repository_value(
    alloc: Global,
    repo: RepoName,
    bytes: &[u8],
) -> Result<(Stored, &[u8]), FieldFault>
    ensures { ReadsAs (λ x. (x.0, x.1.now)) result (value_fields (Repository repo) bytes.now) }
{
    let (created, rest) = read_u64(bytes)?;
    let (default_branch, rest) = read_ref(alloc, rest)?;
    let (settings, rest) = read_u64(rest)?;
    let stored = Stored::Repository {
        repo,
        created,
        default_branch,
        settings,
    };
    Ok((stored, rest))
}

#[tactic(auto, unfolding(crate::specs::PairReading::value_fields))]
fn branch_value(
    alloc: Global,
    repo: RepoName,
    branch: RefName,
    bytes: &[u8],
) -> Result<(Stored, &[u8]), FieldFault>
    ensures { ReadsAs (λ x. (x.0, x.1.now)) result (value_fields (Branch repo branch) bytes.now) }
{
    let (version, rest) = read_u64(bytes)?;
    let (head, rest) = read_digest(rest)?;
    let (staging, rest) = read_u64(rest)?;
    let (sealed, rest) = read_tokens(alloc, rest)?;
    let stored = Stored::Branch {
        repo,
        branch,
        version,
        head,
        staging,
        sealed: Sequence::of(sealed),
    };
    Ok((stored, rest))
}

#[tactic(auto, unfolding(crate::specs::PairReading::value_fields))]
fn tag_value(repo: RepoName, tag: RefName, bytes: &[u8]) -> Result<(Stored, &[u8]), FieldFault>
    ensures { ReadsAs (λ x. (x.0, x.1.now)) result (value_fields (Tag repo tag) bytes.now) }
{
    let (commit, rest) = read_digest(bytes)?;
    Ok((Stored::Tag { repo, tag, commit }, rest))
}

#[tactic(auto, unfolding(crate::specs::PairReading::value_fields))]
fn commit_value(
    alloc: Global,
    repo: RepoName,
    id: CommitId,
    bytes: &[u8],
) -> Result<(Stored, &[u8]), FieldFault>
    ensures { ReadsAs (λ x. (x.0, x.1.now)) result (value_fields (Commit repo id) bytes.now) }
{
    let (expired, rest) = read_flag(bytes)?;
    let (commit, rest) = read_versioned(alloc, rest)?;
    let stored = Stored::Commit {
        repo,
        id,
        expired,
        commit,
    };
    Ok((stored, rest))
}

#[tactic(auto, unfolding(crate::specs::PairReading::value_fields))]
fn meta_range_value(
    alloc: Global,
    name: Digest,
    bytes: &[u8],
) -> Result<(Stored, &[u8]), FieldFault>
    ensures { ReadsAs (λ x. (x.0, x.1.now)) result (value_fields (MetaRange name) bytes.now) }
{
    let (bytes, rest) = read_rest(alloc, bytes)?;
    Ok((Stored::MetaRange { name, bytes }, rest))
}

#[tactic(auto, unfolding(crate::specs::PairReading::value_fields))]
fn range_value(alloc: Global, name: Digest, bytes: &[u8]) -> Result<(Stored, &[u8]), FieldFault>
    ensures { ReadsAs (λ x. (x.0, x.1.now)) result (value_fields (Range name) bytes.now) }
{
    let (bytes, rest) = read_rest(alloc, bytes)?;
    Ok((Stored::Range { name, bytes }, rest))
}

#[tactic(auto, unfolding(crate::specs::PairReading::value_fields))]
fn staged_value(
    alloc: Global,
    token: u64,
    path: Path,
    bytes: &[u8],
) -> Result<(Stored, &[u8]), FieldFault>
    ensures { ReadsAs (λ x. (x.0, x.1.now)) result (value_fields (Staged token path) bytes.now) }
{
    let (change, rest) = read_change(alloc, bytes)?;
    let stored = Stored::Staged {
        token,
        path,
        change,
    };
    Ok((stored, rest))
}

#[tactic(auto, unfolding(crate::specs::PairReading::value_fields))]
fn note_value(
    alloc: Global,
    repo: RepoName,
    name: NoteName,
    bytes: &[u8],
) -> Result<(Stored, &[u8]), FieldFault>
    ensures { ReadsAs (λ x. (x.0, x.1.now)) result (value_fields (Note repo name) bytes.now) }
{
    let (text, rest) = read_rest(alloc, bytes)?;
    Ok((Stored::Note { repo, name, text }, rest))
}

#[tactic(auto, unfolding(crate::specs::PairReading::value_fields))]
fn counts_value(bytes: &[u8]) -> Result<(Stored, &[u8]), FieldFault>
    ensures { ReadsAs (λ x. (x.0, x.1.now)) result (value_fields Counts bytes.now) }
{
    let (number, rest) = read_u64(bytes)?;
    let (version, rest) = read_u64(rest)?;
    let (token, rest) = read_u64(rest)?;
    let stored = Stored::Counts {
        number,
        version,
        token,
    };
    Ok((stored, rest))
}

// The fields of the value under a key.
#[tactic(auto, unfolding(crate::specs::PairReading::value_fields))]
fn value_fields(alloc: Global, key: OwnedKey, bytes: &[u8]) -> Result<(Stored, &[u8]), FieldFault>
    ensures { ReadsAs (λ x. (x.0, x.1.now)) result (value_fields key bytes.now) }
{
    match key {
        OwnedKey::Repository { repo } => repository_value(alloc, repo, bytes),
        OwnedKey::Branch { repo, branch } => branch_value(alloc, repo, branch, bytes),
        OwnedKey::Tag { repo, tag } => tag_value(repo, tag, bytes),
        OwnedKey::Commit { repo, id } => commit_value(alloc, repo, id, bytes),
        OwnedKey::MetaRange { name } => meta_range_value(alloc, name, bytes),
        OwnedKey::Range { name } => range_value(alloc, name, bytes),
        OwnedKey::Staged { token, path } => staged_value(alloc, token, path, bytes),
        OwnedKey::Note { repo, name } => note_value(alloc, repo, name, bytes),
        OwnedKey::Gone { number } => Ok((Stored::Gone { number }, bytes)),
        OwnedKey::Counts => counts_value(bytes),
    }
}

// What stands in the value under a key, whole.
pub(crate) fn read_value(alloc: Global, key: OwnedKey, value: &[u8]) -> Result<Stored, FieldFault>
    ensures { ReadsAs (λ x. x) result (read_value key value.now) }
{
    let (stored, rest) = value_fields(alloc, key, value)?;
    if !rest.is_empty() {
        return Err(FieldFault::Bad { left: rest.len() });
    }
    Ok(stored)
}
