//! What is read of a key.
ghost use Rattle.std.specs.Prelude.{◌≡◌};
ghost use Rattle.lake_format.specs.Reading.{ReadsAs};
ghost use Rattle.pair_format.specs.PairReading.{key_fields, read_key};
ghost use Rattle.pair_format.specs.declared.kind.Kind.TheVariants.{Repository, Branch, Tag, Commit, MetaRange, Range};
ghost use Rattle.pair_format.specs.declared.kind.Kind.TheVariants.{Staged, Note, Gone};

use crate::fields::{read_note, read_path, read_ref, read_repo};
use crate::key::OwnedKey;
use crate::kind::Kind;
use lake_format::FieldFault;
use lake_format::fields::{read_digest, read_u64};
use std::alloc::Global;

#[tactic(auto, unfolding(crate::specs::PairReading::key_fields))]
fn repository_key(alloc: Global, bytes: &[u8]) -> Result<(OwnedKey, &[u8]), FieldFault>
    ensures { ReadsAs (λ x. (x.0, x.1.now)) result (key_fields Repository bytes.now) }
{
    let (repo, rest) = read_repo(alloc, bytes)?;
    Ok((OwnedKey::Repository { repo }, rest))
}

#[tactic(auto, unfolding(crate::specs::PairReading::key_fields))]
fn branch_key(alloc: Global, bytes: &[u8]) -> Result<(OwnedKey, &[u8]), FieldFault>
    ensures { ReadsAs (λ x. (x.0, x.1.now)) result (key_fields Branch bytes.now) }
{
    let (repo, rest) = read_repo(alloc, bytes)?;
    let (branch, rest) = read_ref(alloc, rest)?;
    Ok((OwnedKey::Branch { repo, branch }, rest))
}

#[tactic(auto, unfolding(crate::specs::PairReading::key_fields))]
fn tag_key(alloc: Global, bytes: &[u8]) -> Result<(OwnedKey, &[u8]), FieldFault>
    ensures { ReadsAs (λ x. (x.0, x.1.now)) result (key_fields Tag bytes.now) }
{
    let (repo, rest) = read_repo(alloc, bytes)?;
    let (tag, rest) = read_ref(alloc, rest)?;
    Ok((OwnedKey::Tag { repo, tag }, rest))
}

#[tactic(auto, unfolding(crate::specs::PairReading::key_fields))]
fn commit_key(alloc: Global, bytes: &[u8]) -> Result<(OwnedKey, &[u8]), FieldFault>
    ensures { ReadsAs (λ x. (x.0, x.1.now)) result (key_fields Commit bytes.now) }
{
    let (repo, rest) = read_repo(alloc, bytes)?;
    let (id, rest) = read_digest(rest)?;
    Ok((OwnedKey::Commit { repo, id }, rest))
}

#[tactic(auto, unfolding(crate::specs::PairReading::key_fields))]
fn meta_range_key(bytes: &[u8]) -> Result<(OwnedKey, &[u8]), FieldFault>
    ensures { ReadsAs (λ x. (x.0, x.1.now)) result (key_fields MetaRange bytes.now) }
{
    let (name, rest) = read_digest(bytes)?;
    Ok((OwnedKey::MetaRange { name }, rest))
}

#[tactic(auto, unfolding(crate::specs::PairReading::key_fields))]
fn range_key(bytes: &[u8]) -> Result<(OwnedKey, &[u8]), FieldFault>
    ensures { ReadsAs (λ x. (x.0, x.1.now)) result (key_fields Range bytes.now) }
{
    let (name, rest) = read_digest(bytes)?;
    Ok((OwnedKey::Range { name }, rest))
}

#[tactic(auto, unfolding(crate::specs::PairReading::key_fields))]
fn staged_key(alloc: Global, bytes: &[u8]) -> Result<(OwnedKey, &[u8]), FieldFault>
    ensures { ReadsAs (λ x. (x.0, x.1.now)) result (key_fields Staged bytes.now) }
{
    let (token, rest) = read_u64(bytes)?;
    let (path, rest) = read_path(alloc, rest)?;
    Ok((OwnedKey::Staged { token, path }, rest))
}

#[tactic(auto, unfolding(crate::specs::PairReading::key_fields))]
fn note_key(alloc: Global, bytes: &[u8]) -> Result<(OwnedKey, &[u8]), FieldFault>
    ensures { ReadsAs (λ x. (x.0, x.1.now)) result (key_fields Note bytes.now) }
{
    let (repo, rest) = read_repo(alloc, bytes)?;
    let (name, rest) = read_note(rest)?;
    Ok((OwnedKey::Note { repo, name }, rest))
}

#[tactic(auto, unfolding(crate::specs::PairReading::key_fields))]
fn gone_key(bytes: &[u8]) -> Result<(OwnedKey, &[u8]), FieldFault>
    ensures { ReadsAs (λ x. (x.0, x.1.now)) result (key_fields Gone bytes.now) }
{
    let (number, rest) = read_u64(bytes)?;
    Ok((OwnedKey::Gone { number }, rest))
}

// The fields of a key behind its letter.
#[tactic(auto, unfolding(crate::specs::PairReading::key_fields))]
fn key_fields(alloc: Global, kind: Kind, bytes: &[u8]) -> Result<(OwnedKey, &[u8]), FieldFault>
    ensures { ReadsAs (λ x. (x.0, x.1.now)) result (key_fields kind bytes.now) }
{
    match kind {
        Kind::Repository => repository_key(alloc, bytes),
        Kind::Branch => branch_key(alloc, bytes),
        Kind::Tag => tag_key(alloc, bytes),
        Kind::Commit => commit_key(alloc, bytes),
        Kind::MetaRange => meta_range_key(bytes),
        Kind::Range => range_key(bytes),
        Kind::Staged => staged_key(alloc, bytes),
        Kind::Note => note_key(alloc, bytes),
        Kind::Gone => gone_key(bytes),
        Kind::Counts => Ok((OwnedKey::Counts, bytes)),
    }
}

/// What stands in a key, whole.
#[tactic(auto, unfolding(crate::specs::PairReading::read_key))]
pub(crate) fn read_key(alloc: Global, key: &[u8]) -> Result<OwnedKey, FieldFault>
    ensures { ReadsAs (λ x. x) result (read_key key.now) }
{
    let [letter, fields @ ..] = key else {
        return Err(FieldFault::Short { left: 0 });
    };
    let Some(kind) = Kind::of(*letter) else {
        return Err(FieldFault::Bad { left: key.len() });
    };
    let (parts, rest) = key_fields(alloc, kind, fields)?;
    if !rest.is_empty() {
        return Err(FieldFault::Bad { left: rest.len() });
    }
    Ok(parts)
}
