//! The fields of keys and values, each taken from the front of the bytes, with the bytes after it.
ghost use Rattle.std.specs.Prelude.{◌≡◌, []};
ghost use Rattle.lake_format.specs.Reading.{ReadsAs, read_entry};
ghost use Rattle.lake_values.specs.declared.entry.Change.TheVariants.{Put};
ghost use Rattle.pair_format.specs.Keys.{note_of};
ghost use Rattle.pair_format.specs.PairReading.{map_reader, read_repo, read_ref, read_short, read_rest, read_path};
ghost use Rattle.pair_format.specs.PairReading.{read_note, read_more_tokens, read_tokens, read_flag, read_versioned};
ghost use Rattle.pair_format.specs.PairReading.{read_change};

use commit_graph::read_commit;
use lake_base::names::{NameFault, Path, RefName, RepoName};
use lake_base::sequence::Sequence;
use lake_format::FieldFault;
use lake_format::encoding::read_entry;
use lake_format::fields::{read_u16, read_u32, read_u64};
use lake_values::commit::CommitRecord;
use lake_values::entry::Change;
use lake_values::settings::NoteName;
use std::alloc::Global;

// The bytes of a name behind two bytes of its length.
#[tactic(auto, unfolding(crate::specs::PairReading::read_short))]
fn read_short(bytes: &[u8]) -> Result<(&[u8], &[u8]), FieldFault>
    ensures { ReadsAs (λ x. (x.0.now, x.1.now)) result (read_short bytes.now) }
{
    let (len, rest) = read_u16(bytes)?;
    if rest.len() < len as usize {
        return Err(FieldFault::Short { left: bytes.len() });
    }
    Ok(rest.split_at(len as usize))
}

// The name of a repository.
#[tactic(auto, unfolding(crate::specs::PairReading::read_name))]
pub(crate) fn read_repo(alloc: Global, bytes: &[u8]) -> Result<(RepoName, &[u8]), FieldFault>
    ensures { ReadsAs (λ x. (x.0, x.1.now)) result (read_repo bytes.now) }
{
    let (name, rest) = read_short(bytes)?;
    match RepoName::read(alloc, name) {
        Ok(repo) => Ok((repo, rest)),
        Err(NameFault::NoMemory) => Err(FieldFault::NoMemory),
        Err(_) => Err(FieldFault::Bad { left: bytes.len() }),
    }
}

// The name of a branch or a tag, which isn't like an id.
#[tactic(auto, unfolding(crate::specs::PairReading::read_name))]
pub(crate) fn read_ref(alloc: Global, bytes: &[u8]) -> Result<(RefName, &[u8]), FieldFault>
    ensures { ReadsAs (λ x. (x.0, x.1.now)) result (read_ref bytes.now) }
{
    let (name, rest) = read_short(bytes)?;
    match RefName::read(alloc, name) {
        Ok(name) => {
            if name.like_id() {
                return Err(FieldFault::Bad { left: bytes.len() });
            }
            Ok((name, rest))
        }
        Err(NameFault::NoMemory) => Err(FieldFault::NoMemory),
        Err(_) => Err(FieldFault::Bad { left: bytes.len() }),
    }
}

// No bytes, at the end of these.
fn no_bytes(bytes: &[u8]) -> &[u8]
    ensures { result.now ≡ [] }
{
    &bytes[bytes.len()..]
}

// All bytes that are left.
pub(crate) fn read_rest(alloc: Global, bytes: &[u8]) -> Result<(Sequence<u8>, &[u8]), FieldFault>
    ensures { ReadsAs (λ x. (x.0, x.1.now)) result (read_rest bytes.now) }
{
    let copy = Vec::from_slice(alloc, bytes)?;
    Ok((Sequence::of(copy), no_bytes(bytes)))
}

// A path, to the end.
pub(crate) fn read_path(alloc: Global, bytes: &[u8]) -> Result<(Path, &[u8]), FieldFault>
    ensures { ReadsAs (λ x. (x.0, x.1.now)) result (read_path bytes.now) }
{
    match Path::read(alloc, bytes) {
        Ok(path) => Ok((path, no_bytes(bytes))),
        Err(NameFault::NoMemory) => Err(FieldFault::NoMemory),
        Err(_) => Err(FieldFault::Bad { left: bytes.len() }),
    }
}

// The setting whose name has this byte.
fn note_of(number: u8) -> Option<NoteName>
    ensures { result ≡ note_of number }
{
    match number {
        1 => Some(NoteName::Retention),
        2 => Some(NoteName::Protection),
        3 => Some(NoteName::Hooks),
        _ => None,
    }
}

// The byte of a setting's name.
#[tactic(auto, unfolding(crate::specs::PairReading::read_note))]
pub(crate) fn read_note(bytes: &[u8]) -> Result<(NoteName, &[u8]), FieldFault>
    ensures { ReadsAs (λ x. (x.0, x.1.now)) result (read_note bytes.now) }
{
    let [number, rest @ ..] = bytes else {
        return Err(FieldFault::Short { left: 0 });
    };
    match note_of(*number) {
        Some(name) => Ok((name, rest)),
        None => Err(FieldFault::Bad { left: bytes.len() }),
    }
}

// So many tokens.
fn read_more_tokens(
    alloc: Global,
    bytes: &[u8],
    count: u32,
) -> Result<(Vec<u64>, &[u8]), FieldFault>
    ensures { ReadsAs (λ x. (x.0.items, x.1.now)) result (read_more_tokens count [] bytes.now) }
{
    let mut tokens = Vec::new(alloc);
    let mut rest = bytes;
    for _ in 0..count {
        let (token, after) = read_u64(rest)?;
        tokens.push(token)?;
        rest = after;
    }
    Ok((tokens, rest))
}

// Tokens behind their count.
#[tactic(auto, unfolding(crate::specs::PairReading::read_tokens))]
pub(crate) fn read_tokens(alloc: Global, bytes: &[u8]) -> Result<(Vec<u64>, &[u8]), FieldFault>
    ensures { ReadsAs (λ x. (x.0.items, x.1.now)) result (read_tokens bytes.now) }
{
    let (count, rest) = read_u32(bytes)?;
    read_more_tokens(alloc, rest, count)
}

// A byte that says whether something holds: 0 or 1.
#[tactic(auto, unfolding(crate::specs::PairReading::read_flag))]
pub(crate) fn read_flag(bytes: &[u8]) -> Result<(bool, &[u8]), FieldFault>
    ensures { ReadsAs (λ x. (x.0, x.1.now)) result (read_flag bytes.now) }
{
    match bytes {
        [] => Err(FieldFault::Short { left: 0 }),
        [0, rest @ ..] => Ok((false, rest)),
        [1, rest @ ..] => Ok((true, rest)),
        [_, ..] => Err(FieldFault::Bad { left: bytes.len() }),
    }
}

// A commit of version 1.
#[tactic(auto, unfolding(crate::specs::PairReading::read_versioned))]
pub(crate) fn read_versioned(
    alloc: Global,
    bytes: &[u8],
) -> Result<(CommitRecord, &[u8]), FieldFault>
    ensures { ReadsAs (λ x. (x.0, x.1.now)) result (read_versioned bytes.now) }
{
    let [version, fields @ ..] = bytes else {
        return Err(FieldFault::Short { left: 0 });
    };
    if *version != 1 {
        return Err(FieldFault::Bad { left: bytes.len() });
    }
    read_commit(alloc, fields)
}

// An entry that is put.
fn read_put(alloc: Global, bytes: &[u8]) -> Result<(Change, &[u8]), FieldFault>
    ensures { ReadsAs (λ x. (x.0, x.1.now)) result (map_reader Put read_entry bytes.now) }
{
    let (entry, rest) = read_entry(alloc, bytes)?;
    Ok((Change::Put(entry), rest))
}

// A deletion, or an entry that is put.
#[tactic(auto, unfolding(crate::specs::PairReading::read_change))]
pub(crate) fn read_change(alloc: Global, bytes: &[u8]) -> Result<(Change, &[u8]), FieldFault>
    ensures { ReadsAs (λ x. (x.0, x.1.now)) result (read_change bytes.now) }
{
    match bytes {
        [] => Err(FieldFault::Short { left: 0 }),
        [0, rest @ ..] => Ok((Change::Delete, rest)),
        [1, rest @ ..] => read_put(alloc, rest),
        [_, ..] => Err(FieldFault::Bad { left: bytes.len() }),
    }
}
