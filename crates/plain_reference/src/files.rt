//! Ranges, metaranges and commits as bytes, and the files of a tree: the project's own formats.
//!
//! | file | bytes |
//! |---|---|
//! | range | `01`, the count of rows in 4 bytes, then each path behind 2 bytes of length, and its entry |
//! | metarange | `01`, the count of ranges in 4 bytes, then of each range 32 bytes of SHA-256, its count of rows in 4 bytes, and its first and its last path, each behind 2 bytes of length |
//! | commit | `01`, 32 bytes of the metarange's id, the generation and the date in 8 bytes each, the count of parents in 2 bytes and 32 bytes of each, the committer behind 2 bytes of length, the message behind 4, and the metadata as in an entry |
//!
//! Numbers have their high byte first. A file is known by its SHA-256. The metarange of an empty map is
//! `0100000000`.
ghost use Rattle.std.specs.Prelude.{◌≡◌, ◌++◌, ◌<◌, ◌^◌, ◌∷◌, length, map, IfOk, OnOk};
ghost use Rattle.std.specs.FinMap.{len, entries};
ghost use Rattle.std.specs.List.{flat_map, AllByRecursion};
ghost use Rattle.std.specs.Int.{w16, w32, to_be_bytes};
ghost use Rattle.lake_format.specs.Cutting.{ranges, files, tree_id};
ghost use Rattle.lake_base.specs.Digest.{sha256};
ghost use Rattle.lake_base.specs.Maps.{HasAscendingKeys};
ghost use Rattle.lake_format.specs.Spelling.{row_spelling, range_spelling, line_of, line_spelling, metarange_spelling};
ghost use Rattle.lake_format.specs.Spelling.{commit_spelling, commit_id, IsDigest, IsRow, IsRange, IsSpan, AreInOrder};
ghost use Rattle.lake_format.specs.Spelling.{IsLine, IsMetarange, IsSpelledCommit};

use lake_base::TryCopy;
use lake_base::digest::Digest;
use lake_base::names::Path;
use lake_base::outside::NoMemory;
use lake_base::sequence::Sequence;
use lake_format::cut::{Cut, first_range};
use lake_format::encoding::put_row;
use lake_format::fields::{put_digest, put_long_text, put_metadata, put_text};
use lake_format::range_line::{RangeLine, put_range_line};
use lake_values::commit::{CommitId, CommitRecord};
use lake_values::entry::Entry;
use lake_values::key_map::KeyMap;
use std::alloc::Global;

/// The spelling of a range of these rows. There is at least one row, and fewer than 2^32, and their paths
/// strictly ascend.
#[tactic(auto, unfolding(lake_format::specs::Spelling::range_spelling))]
pub fn range_bytes(alloc: Global, rows: &[(Path, Entry)]) -> Result<Vec<u8>, NoMemory>
    requires some { 0 < length rows.now }
    requires few { length rows.now < 2 ^ 32 }
    requires ascend { HasAscendingKeys rows.now }
    ensures spelled { IfOk result (λ bytes. bytes.items ≡ range_spelling rows.now) }
    ensures limits { OnOk result (IsRange rows.now) }
{
    let mut out = begun(alloc, rows.len() as u32)?;
    put_rows(&mut out, rows)?;
    Ok(out)
}

// What a range and a metarange begin with: the version 1, and how many lines follow.
fn begun(alloc: Global, lines: u32) -> Result<Vec<u8>, NoMemory>
    ensures { IfOk result (λ bytes. bytes.items ≡ 1 ∷ to_be_bytes w32 lines) }
{
    let mut out = Vec::new(alloc);
    out.push(1)?;
    out.extend_from_slice(&lines.to_be_bytes())?;
    Ok(out)
}

// Appends rows.
fn put_rows(out: &mut Vec<u8>, rows: &[(Path, Entry)]) -> Result<(), NoMemory>
    ensures spelled { OnOk result (out.new.items ≡ out.old.items ++ flat_map row_spelling rows.now) }
    ensures limits { OnOk result (AllByRecursion IsRow rows.now) }
{
    for (path, entry) in rows {
        put_row(out, path, entry)?;
    }
    Ok(())
}

/// The spelling of a metarange that says this of its ranges. There are fewer than 2^32, each with a row and a
/// first path that is at most its last and above the last path of the range before.
#[tactic(auto, unfolding(lake_format::specs::Spelling::metarange_spelling))]
pub fn metarange_bytes(alloc: Global, lines: &[RangeLine]) -> Result<Vec<u8>, NoMemory>
    requires few { length lines.now < 2 ^ 32 }
    requires order { AreInOrder lines.now }
    ensures spelled { IfOk result (λ bytes. bytes.items ≡ metarange_spelling lines.now) }
    ensures limits { OnOk result (IsMetarange lines.now) }
{
    let mut out = begun(alloc, lines.len() as u32)?;
    put_range_lines(&mut out, lines)?;
    Ok(out)
}

// Appends what is said of ranges.
fn put_range_lines(out: &mut Vec<u8>, lines: &[RangeLine]) -> Result<(), NoMemory>
    requires { AllByRecursion IsSpan lines.now }
    ensures spelled { OnOk result (out.new.items ≡ out.old.items ++ flat_map line_spelling lines.now) }
    ensures limits { OnOk result (AllByRecursion IsLine lines.now) }
{
    for line in lines {
        put_range_line(out, line)?;
    }
    Ok(())
}

// What is said of a range of these rows, whose file has this name.
fn line_of(alloc: Global, rows: &[(Path, Entry)], name: Digest) -> Result<RangeLine, NoMemory>
    requires some { 0 < length rows.now }
    requires few { length rows.now < 2 ^ 32 }
    requires named { name.0 ≡ sha256 (range_spelling rows.now) }
    ensures { IfOk result (λ line. line ≡ line_of rows.now) }
{
    Ok(RangeLine {
        name,
        rows: rows.len() as u32,
        first: rows[0].0.copy(alloc)?,
        last: rows[rows.len() - 1].0.copy(alloc)?,
    })
}

/// The spelling of a commit.
pub fn commit_bytes(alloc: Global, commit: &CommitRecord) -> Result<Vec<u8>, NoMemory>
    ensures spelled { IfOk result (λ bytes. bytes.items ≡ commit_spelling commit.now) }
    ensures limits { OnOk result (IsSpelledCommit commit.now) }
{
    let mut out = Vec::new(alloc);
    out.push(1)?;
    put_digest(&mut out, &commit.meta_range)?;
    out.extend_from_slice(&commit.generation.to_be_bytes())?;
    out.extend_from_slice(&commit.date.to_be_bytes())?;
    put_parents(&mut out, commit.parents.as_slice())?;
    put_text(&mut out, commit.committer.as_str().as_bytes())?;
    put_long_text(&mut out, commit.message.as_str().as_bytes())?;
    put_metadata(&mut out, &commit.metadata)?;
    Ok(out)
}

/// The files of the tree of a map: the metarange, and then the ranges in order, all within the limits of their
/// formats. A map of 2^32 paths or more, whose counts a file may not hold, is answered as out of memory.
pub fn files(alloc: Global, objects: &KeyMap, cut: &Cut) -> Result<Vec<Sequence<u8>>, NoMemory>
    requires { 0 < cut.now.modulus }
    ensures spelled { IfOk result (λ all. all.items ≡ files cut.now objects.now) }
    ensures limits { OnOk result (IsMetarange (map line_of (ranges cut.now (entries objects.now)))) }
    ensures each { OnOk result (AllByRecursion IsRange (ranges cut.now (entries objects.now))) }
    ensures few { OnOk result (len objects.now < 2 ^ 32) }
{
    let mut rest = objects.as_slice();
    if rest.len() >= 4294967296 {
        return Err(NoMemory);
    }
    let mut ranges = Vec::new(alloc);
    let mut lines = Vec::new(alloc);
    while !rest.is_empty() {
        let (range, left) = first_range(rest, cut);
        let bytes = range_bytes(alloc, range)?;
        lines.push(line_of(alloc, range, Digest::of(bytes.as_slice()))?)?;
        ranges.push(Sequence::of(bytes))?;
        rest = left;
    }
    let metarange = metarange_bytes(alloc, lines.as_slice())?;
    ranges.insert(0, Sequence::of(metarange))?;
    Ok(ranges)
}

/// The id of the tree of a map: the SHA-256 of its metarange. It is refused where `files` is.
pub fn tree_id(alloc: Global, objects: &KeyMap, cut: &Cut) -> Result<Digest, NoMemory>
    requires { 0 < cut.now.modulus }
    ensures id { IfOk result (λ id. id ≡ tree_id cut.now objects.now) }
    ensures few { OnOk result (len objects.now < 2 ^ 32) }
{
    let all = files(alloc, objects, cut)?;
    Ok(Digest::of(all[0].as_slice()))
}

/// The id of a commit: the SHA-256 of its bytes.
pub fn commit_id(alloc: Global, commit: &CommitRecord) -> Result<CommitId, NoMemory>
    ensures { IfOk result (λ id. id ≡ commit_id commit.now) }
{
    let bytes = commit_bytes(alloc, commit)?;
    Ok(Digest::of(bytes.as_slice()))
}

// Appends the ids of parents behind two bytes of count.
fn put_parents(out: &mut Vec<u8>, parents: &[Digest]) -> Result<(), NoMemory>
    requires { length parents.now < 2 ^ 16 }
    ensures spelled { OnOk result (out.new.items
        ≡ out.old.items ++ (to_be_bytes w16 (length parents.now) ++ flat_map (λ parent. parent.0) parents.now)) }
    ensures limits { OnOk result (AllByRecursion (λ parent. IsDigest parent.0) parents.now) }
{
    out.extend_from_slice(&(parents.len() as u16).to_be_bytes())?;
    for parent in parents {
        put_digest(out, parent)?;
    }
    Ok(())
}
