//! The metarange, the file that says of a tree's ranges which they are: the byte 1, the count of ranges in four bytes,
//! and of each range 32 bytes of name, its count of rows in four bytes, and its first and its last path, each behind
//! two bytes of length.
//!
//! The metarange of an empty map is `01 00000000`. Of the one range of `a` and `b`, it is `01 00000001`, 32 bytes of
//! the range's SHA-256, `00000002`, `0001 61` and `0001 62`.
ghost use Rattle.std.specs.Prelude.{◌≡◌, ◌++◌, ◌<◌, ◌^◌, ℕ, List, [], length, map, Ok, IfOk, OnOk, OnErr};
ghost use Rattle.std.specs.List.{AllByRecursion};
ghost use Rattle.lake_format.specs.Reading.{is_next};
ghost use Rattle.lake_format.specs.Spelling.{range_spelling, line_of, line_spelling, metarange_spelling, IsRange};
ghost use Rattle.lake_format.specs.Spelling.{IsMetarange, AreBytes};
ghost use Rattle.lake_format.specs.declared.range_line.RangeLine.{RangeLine as Line};
ghost use Rattle.meta_range.specs.Ranges.{AreRanges, metarange_of};
ghost use Rattle.meta_range.specs.Metarange.{ReadsAs, read_head, read_first, read_last, read_line, read_lines};
ghost use Rattle.meta_range.specs.Metarange.{read_count, last_of, metarange_from};

use crate::fault::{MetaFault, fault_of};
use crate::shared_range::SharedRange;
use lake_base::digest::Digest;
use lake_base::names::Path;
use lake_base::outside::NoMemory;
use lake_format::RangeLine;
use lake_format::fields::{put_digest, put_text, read_digest, read_path, read_u32};
use std::alloc::Global;
use std::cmp::Ordering;

// The metarange of ranges.
pub(crate) fn metarange_bytes(alloc: Global, ranges: &[SharedRange]) -> Result<Vec<u8>, NoMemory>
    requires { length ranges.now < 2 ^ 32 }
    ensures { IfOk result (λ bytes. bytes.items ≡ metarange_of ranges.now) }
{
    let mut out = Vec::new(alloc);
    out.push(1)?;
    out.extend_from_slice(&(ranges.len() as u32).to_be_bytes())?;
    for range in ranges {
        put_line(&mut out, range)?;
    }
    Ok(out)
}

// Appends what is said of a range. No row is copied for it.
fn put_line(out: &mut Vec<u8>, range: &SharedRange) -> Result<(), NoMemory>
    ensures { OnOk result (out.new.items ≡ out.old.items ++ line_spelling (line_of range.now)) }
{
    put_digest(out, &range.name())?;
    out.extend_from_slice(&(range.rows().len() as u32).to_be_bytes())?;
    put_text(out, range.first().as_slice())?;
    put_text(out, range.last().as_slice())?;
    Ok(())
}

/// What these bytes say of a tree's ranges. They are read from the left, and the first fault that is met is answered:
/// Version where the first byte isn't 1, Truncated where the input ends inside a field, BadRange where a count of
/// rows is 0, where a path isn't one, where a first path isn't above the last path before, and where a last path is
/// below the first, each once that field is read, and Trailing where bytes follow the last range.
pub fn read_metarange(alloc: Global, bytes: &[u8]) -> Result<Vec<RangeLine>, MetaFault>
    // What is read is spelled so.
    ensures found { IfOk result (λ lines.
        IsMetarange lines.items × (bytes.now ≡ metarange_spelling lines.items)) }
    // What is spelled so is read, unless memory runs out.
    ensures only { (lines : List Line) → IsMetarange lines → bytes.now ≡ metarange_spelling lines
        → ReadsAs (λ read. read.items) result (Ok lines) }
    // Which fault it is.
    ensures exact { ReadsAs (λ read. read.items) result (metarange_from bytes.now) }
{
    let lines = read_whole(alloc, bytes)?;
    Ok(lines)
}

/// What is spelled is read again. So no two lists of ranges share a spelling. What is read is spelled so. (A law: it
/// does nothing.)
pub fn laws_of_metaranges()
    ensures again { (lines : List Line) → IsMetarange lines
        → metarange_from (metarange_spelling lines) ≡ Ok lines }
    ensures apart { (lines others : List Line) → IsMetarange lines → IsMetarange others
        → metarange_spelling lines ≡ metarange_spelling others → lines ≡ others }
    ensures found { (bytes : List ℕ) (lines : List Line) → AreBytes bytes
        → metarange_from bytes ≡ Ok lines → IsMetarange lines × (bytes ≡ metarange_spelling lines) }
{}

// The ranges, and nothing behind them.
#[tactic(auto, unfolding(crate::specs::Metarange::metarange_from))]
fn read_whole(alloc: Global, bytes: &[u8]) -> Result<Vec<RangeLine>, MetaFault>
    ensures { ReadsAs (λ lines. lines.items) result (metarange_from bytes.now) }
{
    let (count, rest) = read_count(bytes)?;
    let (lines, rest) = read_lines(alloc, rest, count, bytes.len())?;
    if !rest.is_empty() {
        return Err(MetaFault::Trailing(rest.len()));
    }
    Ok(lines)
}

// The version and the count of ranges.
#[tactic(auto, unfolding(crate::specs::Metarange::read_count))]
fn read_count(bytes: &[u8]) -> Result<(u32, &[u8]), MetaFault>
    ensures { ReadsAs (λ x. (x.0, x.1.now)) result (read_count (length bytes.now) bytes.now) }
{
    let [version, rest @ ..] = bytes else {
        return Err(MetaFault::Truncated(bytes.len()));
    };
    if *version != 1 {
        return Err(MetaFault::Version(*version));
    }
    read_u32(rest).map_err(|fault| fault_of(fault, bytes.len(), 0))
}

// What is said of so many ranges, in an input of `len` bytes.
fn read_lines(
    alloc: Global,
    bytes: &[u8],
    count: u32,
    len: usize,
) -> Result<(Vec<RangeLine>, &[u8]), MetaFault>
    ensures { ReadsAs (λ x. (x.0.items, x.1.now)) result (read_lines len count [] bytes.now) }
{
    let mut lines = Vec::new(alloc);
    let mut rest = bytes;
    for _ in 0..count {
        let (line, after) = read_line(alloc, lines.as_slice(), rest, len)?;
        lines.push(line)?;
        rest = after;
    }
    Ok((lines, rest))
}

// What is said of the range behind those before it, in an input of `len` bytes.
#[tactic(auto, unfolding(crate::specs::Metarange::read_line))]
fn read_line<'a>(
    alloc: Global,
    before: &[RangeLine],
    bytes: &'a [u8],
    len: usize,
) -> Result<(RangeLine, &'a [u8]), MetaFault>
    ensures { ReadsAs (λ x. (x.0, x.1.now)) result (read_line len before.now bytes.now) }
{
    let at = before.len();
    let ((name, rows), rest) = read_head(bytes, at, len)?;
    let (first, rest) = read_first(alloc, before, rest, len)?;
    let (last, rest) = read_last(alloc, &first, rest, at, len)?;
    let line = RangeLine {
        name,
        rows,
        first,
        last,
    };
    Ok((line, rest))
}

// The name of range `at`, and its count of rows.
#[tactic(auto, unfolding(crate::specs::Metarange::read_head))]
fn read_head(bytes: &[u8], at: usize, len: usize) -> Result<((Digest, u32), &[u8]), MetaFault>
    ensures { ReadsAs (λ x. (x.0, x.1.now)) result (read_head len at bytes.now) }
{
    let (name, rest) = read_digest(bytes).map_err(|fault| fault_of(fault, len, at))?;
    let (rows, rest) = read_u32(rest).map_err(|fault| fault_of(fault, len, at))?;
    if rows == 0 {
        return Err(MetaFault::BadRange(at));
    }
    Ok(((name, rows), rest))
}

// The first path of the range behind those before it.
#[tactic(auto, unfolding(crate::specs::Metarange::read_first))]
fn read_first<'a>(
    alloc: Global,
    before: &[RangeLine],
    bytes: &'a [u8],
    len: usize,
) -> Result<(Path, &'a [u8]), MetaFault>
    ensures { ReadsAs (λ x. (x.0, x.1.now)) result (read_first len before.now bytes.now) }
{
    let at = before.len();
    let (path, rest) = read_path(alloc, bytes).map_err(|fault| fault_of(fault, len, at))?;
    if !is_above(before, &path) {
        return Err(MetaFault::BadRange(at));
    }
    Ok((path, rest))
}

// The last path of range `at`.
#[tactic(auto, unfolding(crate::specs::Metarange::read_last))]
fn read_last<'a>(
    alloc: Global,
    first: &Path,
    bytes: &'a [u8],
    at: usize,
    len: usize,
) -> Result<(Path, &'a [u8]), MetaFault>
    ensures { ReadsAs (λ x. (x.0, x.1.now)) result (read_last len at first.now bytes.now) }
{
    let (path, rest) = read_path(alloc, bytes).map_err(|fault| fault_of(fault, len, at))?;
    if first.cmp(&path) == Ordering::Greater {
        return Err(MetaFault::BadRange(at));
    }
    Ok((path, rest))
}

// Whether the path is above the last path of these ranges.
fn is_above(before: &[RangeLine], path: &Path) -> bool
    ensures { result ≡ is_next (last_of before.now) path.now }
{
    match before.last() {
        None => true,
        Some(line) => line.last.cmp(path) == Ordering::Less,
    }
}
