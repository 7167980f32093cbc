//! The rows of a range's file.
ghost use Rattle.std.specs.Prelude.{◌≡◌, List, [], length, Ok, IfOk};
ghost use Rattle.lake_format.specs.Spelling.{range_spelling, IsRange};
ghost use Rattle.range_file.specs.Rows.{RowValue};
ghost use Rattle.range_file.specs.RangeReading.{Answers, ReadsAs, read_next_path, read_row, read_rows, read_count};
ghost use Rattle.range_file.specs.RangeReading.{range_from};

use crate::fault::{RangeFault, fault_of};
use crate::rows::{Range, Row, is_above};
use lake_base::names::Path;
use lake_format::encoding::read_entry;
use lake_format::fields::{read_path, read_u32};
use std::alloc::Global;

/// The rows of which these bytes are the spelling. They are read from the left, and the first fault that is met is
/// answered: Version where the first byte isn't 1, Truncated where the input ends inside a field, Empty where the
/// count is 0, BadRow where a field of a row is outside its limits, Order where a path isn't above the one before,
/// which is tested once the path is read, and Trailing where bytes follow the last row.
pub fn decode(alloc: Global, bytes: &[u8]) -> Result<Range, RangeFault>
    // What is read is spelled so.
    ensures found { IfOk result (λ rows. IsRange rows × (bytes.now ≡ range_spelling rows)) }
    // What is spelled so is read, unless memory runs out.
    ensures only { (rows : List RowValue) → IsRange rows → bytes.now ≡ range_spelling rows
        → Answers result (Ok rows) }
    // Which fault it is.
    ensures exact { Answers result (range_from bytes.now) }
{
    let range = read_range(alloc, bytes)?;
    Ok(range)
}

// The rows, and nothing behind them.
#[tactic(auto, unfolding(crate::specs::RangeReading::range_from))]
fn read_range(alloc: Global, bytes: &[u8]) -> Result<Range, RangeFault>
    ensures { Answers result (range_from bytes.now) }
{
    let (count, rest) = read_count(bytes)?;
    let (rows, rest) = read_rows(alloc, rest, count, bytes.len())?;
    if !rest.is_empty() {
        return Err(RangeFault::Trailing(rest.len()));
    }
    Ok(Range::from_vec(rows))
}

// The version and the count of rows.
#[tactic(auto, unfolding(crate::specs::RangeReading::read_count))]
fn read_count(bytes: &[u8]) -> Result<(u32, &[u8]), RangeFault>
    ensures { ReadsAs (λ x. (x.0, x.1.now)) result (read_count (length bytes.now) bytes.now) }
{
    let [version, rest @ ..] = bytes else {
        return Err(RangeFault::Truncated(bytes.len()));
    };
    if *version != 1 {
        return Err(RangeFault::Version(*version));
    }
    let bad = RangeFault::Empty;
    let (count, rest) = read_u32(rest).map_err(|fault| fault_of(fault, bytes.len(), bad))?;
    if count == 0 {
        return Err(RangeFault::Empty);
    }
    Ok((count, rest))
}

// So many rows of an input of `len` bytes.
fn read_rows(
    alloc: Global,
    bytes: &[u8],
    count: u32,
    len: usize,
) -> Result<(Vec<Row>, &[u8]), RangeFault>
    ensures { ReadsAs (λ x. (x.0.items, x.1.now)) result (read_rows len count [] bytes.now) }
{
    let mut rows = Vec::new(alloc);
    let mut rest = bytes;
    for _ in 0..count {
        let (row, after) = read_row(alloc, rows.as_slice(), rest, len)?;
        rows.push(row)?;
        rest = after;
    }
    Ok((rows, rest))
}

// The row behind those before it, in an input of `len` bytes.
#[tactic(auto, unfolding(crate::specs::RangeReading::read_row))]
fn read_row<'a>(
    alloc: Global,
    before: &[Row],
    bytes: &'a [u8],
    len: usize,
) -> Result<(Row, &'a [u8]), RangeFault>
    ensures { ReadsAs (λ x. (x.0, x.1.now)) result (read_row len before.now bytes.now) }
{
    let (path, rest) = read_next_path(alloc, before, bytes, len)?;
    let bad = RangeFault::BadRow(before.len());
    let (entry, rest) = read_entry(alloc, rest).map_err(|fault| fault_of(fault, len, bad))?;
    Ok((Row { path, entry }, rest))
}

// The path of the row behind those before it, in an input of `len` bytes.
#[tactic(auto, unfolding(crate::specs::RangeReading::read_next_path))]
fn read_next_path<'a>(
    alloc: Global,
    before: &[Row],
    bytes: &'a [u8],
    len: usize,
) -> Result<(Path, &'a [u8]), RangeFault>
    ensures { ReadsAs (λ x. (x.0, x.1.now)) result (read_next_path len before.now bytes.now) }
{
    let bad = RangeFault::BadRow(before.len());
    let (path, rest) = read_path(alloc, bytes).map_err(|fault| fault_of(fault, len, bad))?;
    if !is_above(before, &path) {
        return Err(RangeFault::Order(before.len()));
    }
    Ok((path, rest))
}
