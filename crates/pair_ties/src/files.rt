//! The ties of metaranges and ranges.
ghost use Rattle.std.specs.Prelude.{◌≡◌, ◌↔◌, IfOk, IsTrue};
ghost use Rattle.std.specs.Result.{result_ok};
ghost use Rattle.range_file.specs.RangeReading.{range_from};
ghost use Rattle.std.specs.List.{AllByRecursion};
ghost use Rattle.pair_format.specs.declared.stored.Stored.TheVariants as stored;
ghost use Rattle.pair_trees.specs.Tables.{AreTablesOf};
ghost use Rattle.pair_ties.specs.Tested.{IsSound};
ghost use Rattle.pair_trees.specs.Things.{Spells};
ghost use Rattle.pair_ties.specs.PairTies.{IsTiedMetaRange, IsTiedRange};

use crate::given::is_given_number;
use lake_base::{Digest, NoMemory};
use lake_values::{Entry, Place};
use pair_format::StoredKey;
use pair_trees::{SpelledPairs, Tables, range_of};
use range_file::{Range, RangeFault, Row, decode};
use std::alloc::Global;

// Whether the metarange at a place is tied.
pub(crate) fn is_tied_metarange(
    alloc: Global,
    pairs: &SpelledPairs,
    tables: &Tables,
    at: usize,
    name: &Digest,
    bytes: &[u8],
) -> Result<bool, NoMemory>
    requires here { Spells pairs.now at (stored.MetaRange name.now bytes.now) }
    requires tables { AreTablesOf pairs.now tables.now }
    ensures { IfOk result (λ tied. IsTrue tied ↔ IsTiedMetaRange tables.now.cut pairs.now name.now bytes.now) }
{
    let _ = at;
    let _ = pairs.as_slice();
    if !tables.metaranges.contains_key(name) {
        return Ok(true);
    }
    if !tables.ranges.contains_key(name) {
        return Ok(true);
    }
    match range_of(alloc, pairs, name)? {
        Some(other) => Ok(other.as_slice() == bytes),
        None => Ok(true),
    }
}

// Whether the range at a place is tied: where no tree that is read has it, it is.
pub(crate) fn is_tied_range(
    alloc: Global,
    pairs: &SpelledPairs,
    tables: &Tables,
    at: usize,
    name: &Digest,
    bytes: &[u8],
) -> Result<bool, NoMemory>
    requires here { Spells pairs.now at (stored.Range name.now bytes.now) }
    requires tables { AreTablesOf pairs.now tables.now }
    ensures { IfOk result (λ tied. IsTrue tied ↔ IsTiedRange tables.now.cut pairs.now name.now bytes.now) }
{
    let _ = at;
    let _ = pairs.as_slice();
    if !tables.ranges.contains_key(name) {
        return Ok(true);
    }
    let live = tables.live_ranges.contains_key(name);
    match range_in(alloc, bytes)? {
        Some(range) => are_given(alloc, pairs, tables, range.rows(), live),
        None => Ok(true),
    }
}

// The range that these bytes are.
fn range_in(alloc: Global, bytes: &[u8]) -> Result<Option<Range>, NoMemory>
    ensures { IfOk result (λ range. range ≡ result_ok (range_from bytes.now)) }
{
    match decode(alloc, bytes) {
        Ok(range) => Ok(Some(range)),
        Err(RangeFault::NoMemory) => Err(NoMemory),
        Err(_) => Ok(None),
    }
}

// Whether the own numbers of rows were given out and, where a live commit has them, none of them is gone.
fn are_given(
    alloc: Global,
    pairs: &SpelledPairs,
    tables: &Tables,
    rows: &[Row],
    live: bool,
) -> Result<bool, NoMemory>
    requires { AreTablesOf pairs.now tables.now }
    ensures { IfOk result (λ given. IsTrue given
        ↔ AllByRecursion (λ row. IsSound pairs.now live row.1.place) rows.now) }
{
    for row in rows {
        if !is_sound(alloc, pairs, tables, &row.entry, live)? {
            return Ok(false);
        }
    }
    Ok(true)
}

// So it is with the number of an entry, if it has one.
fn is_sound(
    alloc: Global,
    pairs: &SpelledPairs,
    tables: &Tables,
    entry: &Entry,
    live: bool,
) -> Result<bool, NoMemory>
    requires { AreTablesOf pairs.now tables.now }
    ensures { IfOk result (λ sound. IsTrue sound ↔ IsSound pairs.now live entry.now.place) }
{
    match &entry.place {
        Place::Own { number, .. } => {
            if !is_given_number(pairs, tables, *number) {
                return Ok(false);
            }
            if !live {
                return Ok(true);
            }
            Ok(!pairs.has(alloc, &StoredKey::Gone { number: *number })?)
        }
        Place::External { .. } => Ok(true),
    }
}
