//! Segments: runs of rows that end with a break key or at the end, with no break key before. The ranges of rows
//! are those of their segments, each cut alone (`law_of_segments`).
//!
//! As an example, where `50` and `nq` are break keys, the paths `50`, `a`, `nq`, `z` have the segments
//!
//! ```text
//! [50] [a nq] [z]
//! ```
//!
//! Without `nq` they are [50] and [a z]: [50] is carried over, and [a z], which follows the same path as [a nq]
//! did but has other rows, is changed.
ghost use Rattle.std.specs.Prelude.{◌≡◌, ◌<◌, ◌∷◌, ℕ, List, length, Option, option_copied};
ghost use Rattle.std.specs.Cmp.Lexicographic.{pointwise};
ghost use Rattle.std.specs.List.{flat_map, list_any};
ghost use Rattle.lake_format.specs.declared.cut.Cut.{Cut as AnyCut};
ghost use Rattle.lake_values.specs.Entry.{EntryValue};
ghost use Rattle.lake_values.specs.Sameness.{same_row};
ghost use Rattle.lake_format.specs.Cutting.{ranges, segments, last_path, placed_segments, same_before, same_segment};
ghost use Rattle.lake_format.specs.Cutting.{changed_ranges};

use lake_base::names::Path;
use lake_format::cut::{Cut, first_range, is_break};
use lake_values::entry::{Entry, same_entry};

/// The first segment of these rows, and the rows after it: up to and with the first break key, or all of them
/// where there is none. There is at least one row. It takes no memory.
pub fn first_segment<'a>(
    rows: &'a [(Path, Entry)],
    cut: &Cut,
) -> (&'a [(Path, Entry)], &'a [(Path, Entry)])
    requires modulus { 0 < cut.now.modulus }
    requires some { 0 < length rows.now }
    ensures { segments cut.now rows.now ≡ result.0.now ∷ segments cut.now result.1.now }
{
    for (at, row) in rows.iter().enumerate() {
        if is_break(&row.0, cut) {
            return rows.split_at(at + 1);
        }
    }
    rows.split_at(rows.len())
}

/// The ranges of rows are those of their segments, one segment after the other: no range crosses a break key.
/// (A law: it does nothing.)
pub fn law_of_segments()
    ensures whole { (cut : AnyCut) (rows : List (List ℕ × EntryValue))
        → flat_map (λ segment. segment) (segments cut rows) ≡ rows }
    ensures ranges { (cut : AnyCut) (rows : List (List ℕ × EntryValue))
        → ranges cut rows ≡ flat_map (ranges cut) (segments cut rows) }
{}

/// How many ranges the new rows have in segments that aren't carried over from the old ones. A segment is carried
/// over where the old rows have a segment of equal rows, and both come first or follow the same path. It looks
/// at each pair of segments. It takes no memory.
pub fn changed_ranges(old: &[(Path, Entry)], new: &[(Path, Entry)], cut: &Cut) -> usize
    requires { 0 < cut.now.modulus }
    ensures { result ≡ changed_ranges cut.now old.now new.now }
{
    let mut count = 0;
    let mut before = None;
    let mut rest = new;
    while !rest.is_empty() {
        let (segment, left) = first_segment(rest, cut);
        if !is_carried(old, before, segment, cut) {
            count += range_count(segment, cut);
        }
        before = last_path(before, segment);
        rest = left;
    }
    count
}

// Whether the old rows have a segment of these rows that follows the same path.
fn is_carried(
    old: &[(Path, Entry)],
    before: Option<&Path>,
    segment: &[(Path, Entry)],
    cut: &Cut,
) -> bool
    requires { 0 < cut.now.modulus }
    ensures { result
        ≡ list_any (same_segment (option_copied before.entry, segment.now)) (placed_segments cut.now old.now) }
{
    let mut other_before = None;
    let mut rest = old;
    while !rest.is_empty() {
        let (other, left) = first_segment(rest, cut);
        if same_before(before, other_before) && same_rows(segment, other) {
            return true;
        }
        other_before = last_path(other_before, other);
        rest = left;
    }
    false
}

// How many ranges rows are cut into.
fn range_count(rows: &[(Path, Entry)], cut: &Cut) -> usize
    requires { 0 < cut.now.modulus }
    ensures { result ≡ length (ranges cut.now rows.now) }
{
    let mut count = 0;
    let mut rest = rows;
    while !rest.is_empty() {
        rest = first_range(rest, cut).1;
        count += 1;
    }
    count
}

// The path of the last row; the one before where there is no row.
fn last_path<'a>(before: Option<&'a Path>, rows: &'a [(Path, Entry)]) -> Option<&'a Path>
    ensures { option_copied result ≡ last_path (option_copied before.entry) rows.now }
{
    match rows.last() {
        Some(row) => Some(&row.0),
        None => before,
    }
}

// Whether both come first, or follow the same path.
fn same_before(before: Option<&Path>, other: Option<&Path>) -> bool
    ensures { result ≡ same_before (option_copied before.entry) (option_copied other.entry) }
{
    match (before, other) {
        (None, None) => true,
        (Some(path), Some(other)) => path.as_slice() == other.as_slice(),
        _ => false,
    }
}

// Whether rows are equal.
fn same_rows(rows: &[(Path, Entry)], others: &[(Path, Entry)]) -> bool
    ensures { result ≡ pointwise same_row rows.now others.now }
{
    if rows.len() != others.len() {
        return false;
    }
    for (at, row) in rows.iter().enumerate() {
        if !same_row(row, &others[at]) {
            return false;
        }
    }
    true
}

// Whether a path and its entry are equal.
fn same_row(row: &(Path, Entry), other: &(Path, Entry)) -> bool
    ensures { result ≡ same_row row.now other.now }
{
    row.0.as_slice() == other.0.as_slice() && same_entry(&row.1, &other.1)
}
