//! The rows of a tree, one after the other.
ghost use Rattle.std.specs.Prelude.{◌≡◌, ◌++◌, ◌∷◌, [], List, MatchOption, IfSome, option_copied};
ghost use Rattle.std.specs.List.{AllByRecursion};
ghost use Rattle.lake_format.specs.Spelling.{IsRange};
ghost use Rattle.std.specs.FinMap.{entries};
ghost use Rattle.lake_base.specs.Maps.{HasAscendingKeys};
ghost use Rattle.lake_values.specs.Cursor.{entries_from};
ghost use Rattle.meta_range.specs.Ranges.{rows_of, rows_above, AreLeft};

use crate::shared_range::SharedRange;
use crate::tree::Tree;
use lake_base::names::Path;
use lake_values::cursor::{EntriesLeft, EntryCursor, is_below};
use lake_values::entry::Entry;
use range_file::Row;
use std::marker::Model;

/// Rows of a tree that are still to come, in ascending order of path. Contracts see their list.
#[derive(Debug, Drop)]
pub struct Cursor<'a> {
    // Those of the range in which the cursor stands.
    rows: &'a [Row],
    // The ranges after it.
    ranges: &'a [SharedRange],
}

impl<'a> Model for Cursor<'a> {
    ghost use Rattle.std.specs.Prelude.{List, ◌++◌};
    ghost use Rattle.range_file.specs.Rows.{RowValue};
    ghost use Rattle.meta_range.specs.Ranges.{rows_of, AreLeft};

    ghost Value = { List RowValue };

    ghost view = { λ cursor. cursor.rows.now ++ rows_of cursor.ranges.now };

    ghost invariant = { λ cursor. AreLeft cursor.rows.now cursor.ranges.now };
}

impl Tree {
    /// A cursor over its rows: those above a path, or all. It takes no memory.
    pub fn seek(&self, after: Option<&Path>) -> Cursor<'_>
        ensures { result ≡ rows_above (option_copied after.entry) (entries self.now.map) }
    {
        let mut cursor = self.cursor();
        if let Some(path) = after {
            cursor.seek(path.as_slice());
            cursor.pass(path);
        }
        cursor
    }

    // A cursor over all of its rows.
    pub(crate) fn cursor(&self) -> Cursor<'_>
        ensures { result ≡ entries self.now.map }
    {
        Cursor {
            rows: &[],
            ranges: self.ranges(),
        }
    }
}

impl<'a> Cursor<'a> {
    // Passes over the row at a path below which none is left.
    fn pass(&mut self, path: &Path)
        requires { entries_from path.now self.old ≡ self.old }
        ensures { self.new ≡ rows_above (Some path.now) self.old }
    {
        let Some((row, rows, ranges)) = first_row(self.rows, self.ranges) else {
            return;
        };
        if row.path == *path {
            self.rows = rows;
            self.ranges = ranges;
        }
    }
}

impl<'a> EntriesLeft for Cursor<'a> {
    ghost left = { λ cursor. cursor };
}

impl<'a> EntryCursor<'a> for Cursor<'a> {
    fn next(&mut self) -> Option<(&'a Path, &'a Entry)> {
        let (row, rows, ranges) = first_row(self.rows, self.ranges)?;
        self.rows = rows;
        self.ranges = ranges;
        Some((&row.path, &row.entry))
    }

    fn seek(&mut self, least: &[u8]) {
        let (rows, ranges) = skipped(self.rows, self.ranges, least);
        self.rows = rows;
        self.ranges = ranges;
    }
}

// The first of rows and of the ranges after them, and what follows it.
fn first_row<'a>(
    rows: &'a [Row],
    ranges: &'a [SharedRange],
) -> Option<(&'a Row, &'a [Row], &'a [SharedRange])>
    requires { AreLeft rows.now ranges.now }
    ensures row { MatchOption result (rows.now ++ rows_of ranges.now ≡ [])
        (λ x. rows.now ++ rows_of ranges.now ≡ x.0.now ∷ (x.1.now ++ rows_of x.2.now)) }
    ensures left { IfSome result (λ x. AreLeft x.1.now x.2.now) }
{
    if let Some((row, rows)) = rows.split_first() {
        return Some((row, rows, ranges));
    }
    let (range, ranges) = ranges.split_first()?;
    let (row, rows) = range.rows().split_first()?;
    Some((row, rows, ranges))
}

// What is left of rows and of the ranges after them once the paths below these bytes are passed.
fn skipped<'a>(
    rows: &'a [Row],
    ranges: &'a [SharedRange],
    least: &[u8],
) -> (&'a [Row], &'a [SharedRange])
    requires { AreLeft rows.now ranges.now }
    ensures from { result.0.now ++ rows_of result.1.now
        ≡ entries_from least.now (rows.now ++ rows_of ranges.now) }
    ensures left { AreLeft result.0.now result.1.now }
{
    let rows = rows_from(rows, least);
    if !rows.is_empty() {
        return (rows, ranges);
    }
    ranges_from(ranges, least)
}

// What is left of ranges once the paths below these bytes are passed: rows of one range, and the ranges after it.
fn ranges_from<'a>(ranges: &'a [SharedRange], least: &[u8]) -> (&'a [Row], &'a [SharedRange])
    requires ascend { HasAscendingKeys (rows_of ranges.now) }
    requires each { AllByRecursion IsRange ranges.now }
    ensures from { result.0.now ++ rows_of result.1.now
        ≡ entries_from least.now (rows_of ranges.now) }
    ensures each { AllByRecursion IsRange result.1.now }
{
    let at = ranges.partition_point(|range| range.is_all_below(least));
    let ranges = ranges.split_at(at).1;
    match ranges.split_first() {
        None => (&[], ranges),
        Some((range, after)) => (rows_from(range.rows(), least), after),
    }
}

// The rows whose paths aren't below these bytes.
fn rows_from<'a>(rows: &'a [Row], least: &[u8]) -> &'a [Row]
    requires { HasAscendingKeys rows.now }
    ensures { result.now ≡ entries_from least.now rows.now }
{
    let at = rows.partition_point(|row| is_below(row.path.as_slice(), least));
    rows.split_at(at).1
}
