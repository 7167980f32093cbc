//! A range that trees share.
ghost use Rattle.std.specs.Prelude.{◌≡◌, ◌<◌, ◌-◌, ◌^◌, length, IfOk, OnOk};
ghost use Rattle.std.specs.Ordering.{is_lt};
ghost use Rattle.lake_base.specs.Maps.{HasAscendingKeys, byte_order};
ghost use Rattle.lake_format.specs.Spelling.{range_spelling, path_at, file_name, IsRange};
ghost use Rattle.range_file.specs.Rows.{AreRows};
ghost use Rattle.lake_values.specs.Sameness.{same_row};
ghost use Rattle.meta_range.specs.Files.{file_of};
ghost use Rattle.meta_range.specs.RangeNames.{same_rows};

use crate::file::File;
use lake_base::copying::TryCopy;
use lake_base::digest::Digest;
use lake_base::names::Path;
use lake_base::outside::NoMemory;
use lake_base::sequence::Sequence;
use lake_values::cursor::is_below;
use lake_values::entry::{Entry, same_entry};
use range_file::{Range, Row, encode};
use std::alloc::Global;
use std::marker::Model;
use std::sync::Arc;

/// A range that trees share, and the name of its file. Contracts see the list of its rows.
#[derive(Debug, Drop)]
pub(crate) struct SharedRange {
    // The SHA-256 of its file, taken once.
    name: Digest,
    rows: Arc<Range, Global>,
}

impl Model for SharedRange {
    ghost use Rattle.std.specs.Prelude.{◌≡◌, List};
    ghost use Rattle.lake_format.specs.Spelling.{range_spelling, file_name, IsRange};
    ghost use Rattle.range_file.specs.Rows.{RowValue};

    ghost Value = { List RowValue };

    ghost view = { λ range. range.rows.value };

    ghost invariant = { λ range. IsRange range.rows.value
        × (range.name ≡ file_name (range_spelling range.rows.value)) };
}

impl SharedRange {
    /// The range of these rows. Its file is built once, for its name.
    pub(crate) fn of(alloc: Global, rows: Range) -> Result<SharedRange, NoMemory>
        ensures rows { IfOk result (λ range. range ≡ rows) }
        ensures limits { OnOk result (IsRange rows) }
    {
        let file = encode(alloc, rows.rows())?;
        SharedRange::named(alloc, Digest::of(file.as_slice()), rows)
    }

    /// The range of these rows, whose file has this name.
    pub(crate) fn named(alloc: Global, name: Digest, rows: Range) -> Result<SharedRange, NoMemory>
        requires valid { IsRange rows }
        requires named { name ≡ file_name (range_spelling rows) }
        ensures { IfOk result (λ range. range ≡ rows) }
    {
        Ok(SharedRange {
            name,
            rows: Arc::new(alloc, rows)?,
        })
    }

    /// The same range, shared.
    pub(crate) fn share(&self) -> Result<SharedRange, NoMemory>
        ensures { IfOk result (λ range. range ≡ self.now) }
    {
        Ok(SharedRange {
            name: self.name,
            rows: self.rows.clone()?,
        })
    }

    /// The range of copies of these rows.
    pub(crate) fn copy_of(alloc: Global, rows: &[(Path, Entry)]) -> Result<SharedRange, NoMemory>
        requires some { 0 < length rows.now }
        requires few { length rows.now < 2 ^ 32 }
        requires ascend { HasAscendingKeys rows.now }
        ensures rows { IfOk result (λ range. range ≡ rows.now) }
        ensures limits { OnOk result (IsRange rows.now) }
    {
        let mut copies = Vec::with_capacity(alloc, rows.len())?;
        for (path, entry) in rows {
            copies.push(Row {
                path: path.copy(alloc)?,
                entry: entry.copy(alloc)?,
            })?;
        }
        SharedRange::of(alloc, Range::from_vec(copies))
    }

    /// Its rows, in order of path.
    pub(crate) fn rows(&self) -> &[Row]
        ensures rows { result.now ≡ self.now }
        ensures valid { IsRange self.now }
    {
        let range: &Range = &self.rows;
        range.rows()
    }

    /// The name of its file.
    pub(crate) fn name(&self) -> Digest
        ensures { result ≡ file_name (range_spelling self.now) }
    {
        self.name
    }

    /// Its file.
    pub(crate) fn file(&self, alloc: Global) -> Result<File, NoMemory>
        ensures { IfOk result (λ file. file ≡ file_of (range_spelling self.now)) }
    {
        Ok(File {
            name: self.name,
            bytes: Sequence::of(encode(alloc, self.rows())?),
        })
    }

    /// Its first path.
    pub(crate) fn first(&self) -> &Path
        ensures { result.now ≡ path_at self.now 0 }
    {
        let first = &self.rows()[0];
        &first.path
    }

    /// Its last path.
    pub(crate) fn last(&self) -> &Path
        ensures { result.now ≡ path_at self.now (length self.now - 1) }
    {
        let rows = self.rows();
        let last = &rows[rows.len() - 1];
        &last.path
    }

    /// Whether all of its paths are below these bytes.
    pub(crate) fn is_all_below(&self, least: &[u8]) -> bool
        ensures { result ≡ is_lt (byte_order (path_at self.now (length self.now - 1)) least.now) }
    {
        is_below(self.last().as_slice(), least)
    }

    /// Whether the other range has the same rows.
    pub(crate) fn has_rows_of(&self, other: &SharedRange) -> bool
        ensures { result ≡ same_rows self.now other.now }
    {
        same_rows(self.rows(), other.rows())
    }
}

// Whether rows are the same.
fn same_rows(rows: &[Row], others: &[Row]) -> bool
    ensures { result ≡ same_rows rows.now others.now }
{
    if rows.len() != others.len() {
        return false;
    }
    for (at, row) in rows.iter().enumerate() {
        if !same_row(row, &others[at]) {
            return false;
        }
    }
    true
}

// Whether a path and its entry are the same.
fn same_row(row: &Row, other: &Row) -> bool
    ensures { result ≡ same_row row.now other.now }
{
    row.path == other.path && same_entry(&row.entry, &other.entry)
}
