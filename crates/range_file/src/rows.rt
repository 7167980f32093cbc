//! Rows, and the rows of a range.
ghost use Rattle.std.specs.Prelude.{◌≡◌, ◌↔◌, IsTrue};
ghost use Rattle.lake_base.specs.Maps.{HasAscendingKeys};
ghost use Rattle.lake_format.specs.Reading.{is_next};
ghost use Rattle.range_file.specs.Rows.{AreRows, last_path};

use lake_base::copying::{TryCopy, copied};
use lake_base::names::Path;
use lake_base::outside::NoMemory;
use lake_values::entry::Entry;
use std::alloc::Global;
use std::cmp::Ordering;
use std::marker::Model;

/// A path, and the entry at it. Contracts see the pair.
#[derive(Debug, Drop)]
pub struct Row {
    pub path: Path,
    pub entry: Entry,
}

impl Model for Row {
    ghost use Rattle.range_file.specs.Rows.{RowValue};

    ghost Value = { RowValue };

    ghost view = { λ row. (row.path, row.entry) };
}

impl TryCopy for Row {
    fn copy(&self, alloc: Global) -> Result<Row, NoMemory> {
        Ok(Row {
            path: self.path.copy(alloc)?,
            entry: self.entry.copy(alloc)?,
        })
    }
}

/// The rows of a range: at least one, fewer than 2^32, paths strictly ascending. Contracts see the list of its
/// rows.
#[derive(Debug, Drop)]
pub struct Range {
    rows: Vec<Row>,
}

impl Model for Range {
    ghost use Rattle.std.specs.Prelude.{List};
    ghost use Rattle.range_file.specs.Rows.{RowValue, AreRows};

    ghost Value = { List RowValue };

    ghost view = { λ range. range.rows.items };

    ghost invariant = { λ range. AreRows range.rows.items };
}

impl Range {
    /// The rows, in order of path. It takes no memory.
    pub fn rows(&self) -> &[Row]
        ensures rows { result.now ≡ self.now }
        ensures valid { AreRows self.now }
    {
        self.rows.as_slice()
    }

    /// The range of these rows: `are_rows` tells whether they can be those of one. It takes no memory.
    pub fn from_vec(rows: Vec<Row>) -> Range
        requires { AreRows rows.items }
        ensures { result ≡ rows.items }
    {
        Range { rows }
    }

    /// The vector of the rows, in order of path. It takes no memory.
    pub fn into_vec(self) -> Vec<Row>
        ensures rows { result.items ≡ self }
        ensures valid { AreRows result.items }
    {
        self.rows
    }
}

impl TryCopy for Range {
    fn copy(&self, alloc: Global) -> Result<Range, NoMemory> {
        let rows = copied(alloc, self.rows())?;
        Ok(Range::from_vec(rows))
    }
}

/// Whether these can be the rows of a range: at least one, fewer than 2^32, paths strictly ascending. It takes no
/// memory.
pub fn are_rows(rows: &[Row]) -> bool
    ensures { IsTrue result ↔ AreRows rows.now }
{
    !rows.is_empty() && rows.len() <= u32::MAX as usize && have_ascending_paths(rows)
}

// Whether the paths strictly ascend.
fn have_ascending_paths(rows: &[Row]) -> bool
    ensures { IsTrue result ↔ HasAscendingKeys rows.now }
{
    for (at, row) in rows.iter().enumerate() {
        if !is_above(&rows[..at], &row.path) {
            return false;
        }
    }
    true
}

// Whether the path is above that of the last of the rows.
pub(crate) fn is_above(rows: &[Row], path: &Path) -> bool
    ensures { result ≡ is_next (last_path rows.now) path.now }
{
    match rows.last() {
        None => true,
        Some(last) => last.path.cmp(path) == Ordering::Less,
    }
}
