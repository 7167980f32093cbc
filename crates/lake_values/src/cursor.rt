//! Entries at paths, taken one by one in ascending order of path. A page and a merge are walks over such cursors,
//! whatever keeps the entries: a slice, a tree, or changes that stand over either.
ghost use Rattle.std.specs.Prelude.{◌≡◌, ℕ, List, [], ◌∷◌, MatchOption};
ghost use Rattle.std.specs.FinMap.{entries};
ghost use Rattle.std.specs.Ordering.{is_lt};
ghost use Rattle.lake_values.specs.Entry.{EntryValue};
ghost use Rattle.lake_base.specs.Maps.{HasAscendingKeys, byte_order};
ghost use Rattle.lake_values.specs.Cursor.{entries_from};

use crate::entry::Entry;
use crate::key_map::KeyMap;
use lake_base::names::Path;
use std::cmp::Ordering;

/// Entries at paths, some of which are still to come. Contracts see these, by the ghost member `left`. It stands in a
/// trait without a lifetime, so that a type that holds a cursor can say in its invariant what the cursor has left.
pub trait EntriesLeft: Drop {
    /// The entries still to come.
    ghost left: { Self → List (List ℕ × EntryValue) };
}

/// A cursor that gives such entries, in ascending order of path: each call tells so.
pub trait EntryCursor<'a>: EntriesLeft {
    /// The entry that comes next, which is passed. It takes no memory.
    fn next(&mut self) -> Option<(&'a Path, &'a Entry)>
        ensures entry { MatchOption result
            ((Self.left self.old ≡ []) × (Self.left self.new ≡ []))
            (λ entry. Self.left self.old ≡ (entry.0.now, entry.1.now) ∷ Self.left self.new) }
        ensures ascend { HasAscendingKeys (Self.left self.old) };

    /// Passes over the entries at paths below these bytes. It takes no memory.
    fn seek(&mut self, least: &[u8])
        ensures from { Self.left self.new ≡ entries_from least.now (Self.left self.old) }
        ensures ascend { HasAscendingKeys (Self.left self.old) };
}

/// A cursor over a slice of entries whose paths ascend.
#[derive(Debug, Drop)]
pub struct SliceCursor<'a> {
    /// The entries still to come.
    pub rest: &'a [(Path, Entry)],
    ghost ascend: { HasAscendingKeys rest.now },
}

impl<'a> SliceCursor<'a> {
    /// A cursor over all of these entries. It takes no memory.
    pub fn new(entries: &'a [(Path, Entry)]) -> SliceCursor<'a>
        requires { HasAscendingKeys entries.now }
        ensures { result.rest.now ≡ entries.now }
    {
        SliceCursor { rest: entries }
    }
}

impl KeyMap {
    /// A cursor over its entries. It takes no memory.
    pub fn cursor(&self) -> SliceCursor<'_>
        ensures { result.rest.now ≡ entries self.now }
    {
        SliceCursor::new(self.as_slice())
    }
}

impl<'a> EntriesLeft for SliceCursor<'a> {
    ghost left = { λ cursor. cursor.rest.now };
}

impl<'a> EntryCursor<'a> for SliceCursor<'a> {
    fn next(&mut self) -> Option<(&'a Path, &'a Entry)> {
        let (row, rest) = self.rest.split_first()?;
        self.rest = rest;
        Some((&row.0, &row.1))
    }

    fn seek(&mut self, least: &[u8]) {
        let at = self
            .rest
            .partition_point(|row| is_below(row.0.as_slice(), least));
        self.rest = self.rest.split_at(at).1;
    }
}

/// Whether bytes stand before others in byte order. It takes no memory.
pub fn is_below(bytes: &[u8], others: &[u8]) -> bool
    ensures { result ≡ is_lt (byte_order bytes.now others.now) }
{
    matches!(bytes.cmp(others), Ordering::Less)
}
