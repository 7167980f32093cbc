//! Entries that a cursor still has, the first of them at hand, so that it can be looked at before it is passed.
ghost use Rattle.std.specs.Prelude.{◌≡◌, []};
ghost use Rattle.lake_base.specs.Maps.{HasAscendingKeys};
ghost use Rattle.branch_record.specs.Layers.{begins_below, rows_below, rows_above};

use lake_base::names::Path;
use lake_values::cursor::{EntriesLeft, EntryCursor, is_below};
use lake_values::entry::Entry;
use std::marker::Model;

// Entries in ascending order of path. Contracts see their list.
#[derive(Drop)]
pub(crate) struct Ahead<'a, C: EntriesLeft> {
    first: Option<(&'a Path, &'a Entry)>,
    after: C,
}

impl<'a, C: EntriesLeft> Model for Ahead<'a, C> {
    ghost use Rattle.std.specs.Prelude.{List, ℕ};
    ghost use Rattle.lake_base.specs.Maps.{HasAscendingKeys};
    ghost use Rattle.lake_values.specs.Entry.{EntryValue};
    ghost use Rattle.branch_record.specs.Layers.{rows_ahead};

    ghost Value = { List (List ℕ × EntryValue) };

    ghost view = { λ ahead. rows_ahead ahead.first (C.left ahead.after) };

    ghost invariant = { λ ahead. HasAscendingKeys (rows_ahead ahead.first (C.left ahead.after)) };
}

impl<'a, C: EntryCursor<'a>> Ahead<'a, C> {
    // Those that a cursor still has.
    pub(crate) fn new(mut cursor: C) -> Ahead<'a, C>
        ensures same { result ≡ C.left cursor }
        ensures ascend { HasAscendingKeys result }
    {
        let first = cursor.next();
        Ahead {
            first,
            after: cursor,
        }
    }

    // Whether the first stands below a path.
    pub(crate) fn begins_below(&self, path: &Path) -> bool
        ensures below { result ≡ begins_below path.now self.now }
        ensures ascend { HasAscendingKeys self.now }
    {
        match self.first {
            Some((first, _)) => is_below(first.as_slice(), path.as_slice()),
            None => false,
        }
    }

    // Passes over the entry at a path below which none is left.
    pub(crate) fn pass(&mut self, path: &Path)
        requires { rows_below path.now self.old ≡ [] }
        ensures passed { self.new ≡ rows_above path.now self.old }
        ensures ascend { HasAscendingKeys self.new }
    {
        let Some((first, _)) = self.first else {
            return;
        };
        if !is_below(path.as_slice(), first.as_slice()) {
            self.first = self.after.next();
        }
    }
}

impl<'a, C: EntriesLeft> EntriesLeft for Ahead<'a, C> {
    ghost left = { λ ahead. ahead };
}

impl<'a, C: EntryCursor<'a>> EntryCursor<'a> for Ahead<'a, C> {
    fn next(&mut self) -> Option<(&'a Path, &'a Entry)> {
        let first = self.first?;
        self.first = self.after.next();
        Some(first)
    }

    fn seek(&mut self, least: &[u8]) {
        let Some((first, _)) = self.first else {
            return;
        };
        if is_below(first.as_slice(), least) {
            self.after.seek(least);
            self.first = self.after.next();
        }
    }
}
