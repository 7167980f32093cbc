//! Rows of a tree that are still to come, the first of them at hand, so that it can be looked at before it is passed.
ghost use Rattle.std.specs.Prelude.{◌≡◌, Some, option_copied};
ghost use Rattle.std.specs.FinMap.{find};
ghost use Rattle.lake_base.specs.Maps.{HasAscendingKeys, byte_order};
ghost use Rattle.lake_values.specs.Cursor.{entries_from};
ghost use Rattle.meta_range.specs.Ranges.{rows_above};
ghost use Rattle.key_merge.specs.MergeWalk.{first_path};

use lake_base::names::Path;
use lake_values::cursor::{EntryCursor, is_below};
use lake_values::entry::Entry;
use meta_range::Cursor;
use std::marker::Model;

// Rows in ascending order of path. Contracts see their list.
#[derive(Debug, Drop)]
pub(crate) struct Rows<'a> {
    first: Option<(&'a Path, &'a Entry)>,
    after: Cursor<'a>,
}

impl<'a> Model for Rows<'a> {
    ghost use Rattle.std.specs.Prelude.{List};
    ghost use Rattle.lake_base.specs.Maps.{HasAscendingKeys};
    ghost use Rattle.range_file.specs.Rows.{RowValue};
    ghost use Rattle.key_merge.specs.MergeWalk.{rows_ahead};

    ghost Value = { List RowValue };

    ghost view = { λ rows. rows_ahead rows.first rows.after };

    ghost invariant = { λ rows. HasAscendingKeys (rows_ahead rows.first rows.after) };
}

impl<'a> Rows<'a> {
    // Those that a cursor has left.
    pub(crate) fn new(mut cursor: Cursor<'a>) -> Rows<'a>
        ensures { result ≡ cursor.entry }
    {
        let first = cursor.next();
        Rows {
            first,
            after: cursor,
        }
    }

    // The path of the first.
    pub(crate) fn path(&self) -> Option<&'a Path>
        ensures path { option_copied result ≡ first_path self.now }
        ensures ascend { HasAscendingKeys self.now }
    {
        match self.first {
            Some((path, _)) => Some(path),
            None => None,
        }
    }

    // The entry at a path, where there is one. It and what stands below it are passed.
    pub(crate) fn at(&mut self, path: &Path) -> Option<&'a Entry>
        ensures found { option_copied result ≡ find byte_order path.now self.old }
        ensures left { self.new ≡ rows_above (Some path.now) self.old }
        ensures ascend { HasAscendingKeys self.old }
    {
        self.pass_below(path);
        let (first, entry) = self.first?;
        if first != path {
            return None;
        }
        self.first = self.after.next();
        Some(entry)
    }

    // Passes over the rows below a path: by a search, where the first of them is.
    fn pass_below(&mut self, path: &Path)
        ensures from { self.new ≡ entries_from path.now self.old }
        ensures ascend { HasAscendingKeys self.old }
    {
        let Some((first, _)) = self.first else {
            return;
        };
        if is_below(first.as_slice(), path.as_slice()) {
            self.after.seek(path.as_slice());
            self.first = self.after.next();
        }
    }
}
