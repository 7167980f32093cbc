//! The changes in place under a token, taken one by one in order of path.
ghost use Rattle.std.specs.Prelude.{◌≡◌, [], ◌∷◌, MatchOption, drop};
ghost use Rattle.std.specs.FinMap as map;
ghost use Rattle.lake_base.specs.Maps.{HasAscendingKeys};
ghost use Rattle.lake_values.specs.Cursor.{entries_from};

use crate::ordered::OrderedChanges;
use lake_base::names::Path;
use lake_values::cursor::is_below;
use lake_values::entry::Change;
use std::alloc::Global;
use std::collections::btree_map::Range;
use std::marker::Model;

// Changes in place that are still to come, in ascending order of path, the first of them at hand. Contracts see the
// list of them.
#[derive(Drop)]
pub(crate) struct PlacedCursor<'a> {
    alloc: Global,
    // All that are in place.
    placed: &'a OrderedChanges,
    first: Option<(&'a Path, &'a Change)>,
    rest: Range<'a, Path, Change>,
}

impl<'a> Model for PlacedCursor<'a> {
    ghost use Rattle.std.specs.Prelude.{List, ℕ, option_map};
    ghost use Rattle.std.specs.FinMap as map;
    ghost use Rattle.std.specs.Map.Iter.{deref_pair};
    ghost use Rattle.std.specs.Coded.{coded_list, coded_ℕ, coded×};
    ghost use Rattle.lake_values.specs.declared.entry.Change.{Change as AnyChange};
    ghost use Rattle.lake_values.specs.contracts.entry.Change.{the_row as change_row};
    ghost use Rattle.branch_record.specs.TokenRows.{AreFromFirst, rows_from};

    ghost Value = { List (List ℕ × AnyChange) };

    ghost coded = { coded_list (coded× (coded_list coded_ℕ) change_row.coded) };

    ghost view = { λ c. rows_from (option_map deref_pair c.first) c.rest };

    ghost invariant = { λ c. AreFromFirst (option_map deref_pair c.first) c.rest (map.entries c.placed.now) };
}

impl<'a> PlacedCursor<'a> {
    // A cursor over all of these changes.
    pub(crate) fn new(alloc: Global, placed: &'a OrderedChanges) -> PlacedCursor<'a>
        ensures { result ≡ map.entries placed.now }
    {
        let mut rest = placed.iter();
        let first = rest.next();
        PlacedCursor {
            alloc,
            placed,
            first,
            rest,
        }
    }

    // The change that comes next, with its path. It stays.
    pub(crate) fn first(&self) -> Option<(&'a Path, &'a Change)>
        ensures first { MatchOption result (self.now ≡ [])
            (λ row. self.now ≡ (row.0.now, row.1.now) ∷ drop 1 self.now) }
        ensures ascend { HasAscendingKeys self.now }
    {
        let _ = &self.rest;
        self.first
    }

    // Passes over the change that comes next, where there is one.
    pub(crate) fn pass(&mut self)
        ensures { self.new ≡ drop 1 self.old }
    {
        self.first = self.rest.next();
    }

    // Passes over the changes below these bytes, by a search. Where they are no path, or no memory is left for a copy
    // of it, it goes over the changes one by one.
    pub(crate) fn seek(&mut self, least: &[u8])
        ensures { self.new ≡ entries_from least.now self.old }
    {
        let Some((path, _)) = self.first else {
            return;
        };
        if !is_below(path.as_slice(), least) {
            return;
        }
        match Path::read(self.alloc, least) {
            Ok(path) => {
                self.rest = self.placed.iter_from(&path);
                self.first = self.rest.next();
            }
            Err(_) => self.pass_below(least),
        }
    }

    // Passes over the changes below these bytes, one by one.
    fn pass_below(&mut self, least: &[u8])
        ensures { self.new ≡ entries_from least.now self.old }
    {
        while let Some((path, _)) = self.first() {
            if !is_below(path.as_slice(), least) {
                return;
            }
            self.pass();
        }
    }
}
