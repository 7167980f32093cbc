//! The changes under a token, taken one by one in order of path.
ghost use Rattle.std.specs.Prelude.{◌≡◌, [], ◌∷◌, MatchOption, drop, option_map, option_copied};
ghost use Rattle.std.specs.Map.Iter.{deref_pair};
ghost use Rattle.lake_base.specs.Maps.{HasAscendingKeys};
ghost use Rattle.lake_values.specs.Cursor.{entries_from};
ghost use Rattle.branch_record.specs.Layers.{rows_above, rows_below};
ghost use Rattle.branch_record.specs.TokenRows.{put_row, row_above, rows_left, rows_under};

use crate::ordered::OrderedChanges;
use crate::placed::PlacedCursor;
use crate::{ChangeCursor, ChangesLeft};
use lake_base::names::Path;
use lake_values::cursor::is_below;
use lake_values::entry::Change;
use std::alloc::Global;
use std::cmp::Ordering;
use std::marker::Model;

/// The changes under a token that are still to come, in ascending order of path. Contracts see the list of them.
#[derive(Drop)]
pub struct ChangesCursor<'a> {
    // One that waits for its place among the others.
    waiting: Option<(&'a Path, &'a Change)>,
    // Those in place, where there are any.
    placed: Option<PlacedCursor<'a>>,
}

impl<'a> Model for ChangesCursor<'a> {
    ghost use Rattle.std.specs.Prelude.{List, ℕ, option_map};
    ghost use Rattle.std.specs.Map.Iter.{deref_pair};
    ghost use Rattle.std.specs.Coded.{coded_list, coded_ℕ, coded×};
    ghost use Rattle.lake_base.specs.Maps.{HasAscendingKeys};
    ghost use Rattle.lake_values.specs.declared.entry.Change.{Change as AnyChange};
    ghost use Rattle.lake_values.specs.contracts.entry.Change.{the_row as change_row};
    ghost use Rattle.branch_record.specs.TokenRows.{put_row, rows_left};

    ghost Value = { List (List ℕ × AnyChange) };

    ghost coded = { coded_list (coded× (coded_list coded_ℕ) change_row.coded) };

    ghost view = { λ c. put_row (option_map deref_pair c.waiting) (rows_left c.placed) };

    ghost invariant = { λ c. HasAscendingKeys (put_row (option_map deref_pair c.waiting) (rows_left c.placed)) };
}

impl<'a> ChangesCursor<'a> {
    // A cursor over these changes, with the one that waits in its place.
    pub(crate) fn new(
        alloc: Global,
        under: Option<&'a OrderedChanges>,
        waiting: Option<(&'a Path, &'a Change)>,
    ) -> ChangesCursor<'a>
        ensures { result ≡ put_row (option_map deref_pair waiting.entry) (rows_under (option_copied under.entry)) }
    {
        match under {
            Some(changes) => ChangesCursor {
                waiting,
                placed: Some(PlacedCursor::new(alloc, changes)),
            },
            None => ChangesCursor {
                waiting,
                placed: None,
            },
        }
    }

    /// The change that comes next, with its path, which is passed. It takes no memory.
    pub fn next(&mut self) -> Option<(&'a Path, &'a Change)>
        ensures { MatchOption result ((self.old ≡ []) × (self.new ≡ []))
            (λ row. self.old ≡ (row.0.now, row.1.now) ∷ self.new) }
    {
        let placed = first_placed(&self.placed);
        let Some((path, change)) = self.waiting else {
            pass_placed(&mut self.placed);
            return placed;
        };
        let Some((at, had)) = placed else {
            self.waiting = None;
            return Some((path, change));
        };
        match path.cmp(at) {
            Ordering::Less => {
                self.waiting = None;
                Some((path, change))
            }
            Ordering::Equal => {
                self.waiting = None;
                pass_placed(&mut self.placed);
                Some((at, change))
            }
            Ordering::Greater => {
                pass_placed(&mut self.placed);
                Some((at, had))
            }
        }
    }

    // The change that comes next, with its path. It stays.
    pub(crate) fn first(&self) -> Option<(&'a Path, &'a Change)>
        ensures first { MatchOption result (self.now ≡ [])
            (λ row. self.now ≡ (row.0.now, row.1.now) ∷ drop 1 self.now) }
        ensures ascend { HasAscendingKeys self.now }
    {
        let placed = first_placed(&self.placed);
        let Some((path, change)) = self.waiting else {
            return placed;
        };
        let Some((at, had)) = placed else {
            return Some((path, change));
        };
        match path.cmp(at) {
            Ordering::Less => Some((path, change)),
            Ordering::Equal => Some((at, change)),
            Ordering::Greater => Some((at, had)),
        }
    }

    // Passes over the change at a path below which none is left.
    pub(crate) fn pass(&mut self, path: &Path)
        requires { rows_below path.now self.old ≡ [] }
        ensures { self.new ≡ rows_above path.now self.old }
    {
        let Some((first, _)) = self.first() else {
            return;
        };
        if !is_below(path.as_slice(), first.as_slice()) {
            let _passed = self.next();
        }
    }

    /// Passes over the changes at paths below these bytes, by a search. That takes a copy of them, where they are a
    /// path; where they aren't, or no memory is left, it goes over the changes one by one.
    pub fn seek(&mut self, least: &[u8])
        ensures { self.new ≡ entries_from least.now self.old }
    {
        drop_below(&mut self.waiting, least);
        seek_placed(&mut self.placed, least);
    }
}

impl<'a> ChangesLeft for ChangesCursor<'a> {
    ghost left = { λ cursor. cursor };
}

impl<'a> ChangeCursor<'a> for ChangesCursor<'a> {
    fn next(&mut self) -> Option<(&'a Path, &'a Change)> {
        let _ = &self.placed;
        ChangesCursor::next(self)
    }

    fn seek(&mut self, least: &[u8]) {
        let _ = &self.placed;
        ChangesCursor::seek(self, least);
    }
}

// Drops the change that waits, where it stands below these bytes.
fn drop_below(waiting: &mut Option<(&Path, &Change)>, least: &[u8])
    ensures { option_map deref_pair waiting.new ≡ row_above least.now (option_map deref_pair waiting.old) }
{
    let dropped = match waiting {
        Some((path, _)) => is_below(path.as_slice(), least),
        None => false,
    };
    if dropped {
        *waiting = None;
    }
}

// The first of the changes in place, with its path. It stays.
fn first_placed<'a>(placed: &Option<PlacedCursor<'a>>) -> Option<(&'a Path, &'a Change)>
    ensures { MatchOption result (rows_left placed.now ≡ [])
        (λ row. rows_left placed.now ≡ (row.0.now, row.1.now) ∷ drop 1 (rows_left placed.now)) }
{
    match placed {
        Some(cursor) => cursor.first(),
        None => None,
    }
}

// Passes over the first of the changes in place.
fn pass_placed(placed: &mut Option<PlacedCursor<'_>>)
    ensures { rows_left placed.new ≡ drop 1 (rows_left placed.old) }
{
    if let Some(cursor) = placed {
        cursor.pass();
    }
}

// Passes over the changes in place that stand below these bytes.
fn seek_placed(placed: &mut Option<PlacedCursor<'_>>, least: &[u8])
    ensures { rows_left placed.new ≡ entries_from least.now (rows_left placed.old) }
{
    if let Some(cursor) = placed {
        cursor.seek(least);
    }
}
