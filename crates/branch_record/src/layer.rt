//! A cursor over the entries that changes leave of those below.
ghost use Rattle.std.specs.Prelude.{◌≡◌, ℕ, List, true, [], Some, MatchOption};
ghost use Rattle.std.specs.FinMap.{entries, from_sorted};
ghost use Rattle.lake_base.specs.Maps.{HasAscendingKeys};
ghost use Rattle.lake_values.specs.Cursor.{entries_from};
ghost use Rattle.lake_values.specs.KeyMap.{ChangesValue, KeyMapValue, apply};
ghost use Rattle.lake_values.specs.declared.entry.Change.{Change as AnyChange};
ghost use Rattle.branch_record.specs.Layers.{is_row_next, rows_ahead, rows_below};

use crate::ahead::Ahead;
use crate::changes::{ChangeCursor, ChangesLeft};
use lake_base::names::Path;
use lake_values::cursor::{EntriesLeft, EntryCursor, is_below};
use lake_values::entry::{Change, Entry};
use std::marker::Model;

/// Entries that changes leave of others that lie below them, some of which are still to come: at a path of a change
/// the entry that it puts, or none where it deletes, and elsewhere the entry below. Contracts see those still to
/// come, in ascending order of path.
#[derive(Drop)]
pub struct LayerCursor<'a, D: ChangesLeft, C: EntriesLeft> {
    // The first change, which is at hand, and those after it.
    change: Option<(&'a Path, &'a Change)>,
    after: D,
    below: Ahead<'a, C>,
}

impl<'a, D: ChangesLeft, C: EntriesLeft> Model for LayerCursor<'a, D, C> {
    ghost use Rattle.std.specs.Prelude.{List, ℕ};
    ghost use Rattle.lake_base.specs.Maps.{HasAscendingKeys};
    ghost use Rattle.lake_values.specs.Entry.{EntryValue};
    ghost use Rattle.branch_record.specs.Layers.{rows_ahead, rows_over};

    ghost Value = { List (List ℕ × EntryValue) };

    ghost view = { λ layer. rows_over (rows_ahead layer.change (D.left layer.after)) layer.below };

    ghost invariant = { λ layer.
        HasAscendingKeys (rows_ahead layer.change (D.left layer.after)) × HasAscendingKeys layer.below };
}

impl<'a, D: ChangeCursor<'a>, C: EntryCursor<'a>> LayerCursor<'a, D, C> {
    /// The entries of the changes that a cursor still has over those that another still has. It takes no memory.
    pub fn new(mut changes: D, below: C) -> LayerCursor<'a, D, C>
        ensures left { result ≡ entries (apply (from_sorted (D.left changes)) (from_sorted (C.left below))) }
        ensures of_map { (layer : ChangesValue) (map : KeyMapValue)
            → D.left changes ≡ entries layer → C.left below ≡ entries map
            → result ≡ entries (apply layer map) }
    {
        let change = changes.next();
        LayerCursor {
            change,
            after: changes,
            below: Ahead::new(below),
        }
    }
}

impl<'a, D: ChangesLeft, C: EntriesLeft> EntriesLeft for LayerCursor<'a, D, C> {
    ghost left = { λ layer. layer };
}

#[tactic(auto, using(crate::proofs::LayerCursorLemmas::over_ascends))]
impl<'a, D: ChangeCursor<'a>, C: EntryCursor<'a>> EntryCursor<'a> for LayerCursor<'a, D, C> {
    fn next(&mut self) -> Option<(&'a Path, &'a Entry)> {
        while let Some((path, change)) = first_change(self.change, &self.below) {
            self.change = self.after.next();
            self.below.pass(path);
            if let Change::Put(entry) = change {
                return Some((path, entry));
            }
        }
        self.below.next()
    }

    fn seek(&mut self, least: &[u8]) {
        seek_changes(&mut self.change, &mut self.after, least);
        self.below.seek(least);
    }
}

// The first change, where no entry below stands before it.
fn first_change<'a, C: EntryCursor<'a>>(
    change: Option<(&'a Path, &'a Change)>,
    below: &Ahead<'a, C>,
) -> Option<(&'a Path, &'a Change)>
    ensures { (after : List (List ℕ × AnyChange)) → MatchOption result
        (is_row_next (rows_ahead change.entry after) below.now ≡ true)
        (λ row. (rows_ahead change.entry after ≡ rows_ahead (Some row) after) × (rows_below row.0.now below.now ≡ [])) }
{
    let Some((path, change)) = change else {
        return None;
    };
    if below.begins_below(path) {
        return None;
    }
    Some((path, change))
}

// Passes over the changes at paths below these bytes, of the one at hand and those after it.
fn seek_changes<'a, D: ChangeCursor<'a>>(
    change: &mut Option<(&'a Path, &'a Change)>,
    after: &mut D,
    least: &[u8],
)
    requires { HasAscendingKeys (rows_ahead change.old (D.left after.old)) }
    ensures { rows_ahead change.new (D.left after.new)
        ≡ entries_from least.now (rows_ahead change.old (D.left after.old)) }
{
    let Some((path, _)) = *change else {
        return;
    };
    if is_below(path.as_slice(), least) {
        after.seek(least);
        *change = after.next();
    }
}
