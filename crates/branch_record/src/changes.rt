//! Changes at paths, taken one by one in ascending order of path, whatever keeps them.
ghost use Rattle.std.specs.Prelude.{◌≡◌, ℕ, List, [], ◌∷◌, MatchOption};
ghost use Rattle.std.specs.FinMap.{entries};
ghost use Rattle.lake_base.specs.Maps.{HasAscendingKeys};
ghost use Rattle.lake_values.specs.Cursor.{entries_from};
ghost use Rattle.lake_values.specs.declared.entry.Change.{Change as AnyChange};

use lake_base::names::Path;
use lake_values::changes::Changes;
use lake_values::cursor::is_below;
use lake_values::entry::Change;

/// Changes at paths, some of which are still to come. Contracts see these, by the ghost member `left`. It stands in a
/// trait without a lifetime, so that a type that holds a cursor can say in its invariant what the cursor has left.
pub trait ChangesLeft: Drop {
    /// The changes still to come.
    ghost left: { Self → List (List ℕ × AnyChange) };
}

/// A cursor that gives such changes, in ascending order of path: each call tells so.
pub trait ChangeCursor<'a>: ChangesLeft {
    /// The change that comes next, with its path, which is passed. It takes no memory.
    fn next(&mut self) -> Option<(&'a Path, &'a Change)>
        ensures change { MatchOption result
            ((Self.left self.old ≡ []) × (Self.left self.new ≡ []))
            (λ change. Self.left self.old ≡ (change.0.now, change.1.now) ∷ Self.left self.new) }
        ensures ascend { HasAscendingKeys (Self.left self.old) };

    /// Passes over the changes at paths below these bytes. It can't be refused.
    fn seek(&mut self, least: &[u8])
        ensures from { Self.left self.new ≡ entries_from least.now (Self.left self.old) }
        ensures ascend { HasAscendingKeys (Self.left self.old) };
}

/// A cursor over changes that stand in a slice.
#[derive(Debug, Drop)]
pub struct SliceChanges<'a> {
    /// The changes still to come.
    pub rest: &'a [(Path, Change)],
    ghost ascend: { HasAscendingKeys rest.now },
}

impl<'a> SliceChanges<'a> {
    /// A cursor over all of these changes. It takes no memory.
    pub fn new(changes: &'a Changes) -> SliceChanges<'a>
        ensures { result.rest.now ≡ entries changes.now }
    {
        SliceChanges {
            rest: changes.as_slice(),
        }
    }
}

impl<'a> ChangesLeft for SliceChanges<'a> {
    ghost left = { λ cursor. cursor.rest.now };
}

impl<'a> ChangeCursor<'a> for SliceChanges<'a> {
    fn next(&mut self) -> Option<(&'a Path, &'a Change)> {
        let (row, rest) = self.rest.split_first()?;
        self.rest = rest;
        Some((&row.0, &row.1))
    }

    fn seek(&mut self, least: &[u8]) {
        self.rest = changes_from(self.rest, least);
    }
}

// The changes at or above these bytes.
fn changes_from<'a>(changes: &'a [(Path, Change)], least: &[u8]) -> &'a [(Path, Change)]
    requires { HasAscendingKeys changes.now }
    ensures { result.now ≡ entries_from least.now changes.now }
{
    let at = changes.partition_point(|row| is_below(row.0.as_slice(), least));
    changes.split_at(at).1
}
