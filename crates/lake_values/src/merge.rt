//! The three-way merge at one path: whose value it takes.
ghost use Rattle.std.specs.Prelude.{◌≡◌, option_copied};
ghost use Rattle.lake_values.specs.Merging.{side_of};

use crate::entry::{Entry, same_value};

/// Whose value a path takes in a merge.
#[derive(Clone, Copy, Debug, PartialEq, Eq)]
pub enum Side {
    Source,
    Destination,
    /// Both changed the base, and differ: the path conflicts.
    Neither,
}

/// Whose value a path takes, where base, source and destination have these: where the source is as the base,
/// the destination's; where the destination is as the base, the source's; where both are equal, the
/// source's. Else neither's.
///
/// | base | source | destination | side |
/// |---|---|---|---|
/// | 1 | 1 | 2 | Destination |
/// | 1 | 2 | 1 | Source |
/// | 1 | nothing | 1 | Source |
/// | 1 | 2 | 2 | Source |
/// | 1 | 2 | 3 | Neither |
///
/// It takes no memory.
pub fn side_of(base: Option<&Entry>, source: Option<&Entry>, dest: Option<&Entry>) -> Side
    ensures { result ≡ side_of (option_copied base.entry) (option_copied source.entry) (option_copied dest.entry) }
{
    if same_value(source, base) {
        Side::Destination
    } else if same_value(dest, base) || same_value(source, dest) {
        Side::Source
    } else {
        Side::Neither
    }
}
