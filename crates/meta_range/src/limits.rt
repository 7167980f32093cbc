//! The limits of what a tree holds, and that it is known by its files.
ghost use Rattle.std.specs.Prelude.{◌≡◌};
ghost use Rattle.meta_range.specs.Files.{FitsTree};

use crate::tree::Tree;

/// The map of a tree is one that a tree can hold: each row within its limits, and fewer than 2^32 of them. (A law: it
/// does nothing.)
pub fn law_of_limits(tree: &Tree)
    ensures { FitsTree tree.now.map }
{
    let _ranges = tree.ranges();
}

/// Trees with the same files have the same map, whatever cut they are of. (A law: it does nothing.)
pub fn law_of_files(tree: &Tree, other: &Tree)
    ensures { tree.now.files ≡ other.now.files → tree.now ≡ other.now }
{
    let _ranges = tree.ranges();
    let _other_ranges = other.ranges();
}
