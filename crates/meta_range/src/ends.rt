//! Where the ranges of a tree begin and end.
ghost use Rattle.std.specs.Prelude.{◌≡◌, ◌<◌, ℕ, List, length};
ghost use Rattle.meta_range.specs.Ends.{AgreeBetween, HasEnds};
ghost use Rattle.meta_range.specs.Files.{file_at};
ghost use Rattle.meta_range.specs.Ranges.{TreeValue};

use crate::tree::Tree;
use lake_base::names::Path;

impl Tree {
    /// The first and the last path of its range at a place of `files`, of which 0 is the metarange's. It takes no
    /// memory.
    pub fn ends(&self, place: usize) -> (&Path, &Path)
        requires range { 0 < place }
        requires within { place < length self.now.files }
        ensures { HasEnds self.now place result.0.now result.1.now }
    {
        let range = &self.ranges()[place - 1];
        (range.first(), range.last())
    }
}

/// Two ranges of trees that begin with one path and end with one path have the same file just where the maps of the
/// trees agree from the one path to the other. (A law: it does nothing.)
pub fn law_of_ends()
    ensures same { (tree other : TreeValue) (place at : ℕ) (first last : List ℕ) → HasEnds tree place first last
        → HasEnds other at first last → AgreeBetween first last tree.map other.map
        → file_at tree.files place ≡ file_at other.files at }
    ensures agree { (tree other : TreeValue) (place at : ℕ) (first last : List ℕ) → HasEnds tree place first last
        → HasEnds other at first last → file_at tree.files place ≡ file_at other.files at
        → AgreeBetween first last tree.map other.map }
{}
