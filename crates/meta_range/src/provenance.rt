//! What a map was made from.
ghost use Rattle.std.specs.Prelude.{◌≡◌, ◌<◌, length};
ghost use Rattle.std.specs.Bool.{OnTrue};
ghost use Rattle.std.specs.List.{Contains};
ghost use Rattle.lake_values.specs.KeyMap.{apply};
ghost use Rattle.meta_range.specs.Files.{file_at};
ghost use Rattle.meta_range.specs.Provenance.{AreKnownByName, HasKnownTrio, IsFileOf, IsMadeFrom, IsMerged, IsTrioFile};

use crate::searching::{has_none_between, place_with_ends};
use crate::{Tree, law_of_ends};
use lake_values::changes::Changes;

/// What the map of a tree was made from.
#[derive(Clone, Copy, Debug)]
pub enum Provenance<'a> {
    /// From the map of an old tree, by changes.
    Changed {
        old: &'a Tree,
        changes: &'a Changes,
    },
    /// From the maps of three trees, by a merge.
    Merged {
        base: &'a Tree,
        source: &'a Tree,
        dest: &'a Tree,
    },
    /// Nothing is known of it.
    Unknown,
}

impl Provenance<'_> {
    /// Whether the range at a place of the files of a tree, of which 0 is the metarange's, is found to be one of those
    /// that its map was made from. Under changes that is so where the old tree has a range with the same ends, and no
    /// change stands between these; under a merge where each of the three trees has one, and the source's or the
    /// destination's has the name of the base's. Where it answers false, nothing is said. It is a few searches, and
    /// takes no memory.
    ///
    /// Of the ranges `[a b] [c d]` and a change at `d`, the first is found.
    pub fn has_range(&self, tree: &Tree, place: usize) -> bool
        requires range { 0 < place }
        requires within { place < length tree.now.files }
        requires made { IsMadeFrom self.now tree.now.map }
        requires known { HasKnownTrio self.now }
        ensures { OnTrue result (IsFileOf self.now (file_at tree.now.files place)) }
    {
        match self {
            Provenance::Changed { old, changes } => is_unchanged(tree, place, old, changes),
            Provenance::Merged { base, source, dest } => {
                is_of_one_side(tree, place, base, source, dest)
            }
            Provenance::Unknown => false,
        }
    }
}

// Whether a range of a tree is one of the old tree, where changes were made of its map.
fn is_unchanged(tree: &Tree, place: usize, old: &Tree, changes: &Changes) -> bool
    requires range { 0 < place }
    requires within { place < length tree.now.files }
    requires made { tree.now.map ≡ apply changes.now old.now.map }
    ensures { OnTrue result (Contains old.now.files (file_at tree.now.files place)) }
{
    law_of_ends();
    let (first, last) = tree.ends(place);
    match place_with_ends(old, first, last) {
        Some(_) => has_none_between(changes, first, last),
        None => false,
    }
}

// Whether a range of a merged tree is one of the destination's, where the source left the base as it was, or one of the
// source's, where the destination did.
fn is_of_one_side(tree: &Tree, place: usize, base: &Tree, source: &Tree, dest: &Tree) -> bool
    requires range { 0 < place }
    requires within { place < length tree.now.files }
    requires made { IsMerged base.now.map source.now.map dest.now.map tree.now.map }
    requires known { AreKnownByName (IsTrioFile base.now source.now dest.now) }
    ensures { OnTrue result (IsTrioFile base.now source.now dest.now (file_at tree.now.files place)) }
{
    law_of_ends();
    let (first, last) = tree.ends(place);
    let Some(base_place) = place_with_ends(base, first, last) else {
        return false;
    };
    let Some(source_place) = place_with_ends(source, first, last) else {
        return false;
    };
    let Some(dest_place) = place_with_ends(dest, first, last) else {
        return false;
    };
    let base_name = base.file_name(base_place);
    source.file_name(source_place) == base_name || dest.file_name(dest_place) == base_name
}
