//! Searches by the ends of a range.
ghost use Rattle.std.specs.Prelude.{◌≡◌, ◌<◌, None, true, ℕ, List, length, IfSome};
ghost use Rattle.std.specs.Bool.{OnTrue};
ghost use Rattle.std.specs.FinMap.{get};
ghost use Rattle.meta_range.specs.Ends.{HasEnds, is_between};

use crate::Tree;
use lake_base::names::Path;
use lake_values::changes::Changes;
use lake_values::cursor::is_below;

/// The place of the range of a tree that begins and ends with these paths, where a search finds it.
pub(crate) fn place_with_ends(tree: &Tree, first: &Path, last: &Path) -> Option<usize>
    ensures within { IfSome result (λ place. place < length tree.now.files) }
    ensures ends { IfSome result (λ place. HasEnds tree.now place first.now last.now) }
{
    let before = ranges_below(tree, first.as_slice());
    if before == tree.range_count() {
        return None;
    }
    let place = before + 1;
    let (begin, end) = tree.ends(place);
    if begin == first && end == last {
        return Some(place);
    }
    None
}

// How many ranges of a tree a search finds to end below these bytes.
fn ranges_below(tree: &Tree, least: &[u8]) -> usize
    ensures { result < length tree.now.files }
{
    let mut low = 0;
    let mut high = tree.range_count();
    while low < high {
        let middle = low + (high - low) / 2;
        let (_, end) = tree.ends(middle + 1);
        if is_below(end.as_slice(), least) {
            low = middle + 1;
        } else {
            high = middle;
        }
    }
    low
}

/// Whether changes have none at a path from one to another.
pub(crate) fn has_none_between(changes: &Changes, first: &Path, last: &Path) -> bool
    ensures { OnTrue result
        ((path : List ℕ) → is_between first.now last.now path ≡ true → get changes.now path ≡ None) }
{
    let rows = changes.as_slice();
    let at = rows.partition_point(|row| is_below(row.0.as_slice(), first.as_slice()));
    match rows.split_at(at).1.split_first() {
        Some((next, _)) => is_below(last.as_slice(), next.0.as_slice()),
        None => true,
    }
}
