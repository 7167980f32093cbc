//! Lists of values at paths, where the paths ascend.
ghost use Rattle.std.specs.Prelude.{◌≡◌, ◌↔◌, T, length, IsTrue, OnOk, OnErr, MatchResult, option_copied};
ghost use Rattle.std.specs.Bool.{OnTrue};
ghost use Rattle.std.specs.FinMap.{find, put, is_sorted};
ghost use Rattle.lake_values.specs.KeyMap.{HasPathKeys};
ghost use Rattle.lake_base.specs.Maps.{HasAscendingKeys, IsAt, IsGap, byte_order};
ghost use Rattle.lake_base.specs.Names.{path_fault};

use lake_base::names::Path;
use lake_base::outside::NoMemory;
use std::cmp::Ordering;
use std::mem;

/// Whether the keys of a list strictly ascend. It takes no memory.
pub fn has_ascending_keys<K: Ord, X>(items: &[(K, X)]) -> bool
    ensures { IsTrue result ↔ T (is_sorted K.cmp items.now) }
{
    for at in 1..items.len() {
        if !items[at - 1].0.cmp(&items[at].0).is_lt() {
            return false;
        }
    }
    true
}

// Each key is a path. (It reads the keys alone.)
pub(crate) fn are_paths<X>(items: &[(Path, X)])
    ensures { HasPathKeys items.now }
{
    for item in items {
        let _ = item.0.as_slice();
    }
}

// Whether the path is above the last one.
fn is_above_all<X>(items: &[(Path, X)], path: &Path) -> bool
    requires { HasAscendingKeys items.now }
    ensures { OnTrue result (IsGap items.now path.now (length items.now)) }
{
    match items.last() {
        Some(last) => last.0.cmp(path) == Ordering::Less,
        None => true,
    }
}

// Where the path is, or where it would go. A path above all others is found at once.
pub(crate) fn place<X>(items: &[(Path, X)], path: &Path) -> Result<usize, usize>
    requires { HasAscendingKeys items.now }
    ensures { MatchResult result (IsAt items.now path.now) (IsGap items.now path.now) }
{
    if is_above_all(items, path) {
        return Err(items.len());
    }
    items.binary_search_by(|item| item.0.cmp(path))
}

// The value at the path.
pub(crate) fn value_at<'a, X>(items: &'a [(Path, X)], path: &Path) -> Option<&'a X>
    requires { HasAscendingKeys items.now }
    ensures { option_copied result ≡ find byte_order path.now items.now }
{
    match place(items, path) {
        Ok(at) => Some(&items[at].1),
        Err(_) => None,
    }
}

// Puts the value at the path. A path above all others is appended.
pub(crate) fn put_at<X: Drop>(
    items: &mut Vec<(Path, X)>,
    path: Path,
    value: X,
) -> Result<(), NoMemory>
    requires ascend { HasAscendingKeys items.old.items }
    requires paths { HasPathKeys items.old.items }
    ensures put { OnOk result (items.new.items ≡ put byte_order path value items.old.items) }
    ensures unchanged { OnErr result (items.new.items ≡ items.old.items) }
    ensures ascend { HasAscendingKeys items.new.items }
    ensures paths { HasPathKeys items.new.items }
{
    let _path = path.as_slice();
    match place(items.as_slice(), &path) {
        Ok(at) => {
            let _old = mem::replace(&mut items[at], (path, value));
        }
        Err(at) => items.insert(at, (path, value))?,
    }
    Ok(())
}
