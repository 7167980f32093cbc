//! The map of a tree, and what tells two maps apart.
ghost use Rattle.std.specs.Prelude.{◌≡◌, IfOk, option_copied};
ghost use Rattle.std.specs.FinMap.{keys};
ghost use Rattle.lake_values.specs.KeyMap.{differences};
ghost use Rattle.lake_model.specs.HeadRefusals.{first_path};

use lake_base::{NoMemory, Path, TryCopy};
use lake_values::{Changes, EntryCursor, KeyMap};
use meta_range::Tree;
use std::alloc::Global;

// The map of a tree: each of its rows is copied once.
pub(crate) fn map_of(alloc: Global, tree: &Tree) -> Result<KeyMap, NoMemory>
    ensures { IfOk result (λ map. map ≡ tree.now.map) }
{
    let mut rows = Vec::new(alloc);
    let mut cursor = tree.seek(None);
    while let Some((path, entry)) = cursor.next() {
        rows.push((path.copy(alloc)?, entry.copy(alloc)?))?;
    }
    Ok(KeyMap::from_vec(rows))
}

// The changes from the map of an old tree to that of a new one.
pub(crate) fn differences_of(alloc: Global, new: &Tree, old: &Tree) -> Result<Changes, NoMemory>
    ensures { IfOk result (λ changes. changes ≡ differences new.now.map old.now.map) }
{
    let new = map_of(alloc, new)?;
    let old = map_of(alloc, old)?;
    new.differences(alloc, &old)
}

// The least path of changes.
pub(crate) fn first_path(changes: &Changes) -> Option<&Path>
    ensures { option_copied result ≡ first_path (keys changes.now) }
{
    let (path, _) = changes.as_slice().first()?;
    Some(path)
}
