//! The three-way merge of key maps, plainly and slowly: what tests and readers hold a faster one against.
ghost use Rattle.std.specs.Prelude.{◌≡◌, ◌↔◌, nat_lt, length, ℕ, List, IfOk, OnOk, IsTrue, option_copied};
ghost use Rattle.std.specs.FinMap.{get};
ghost use Rattle.lake_values.specs.Entry.{EntryValue};
ghost use Rattle.lake_values.specs.KeyMap.{KeyMapValue};
ghost use Rattle.lake_values.specs.Merging.{base_map, side_of, merged_map, merged_value, IsConflict, AreConflicts};
ghost use Rattle.lake_values.specs.Merging.{conflicts, is_refused, merge_answer};
ghost use Rattle.plain_reference.specs.MergeSteps.{Leaves, ArePathsOf, HasPathsToo};
ghost use Rattle.lake_values.specs.declared.commit.Strategy.{Strategy as Choice};

use lake_base::TryCopy;
use lake_base::names::Path;
use lake_base::outside::NoMemory;
use lake_base::sequence::Sequence;
use lake_values::changes::Changes;
use lake_values::commit::Strategy;
use lake_values::entry::Change;
use lake_values::key_map::KeyMap;
use lake_values::merge::{Side, side_of};
use std::alloc::Global;

/// The map of the merge base of two commits: the empty map, where they have no common ancestor.
pub fn base_map(alloc: Global, map: Option<&KeyMap>) -> Result<KeyMap, NoMemory>
    ensures { IfOk result (λ copy. copy ≡ base_map (option_copied map.entry)) }
{
    match map {
        Some(map) => map.copy(alloc),
        None => Ok(KeyMap::new(alloc)),
    }
}

/// The merged map: at each path the value of its side, and where a path conflicts the source's or the
/// destination's, as the strategy says. None exactly where the merge is refused: without a strategy, where a
/// path conflicts.
pub fn merge(
    alloc: Global,
    base: &KeyMap,
    source: &KeyMap,
    dest: &KeyMap,
    strategy: Strategy,
) -> Result<Option<KeyMap>, NoMemory>
    ensures { IfOk result (λ answer. answer ≡ merge_answer strategy base.now source.now dest.now) }
{
    let paths = paths_of(alloc, base, source)?;
    if strategy == Strategy::Refuse && has_conflict(base, source, dest, &paths) {
        return Ok(None);
    }
    let map = merge_along(alloc, base, source, dest, strategy, &paths)?;
    Ok(Some(map))
}

/// At each path the merged map has the merged value. (A law: it does nothing.)
pub fn law_of_merging()
    ensures { (strategy : Choice) (base source dest : KeyMapValue) (path : List ℕ)
        → get (merged_map strategy base source dest) path
        ≡ merged_value strategy (get base path) (get source path) (get dest path) }
{}

/// The list of conflicts has just the paths that conflict, in ascending order. A merge is refused exactly where
/// it has no strategy and a path conflicts. (A law: it does nothing.)
pub fn law_of_conflicts()
    ensures paths { (base source dest : KeyMapValue) → AreConflicts base source dest (conflicts base source dest) }
    ensures refused { (strategy : Choice) (base source dest : KeyMapValue)
        → IsTrue (is_refused strategy base source dest)
        ↔ (strategy ≡ Strategy.Refuse) × ((path : List ℕ) × IsConflict base source dest path) }
{}

/// The paths that conflict, in ascending order.
pub fn conflicts(
    alloc: Global,
    base: &KeyMap,
    source: &KeyMap,
    dest: &KeyMap,
) -> Result<Sequence<Path>, NoMemory>
    ensures { IfOk result (λ paths. paths ≡ conflicts base.now source.now dest.now) }
{
    let mut paths = Vec::new(alloc);
    for (path, _) in paths_of(alloc, base, source)?.as_slice() {
        if side_at(base, source, dest, path) == Side::Neither {
            paths.push(path.copy(alloc)?)?;
        }
    }
    Ok(Sequence::of(paths))
}

// Whose value the path takes.
fn side_at(base: &KeyMap, source: &KeyMap, dest: &KeyMap, path: &Path) -> Side
    ensures { result ≡ side_of (get base.now path.now) (get source.now path.now) (get dest.now path.now) }
{
    side_of(base.get(path), source.get(path), dest.get(path))
}

// The change that gives the path its merged value.
fn change_at(
    alloc: Global,
    base: &KeyMap,
    source: &KeyMap,
    dest: &KeyMap,
    strategy: Strategy,
    path: &Path,
) -> Result<Change, NoMemory>
    ensures { IfOk result (λ change. Leaves change
        (merged_value strategy (get base.now path.now) (get source.now path.now) (get dest.now path.now))) }
{
    let from_source = match side_at(base, source, dest, path) {
        Side::Source => true,
        Side::Destination => false,
        Side::Neither => strategy == Strategy::SourceWins,
    };
    let value = if from_source {
        source.get(path)
    } else {
        dest.get(path)
    };
    match value {
        Some(entry) => Ok(Change::Put(entry.copy(alloc)?)),
        None => Ok(Change::Delete),
    }
}

// Whether one of the paths conflicts.
fn has_conflict(base: &KeyMap, source: &KeyMap, dest: &KeyMap, paths: &Changes) -> bool
    requires { ArePathsOf base.now source.now paths.now }
    ensures { result ≡ nat_lt 0 (length (conflicts base.now source.now dest.now)) }
{
    for (path, _) in paths.as_slice() {
        if side_at(base, source, dest, path) == Side::Neither {
            return true;
        }
    }
    false
}

// The map with the merged value at each of the paths.
fn merge_along(
    alloc: Global,
    base: &KeyMap,
    source: &KeyMap,
    dest: &KeyMap,
    strategy: Strategy,
    paths: &Changes,
) -> Result<KeyMap, NoMemory>
    requires { ArePathsOf base.now source.now paths.now }
    ensures { IfOk result (λ map. map ≡ merged_map strategy base.now source.now dest.now) }
{
    let mut changes = Changes::new(alloc);
    for (path, _) in paths.as_slice() {
        let change = change_at(alloc, base, source, dest, strategy, path)?;
        changes.set(path.copy(alloc)?, change)?;
    }
    dest.apply(alloc, &changes)
}

// The paths that base or source has, with a change at each that means nothing.
fn paths_of(alloc: Global, base: &KeyMap, source: &KeyMap) -> Result<Changes, NoMemory>
    ensures { IfOk result (λ paths. ArePathsOf base.now source.now paths) }
{
    let mut paths = Changes::new(alloc);
    add_paths(alloc, &mut paths, base)?;
    add_paths(alloc, &mut paths, source)?;
    Ok(paths)
}

// Adds the paths of a map, with a change at each that means nothing.
fn add_paths(alloc: Global, paths: &mut Changes, map: &KeyMap) -> Result<(), NoMemory>
    ensures { OnOk result (HasPathsToo paths.old map.now paths.new) }
{
    for (path, _) in map.as_slice() {
        paths.set(path.copy(alloc)?, Change::Delete)?;
    }
    Ok(())
}
