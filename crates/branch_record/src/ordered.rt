//! Changes in an ordered map: what is written under load.
ghost use Rattle.std.specs.Prelude.{◌≡◌, ◌==◌, OnOk, OnErr, IfOk, IfErr, MatchOption, option_copied};
ghost use Rattle.std.specs.FinMap as map;
ghost use Rattle.lake_values.specs.Cursor.{entries_from};
ghost use Rattle.lake_values.specs.Reset.{changes_after_reset};
ghost use Rattle.lake_values.specs.declared.commit.ResetWhat.TheVariants.{Object, Prefix};
ghost use Rattle.branch_record.specs.TokenRows.{IsNoneUnder, IsUnder};

use lake_base::copying::TryCopy;
use lake_base::names::{NameFault, Path};
use lake_base::outside::NoMemory;
use lake_base::text::Text;
use lake_values::commit::ResetWhat;
use lake_values::entry::Change;
use std::alloc::Global;
use std::collections::BTreeMap;
use std::collections::btree_map::Range;
use std::marker::Model;
use std::ops::Bound;

// Changes at paths, at most one at each. Contracts see the finite map from path to change, as of `Changes`.
#[derive(Debug, Drop)]
pub(crate) struct OrderedChanges {
    rows: BTreeMap<Path, Change>,
}

impl Model for OrderedChanges {
    ghost use Rattle.std.specs.FinMap as map;
    ghost use Rattle.std.specs.Coded.{coded_list, coded_ℕ};
    ghost use Rattle.lake_base.specs.Maps.{ByteMap};
    ghost use Rattle.lake_values.specs.declared.entry.Change.{Change as AnyChange};
    ghost use Rattle.lake_values.specs.contracts.entry.Change.{the_row};

    ghost Value = { ByteMap AnyChange };

    ghost coded = { map.code (coded_list coded_ℕ) the_row.coded };

    ghost view = { λ a. map.from_entries a.rows.entries };
}

impl OrderedChanges {
    // No changes. It takes no memory.
    pub(crate) fn new(alloc: Global) -> OrderedChanges
        ensures { result ≡ map.empty }
    {
        OrderedChanges {
            rows: BTreeMap::new(alloc),
        }
    }

    // Whether there are none.
    pub(crate) fn is_empty(&self) -> bool
        ensures { result ≡ (map.len self.now == 0) }
    {
        self.rows.len() == 0
    }

    // The change at the path, by a search.
    pub(crate) fn get(&self, path: &Path) -> Option<&Change>
        ensures { option_copied result ≡ map.get self.now path.now }
    {
        self.rows.get(path)
    }

    // The changes in order of path.
    pub(crate) fn iter(&self) -> Range<'_, Path, Change>
        ensures { result ≡ map.entries self.now }
    {
        let all: (Bound<&Path>, Bound<&Path>) = (Bound::Unbounded, Bound::Unbounded);
        self.rows.range(all)
    }

    // Those at or above a path, by a search.
    pub(crate) fn iter_from(&self, path: &Path) -> Range<'_, Path, Change>
        ensures { result ≡ entries_from path.now (map.entries self.now) }
    {
        self.rows.range((Bound::Included(path), Bound::Unbounded))
    }

    // These changes with this one over them, by a search. Where no memory is left, it comes back.
    pub(crate) fn set(&mut self, path: Path, change: Change) -> Result<(), (Path, Change)>
        ensures set { OnOk result (self.new ≡ map.insert self.old path change) }
        ensures unchanged { OnErr result (self.new ≡ self.old) }
        ensures back { IfErr result (λ row. row ≡ (path, change)) }
    {
        match self.rows.insert(path, change) {
            Ok(_) => Ok(()),
            Err(failed) => Err(failed.value),
        }
    }

    // Drops the changes that the reset names.
    pub(crate) fn reset(&mut self, alloc: Global, what: &ResetWhat)
        ensures { self.new ≡ changes_after_reset what.now self.old }
    {
        match what {
            ResetWhat::All => self.rows.clear(),
            ResetWhat::Object(path) => drop_path(&mut self.rows, path),
            ResetWhat::Prefix(prefix) => drop_under(alloc, &mut self.rows, prefix),
        }
    }
}

// Drops the change of one path, by a search.
fn drop_path(rows: &mut BTreeMap<Path, Change>, path: &Path)
    ensures { map.from_entries rows.new.entries
        ≡ changes_after_reset (Object path.now) (map.from_entries rows.old.entries) }
{
    let _change = rows.remove(path);
}

// Drops the changes of the paths that begin with a prefix. Where that is no path, or no memory is left for a search, it
// goes over all.
fn drop_under(alloc: Global, rows: &mut BTreeMap<Path, Change>, prefix: &Text)
    ensures { map.from_entries rows.new.entries
        ≡ changes_after_reset (Prefix prefix.now) (map.from_entries rows.old.entries) }
{
    if drop_each(alloc, rows, prefix).is_err() {
        rows.retain(|path, _| !path.as_slice().starts_with(prefix.as_slice()));
    }
}

// Drops them one by one: a search to the first, and then only those. The map is searched by paths alone, so the prefix
// and each path are copied, and the copies let go.
fn drop_each(
    alloc: Global,
    rows: &mut BTreeMap<Path, Change>,
    prefix: &Text,
) -> Result<(), NameFault>
    ensures all { OnOk result (map.from_entries rows.new.entries
        ≡ changes_after_reset (Prefix prefix.now) (map.from_entries rows.old.entries)) }
    ensures those { changes_after_reset (Prefix prefix.now) (map.from_entries rows.new.entries)
        ≡ changes_after_reset (Prefix prefix.now) (map.from_entries rows.old.entries) }
{
    let first = Path::read(alloc, prefix.as_slice())?;
    while let Some(path) = next_under(alloc, rows, &first)? {
        let _change = rows.remove(&path);
    }
    Ok(())
}

// The first path that begins with a prefix, where there is one.
fn next_under(
    alloc: Global,
    rows: &BTreeMap<Path, Change>,
    prefix: &Path,
) -> Result<Option<Path>, NoMemory>
    ensures { IfOk result
        (λ next. MatchOption next (IsNoneUnder prefix.now rows.now.entries) (IsUnder prefix.now rows.now.entries)) }
{
    let from = (Bound::Included(prefix), Bound::Unbounded);
    match rows.range(from).next() {
        Some((path, _)) => {
            if path.as_slice().starts_with(prefix.as_slice()) {
                Ok(Some(path.copy(alloc)?))
            } else {
                Ok(None)
            }
        }
        None => Ok(None),
    }
}
