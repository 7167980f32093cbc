//! Key maps: what stands at which path.
ghost use Rattle.std.specs.Prelude.{◌≡◌, ◌↔◌, ◌∷◌, ℕ, List, None, IfOk, option_copied, refl};
ghost use Rattle.std.specs.Option.{option_or};
ghost use Rattle.std.specs.FinMap as map;
ghost use Rattle.std.specs.declared.cmp.Ordering.TheVariants.{Less};
ghost use Rattle.lake_base.specs.Maps.{HasAscendingKeys, byte_order};
ghost use Rattle.lake_values.specs.KeyMap.{KeyMapValue, ChangesValue, HasPathKeys, apply, over, value_after};
ghost use Rattle.lake_values.specs.KeyMap.{change_between, differences};
ghost use Rattle.lake_values.specs.declared.entry.Change.{Change as AnyChange};

use crate::changes::Changes;
use crate::entry::{Change, Entry, same_value};
use crate::join::{Join, copy_of, joined};
use crate::sorted::{are_paths, value_at};
use lake_base::copying::{TryCopy, copied};
use lake_base::names::Path;
use lake_base::outside::NoMemory;
use std::alloc::Global;
use std::marker::Model;

/// The entries at paths, at most one at each. Contracts see the finite map from path to entry.
#[derive(Debug, Drop)]
pub struct KeyMap {
    // In order of path.
    entries: Vec<(Path, Entry)>,
}

impl Model for KeyMap {
    ghost use Rattle.std.specs.FinMap as map;
    ghost use Rattle.std.specs.Coded.{coded_list, coded_ℕ};
    ghost use Rattle.lake_base.specs.Maps.{ByteMap, HasAscendingKeys};
    ghost use Rattle.lake_values.specs.Entry.{EntryValue};
    ghost use Rattle.lake_values.specs.KeyMap.{HasPathKeys};
    ghost use Rattle.lake_values.specs.contracts.entry.Entry.{the_row};

    ghost Value = { ByteMap EntryValue };

    ghost coded = { map.code (coded_list coded_ℕ) the_row.coded };

    ghost view = { λ a. map.from_sorted a.entries.items };

    ghost invariant = { λ a. HasAscendingKeys a.entries.items × HasPathKeys a.entries.items };
}

impl KeyMap {
    /// Nothing. It takes no memory.
    pub fn new(alloc: Global) -> KeyMap
        ensures { result ≡ map.empty }
    {
        KeyMap {
            entries: Vec::new(alloc),
        }
    }

    /// The entry at the path, by a search. It takes no memory.
    pub fn get(&self, path: &Path) -> Option<&Entry>
        ensures { option_copied result ≡ map.get self.now path.now }
    {
        value_at(self.entries.as_slice(), path)
    }

    /// How many paths there are. It takes no memory.
    pub fn len(&self) -> usize
        ensures { result ≡ map.len self.now }
    {
        self.as_slice().len()
    }

    /// The entries in order of path. It takes no memory.
    pub fn as_slice(&self) -> &[(Path, Entry)]
        ensures entries { result.now ≡ map.entries self.now }
        ensures ascend { HasAscendingKeys result.now }
        ensures paths { HasPathKeys result.now }
    {
        self.entries.as_slice()
    }

    /// The map of a vector whose paths strictly ascend: `has_ascending_keys` tells. It takes no memory.
    pub fn from_vec(entries: Vec<(Path, Entry)>) -> KeyMap
        requires { HasAscendingKeys entries.items }
        ensures { result ≡ map.from_sorted entries.items }
    {
        are_paths(entries.as_slice());
        KeyMap { entries }
    }

    /// The vector of the entries in order of path. It takes no memory.
    pub fn into_vec(self) -> Vec<(Path, Entry)>
        ensures entries { result.items ≡ map.entries self }
        ensures ascend { HasAscendingKeys result.items }
        ensures paths { HasPathKeys result.items }
    {
        self.entries
    }

    /// What the changes say at their paths, and this map elsewhere. It is one walk over both, which copies each
    /// entry of the result once.
    pub fn apply(&self, alloc: Global, changes: &Changes) -> Result<KeyMap, NoMemory>
        ensures { IfOk result (λ map. map ≡ apply changes.now self.now) }
    {
        let entries = joined::<Applied>(alloc, self.as_slice(), changes.as_slice())?;
        Ok(KeyMap { entries })
    }

    /// The changes that make an old map this one, at just the paths at which the two differ: a put of this map's
    /// entry, or a deletion. It is one walk over both.
    ///
    /// | path | old | this | change |
    /// |---|---|---|---|
    /// | `a` | 1 | 1 | none |
    /// | `b` | 1 | 2 | Put 2 |
    /// | `c` | 1 | nothing | Delete |
    /// | `d` | nothing | 2 | Put 2 |
    pub fn differences(&self, alloc: Global, old: &KeyMap) -> Result<Changes, NoMemory>
        ensures { IfOk result (λ changes. changes ≡ differences self.now old.now) }
    {
        let changes = joined::<Difference>(alloc, self.as_slice(), old.as_slice())?;
        Ok(Changes::from_vec(changes))
    }
}

impl TryCopy for KeyMap {
    fn copy(&self, alloc: Global) -> Result<KeyMap, NoMemory> {
        let entries = copied(alloc, self.entries.as_slice())?;
        Ok(KeyMap { entries })
    }
}

/// The change of a path that has this new value and had that old one: none where the two are equal, else a put of
/// the new entry, or a deletion.
pub fn change_between(
    alloc: Global,
    new: Option<&Entry>,
    old: Option<&Entry>,
) -> Result<Option<Change>, NoMemory>
    ensures { IfOk result (λ change.
        change ≡ change_between (option_copied new.entry) (option_copied old.entry)) }
{
    if same_value(new, old) {
        return Ok(None);
    }
    match new {
        Some(entry) => Ok(Some(Change::Put(entry.copy(alloc)?))),
        None => Ok(Some(Change::Delete)),
    }
}

/// What changes say at their paths and a map elsewhere, and what new changes say at theirs and old ones
/// elsewhere. Changes over changes are applied as one after the other. One change over others is that change
/// set in them. Putting changes over changes is associative. (A law: it does nothing.)
pub fn laws_of_changes()
    ensures applied { (changes : ChangesValue) (old : KeyMapValue) (path : List ℕ)
        → map.get (apply changes old) path ≡ value_after (map.get changes path) (map.get old path) }
    ensures over { (new old : ChangesValue) (path : List ℕ)
        → map.get (over new old) path ≡ option_or (map.get new path) (map.get old path) }
    ensures in_turn { (new old : ChangesValue) (under : KeyMapValue)
        → apply (over new old) under ≡ apply new (apply old under) }
    ensures one { (path : List ℕ) (change : AnyChange) (old : ChangesValue)
        → over (map.insert map.empty path change) old ≡ map.insert old path change }
    ensures together { (a b c : ChangesValue) → over (over a b) c ≡ over a (over b c) }
{}

/// The change at each path from an old map to a new one: where the two look-ups are equal none, else a put of the
/// new entry, or a deletion. Applied to the old map the changes give the new one; they are at just the paths at
/// which the look-ups differ, in ascending order, and so the first of them is the least such path. (A law: it does
/// nothing.)
pub fn law_of_differences()
    ensures changes { (new old : KeyMapValue) (path : List ℕ)
        → map.get (differences new old) path ≡ change_between (map.get new path) (map.get old path) }
    ensures applied { (new old : KeyMapValue) → apply (differences new old) old ≡ new }
    ensures none { (new old : KeyMapValue) (path : List ℕ)
        → (map.get (differences new old) path ≡ None) ↔ (map.get new path ≡ map.get old path) }
    ensures ascend { (new old : KeyMapValue) → HasAscendingKeys (map.entries (differences new old)) }
    ensures least { (new old : KeyMapValue) (first : List ℕ × AnyChange)
        (rest : List (List ℕ × AnyChange)) (path : List ℕ)
        → map.entries (differences new old) ≡ first ∷ rest → byte_order path first.0 ≡ Less
        → map.get new path ≡ map.get old path }
{}

// What changes leave of a map.
struct Applied;

impl Join for Applied {
    type Left = Entry;

    type Right = Change;

    type Value = Entry;

    ghost value = { λ had change. value_after change had };

    fn join(
        alloc: Global,
        had: Option<&Entry>,
        change: Option<&Change>,
    ) -> Result<Option<Entry>, NoMemory> {
        match change {
            Some(Change::Put(entry)) => Ok(Some(entry.copy(alloc)?)),
            Some(Change::Delete) => Ok(None),
            None => copy_of(alloc, had),
        }
    }

    ghost nothing = { refl };
}

// The changes that make an old map a new one.
struct Difference;

impl Join for Difference {
    type Left = Entry;

    type Right = Entry;

    type Value = Change;

    ghost value = { change_between };

    fn join(
        alloc: Global,
        new: Option<&Entry>,
        old: Option<&Entry>,
    ) -> Result<Option<Change>, NoMemory> {
        change_between(alloc, new, old)
    }

    ghost nothing = { refl };
}
