//! Changes: what is put or deleted at which paths.
ghost use Rattle.std.specs.Prelude.{◌≡◌, ℕ, List, [], OnOk, OnErr, IfOk, option_copied, None, refl, if◌then◌else◌};
ghost use Rattle.std.specs.Option.{option_or};
ghost use Rattle.std.specs.FinMap as map;
ghost use Rattle.lake_values.specs.KeyMap.{ChangesValue, HasPathKeys, over};
ghost use Rattle.lake_base.specs.Maps.{HasAscendingKeys};
ghost use Rattle.lake_values.specs.Reset.{changes_after_reset, drops_path};
ghost use Rattle.lake_values.specs.declared.commit.ResetWhat.{ResetWhat as AnyReset};
ghost use Rattle.lake_values.specs.declared.commit.ResetWhat.TheVariants.{All, Object, Prefix};

use crate::commit::ResetWhat;
use crate::entry::Change;
use crate::join::{Join, copy_of, joined};
use crate::sorted::{are_paths, put_at, value_at};
use lake_base::copying::{TryCopy, copied};
use lake_base::names::Path;
use lake_base::outside::NoMemory;
use std::alloc::Global;
use std::marker::Model;

/// Changes at paths, at most one at each. Contracts see the finite map from path to change.
#[derive(Debug, Drop)]
pub struct Changes {
    // In order of path.
    changes: Vec<(Path, Change)>,
}

impl Model for Changes {
    ghost use Rattle.std.specs.FinMap as map;
    ghost use Rattle.std.specs.Coded.{coded_list, coded_ℕ};
    ghost use Rattle.lake_base.specs.Maps.{ByteMap, HasAscendingKeys};
    ghost use Rattle.lake_values.specs.KeyMap.{HasPathKeys};
    ghost use Rattle.lake_values.specs.declared.entry.Change.{Change as AnyChange};
    ghost use Rattle.lake_values.specs.contracts.entry.Change.{the_row};

    ghost Value = { ByteMap AnyChange };

    ghost coded = { map.code (coded_list coded_ℕ) the_row.coded };

    ghost view = { λ a. map.from_sorted a.changes.items };

    ghost invariant = { λ a. HasAscendingKeys a.changes.items × HasPathKeys a.changes.items };
}

impl Changes {
    /// No changes. It takes no memory.
    pub fn new(alloc: Global) -> Changes
        ensures { result ≡ map.empty }
    {
        Changes {
            changes: Vec::new(alloc),
        }
    }

    /// The change at the path, by a search. It takes no memory.
    pub fn get(&self, path: &Path) -> Option<&Change>
        ensures { option_copied result ≡ map.get self.now path.now }
    {
        value_at(self.changes.as_slice(), path)
    }

    /// How many paths change. It takes no memory.
    pub fn len(&self) -> usize
        ensures { result ≡ map.len self.now }
    {
        self.as_slice().len()
    }

    /// The changes in order of path. It takes no memory.
    pub fn as_slice(&self) -> &[(Path, Change)]
        ensures changes { result.now ≡ map.entries self.now }
        ensures ascend { HasAscendingKeys result.now }
        ensures paths { HasPathKeys result.now }
    {
        self.changes.as_slice()
    }

    /// The changes of a vector whose paths strictly ascend: `has_ascending_keys` tells. It takes no memory.
    pub fn from_vec(changes: Vec<(Path, Change)>) -> Changes
        requires { HasAscendingKeys changes.items }
        ensures { result ≡ map.from_sorted changes.items }
    {
        are_paths(changes.as_slice());
        Changes { changes }
    }

    /// The vector of the changes in order of path. It takes no memory.
    pub fn into_vec(self) -> Vec<(Path, Change)>
        ensures changes { result.items ≡ map.entries self }
        ensures ascend { HasAscendingKeys result.items }
        ensures paths { HasPathKeys result.items }
    {
        self.changes
    }

    /// These changes with this one over them. Where paths come in ascending order, each is appended.
    pub fn set(&mut self, path: Path, change: Change) -> Result<(), NoMemory>
        ensures set { OnOk result (self.new ≡ map.insert self.old path change) }
        ensures unchanged { OnErr result (self.new ≡ self.old) }
    {
        put_at(&mut self.changes, path, change)
    }

    /// These changes over older ones: what these say at their paths, and the older ones elsewhere. It is one
    /// walk over both, which copies each change of the result once.
    pub fn over(&self, alloc: Global, old: &Changes) -> Result<Changes, NoMemory>
        ensures { IfOk result (λ changes. changes ≡ over self.now old.now) }
    {
        let changes = joined::<Overlay>(alloc, self.as_slice(), old.as_slice())?;
        Ok(Changes { changes })
    }

    /// Drops the changes that the reset names. It takes no memory.
    pub fn reset(&mut self, what: &ResetWhat)
        ensures { self.new ≡ changes_after_reset what.now self.old }
    {
        self.changes.retain(|change| !what.drops_path(&change.0));
    }
}

impl TryCopy for Changes {
    fn copy(&self, alloc: Global) -> Result<Changes, NoMemory> {
        let changes = copied(alloc, self.changes.as_slice())?;
        Ok(Changes { changes })
    }
}

// New changes over old ones.
struct Overlay;

impl Join for Overlay {
    type Left = Change;

    type Right = Change;

    type Value = Change;

    ghost value = { option_or };

    fn join(
        alloc: Global,
        new: Option<&Change>,
        old: Option<&Change>,
    ) -> Result<Option<Change>, NoMemory> {
        copy_of(alloc, new.or(old))
    }

    ghost nothing = { refl };
}

/// What a reset leaves at each path: nothing where it drops the path's change, and else that change. All and the
/// empty prefix leave nothing, one path loses its change alone, and a prefix those of the paths that begin with
/// it. (A law: it does nothing.)
pub fn law_of_reset()
    ensures left { (what : AnyReset) (changes : ChangesValue) (path : List ℕ)
        → map.get (changes_after_reset what changes) path
        ≡ (if drops_path what path then None else map.get changes path) }
    ensures all { (changes : ChangesValue) → changes_after_reset All changes ≡ map.empty }
    ensures empty { (changes : ChangesValue) → changes_after_reset (Prefix []) changes ≡ map.empty }
    ensures object { (path : List ℕ) (changes : ChangesValue)
        → changes_after_reset (Object path) changes ≡ map.remove changes path }
{}
