//! The changes under each token.
ghost use Rattle.std.specs.Prelude.{◌≡◌, ◌≤◌, ◌&&◌, Some, None, IsOk, OnOk, OnErr, IfErr, IsSome, option_copied};
ghost use Rattle.std.specs.Prelude.{option_map};
ghost use Rattle.std.specs.Ordering.{nat_cmp};
ghost use Rattle.std.specs.BTreeMap.{get as tree_get};
ghost use Rattle.std.specs.Map.Iter.{deref_pair};
ghost use Rattle.std.specs.FinMap as map;
ghost use Rattle.lake_values.specs.Reset.{changes_after_reset};
ghost use Rattle.branch_record.specs.Tokens.{HasNoEmptyToken, changes_under, with_changes, with_change};
ghost use Rattle.branch_record.specs.TokenRows.{some_changes, tokens_of, waiting_after, waiting_under, waiting_said};

use crate::cursor::ChangesCursor;
use crate::ordered::OrderedChanges;
use lake_base::names::Path;
use lake_base::outside::NoMemory;
use lake_values::commit::ResetWhat;
use lake_values::entry::Change;
use std::alloc::Global;
use std::collections::BTreeMap;
use std::marker::Model;

/// The changes under each token. Contracts see the finite map from token to changes, without the tokens that have
/// none, and for how many changes more there is room, which is made by `BranchRecord::ready`.
#[derive(Debug, Drop)]
pub struct Tokens {
    alloc: Global,
    // Some may be empty.
    changes: BTreeMap<u64, OrderedChanges>,
    // A change that waits for its place among those under its token, since a map has no room that was made before.
    waiting: Option<(u64, Path, Change)>,
}

impl Model for Tokens {
    ghost use Rattle.branch_record.specs.Tokens.{TokensValue, tokens_code};
    ghost use Rattle.branch_record.specs.TokenRows.{tokens_of, with_waiting, room};

    ghost Value = { TokensValue };

    ghost coded = { tokens_code };

    ghost view = { λ t.
        record { changes = with_waiting t.waiting (tokens_of t.changes.entries); spare = room t.waiting } };
}

impl Tokens {
    /// No changes. It takes no memory.
    pub fn new(alloc: Global) -> Tokens
        ensures { result ≡ record { changes = map.empty; spare = 1 } }
    {
        Tokens {
            alloc,
            changes: BTreeMap::new(alloc),
            waiting: None,
        }
    }

    /// Whether there are changes under a token. It takes no memory.
    pub fn has_changes(&self, token: u64) -> bool
        ensures there { result ≡ map.contains_key self.now.changes token }
        ensures some { HasNoEmptyToken self.now.changes }
    {
        match waiting_of(&self.waiting, token) {
            Some(_) => true,
            None => has_in_place(&self.changes, token),
        }
    }

    /// The changes under a token, in order of path. It takes no memory.
    pub fn changes_of(&self, token: u64) -> ChangesCursor<'_>
        ensures { result ≡ map.entries (changes_under self.now.changes token) }
    {
        let under = self.changes.get(&token);
        ChangesCursor::new(self.alloc, under, waiting_of(&self.waiting, token))
    }

    /// Puts a change over those under a token. Where there is room, it takes no memory.
    pub fn put(&mut self, token: u64, path: Path, change: Change) -> Result<(), NoMemory>
        ensures put { OnOk result (self.new.changes ≡ with_change self.old.changes token path change) }
        ensures unchanged { OnErr result (self.new.changes ≡ self.old.changes) }
        ensures room { 1 ≤ self.old.spare → IsOk result }
    {
        self.make_room()?;
        self.waiting = Some((token, path, change));
        Ok(())
    }

    // Makes room for one change more: the one that waits goes to its place.
    pub(crate) fn make_room(&mut self) -> Result<(), NoMemory>
        ensures same { self.new.changes ≡ self.old.changes }
        ensures room { OnOk result (self.new.spare ≡ 1) }
        ensures had_room { 1 ≤ self.old.spare → IsOk result }
    {
        let Some((token, path, change)) = self.waiting.take() else {
            return Ok(());
        };
        match put_in_place(self.alloc, &mut self.changes, token, path, change) {
            Ok(()) => Ok(()),
            Err((path, change)) => {
                self.waiting = Some((token, path, change));
                Err(NoMemory)
            }
        }
    }

    // The change under a token at a path, by a search.
    pub(crate) fn get(&self, token: u64, path: &Path) -> Option<&Change>
        ensures { option_copied result ≡ map.get (changes_under self.now.changes token) path.now }
    {
        match waiting_at(&self.waiting, token, path) {
            Some(change) => Some(change),
            None => match self.changes.get(&token) {
                Some(under) => under.get(path),
                None => None,
            },
        }
    }

    // Drops the changes under a token that the reset names.
    pub(crate) fn reset(&mut self, token: u64, what: &ResetWhat)
        ensures { self.new.changes ≡ with_changes self.old.changes token
            (changes_after_reset what.now (changes_under self.old.changes token)) }
    {
        reset_waiting(&mut self.waiting, token, what);
        reset_in_place(self.alloc, &mut self.changes, token, what);
        drop_if_empty(&mut self.changes, token);
    }
}

// The change that waits under a token, with its path.
fn waiting_of(waiting: &Option<(u64, Path, Change)>, token: u64) -> Option<(&Path, &Change)>
    ensures { option_map deref_pair result ≡ waiting_under waiting.now token }
{
    match waiting {
        Some((of, path, change)) => {
            if token == *of {
                Some((path, change))
            } else {
                None
            }
        }
        None => None,
    }
}

// The change that waits under a token at a path.
fn waiting_at<'a>(
    waiting: &'a Option<(u64, Path, Change)>,
    token: u64,
    path: &Path,
) -> Option<&'a Change>
    ensures { option_copied result ≡ waiting_said waiting.now token path.now }
{
    match waiting {
        Some((of, at, change)) => {
            if token == *of && path.as_slice() == at.as_slice() {
                Some(change)
            } else {
                None
            }
        }
        None => None,
    }
}

// Drops the change that waits under a token, where the reset names it.
fn reset_waiting(waiting: &mut Option<(u64, Path, Change)>, token: u64, what: &ResetWhat)
    ensures { waiting.new ≡ waiting_after waiting.old token what.now }
{
    let dropped = match waiting {
        Some((of, path, _)) => token == *of && what.drops_path(path),
        None => false,
    };
    if dropped {
        *waiting = None;
    }
}

// Puts a change over those under a token. Where no memory is left, it comes back.
fn put_in_place(
    alloc: Global,
    changes: &mut BTreeMap<u64, OrderedChanges>,
    token: u64,
    path: Path,
    change: Change,
) -> Result<(), (Path, Change)>
    ensures put { OnOk result
        (tokens_of changes.new.entries ≡ with_change (tokens_of changes.old.entries) token path change) }
    ensures unchanged { OnErr result (tokens_of changes.new.entries ≡ tokens_of changes.old.entries) }
    ensures back { IfErr result (λ row. row ≡ (path, change)) }
{
    if make_place(alloc, changes, token).is_err() {
        return Err((path, change));
    }
    let Some(under) = changes.get_mut(&token) else {
        return Err((path, change));
    };
    under.set(path, change)
}

// Makes a place for changes under a token, where there is none.
fn make_place(
    alloc: Global,
    changes: &mut BTreeMap<u64, OrderedChanges>,
    token: u64,
) -> Result<(), NoMemory>
    ensures same { tokens_of changes.new.entries ≡ tokens_of changes.old.entries }
    ensures place { OnOk result (IsSome (tree_get nat_cmp changes.new token)) }
{
    if changes.contains_key(&token) {
        return Ok(());
    }
    changes.insert(token, OrderedChanges::new(alloc))?;
    Ok(())
}

// Drops the changes in place under a token that the reset names.
fn reset_in_place(
    alloc: Global,
    changes: &mut BTreeMap<u64, OrderedChanges>,
    token: u64,
    what: &ResetWhat,
)
    ensures { tokens_of changes.new.entries ≡ with_changes (tokens_of changes.old.entries) token
        (changes_after_reset what.now (changes_under (tokens_of changes.old.entries) token)) }
{
    let Some(under) = changes.get_mut(&token) else {
        return;
    };
    under.reset(alloc, what);
}

// Whether there are changes in place under a token.
fn has_in_place(changes: &BTreeMap<u64, OrderedChanges>, token: u64) -> bool
    ensures { result ≡ some_changes (tree_get nat_cmp changes.now token) }
{
    match changes.get(&token) {
        Some(under) => !under.is_empty(),
        None => false,
    }
}

// Drops the place for changes under a token, where it is empty.
fn drop_if_empty(changes: &mut BTreeMap<u64, OrderedChanges>, token: u64)
    ensures { tokens_of changes.new.entries ≡ tokens_of changes.old.entries }
{
    if !has_in_place(changes, token) {
        let _under = changes.remove(&token);
    }
}
