//! What is right of changes under tokens.
ghost use Rattle.std.specs.Prelude.{◌≡◌, ◌↔◌, IfOk, IsTrue};
ghost use Rattle.lake_base.specs.Maps.{HasAscendingKeys};
ghost use Rattle.keeper.specs.Keepers.{entries_of};
ghost use Rattle.lake_model.specs.Uncommitted.{put_number};
ghost use Rattle.pair_format.specs.declared.key.OwnedKey.TheVariants as key;
ghost use Rattle.pair_format.specs.declared.stored.Stored.TheVariants as stored;
ghost use Rattle.pair_ties.specs.Hidden.{IsHiddenIn, sealed_in};
ghost use Rattle.pair_ties.specs.BrokenPairs.{AreBlamelessBefore, HasPair, IsRightStaged};
ghost use Rattle.pair_trees.specs.Tables.{AreTablesOf};
ghost use Rattle.pair_trees.specs.Things.{Spells, thing_at};

use crate::by_key::has_pair;
use crate::given::is_given_number;
use lake_base::{NoMemory, Path};
use lake_values::{Change, Place};
use pair_format::{Pair, Stored, StoredKey};
use pair_trees::{SpelledPairs, Tables};
use std::alloc::Global;

// Whether the change at a place is right, where no pair before it is to blame.
pub(crate) fn is_right_staged(
    alloc: Global,
    raw: &[Pair],
    pairs: &SpelledPairs,
    tables: &Tables,
    at: usize,
    token: u64,
    path: &Path,
    change: &Change,
) -> Result<bool, NoMemory>
    requires ascend { HasAscendingKeys (entries_of raw.now) }
    requires here { Spells pairs.now at (stored.Staged token path.now change.now) }
    requires tables { AreTablesOf pairs.now tables.now }
    requires before { AreBlamelessBefore tables.now.cut raw.now pairs.now at }
    ensures { IfOk result (λ right. IsTrue right ↔ IsRightStaged raw.now pairs.now token path.now change.now) }
{
    let _ = at;
    let _ = pairs.as_slice();
    let Some(first) = tables.tokens.get(&token) else {
        return Ok(false);
    };
    let Some(number) = put_number(change) else {
        return Ok(true);
    };
    if !is_given_number(pairs, tables, number) {
        return Ok(false);
    }
    if !pairs.has(alloc, &StoredKey::Gone { number })? {
        return Ok(true);
    }
    is_hidden_at(alloc, raw, pairs, *first, token, path)
}

// The own number that a change puts.
fn put_number(change: &Change) -> Option<u64>
    ensures { result ≡ put_number change.now }
{
    match change {
        Change::Put(entry) => match &entry.place {
            Place::Own { number, .. } => Some(*number),
            Place::External { .. } => None,
        },
        Change::Delete => None,
    }
}

// Whether a change of the path is hidden under a sealed token of the branch at a place.
fn is_hidden_at(
    alloc: Global,
    raw: &[Pair],
    pairs: &SpelledPairs,
    first: usize,
    token: u64,
    path: &Path,
) -> Result<bool, NoMemory>
    requires { HasAscendingKeys (entries_of raw.now) }
    ensures { IfOk result (λ hidden. IsTrue hidden
        ↔ IsHiddenIn raw.now (sealed_in (thing_at pairs.now first)) token path.now) }
{
    match pairs.as_slice().get(first) {
        Some(Some(Stored::Branch { sealed, .. })) => {
            is_hidden(alloc, raw, sealed.as_slice(), token, path)
        }
        _ => Ok(false),
    }
}

// Whether a pair has the key of a change of the path under one of the sealed tokens of a branch that is newer than
// this one, which is one of them too.
fn is_hidden(
    alloc: Global,
    raw: &[Pair],
    sealed: &[u64],
    token: u64,
    path: &Path,
) -> Result<bool, NoMemory>
    requires { HasAscendingKeys (entries_of raw.now) }
    ensures { IfOk result (λ hidden. IsTrue hidden ↔ IsHiddenIn raw.now sealed.now token path.now) }
{
    let mut found = false;
    for newer in sealed {
        if *newer == token {
            return Ok(found);
        }
        found = has_change(alloc, raw, *newer, path)? || found;
    }
    Ok(false)
}

// Whether a pair has the key of a change of the path under a token.
fn has_change(alloc: Global, raw: &[Pair], token: u64, path: &Path) -> Result<bool, NoMemory>
    requires { HasAscendingKeys (entries_of raw.now) }
    ensures { IfOk result (λ there. IsTrue there ↔ HasPair raw.now (key.Staged token path.now)) }
{
    has_pair(alloc, raw, &StoredKey::Staged { token, path })
}
