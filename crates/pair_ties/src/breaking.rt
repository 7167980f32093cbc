//! The first broken pair.
ghost use Rattle.std.specs.Prelude.{◌≡◌, ◌↔◌, ◌<◌, length, IfOk, IsTrue, MatchOption};
ghost use Rattle.std.specs.List.{list_any};
ghost use Rattle.lake_base.specs.Maps.{HasAscendingKeys};
ghost use Rattle.keeper.specs.Keepers.{entries_of};
ghost use Rattle.pair_ties.specs.BrokenPairs.{AreBlamelessBefore, IsBlameless, IsBlamelessAt, IsFirstBroken, IsRight};
ghost use Rattle.pair_ties.specs.PairTies.{AreTied, IsTiedCounts};
ghost use Rattle.pair_trees.specs.PairTrees.{trees_of};
ghost use Rattle.pair_trees.specs.Spelled.{AreSpelled};
ghost use Rattle.pair_trees.specs.Tables.{AreTablesOf};
ghost use Rattle.pair_trees.specs.Things.{HasCountsPair, Spells, is_counts_pair, thing_at};

use crate::changes::is_right_staged;
use crate::commits::is_right_commit;
use crate::files::{is_tied_metarange, is_tied_range};
use crate::given::{is_given_number, is_given_version};
use crate::named::are_named_there;
use crate::names::{is_right_branch, is_right_note, isnt_expired};
use lake_base::NoMemory;
use lake_format::Cut;
use pair_format::{Pair, Stored};
use pair_trees::{ReadTree, SpelledPairs, Tables};
use std::alloc::Global;

/// The number of the first broken pair of these, which spell this, from 0: the first that isn't of a form or is to
/// blame for a tie that it breaks, and 0 where no pair has the key of the counts. No pair is to blame for another that
/// isn't of a form. Where none is broken, each pair is of a form and tied. It takes some searches for each pair, and
/// for each number of an object.
pub fn first_broken(
    alloc: Global,
    pairs: &[Pair],
    spelled: &SpelledPairs,
    trees: &[Option<ReadTree>],
    cut: &Cut,
) -> Result<Option<u64>, NoMemory>
    requires spelled { AreSpelled pairs.now spelled.now }
    requires trees { trees.now ≡ trees_of cut.now spelled.now }
    ensures { IfOk result (λ found. MatchOption found
        (AreTied cut.now spelled.now) (IsFirstBroken cut.now pairs.now)) }
{
    if !has_counts_pair(pairs) {
        return Ok(Some(0));
    }
    let tables = Tables::of(alloc, spelled, trees, cut)?;
    match first_blamed(alloc, pairs, spelled, &tables)? {
        Some(at) => Ok(Some(at as u64)),
        None => Ok(None),
    }
}

// Whether a pair has the key of the counts.
fn has_counts_pair(pairs: &[Pair]) -> bool
    ensures { IsTrue result ↔ HasCountsPair pairs.now }
{
    any_counts_pair(pairs)
}

// So it is, as a test of each.
fn any_counts_pair(pairs: &[Pair]) -> bool
    ensures { result ≡ list_any is_counts_pair pairs.now }
{
    pairs.iter().any(|pair| is_counts_pair(pair))
}

// Whether this one has it.
fn is_counts_pair(pair: &Pair) -> bool
    ensures { result ≡ is_counts_pair pair.now }
{
    pair.key.as_slice() == b"Z".as_slice()
}

// The first pair that isn't of a form or is to blame.
fn first_blamed(
    alloc: Global,
    raw: &[Pair],
    pairs: &SpelledPairs,
    tables: &Tables,
) -> Result<Option<usize>, NoMemory>
    requires ascend { HasAscendingKeys (entries_of raw.now) }
    requires tables { AreTablesOf pairs.now tables.now }
    ensures { IfOk result (λ found. MatchOption found
        (AreBlamelessBefore tables.now.cut raw.now pairs.now (length pairs.now))
        (λ at. (at < length pairs.now) × AreBlamelessBefore tables.now.cut raw.now pairs.now at
        × (IsBlamelessAt tables.now.cut raw.now pairs.now at → ⊥))) }
{
    for (at, thing) in pairs.as_slice().iter().enumerate() {
        if !is_blameless_thing(alloc, raw, pairs, tables, at, thing)? {
            return Ok(Some(at));
        }
    }
    Ok(None)
}

// Whether the pair at a place is of a form and isn't to blame, where those before it are and aren't.
fn is_blameless_thing(
    alloc: Global,
    raw: &[Pair],
    pairs: &SpelledPairs,
    tables: &Tables,
    at: usize,
    thing: &Option<Stored>,
) -> Result<bool, NoMemory>
    requires ascend { HasAscendingKeys (entries_of raw.now) }
    requires here { thing_at pairs.now at ≡ thing.now }
    requires tables { AreTablesOf pairs.now tables.now }
    requires before { AreBlamelessBefore tables.now.cut raw.now pairs.now at }
    ensures { IfOk result (λ blameless. IsTrue blameless ↔ IsBlamelessAt tables.now.cut raw.now pairs.now at) }
{
    match thing {
        Some(stored) => is_blameless(alloc, raw, pairs, tables, at, stored),
        None => Ok(false),
    }
}

// Whether the pair at a place, which spells this, isn't to blame, where those before it aren't.
fn is_blameless(
    alloc: Global,
    raw: &[Pair],
    pairs: &SpelledPairs,
    tables: &Tables,
    at: usize,
    stored: &Stored,
) -> Result<bool, NoMemory>
    requires ascend { HasAscendingKeys (entries_of raw.now) }
    requires here { Spells pairs.now at stored.now }
    requires tables { AreTablesOf pairs.now tables.now }
    requires before { AreBlamelessBefore tables.now.cut raw.now pairs.now at }
    ensures { IfOk result (λ blameless. IsTrue blameless
        ↔ IsBlameless tables.now.cut raw.now pairs.now at stored.now) }
{
    let _ = pairs.as_slice();
    if !are_named_there(alloc, raw, stored)? {
        return Ok(false);
    }
    is_right(alloc, raw, pairs, tables, at, stored)
}

// Whether what the pair at a place spells is right, where no pair before it is to blame.
fn is_right(
    alloc: Global,
    raw: &[Pair],
    pairs: &SpelledPairs,
    tables: &Tables,
    at: usize,
    stored: &Stored,
) -> Result<bool, NoMemory>
    requires ascend { HasAscendingKeys (entries_of raw.now) }
    requires here { Spells pairs.now at stored.now }
    requires tables { AreTablesOf pairs.now tables.now }
    requires before { AreBlamelessBefore tables.now.cut raw.now pairs.now at }
    ensures { IfOk result (λ right. IsTrue right ↔ IsRight tables.now.cut raw.now pairs.now at stored.now) }
{
    match stored {
        Stored::Repository { settings, .. } => Ok(is_given_version(pairs, tables, *settings)),
        Stored::Branch {
            repo,
            version,
            head,
            staging,
            sealed,
            ..
        } => is_right_branch(
            alloc,
            pairs,
            tables,
            at,
            repo,
            *version,
            head,
            *staging,
            sealed.as_slice(),
        ),
        Stored::Tag { repo, commit, .. } => isnt_expired(alloc, pairs, repo, commit),
        Stored::Commit {
            repo,
            id,
            commit,
            ..
        } => is_right_commit(alloc, raw, pairs, tables, at, repo, id, commit),
        Stored::MetaRange { name, bytes } => {
            is_tied_metarange(alloc, pairs, tables, at, name, bytes.as_slice())
        }
        Stored::Range { name, bytes } => is_tied_range(
            alloc,
            pairs,
            tables,
            at,
            name,
            bytes.as_slice(),
        ),
        Stored::Staged {
            token,
            path,
            change,
        } => is_right_staged(alloc, raw, pairs, tables, at, *token, path, change),
        Stored::Note { name, text, .. } => is_right_note(alloc, *name, text.as_slice()),
        Stored::Gone { number } => Ok(is_given_number(pairs, tables, *number)),
        Stored::Counts {
            number,
            version,
            token,
        } => Ok(are_counts(*number, *version, *token)),
    }
}

// Whether what is given out next is below 2^63, and the version above 0.
fn are_counts(number: u64, version: u64, token: u64) -> bool
    ensures { IsTrue result ↔ IsTiedCounts number version token }
{
    let most = 9223372036854775808;
    number < most && version < most && token < most && version > 0
}
