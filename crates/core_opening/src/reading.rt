//! The pairs are tested, and a lake is filled with what they spell.
ghost use Rattle.std.specs.Prelude.{◌≡◌, ◌<◌, IfOk, MatchResult};
ghost use Rattle.lake_base.specs.Maps.{HasAscendingKeys};
ghost use Rattle.keeper.specs.Keepers.{entries_of};
ghost use Rattle.pair_trees.specs.PairTrees.{trees_of};
ghost use Rattle.pair_trees.specs.Spelled.{AreSpelled};
ghost use Rattle.pair_trees.specs.Things.{things_of};
ghost use Rattle.pair_ties.specs.PairTies.{AreTied};
ghost use Rattle.core_opening.specs.Opening.{AreWhole, HasCause, IsWholeLake};

use crate::fault::OpeningFault;
use core_state::LakeState;
use lake_base::NoMemory;
use lake_format::Cut;
use opening_parts::fill;
use pair_format::Pair;
use pair_ties::first_broken;
use pair_trees::{ReadTree, SpelledPairs, counts_of, first_unread, read_trees};
use std::alloc::Global;

/// The lake of a cut for which these pairs stand, whose keys strictly ascend. Each pair is read once, and tested by
/// searches; each commit's tree is read, and costs the bytes of its files. Nothing has happened in the lake.
pub fn read_lake(alloc: Global, pairs: &[Pair], cut: Cut) -> Result<LakeState, OpeningFault>
    requires ascend { HasAscendingKeys (entries_of pairs.now) }
    requires cut { 0 < cut.modulus }
    ensures { MatchResult result (IsWholeLake cut pairs.now) (HasCause cut pairs.now) }
{
    let spelled = SpelledPairs::read(alloc, pairs)?;
    let trees = read_trees(alloc, &spelled, &cut)?;
    test_pairs(alloc, pairs, &spelled, trees.as_slice(), &cut)?;
    let lake = fill_with(alloc, pairs, spelled, trees, cut)?;
    Ok(lake)
}

// Whether no pair is broken and each commit's tree is read. BadPair, Tree, NoMemory.
fn test_pairs(
    alloc: Global,
    pairs: &[Pair],
    spelled: &SpelledPairs,
    trees: &[Option<ReadTree>],
    cut: &Cut,
) -> Result<(), OpeningFault>
    requires spelled { AreSpelled pairs.now spelled.now }
    requires trees { trees.now ≡ trees_of cut.now spelled.now }
    ensures { MatchResult result (λ _. AreWhole cut.now pairs.now) (HasCause cut.now pairs.now) }
{
    match first_broken(alloc, pairs, spelled, trees, cut)? {
        Some(number) => Err(OpeningFault::BadPair(number)),
        None => test_trees(pairs, spelled, trees, cut),
    }
}

// Whether each commit's tree is read, where no pair is broken. Tree.
fn test_trees(
    pairs: &[Pair],
    spelled: &SpelledPairs,
    trees: &[Option<ReadTree>],
    cut: &Cut,
) -> Result<(), OpeningFault>
    requires things { spelled.now ≡ things_of pairs.now }
    requires trees { trees.now ≡ trees_of cut.now spelled.now }
    requires tied { AreTied cut.now spelled.now }
    ensures { MatchResult result (λ _. AreWhole cut.now pairs.now) (HasCause cut.now pairs.now) }
{
    let _ = pairs;
    match first_unread(spelled, trees, cut) {
        Some((commit, fault)) => Err(OpeningFault::Tree { commit, fault }),
        None => Ok(()),
    }
}

// The lake that is filled with what pairs spell, of which none is broken. They tell the counts, then.
fn fill_with(
    alloc: Global,
    pairs: &[Pair],
    spelled: SpelledPairs,
    trees: Vec<Option<ReadTree>>,
    cut: Cut,
) -> Result<LakeState, NoMemory>
    requires spelled { AreSpelled pairs.now spelled }
    requires trees { trees.items ≡ trees_of cut spelled }
    requires whole { AreWhole cut pairs.now }
    ensures { IfOk result (IsWholeLake cut pairs.now) }
{
    let _ = pairs;
    match counts_of(alloc, &spelled)? {
        Some(counts) => fill(alloc, spelled.into_things(), trees, cut, counts),
        None => Err(NoMemory),
    }
}
