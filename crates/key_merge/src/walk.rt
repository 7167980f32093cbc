//! The one walk of a merge. It gathers changes up to the first path for which the merge is refused, and from there on
//! counts conflicts.
ghost use Rattle.std.specs.Prelude.{◌≡◌, [], ◌∷◌, ◌++◌, ◌+◌, ◌<◌, ◌≤◌, ◌^◌, length, take, false, IfOk, OnOk};
ghost use Rattle.std.specs.Prelude.{MatchResult};
ghost use Rattle.lake_values.specs.KeyMap.{differences};
ghost use Rattle.lake_values.specs.Merging.{merged_map, is_refused};
ghost use Rattle.key_merge.specs.Refusal.{TellsFault};
ghost use Rattle.key_merge.specs.MergeWalk.{winning_side, conflicts_of};

use crate::fault::MergeFault;
use crate::front::Sides;
use lake_base::TryCopy;
use lake_base::names::Path;
use lake_base::outside::NoMemory;
use lake_base::sequence::Sequence;
use lake_values::changes::Changes;
use lake_values::commit::Strategy;
use lake_values::merge::Side;
use meta_range::{Tree, Trio, law_of_limits};
use std::alloc::Global;

// How many conflicts a refusal lists.
const LISTED: usize = 100;

/// The changes that take the destination's map to the merged map, at just the paths at which the two differ. It is
/// refused exactly where there is no strategy and a path conflicts: the least 100 of these paths are listed, and all
/// are counted.
pub fn merge(alloc: Global, trio: &Trio, strategy: Strategy) -> Result<Changes, MergeFault>
    ensures changes { IfOk result (λ changes. changes ≡ differences
        (merged_map strategy trio.now.base.map trio.now.source.map trio.now.dest.map) trio.now.dest.map) }
    ensures exact { MatchResult result
        (λ changes. is_refused strategy trio.now.base.map trio.now.source.map trio.now.dest.map ≡ false)
        (TellsFault strategy trio.now.base.map trio.now.source.map trio.now.dest.map) }
{
    merge_trees(alloc, trio.base(), trio.source(), trio.dest(), strategy)
}

// The same of three trees.
fn merge_trees(
    alloc: Global,
    base: &Tree,
    source: &Tree,
    dest: &Tree,
    strategy: Strategy,
) -> Result<Changes, MergeFault>
    ensures changes { IfOk result (λ changes. changes ≡ differences
        (merged_map strategy base.now.map source.now.map dest.now.map) dest.now.map) }
    ensures exact { MatchResult result
        (λ changes. is_refused strategy base.now.map source.now.map dest.now.map ≡ false)
        (TellsFault strategy base.now.map source.now.map dest.now.map) }
{
    law_of_limits(base);
    law_of_limits(source);
    let mut sides = Sides::new(base, source, dest);
    let mut changes = Vec::new(alloc);
    while let Some(front) = sides.next() {
        match winning_side(strategy, front.side()) {
            Side::Neither => return Err(refusal(alloc, sides, front.path)?),
            Side::Source => front.take_source(alloc, &mut changes)?,
            Side::Destination => {}
        }
    }
    Ok(Changes::from_vec(changes))
}

// Whose value a path takes, where the strategy decides of those that conflict.
fn winning_side(strategy: Strategy, side: Side) -> Side
    ensures { result ≡ winning_side strategy side }
{
    match (strategy, side) {
        (Strategy::SourceWins, Side::Neither) => Side::Source,
        (Strategy::DestWins, Side::Neither) => Side::Destination,
        _ => side,
    }
}

// The refusal by a first path that conflicts, and by those among the rows still to come.
fn refusal(alloc: Global, mut sides: Sides<'_>, first: &Path) -> Result<MergeFault, NoMemory>
    requires { length sides.base + length sides.source < 2 ^ 60 }
    ensures { IfOk result (λ fault. fault ≡ MergeFault.Conflicts
        (take 100 (first.now ∷ conflicts_of sides.entry)) (length (first.now ∷ conflicts_of sides.entry))) }
{
    let mut paths = Vec::new(alloc);
    list(alloc, &mut paths, first)?;
    let mut total: u64 = 1;
    while let Some(front) = sides.next() {
        if front.side() == Side::Neither {
            list(alloc, &mut paths, front.path)?;
            total += 1;
        }
    }
    let paths = Sequence::of(paths);
    Ok(MergeFault::Conflicts { paths, total })
}

// Lists a path too, where fewer than 100 are listed.
fn list(alloc: Global, paths: &mut Vec<Path>, path: &Path) -> Result<(), NoMemory>
    requires { length paths.old.items ≤ 100 }
    ensures { OnOk result (paths.new.items ≡ take 100 (paths.old.items ++ path.now ∷ [])) }
{
    if paths.len() < LISTED {
        paths.push(path.copy(alloc)?)?;
    }
    Ok(())
}
