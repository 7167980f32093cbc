//! A lake that is filled.
ghost use Rattle.std.specs.Prelude.{◌≡◌, IfOk};
ghost use Rattle.std.specs.List.{AllByRecursion};
ghost use Rattle.pair_trees.specs.PairTrees.{trees_of};
ghost use Rattle.core_state.specs.LakeStates.{lake_value};
ghost use Rattle.opening_parts.specs.Filled.{ArePlacesAmong, CanJoin, IsFilledWith, counted_lake};
ghost use Rattle.opening_parts.specs.Fillings.{reads_of};

use crate::bases::put_bases;
use crate::branches::put_branches;
use crate::others::put_others;
use core_filling::{bare_lake, put_commits};
use core_state::LakeState;
use lake_base::NoMemory;
use lake_format::Cut;
use pair_format::Stored;
use pair_trees::ReadTree;
use std::alloc::Global;
use std::collections::BTreeMap;

/// A lake of a cut and these counts, which is filled with what things are: the repositories, the branches, then tags,
/// settings and changes under tokens, and the commits last, with what was read of their trees. The index has places of
/// files of these trees alone.
pub fn fill(
    alloc: Global,
    things: Vec<Option<Stored>>,
    trees: Vec<Option<ReadTree>>,
    cut: Cut,
    counts: (u64, u64, u64),
) -> Result<LakeState, NoMemory>
    requires trees { trees.items ≡ trees_of cut things.items }
    requires join { AllByRecursion CanJoin things.items }
    ensures lake { IfOk result (λ lake. IsFilledWith cut counts things.items (lake_value lake)) }
    ensures places { IfOk result (λ lake. ArePlacesAmong (reads_of cut things.items) lake.names.files) }
{
    let mut lake = counted_lake(alloc, cut, counts);
    let mut holders = BTreeMap::new(alloc);
    put_bases(alloc, &mut lake, things.as_slice())?;
    put_branches(alloc, &mut lake, &mut holders, things.as_slice())?;
    let commits = put_others(alloc, &mut lake, &holders, things, trees, &cut)?;
    put_commits(alloc, &mut lake, commits)?;
    Ok(lake)
}

// A lake of a cut and these counts without anything in it. It takes no memory.
#[tactic(auto, unfolding(core_state::specs::LakeStates::lake_value))]
fn counted_lake(alloc: Global, cut: Cut, counts: (u64, u64, u64)) -> LakeState
    ensures { lake_value result ≡ counted_lake cut counts }
{
    let (number, version, token) = counts;
    let mut lake = bare_lake(alloc, cut);
    lake.next_number = number;
    lake.next_version = version;
    lake.next_token = token;
    lake
}
