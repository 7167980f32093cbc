//! The map of main's head.
ghost use Rattle.std.specs.Prelude.{◌≡◌, codes, IfOk};
ghost use Rattle.std.specs.FinMap.{len};
ghost use Rattle.lake_model.specs.History.{replay};
ghost use Rattle.lake_model.specs.Soundness.{fresh};
ghost use Rattle.fresh_lakes.specs.FreshLakes.{usual_cut};
ghost use Rattle.lake_generator.specs.MainHead.{IsMainMap, StandsAtMain};

use keeper::Keeper;
use lake_base::{Digest, NoMemory, RefName, RepoName};
use lake_model::StepFault;
use lake_values::EntryCursor;
use meta_range::{Tree, law_of_limits, law_of_names};
use shared_lake::{LakeSeat, Shared};
use std::alloc::Global;
use std::sync::Wait;

/// How many paths the head of main has, and by which id its map is known, where the seat is alone at a lake that went
/// out from the fresh one. The seat stays as it is. It waits.
pub(crate) fn main_map<K: Keeper, W: Wait>(
    rt: &W,
    alloc: Global,
    lake: &Shared<K>,
    seat: &mut LakeSeat,
) -> Result<(u64, Digest), NoMemory>
    requires own { seat.old.turn ≡ lake.now }
    requires main { StandsAtMain seat.old }
    ensures map { IfOk result (λ told. IsMainMap (replay (fresh usual_cut) seat.old.seen) told.0 told.1) }
    ensures same { seat.new ≡ seat.old }
{
    let repo = quickstart(alloc)?;
    let branch = main_branch(alloc)?;
    law_of_names();
    match lake.prepare(rt, seat, &repo, &branch, None) {
        Ok(prepared) => Ok((paths_of(&prepared.tree), prepared.tree.name())),
        Err(fault) => Err(no_memory(fault)),
    }
}

// Of a branch that is there, what a commit is made from is refused for want of memory alone.
fn no_memory(fault: StepFault) -> NoMemory
    requires { fault ≡ StepFault.NoMemory }
{
    match fault {
        StepFault::NoMemory => NoMemory,
        _ => unreachable!(),
    }
}

// How many paths the map of a tree has.
fn paths_of(tree: &Tree) -> u64
    ensures { result ≡ len tree.now.map }
{
    law_of_limits(tree);
    let mut cursor = tree.seek(None);
    let mut count = 0;
    while let Some(row) = cursor.next() {
        count += 1;
    }
    count
}

// The name of the repository.
fn quickstart(alloc: Global) -> Result<RepoName, NoMemory>
    ensures { IfOk result (λ name. name ≡ codes "quickstart") }
{
    match RepoName::read(alloc, b"quickstart") {
        Ok(name) => Ok(name),
        // It is a name.
        Err(_) => Err(NoMemory),
    }
}

// The name of its branch.
fn main_branch(alloc: Global) -> Result<RefName, NoMemory>
    ensures { IfOk result (λ name. name ≡ codes "main") }
{
    match RefName::read(alloc, b"main") {
        Ok(name) => Ok(name),
        // It is a name.
        Err(_) => Err(NoMemory),
    }
}
