//! The entry at a path.
ghost use Rattle.std.specs.Prelude.{◌≡◌, IfOk, option_copied};
ghost use Rattle.lake_model.specs.Readings.{is_gone, look_reply};
ghost use Rattle.lake_model.specs.Refusals.{Gives};
ghost use Rattle.lake_model.specs.Soundness.{IsSound};
ghost use Rattle.core_state.specs.LakeStates.{lake_value, state_of};

use crate::{entry_at, target};
use commit_graph::RefExpr;
use core_state::LakeState;
use lake_base::{NoMemory, Path, RepoName, TryCopy};
use lake_model::{Seen, StepFault};
use lake_values::{Entry, Place};
use std::alloc::Global;

/// What stands at a path of what an expression leads to: on a plain branch what is read on it now, else the commit's
/// entry; and whether its object may be removed. NoRepo, NoRef, NoParent.
pub fn look(
    alloc: Global,
    lake: &LakeState,
    repo: &RepoName,
    e: &RefExpr,
    path: &Path,
) -> Result<Seen, StepFault>
    requires { IsSound (state_of (lake_value lake.now)) }
    ensures { Gives result (look_reply (state_of (lake_value lake.now)) repo.now e.now path.now) }
{
    let Some(repository) = lake.repository(repo) else {
        return Err(StepFault::NoRepo);
    };
    let commit = target(repository, e)?;
    let found = entry_at(repository, e, &commit, path);
    let gone = is_gone(lake, found);
    let found = copy_of(alloc, found)?;
    Ok(Seen {
        at: lake.entries,
        found,
        gone,
    })
}

// A copy of an entry, where there is one.
fn copy_of(alloc: Global, found: Option<&Entry>) -> Result<Option<Entry>, NoMemory>
    ensures { IfOk result (λ copy. copy ≡ option_copied found.entry) }
{
    match found {
        Some(entry) => Ok(Some(entry.copy(alloc)?)),
        None => Ok(None),
    }
}

// Whether the object of an entry is gone for good.
fn is_gone(lake: &LakeState, found: Option<&Entry>) -> bool
    ensures { result ≡ is_gone (state_of (lake_value lake.now)) (option_copied found.entry) }
{
    match found {
        Some(entry) => match &entry.place {
            Place::Own { number, .. } => lake.gone.contains_key(number),
            Place::External { .. } => false,
        },
        None => false,
    }
}
