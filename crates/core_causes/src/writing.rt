//! What changes of a branch ask.
ghost use Rattle.std.specs.Prelude.{◌≡◌};
ghost use Rattle.lake_model.specs.Refusals.{causes_of_change, with_branch};
ghost use Rattle.lake_model.specs.Steps.{seal_causes, stage_causes, write_causes};
ghost use Rattle.lake_model.specs.Versions.{VersionsGiven};
ghost use Rattle.core_state.specs.Counts.{HasVersions};
ghost use Rattle.core_state.specs.LakeStates.{lake_value, state_of};
ghost use Rattle.core_causes.specs.Asking.{Asks};

use crate::common::{branch_at, repository_at, test_change, test_protection, test_version};
use core_state::LakeState;
use lake_base::{RefName, RepoName};
use lake_model::{SealFor, StepFault};

/// What a ticket and a reset ask: the branch is there and unprotected. Stopped, HistoryFull, NoRepo, NoRef, Protected.
pub fn test_write(lake: &LakeState, repo: &RepoName, branch: &RefName) -> Result<(), StepFault>
    ensures { Asks (write_causes (state_of (lake_value lake.now)) repo.now branch.now) result }
{
    test_change(lake)?;
    let repository = repository_at(lake, repo)?;
    branch_at(repository, branch)?;
    test_protection(repository, branch)
}

// What names a branch asks: the branch is there. Stopped, HistoryFull, NoRepo, NoRef.
fn test_branch(lake: &LakeState, repo: &RepoName, branch: &RefName) -> Result<(), StepFault>
    ensures { Asks (with_branch (state_of (lake_value lake.now)) repo.now branch.now
        (causes_of_change (state_of (lake_value lake.now)))) result }
{
    test_change(lake)?;
    let repository = repository_at(lake, repo)?;
    branch_at(repository, branch)?;
    Ok(())
}

/// What a seal asks: the branch is there, and for a commit unprotected. Stopped, HistoryFull, NoRepo, NoRef, Protected.
pub fn test_seal(
    lake: &LakeState,
    repo: &RepoName,
    branch: &RefName,
    why: SealFor,
) -> Result<(), StepFault>
    ensures { Asks (seal_causes why (state_of (lake_value lake.now)) repo.now branch.now) result }
{
    match why {
        SealFor::Commit => test_write(lake, repo, branch),
        SealFor::Other => test_branch(lake, repo, branch),
    }
}

/// What a staged change asks: the branch is there, unprotected and of this version. Stopped, HistoryFull, NoRepo,
/// NoRef, Protected, Changed.
pub fn test_stage(
    lake: &LakeState,
    repo: &RepoName,
    branch: &RefName,
    version: u64,
) -> Result<(), StepFault>
    ensures { (given : VersionsGiven) → HasVersions given (lake_value lake.now)
        → Asks (stage_causes (state_of (lake_value lake.now)) given repo.now branch.now version) result }
{
    test_change(lake)?;
    let repository = repository_at(lake, repo)?;
    let found = branch_at(repository, branch)?;
    test_protection(repository, branch)?;
    test_version(repository, found, version)
}
