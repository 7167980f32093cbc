//! What a new head of a branch asks: by what it is guarded, and that it isn't expired.
ghost use Rattle.std.specs.Prelude.{◌≡◌, ◌==◌, ◌&&◌, true, false, Some, None, MatchResult, option_and_then, option_map};
ghost use Rattle.std.specs.Prelude.{if◌then◌else◌};
ghost use Rattle.std.specs.FinMap.{get};
ghost use Rattle.std.specs.Option.{option_or};
ghost use Rattle.lake_model.specs.declared.fault.StepFault.TheVariants.{Changed, Protected};
ghost use Rattle.lake_model.specs.Branches.{protected_by};
ghost use Rattle.lake_model.specs.Refusals.{first_cause};
ghost use Rattle.lake_model.specs.Steps.{expired_fault};
ghost use Rattle.lake_model.specs.Versions.{VersionsGiven};
ghost use Rattle.core_state.specs.BranchStates.{branch_value};
ghost use Rattle.core_state.specs.Counts.{HasVersions};
ghost use Rattle.core_state.specs.LakeStates.{lake_value, state_of};
ghost use Rattle.core_state.specs.RepositoryStates.{repository_of, repository_value};
ghost use Rattle.core_causes.specs.Guarding.{guard_causes};

use crate::common::{branch_at, repository_at, test_change, test_live, test_protection};
use core_state::{BranchState, LakeState, RepositoryState};
use lake_base::{RefName, RepoName};
use lake_model::StepFault;
use lake_values::CommitId;

/// The repository and the branch of a new head, which is guarded by versions: both are there, the branch is unprotected
/// where protection counts, and both versions are those now. Stopped, HistoryFull, NoRepo, NoRef, Protected, Changed.
pub fn test_guard<'a>(
    lake: &'a LakeState,
    repo: &RepoName,
    branch: &RefName,
    protects: bool,
    version: u64,
    settings: u64,
) -> Result<(&'a RepositoryState, &'a BranchState), StepFault>
    ensures { (given : VersionsGiven) → HasVersions given (lake_value lake.now) → MatchResult result
        (λ found. (first_cause
        (guard_causes protects (state_of (lake_value lake.now)) given repo.now branch.now version settings) ≡ None)
        × (get (lake_value lake.now).repositories repo.now ≡ Some (repository_value found.0.now))
        × (get (repository_value found.0.now).branches branch.now ≡ Some (branch_value found.1.now)))
        (λ fault. first_cause
        (guard_causes protects (state_of (lake_value lake.now)) given repo.now branch.now version settings)
        ≡ Some fault) }
{
    test_change(lake)?;
    let repository = repository_at(lake, repo)?;
    let found = branch_at(repository, branch)?;
    test_counted(repository, branch, protects)?;
    test_versions(repository, found, version, settings)?;
    Ok((repository, found))
}

// Refuses a protected branch, with the pattern, where protection counts. Protected.
fn test_counted(
    repository: &RepositoryState,
    branch: &RefName,
    protects: bool,
) -> Result<(), StepFault>
    ensures { MatchResult result
        (λ _. (if protects then option_map Protected
        (protected_by (repository_of (repository_value repository.now)).notes.protection branch.now) else None) ≡ None)
        (λ fault. (if protects then option_map Protected
        (protected_by (repository_of (repository_value repository.now)).notes.protection branch.now) else None)
        ≡ Some fault) }
{
    if protects {
        test_protection(repository, branch)
    } else {
        Ok(())
    }
}

// Refuses other versions than the branch's and the settings'. Changed.
fn test_versions(
    repository: &RepositoryState,
    branch: &BranchState,
    version: u64,
    settings: u64,
) -> Result<(), StepFault>
    ensures { MatchResult result
        (λ _. ((version == (branch_value branch.now).version)
        && (settings == (repository_value repository.now).settings)) ≡ true)
        (λ fault. (fault ≡ Changed (branch_value branch.now).version (repository_value repository.now).settings)
        × (((version == (branch_value branch.now).version)
        && (settings == (repository_value repository.now).settings)) ≡ false)) }
{
    let current = branch.record.version();
    if version == current && settings == repository.settings {
        return Ok(());
    }
    Err(StepFault::Changed {
        version: current,
        settings: repository.settings,
    })
}

/// Refuses an expired source, and then a new commit whose id is that of an expired one. Expired.
pub fn test_live_head(
    repository: &RepositoryState,
    source: Option<CommitId>,
    id: CommitId,
) -> Result<(), StepFault>
    ensures { MatchResult result
        (λ _. option_or (option_and_then (expired_fault (repository_of (repository_value repository.now))) source)
        (expired_fault (repository_of (repository_value repository.now)) id) ≡ None)
        (λ fault. option_or
        (option_and_then (expired_fault (repository_of (repository_value repository.now))) source)
        (expired_fault (repository_of (repository_value repository.now)) id) ≡ Some fault) }
{
    if let Some(source) = source {
        test_live(repository, source)?;
    }
    test_live(repository, id)?;
    Ok(())
}
