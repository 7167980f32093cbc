//! What many changes ask.
ghost use Rattle.std.specs.Prelude.{◌≡◌, None, Some, MatchResult, option_map};
ghost use Rattle.std.specs.FinMap.{get};
ghost use Rattle.lake_model.specs.Branches.{protected_by};
ghost use Rattle.lake_model.specs.Refusals.{causes_of_change};
ghost use Rattle.lake_model.specs.Steps.{expired_fault};
ghost use Rattle.core_state.specs.BranchStates.{branch_value};
ghost use Rattle.core_state.specs.LakeStates.{lake_value, state_of};
ghost use Rattle.core_state.specs.RepositoryStates.{repository_of, repository_value};
ghost use Rattle.lake_model.specs.declared.fault.StepFault.TheVariants.{Changed, NoRef, NoRepo, Protected};
ghost use Rattle.lake_model.specs.declared.fault.Reference.TheVariants.{Named};
ghost use Rattle.core_causes.specs.Asking.{Asks};

use core_state::{BranchState, LakeState, RepositoryState};
use hook_rules::protects;
use lake_base::{RefName, RepoName};
use lake_model::history::HISTORY_LIMIT;
use lake_model::{Reference, StepFault};
use lake_values::CommitId;

/// What every change asks: the lake isn't stopped, and its history has room. Stopped, HistoryFull.
#[tactic(auto, unfolding(core_state::specs::LakeStates::lake_value))]
pub fn test_change(lake: &LakeState) -> Result<(), StepFault>
    ensures { Asks (causes_of_change (state_of (lake_value lake.now))) result }
{
    if lake.stopped {
        return Err(StepFault::Stopped);
    }
    if lake.entries >= HISTORY_LIMIT {
        return Err(StepFault::HistoryFull);
    }
    Ok(())
}

// The repository of a name. NoRepo.
pub(crate) fn repository_at<'a>(
    lake: &'a LakeState,
    repo: &RepoName,
) -> Result<&'a RepositoryState, StepFault>
    ensures { MatchResult result
        (λ repository. get (lake_value lake.now).repositories repo.now ≡ Some (repository_value repository.now))
        (λ fault. (fault ≡ NoRepo) × (get (lake_value lake.now).repositories repo.now ≡ None)) }
{
    match lake.repository(repo) {
        Some(repository) => Ok(repository),
        None => Err(StepFault::NoRepo),
    }
}

// The branch of a name. NoRef.
pub(crate) fn branch_at<'a>(
    repository: &'a RepositoryState,
    name: &RefName,
) -> Result<&'a BranchState, StepFault>
    ensures { MatchResult result
        (λ branch. get (repository_value repository.now).branches name.now ≡ Some (branch_value branch.now))
        (λ fault. (fault ≡ NoRef Named) × (get (repository_value repository.now).branches name.now ≡ None)) }
{
    match repository.branch(name) {
        Some(branch) => Ok(branch),
        None => Err(StepFault::NoRef(Reference::Named)),
    }
}

// Refuses a protected branch, with the pattern. Protected.
pub(crate) fn test_protection(
    repository: &RepositoryState,
    branch: &RefName,
) -> Result<(), StepFault>
    ensures { MatchResult result
        (λ _. protected_by (repository_of (repository_value repository.now)).notes.protection branch.now ≡ None)
        (λ fault. option_map Protected
        (protected_by (repository_of (repository_value repository.now)).notes.protection branch.now) ≡ Some fault) }
{
    let Some(protection) = &repository.protection else {
        return Ok(());
    };
    match protects(protection, branch) {
        Some(pattern) => Err(StepFault::Protected(pattern)),
        None => Ok(()),
    }
}

// Refuses an expired commit. Expired.
pub(crate) fn test_live(
    repository: &RepositoryState,
    commit: CommitId,
) -> Result<CommitId, StepFault>
    ensures { MatchResult result
        (λ id. (id ≡ commit) × (expired_fault (repository_of (repository_value repository.now)) commit ≡ None))
        (λ fault. expired_fault (repository_of (repository_value repository.now)) commit ≡ Some fault) }
{
    if repository.expired.contains_key(&commit) {
        return Err(StepFault::Expired(commit));
    }
    Ok(commit)
}

// Refuses another version than the branch's. Changed.
pub(crate) fn test_version(
    repository: &RepositoryState,
    branch: &BranchState,
    version: u64,
) -> Result<(), StepFault>
    ensures { MatchResult result
        (λ _. version ≡ (branch_value branch.now).version)
        (λ fault. (fault ≡ Changed (branch_value branch.now).version (repository_value repository.now).settings)
        × (version ≡ (branch_value branch.now).version → ⊥)) }
{
    let current = branch.record.version();
    if version != current {
        return Err(StepFault::Changed {
            version: current,
            settings: repository.settings,
        });
    }
    Ok(())
}
