//! What a copy asks, and the entry that it finds.
ghost use Rattle.std.specs.Prelude.{◌≡◌, Some, None, MatchResult};
ghost use Rattle.lake_model.specs.Refusals.{first_cause};
ghost use Rattle.lake_model.specs.Soundness.{IsSound};
ghost use Rattle.lake_model.specs.Resolving.{expression_target};
ghost use Rattle.lake_model.specs.Steps.{copy_causes, copy_source, source_fault};
ghost use Rattle.lake_model.specs.Versions.{VersionsGiven};
ghost use Rattle.core_state.specs.Counts.{HasVersions};
ghost use Rattle.core_state.specs.LakeStates.{lake_value, state_of};
ghost use Rattle.core_state.specs.RepositoryStates.{repository_of, repository_value};
ghost use Rattle.core_causes.specs.Finding.{FindsCopy, source_of};

use crate::common::{
    branch_at, repository_at, test_change, test_live, test_protection, test_version,
};
use commit_graph::RefExpr;
use core_readings::{entry_at, is_plain_branch, target};
use core_state::{LakeState, RepositoryState};
use lake_base::{Path, RefName, RepoName};
use lake_model::StepFault;
use lake_values::{CommitId, Entry};

/// What a copy finds: the entry, and the commit where it isn't what a branch shows now.
#[derive(Clone, Copy, Debug)]
pub struct Copied<'a> {
    pub entry: &'a Entry,
    pub commit: Option<CommitId>,
}

/// What a copy asks, and the entry that it finds: the branch is there, unprotected and of this version; the expression
/// leads to a map with an entry at the path, of a commit that isn't expired where it is no branch. Stopped,
/// HistoryFull, NoRepo, NoRef, NoParent, Protected, Changed, NoPath, Expired.
pub fn test_copy<'a>(
    lake: &'a LakeState,
    repo: &RepoName,
    branch: &RefName,
    version: u64,
    e: &RefExpr,
    from: &Path,
) -> Result<Copied<'a>, StepFault>
    requires { IsSound (state_of (lake_value lake.now)) }
    ensures { (given : VersionsGiven) → HasVersions given (lake_value lake.now) → MatchResult result
        (λ copied. (first_cause
        (copy_causes (state_of (lake_value lake.now)) given repo.now branch.now version e.now from.now) ≡ None)
        × FindsCopy (state_of (lake_value lake.now)) repo.now e.now from.now copied.entry.now copied.commit)
        (λ fault. first_cause
        (copy_causes (state_of (lake_value lake.now)) given repo.now branch.now version e.now from.now) ≡ Some fault) }
{
    test_change(lake)?;
    let repository = repository_at(lake, repo)?;
    let found = branch_at(repository, branch)?;
    let commit = target(repository, e)?;
    test_protection(repository, branch)?;
    test_version(repository, found, version)?;
    let Some(entry) = entry_at(repository, e, &commit, from) else {
        return Err(StepFault::NoPath);
    };
    source(repository, e, commit, entry)
}

// What was found, of a commit that isn't expired where it is no branch. Expired.
fn source<'a>(
    repository: &'a RepositoryState,
    e: &RefExpr,
    commit: CommitId,
    entry: &'a Entry,
) -> Result<Copied<'a>, StepFault>
    ensures { expression_target (repository_of (repository_value repository.now)) e.now ≡ Ok commit → MatchResult result
        (λ copied. (copied.entry.now ≡ entry.now)
        × (source_fault (repository_of (repository_value repository.now)) e.now ≡ None)
        × (copy_source (repository_of (repository_value repository.now)) e.now
        ≡ Some (source_of e.now.name copied.commit)))
        (λ fault. source_fault (repository_of (repository_value repository.now)) e.now ≡ Some fault) }
{
    if is_plain_branch(repository, e) {
        return Ok(Copied {
            entry,
            commit: None,
        });
    }
    test_live(repository, commit)?;
    Ok(Copied {
        entry,
        commit: Some(commit),
    })
}
