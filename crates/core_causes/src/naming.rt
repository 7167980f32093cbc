//! What ask branches and tags that come and go, and settings.
ghost use Rattle.std.specs.Prelude.{◌≡◌, ◌==◌, ◌&&◌, true, false, MatchResult, is_none, is_some};
ghost use Rattle.std.specs.Option.{option_map_or};
ghost use Rattle.lake_model.specs.declared.fault.StepFault.TheVariants.{Changed, NoNote};
ghost use Rattle.lake_model.specs.NoteChanges.{note_at};
ghost use Rattle.lake_model.specs.Soundness.{IsSound};
ghost use Rattle.lake_model.specs.Steps.{create_branch_causes, create_tag_causes, delete_branch_causes};
ghost use Rattle.lake_model.specs.Steps.{delete_tag_causes, in_it, set_note_causes, target_in};
ghost use Rattle.lake_model.specs.Versions.{VersionsGiven};
ghost use Rattle.core_state.specs.Counts.{HasVersions};
ghost use Rattle.core_state.specs.LakeStates.{lake_value, state_of};
ghost use Rattle.core_state.specs.RepositoryStates.{repository_of, repository_value};
ghost use Rattle.core_causes.specs.Asking.{Asks, AsksFor};

use crate::common::{branch_at, repository_at, test_change, test_live, test_protection};
use commit_graph::RefExpr;
use core_readings::target;
use core_state::{LakeState, RepositoryState};
use lake_base::{RefName, RepoName};
use lake_model::{Reference, StepFault};
use lake_values::{CommitId, Note, NoteName};

/// What a new branch asks, and the commit that it starts from: the expression leads to a commit that isn't expired, and
/// no branch has the name. Stopped, HistoryFull, NoRepo, NoRef, NoParent, Exists, Expired.
pub fn test_create_branch(
    lake: &LakeState,
    repo: &RepoName,
    name: &RefName,
    e: &RefExpr,
) -> Result<CommitId, StepFault>
    requires { IsSound (state_of (lake_value lake.now)) }
    ensures { AsksFor (create_branch_causes (state_of (lake_value lake.now)) repo.now name.now e.now)
        (in_it (state_of (lake_value lake.now)) repo.now (λ r. target_in r e.now)) result }
{
    test_change(lake)?;
    let repository = repository_at(lake, repo)?;
    let head = target(repository, e)?;
    let other = repository.branch(name);
    if other.is_some() {
        return Err(StepFault::Exists);
    }
    test_live(repository, head)
}

/// What a new tag asks, and the commit that it names: the expression leads to a commit that isn't expired, and no tag
/// has the name. Stopped, HistoryFull, NoRepo, NoRef, NoParent, Exists, Expired.
pub fn test_create_tag(
    lake: &LakeState,
    repo: &RepoName,
    name: &RefName,
    e: &RefExpr,
) -> Result<CommitId, StepFault>
    requires { IsSound (state_of (lake_value lake.now)) }
    ensures { AsksFor (create_tag_causes (state_of (lake_value lake.now)) repo.now name.now e.now)
        (in_it (state_of (lake_value lake.now)) repo.now (λ r. target_in r e.now)) result }
{
    test_change(lake)?;
    let repository = repository_at(lake, repo)?;
    let commit = target(repository, e)?;
    let other = repository.tag(name);
    if other.is_some() {
        return Err(StepFault::Exists);
    }
    test_live(repository, commit)
}

/// What the deletion of a branch asks: the branch is there, isn't the default branch and is unprotected. Stopped,
/// HistoryFull, NoRepo, NoRef, DefaultBranch, Protected.
pub fn test_delete_branch(
    lake: &LakeState,
    repo: &RepoName,
    name: &RefName,
) -> Result<(), StepFault>
    ensures { Asks (delete_branch_causes (state_of (lake_value lake.now)) repo.now name.now) result }
{
    test_change(lake)?;
    let repository = repository_at(lake, repo)?;
    branch_at(repository, name)?;
    if repository.default_branch.as_slice() == name.as_slice() {
        return Err(StepFault::DefaultBranch);
    }
    test_protection(repository, name)
}

/// What the deletion of a tag asks: the tag is there. Stopped, HistoryFull, NoRepo, NoRef.
pub fn test_delete_tag(lake: &LakeState, repo: &RepoName, name: &RefName) -> Result<(), StepFault>
    ensures { Asks (delete_tag_causes (state_of (lake_value lake.now)) repo.now name.now) result }
{
    test_change(lake)?;
    let repository = repository_at(lake, repo)?;
    match repository.tag(name) {
        Some(_) => Ok(()),
        None => Err(StepFault::NoRef(Reference::Named)),
    }
}

/// What a setting asks that is set, or deleted where no new one is given: one that is deleted is there, and the
/// settings have the version, where one is expected. Stopped, HistoryFull, NoRepo, NoNote, Changed.
pub fn test_set_note(
    lake: &LakeState,
    repo: &RepoName,
    expected: Option<u64>,
    name: NoteName,
    note: &Option<Note>,
) -> Result<(), StepFault>
    ensures { (given : VersionsGiven) → HasVersions given (lake_value lake.now)
        → Asks (set_note_causes (state_of (lake_value lake.now)) given repo.now expected name note.now) result }
{
    test_change(lake)?;
    let repository = repository_at(lake, repo)?;
    test_note(repository, name, note)?;
    test_settings(repository, expected)
}

// Refuses to delete a setting that isn't set. NoNote.
fn test_note(
    repository: &RepositoryState,
    name: NoteName,
    note: &Option<Note>,
) -> Result<(), StepFault>
    ensures { MatchResult result
        (λ _. (is_none note.now
        && is_none (note_at name (repository_of (repository_value repository.now)).notes)) ≡ false)
        (λ fault. (fault ≡ NoNote)
        × ((is_none note.now
        && is_none (note_at name (repository_of (repository_value repository.now)).notes)) ≡ true)) }
{
    if note.is_none() && !has_note(repository, name) {
        return Err(StepFault::NoNote);
    }
    Ok(())
}

// Refuses another version than the settings', where one is expected. Changed.
fn test_settings(repository: &RepositoryState, expected: Option<u64>) -> Result<(), StepFault>
    ensures { MatchResult result
        (λ _. option_map_or (λ version. version == (repository_value repository.now).settings) expected true ≡ true)
        (λ fault. (fault ≡ Changed 0 (repository_value repository.now).settings)
        × (option_map_or (λ version. version == (repository_value repository.now).settings) expected true ≡ false)) }
{
    match expected {
        Some(version) if version != repository.settings => Err(StepFault::Changed {
            version: 0,
            settings: repository.settings,
        }),
        Some(_) | None => Ok(()),
    }
}

// Whether a setting is set.
fn has_note(repository: &RepositoryState, name: NoteName) -> bool
    ensures { result ≡ is_some (note_at name (repository_of (repository_value repository.now)).notes) }
{
    match name {
        NoteName::Retention => repository.retention.is_some(),
        NoteName::Protection => repository.protection.is_some(),
        NoteName::Hooks => repository.hooks.is_some(),
    }
}
