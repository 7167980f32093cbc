//! Settings and versions.
ghost use Rattle.std.specs.Prelude.{◌≡◌, IfOk, option_map};
ghost use Rattle.lake_model.specs.NoteChanges.{note_at};
ghost use Rattle.lake_model.specs.Readings.{note_reply, versions_reply};
ghost use Rattle.lake_model.specs.Refusals.{Gives};
ghost use Rattle.lake_model.specs.Versions.{VersionsGiven};
ghost use Rattle.core_state.specs.Counts.{HasVersions};
ghost use Rattle.core_state.specs.LakeStates.{lake_value, state_of};
ghost use Rattle.core_state.specs.RepositoryStates.{repository_of, repository_value};
ghost use Rattle.core_readings.specs.Answers.{note_answer};

use core_state::{LakeState, RepositoryState};
use lake_base::{NoMemory, RefName, RepoName, TryCopy};
use lake_model::{Reference, StepFault, Versions};
use lake_values::{Note, NoteName};
use std::alloc::Global;

/// A setting, and the version of the repository's settings. NoRepo, NoNote.
pub fn note(
    alloc: Global,
    lake: &LakeState,
    repo: &RepoName,
    name: NoteName,
) -> Result<(u64, u64, Note), StepFault>
    ensures { (given : VersionsGiven) → HasVersions given (lake_value lake.now)
        → Gives (note_answer result) (note_reply (state_of (lake_value lake.now)) given repo.now name) }
{
    let Some(repository) = lake.repository(repo) else {
        return Err(StepFault::NoRepo);
    };
    match note_of(alloc, repository, name)? {
        Some(note) => Ok((lake.entries, repository.settings, note)),
        None => Err(StepFault::NoNote),
    }
}

// A copy of a setting, where it is set.
fn note_of(
    alloc: Global,
    repository: &RepositoryState,
    name: NoteName,
) -> Result<Option<Note>, NoMemory>
    ensures { IfOk result (λ note. note ≡ note_at name (repository_of (repository_value repository.now)).notes) }
{
    match name {
        NoteName::Retention => match &repository.retention {
            Some(rules) => Ok(Some(Note::Retention(rules.copy(alloc)?))),
            None => Ok(None),
        },
        NoteName::Protection => match &repository.protection {
            Some(protection) => Ok(Some(Note::Protection(protection.copy(alloc)?))),
            None => Ok(None),
        },
        NoteName::Hooks => match &repository.hooks {
            Some(hooks) => Ok(Some(Note::Hooks(hooks.copy(alloc)?))),
            None => Ok(None),
        },
    }
}

/// The versions of a branch and of its repository's settings. NoRepo, NoRef. It takes no memory.
pub fn versions(lake: &LakeState, repo: &RepoName, branch: &RefName) -> Result<Versions, StepFault>
    ensures { (given : VersionsGiven) → HasVersions given (lake_value lake.now)
        → result ≡ versions_reply (state_of (lake_value lake.now)) given repo.now branch.now }
{
    let Some(repository) = lake.repository(repo) else {
        return Err(StepFault::NoRepo);
    };
    match repository.branch(branch) {
        Some(found) => Ok(Versions {
            at: lake.entries,
            version: found.record.version(),
            settings: repository.settings,
        }),
        None => Err(StepFault::NoRef(Reference::Named)),
    }
}
