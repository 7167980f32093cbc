//! Repositories, branches and tags, and the commit of one.
ghost use Rattle.std.specs.Prelude.{◌≡◌, length, take, nat_lt, IfOk};
ghost use Rattle.lake_model.specs.Readings.{find_reply, name_in, names_above, names_reply};
ghost use Rattle.lake_model.specs.Readings.{repositories_reply, repository_info};
ghost use Rattle.lake_model.specs.Refusals.{Gives};
ghost use Rattle.core_state.specs.LakeStates.{lake_value, state_of};
ghost use Rattle.core_state.specs.RepositoryStates.{repository_of, repository_value};
ghost use Rattle.core_readings.specs.Answers.{list_answer};

use crate::rows::{Name, Tell, first_told};
use core_state::{BranchState, LakeState, RepositoryState};
use lake_base::{NameFault, NoMemory, RefName, RepoName, Sequence, Text, TryCopy};
use lake_model::{Reference, RepoInfo, StepFault};
use lake_values::CommitId;
use std::alloc::Global;

impl Name for RepoName {
    fn named(alloc: Global, bytes: &[u8]) -> Result<Option<RepoName>, NoMemory> {
        match RepoName::read(alloc, bytes) {
            Ok(name) => Ok(Some(name)),
            Err(NameFault::NoMemory) => Err(NoMemory),
            Err(_) => Ok(None),
        }
    }

    fn text(&self) -> &[u8] {
        self.as_slice()
    }
}

impl Name for RefName {
    fn named(alloc: Global, bytes: &[u8]) -> Result<Option<RefName>, NoMemory> {
        match RefName::read(alloc, bytes) {
            Ok(name) => Ok(Some(name)),
            Err(NameFault::NoMemory) => Err(NoMemory),
            Err(_) => Ok(None),
        }
    }

    fn text(&self) -> &[u8] {
        self.as_slice()
    }
}

// What is told of a repository.
struct Info;

impl Tell<RepoName, RepositoryState> for Info {
    type Row = RepoInfo;

    ghost told = { λ name r. repository_info (name, repository_of (repository_value r)) };

    fn tell(alloc: Global, name: &RepoName, value: &RepositoryState) -> Result<RepoInfo, NoMemory> {
        Ok(RepoInfo {
            name: name.copy(alloc)?,
            default_branch: value.default_branch.copy(alloc)?,
            created: value.created,
        })
    }
}

// A branch with its head.
struct Head;

impl Tell<RefName, BranchState> for Head {
    type Row = (RefName, CommitId);

    ghost told = { λ name b. (name, b.record.head) };

    fn tell(
        alloc: Global,
        name: &RefName,
        value: &BranchState,
    ) -> Result<(RefName, CommitId), NoMemory> {
        Ok((name.copy(alloc)?, value.record.head()))
    }
}

// A tag with its commit.
struct Tagged;

impl Tell<RefName, CommitId> for Tagged {
    type Row = (RefName, CommitId);

    ghost told = { λ name id. (name, id) };

    fn tell(
        alloc: Global,
        name: &RefName,
        value: &CommitId,
    ) -> Result<(RefName, CommitId), NoMemory> {
        Ok((name.copy(alloc)?, *value))
    }
}

/// The repositories whose names are above some bytes, by name, so many, and whether one is left. NoMemory alone.
pub fn repositories(
    alloc: Global,
    lake: &LakeState,
    after: &Text,
    amount: usize,
) -> Result<(u64, Sequence<RepoInfo>, bool), StepFault>
    ensures { Gives (list_answer result) (repositories_reply (state_of (lake_value lake.now)) after.now amount) }
{
    let (found, more) = first_told::<RepoName, RepositoryState, Info>(
        alloc,
        &lake.repositories,
        after,
        amount,
    )?;
    Ok((lake.entries, found, more))
}

/// The branches of a repository with their heads, or its tags with their commits, whose names are above some bytes, by
/// name, so many, and whether one is left. NoRepo.
pub fn names(
    alloc: Global,
    lake: &LakeState,
    repo: &RepoName,
    tags: bool,
    after: &Text,
    amount: usize,
) -> Result<(u64, Sequence<(RefName, CommitId)>, bool), StepFault>
    ensures { Gives (list_answer result)
        (names_reply (state_of (lake_value lake.now)) repo.now tags after.now amount) }
{
    let Some(repository) = lake.repository(repo) else {
        return Err(StepFault::NoRepo);
    };
    let (found, more) = names_of(alloc, repository, tags, after, amount)?;
    Ok((lake.entries, found, more))
}

// Those of one repository.
fn names_of(
    alloc: Global,
    repository: &RepositoryState,
    tags: bool,
    after: &Text,
    amount: usize,
) -> Result<(Sequence<(RefName, CommitId)>, bool), NoMemory>
    ensures names { IfOk result (λ found.
        found.0 ≡ take amount (names_above (repository_of (repository_value repository.now)) tags after.now)) }
    ensures more { IfOk result (λ found. found.1
        ≡ nat_lt amount (length (names_above (repository_of (repository_value repository.now)) tags after.now))) }
{
    if tags {
        return first_told::<RefName, CommitId, Tagged>(alloc, &repository.tags, after, amount);
    }
    first_told::<RefName, BranchState, Head>(alloc, &repository.branches, after, amount)
}

/// The commit of a tag, or the head of a branch. NoRepo, NoRef.
pub fn find(
    lake: &LakeState,
    repo: &RepoName,
    tags: bool,
    name: &RefName,
) -> Result<(u64, CommitId), StepFault>
    ensures { result ≡ find_reply (state_of (lake_value lake.now)) repo.now tags name.now }
{
    let Some(repository) = lake.repository(repo) else {
        return Err(StepFault::NoRepo);
    };
    match commit_of(repository, tags, name) {
        Some(commit) => Ok((lake.entries, commit)),
        None => Err(StepFault::NoRef(Reference::Named)),
    }
}

// The commit of a tag, or the head of a branch.
fn commit_of(repository: &RepositoryState, tags: bool, name: &RefName) -> Option<CommitId>
    ensures { result ≡ name_in (repository_of (repository_value repository.now)) tags name.now }
{
    if tags {
        return repository.tag(name);
    }
    match repository.branch(name) {
        Some(branch) => Some(branch.record.head()),
        None => None,
    }
}
