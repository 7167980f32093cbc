//! Repositories that are made.
ghost use Rattle.std.specs.Prelude.{◌≡◌, ◌<◌, ◌^◌, ◌⊎◌, ℕ, List, Option, Some, None, IfOk, MatchResult, OnOk};
ghost use Rattle.std.specs.Prelude.{false, true};
ghost use Rattle.lake_base.specs.Names.{is_like_id, repo_fault};
ghost use Rattle.lake_model.specs.declared.fault.StepFault.TheVariants as fault;
ghost use Rattle.lake_model.specs.declared.history.Operation.TheVariants as operation;
ghost use Rattle.lake_model.specs.Commits.{bare_repository, first_draft};
ghost use Rattle.lake_model.specs.Refusals.{Clash, IsClashOrNone, first_cause};
ghost use Rattle.lake_model.specs.Soundness.{IsSound};
ghost use Rattle.lake_model.specs.Steps.{IsCreateRepositoryReply, create_repository_causes};
ghost use Rattle.pair_format.specs.PairSpelling.{IsRefName};
ghost use Rattle.core_causes.specs.Clashing.{AsksToCreate};
ghost use Rattle.core_changes.specs.LakeRoom.{HasRepositoryRoom};
ghost use Rattle.core_changes.specs.NewPlaces.{HaveSamePlaces};
ghost use Rattle.core_puts.specs.FreshLakes.{IsFirst};
ghost use Rattle.core_state.specs.Counts.{AreFew};
ghost use Rattle.core_state.specs.Index.{HasIndex};
ghost use Rattle.core_state.specs.LakeStates.{lake_value, state_of};
ghost use Rattle.core_puts.specs.Puts as puts;
ghost use Rattle.lake_core.specs.Lakes.{state};
ghost use Rattle.lake_core.specs.Makings.{create_repo};
ghost use Rattle.lake_core.specs.ReadyChanges.{IsReadyChange, IsReadyRepository};
ghost use Rattle.lake_core.specs.Leaving.{Leaves};

use crate::lake::Lake;
use crate::ready::{Ready, ReadyRepository};
use core_causes::test_create_repository;
use core_changes::founding as change;
use core_keeping::laws_of_followed_repositories;
use core_puts::{FirstCommit, create_repository_puts, first_commit, keep, new_repository, place};
use core_standing::{law_of_present, law_of_repository};
use core_state::LakeState;
use keeper::{Keeper, Put};
use lake_base::{NoMemory, RefName, RepoName, TryCopy};
use lake_laws::causes::laws_of_causes;
use lake_model::{By, Operation, StepFault};
use std::alloc::Global;

impl<K: Keeper> Lake<K> {
    /// Makes a repository at a date, in seconds since 1970, with its default branch at its first commit: the place of
    /// the entry. Stopped, HistoryFull, Exists, NameClash.
    pub fn create_repo(
        &mut self,
        by: By,
        repo: RepoName,
        branch: RefName,
        date: u64,
    ) -> Result<u64, StepFault>
        requires { is_like_id branch ≡ false }
        ensures reply { IsCreateRepositoryReply (state self.old) repo branch date result }
        ensures leaves { Leaves (record { kept = K.kept; faults = K.faults; calls = K.calls; successes = K.successes })
            by (Some (create_repo repo branch date (lake_value self.old.present))) result self.old self.new }
    {
        // Test, and take memory.
        laws_of_causes();
        law_of_present();
        law_of_repository();
        laws_of_followed_repositories();
        let ready = ready_repository(self.alloc, &mut self.present, repo, branch, date)?;

        // Keep.
        keep(
            &mut self.keeper,
            &mut self.history,
            &mut self.present,
            by,
            ready.operation,
            ready.puts,
        )?;

        // Change.
        let new = ready.new;
        change::create_repository(&mut self.present, &ready.name, new);
        Ok(place(&self.present))
    }
}

// A repository that nothing refuses, and that is to be made. It changes nothing that the lake says, and nothing at all
// where a cause refuses it. Stopped, HistoryFull, Exists, NameClash, NoMemory.
fn ready_repository(
    alloc: Global,
    lake: &mut LakeState,
    repo: RepoName,
    branch: RefName,
    date: u64,
) -> Result<ReadyRepository, StepFault>
    requires plain { is_like_id branch ≡ false }
    requires sound { IsSound (state_of (lake_value lake.old)) }
    requires index { HasIndex (lake_value lake.old) }
    requires few { (clash : Option Clash)
        → IsClashOrNone (state_of (lake_value lake.old)) (bare_repository date branch) (first_draft date) clash
        → first_cause (create_repository_causes (state_of (lake_value lake.old)) repo clash) ≡ None
        → AreFew (lake_value lake.old) }
    ensures same { lake_value lake.new ≡ lake_value lake.old }
    ensures places { HaveSamePlaces lake.old.names.files lake.new.names.files }
    ensures asks { AsksToCreate (state_of (lake_value lake.old)) repo branch date result }
    ensures refused { MatchResult result (λ ready. Unit {0}) (λ f. (f ≡ fault.NoMemory) ⊎ (lake.new ≡ lake.old)) }
    ensures room { IfOk result (λ ready. HasRepositoryRoom ready.name ready.new.commit ready.new.file lake.new) }
    ensures ready { IfOk result (IsReadyRepository repo branch date (lake_value lake.old)) }
    ensures kind { IfOk result (λ ready. ready.new.place.is_metarange ≡ true) }
    ensures limits { OnOk result ((repo_fault repo ≡ None) × (IsRefName branch × (date < 2 ^ 64))) }
{
    let first = tested_commit(alloc, lake, &repo, date)?;
    let ready = parts_of_repository(alloc, lake, repo, branch, first)?;
    Ok(ready)
}

// The first commit of a repository that may be made. Stopped, HistoryFull, Exists, NameClash, NoMemory.
fn tested_commit(
    alloc: Global,
    lake: &LakeState,
    repo: &RepoName,
    date: u64,
) -> Result<FirstCommit, StepFault>
    requires sound { IsSound (state_of (lake_value lake.now)) }
    requires index { HasIndex (lake_value lake.now) }
    ensures asks { (branch : List ℕ) → AsksToCreate (state_of (lake_value lake.now)) repo.now branch date result }
    ensures first { IfOk result (IsFirst (lake_value lake.now).cut date) }
{
    let first = first_commit(alloc, date)?;
    test_create_repository(alloc, lake, repo, &first.content, &first.metarange)?;
    Ok(first)
}

// What a repository that is to be made takes of memory, and room for it. It changes nothing that the lake says.
fn parts_of_repository(
    alloc: Global,
    lake: &mut LakeState,
    repo: RepoName,
    branch: RefName,
    first: FirstCommit,
) -> Result<ReadyRepository, NoMemory>
    requires plain { is_like_id branch ≡ false }
    requires few { AreFew (lake_value lake.old) }
    requires first { IsFirst (lake_value lake.old).cut first.commit.date first }
    ensures same { lake_value lake.new ≡ lake_value lake.old }
    ensures places { HaveSamePlaces lake.old.names.files lake.new.names.files }
    ensures room { IfOk result (λ ready. HasRepositoryRoom ready.name ready.new.commit ready.new.file lake.new) }
    ensures ready { IfOk result (IsReadyRepository repo branch first.commit.date (lake_value lake.old)) }
    ensures kind { IfOk result (λ ready. ready.new.place.is_metarange ≡ true) }
    ensures limits { OnOk result ((repo_fault repo ≡ None) × (IsRefName branch × (first.commit.date < 2 ^ 64))) }
{
    change::make_repository_room(
        alloc,
        lake,
        &repo,
        &first.content.name,
        &first.metarange.name,
    )?;
    let Ready { operation, puts } = ready_entry(alloc, lake, &repo, &branch, &first)?;
    let new = new_repository(alloc, lake, &repo, branch, first)?;
    Ok(ReadyRepository {
        name: repo,
        operation,
        puts,
        new,
    })
}

// The entry of a repository that is to be made, and its puts.
fn ready_entry(
    alloc: Global,
    lake: &LakeState,
    repo: &RepoName,
    branch: &RefName,
    first: &FirstCommit,
) -> Result<Ready, NoMemory>
    requires plain { is_like_id branch.now ≡ false }
    requires few { AreFew (lake_value lake.now) }
    requires first { IsFirst (lake_value lake.now).cut first.now.commit.date first.now }
    ensures ready { IfOk result (IsReadyChange (operation.RepoCreate repo.now branch.now first.now.commit.date)
        (puts.create_repository_puts repo.now branch.now first.now.commit.date (lake_value lake.now))) }
    ensures limits { OnOk result
        ((repo_fault repo.now ≡ None) × (IsRefName branch.now × (first.now.commit.date < 2 ^ 64))) }
{
    let puts = puts_of(alloc, lake, repo, branch, first)?;
    let operation = Operation::RepoCreate {
        repo: repo.copy(alloc)?,
        branch: branch.copy(alloc)?,
        date: first.commit.date,
    };
    Ok(Ready { operation, puts })
}

// The puts of a repository that is to be made.
fn puts_of(
    alloc: Global,
    lake: &LakeState,
    repo: &RepoName,
    branch: &RefName,
    first: &FirstCommit,
) -> Result<Vec<Put>, NoMemory>
    requires plain { is_like_id branch.now ≡ false }
    requires few { AreFew (lake_value lake.now) }
    requires first { IsFirst (lake_value lake.now).cut first.now.commit.date first.now }
    ensures puts { IfOk result (λ made. made.items
        ≡ puts.create_repository_puts repo.now branch.now first.now.commit.date (lake_value lake.now)) }
    ensures limits { OnOk result
        ((repo_fault repo.now ≡ None) × (IsRefName branch.now × (first.now.commit.date < 2 ^ 64))) }
{
    create_repository_puts(
        alloc,
        lake,
        repo,
        branch,
        &first.commit,
        first.content.name,
        &first.tree,
    )
}
