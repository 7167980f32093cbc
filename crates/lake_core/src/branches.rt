//! Branches that are made and deleted, sealed and reset.
ghost use Rattle.std.specs.Prelude.{◌≡◌, ◌<◌, ◌^◌, Some, IfOk, IfSome, OnOk, false, length};
ghost use Rattle.std.specs.FinMap.{get};
ghost use Rattle.std.specs.Option.{option_map_or};
ghost use Rattle.lake_base.specs.Names.{is_like_id};
ghost use Rattle.lake_format.specs.Spelling.{IsDigest};
ghost use Rattle.lake_model.specs.declared.history.Operation.TheVariants as operation;
ghost use Rattle.lake_model.specs.Refusals.{GivesOrFails};
ghost use Rattle.lake_model.specs.Steps.{IsCreateBranchReply, delete_branch_reply, reset_reply, seal_reply};
ghost use Rattle.pair_format.specs.PairSpelling.{IsRefName};
ghost use Rattle.core_changes.specs.LakeRoom.{HasRoomAt};
ghost use Rattle.core_changes.specs.declared.repository.Room.TheVariants as room;
ghost use Rattle.core_state.specs.BranchStates.{with_fresh};
ghost use Rattle.core_state.specs.Counts.{AreFew};
ghost use Rattle.core_state.specs.LakeStates.{lake_value};
ghost use Rattle.core_puts.specs.Puts as puts;
ghost use Rattle.lake_core.specs.Lakes.{state, versions};
ghost use Rattle.lake_core.specs.Makings.{create_branch, delete_branch, reset, seal};
ghost use Rattle.lake_core.specs.ReadyChanges.{IsReadyChange};
ghost use Rattle.lake_core.specs.Leaving.{Leaves};

use crate::lake::Lake;
use crate::ready::Ready;
use commit_graph::RefExpr;
use core_causes::{test_create_branch, test_delete_branch, test_seal, test_write};
use core_changes::lake as change;
use core_changes::repository::Room;
use core_keeping::{laws_of_followed_names, laws_of_followed_writes};
use core_puts::{create_branch_puts, delete_branch_puts, keep, place, reset_puts, seal_puts};
use core_standing::{law_of_present, laws_of_names, laws_of_plain_names, laws_of_writes};
use core_state::LakeState;
use keeper::Keeper;
use lake_base::{NoMemory, RefName, RepoName, TryCopy};
use lake_laws::causes::laws_of_causes;
use lake_model::{By, Operation, SealFor, StepFault, Versions};
use lake_values::{CommitId, ResetWhat};
use std::alloc::Global;

impl<K: Keeper> Lake<K> {
    /// Makes a branch at the commit of an expression: the place of the entry, and the commit. Stopped, HistoryFull,
    /// NoRepo, NoRef, NoParent, Exists, Expired.
    pub fn create_branch(
        &mut self,
        by: By,
        repo: &RepoName,
        name: RefName,
        e: &RefExpr,
    ) -> Result<(u64, CommitId), StepFault>
        requires { is_like_id name ≡ false }
        ensures reply { IsCreateBranchReply (state self.old) repo.now name e.now result }
        ensures leaves { Leaves (record { kept = K.kept; faults = K.faults; calls = K.calls; successes = K.successes })
            by (create_branch repo.now name e.now (lake_value self.old.present)) result self.old self.new }
    {
        // Test.
        laws_of_causes();
        law_of_present();
        let commit = test_create_branch(&self.present, repo, &name, e)?;
        laws_of_names();
        laws_of_followed_names();

        // Take memory.
        let Ready { operation, puts } = ready_create(
            self.alloc,
            &mut self.present,
            repo,
            &name,
            commit,
        )?;

        // Keep.
        keep(
            &mut self.keeper,
            &mut self.history,
            &mut self.present,
            by,
            operation,
            puts,
        )?;

        // Change.
        change::create_branch(self.alloc, &mut self.present, repo, &name, commit);
        Ok((place(&self.present), commit))
    }

    /// Deletes a branch with its changes: the place of the entry. Stopped, HistoryFull, NoRepo, NoRef, DefaultBranch,
    /// Protected.
    pub fn delete_branch(
        &mut self,
        by: By,
        repo: &RepoName,
        name: &RefName,
    ) -> Result<u64, StepFault>
        ensures reply { GivesOrFails result (delete_branch_reply (state self.old) repo.now name.now) }
        ensures leaves { Leaves (record { kept = K.kept; faults = K.faults; calls = K.calls; successes = K.successes })
            by (Some (delete_branch repo.now name.now (lake_value self.old.present))) result self.old self.new }
    {
        // Test.
        laws_of_causes();
        test_delete_branch(&self.present, repo, name)?;
        laws_of_names();
        laws_of_followed_names();
        laws_of_plain_names();

        // Take memory.
        let Ready { operation, puts } = ready_delete(self.alloc, &self.present, repo, name)?;

        // Keep.
        keep(
            &mut self.keeper,
            &mut self.history,
            &mut self.present,
            by,
            operation,
            puts,
        )?;

        // Change.
        change::delete_branch(&mut self.present, repo, name);
        Ok(place(&self.present))
    }

    /// Seals the staged changes of a branch: the place of the entry, and the versions then. Stopped, HistoryFull,
    /// NoRepo, NoRef, and Protected where it is for a commit.
    pub fn seal(
        &mut self,
        by: By,
        repo: &RepoName,
        branch: &RefName,
        why: SealFor,
    ) -> Result<Versions, StepFault>
        ensures reply { GivesOrFails result
            (seal_reply why (state self.old) (versions self.old) repo.now branch.now) }
        ensures leaves { Leaves (record { kept = K.kept; faults = K.faults; calls = K.calls; successes = K.successes })
            by (Some (seal repo.now branch.now why (lake_value self.old.present))) result self.old self.new }
    {
        // Test.
        laws_of_causes();
        test_seal(&self.present, repo, branch, why)?;
        laws_of_writes();
        laws_of_followed_writes();
        laws_of_plain_names();

        // Take memory.
        let version = self.present.next_version;
        let settings = settings_of(&self.present, repo);
        let Ready { operation, puts } = ready_seal(
            self.alloc,
            &mut self.present,
            repo,
            branch,
            why,
        )?;

        // Keep.
        keep(
            &mut self.keeper,
            &mut self.history,
            &mut self.present,
            by,
            operation,
            puts,
        )?;

        // Change.
        change::seal(&mut self.present, repo, branch);
        let at = place(&self.present);
        Ok(Versions {
            at,
            version,
            settings,
        })
    }

    /// Drops changes of a branch, sealed and staged: the place of the entry. Stopped, HistoryFull, NoRepo, NoRef,
    /// Protected.
    pub fn reset(
        &mut self,
        by: By,
        repo: &RepoName,
        branch: &RefName,
        what: ResetWhat,
    ) -> Result<u64, StepFault>
        ensures reply { GivesOrFails result (reset_reply (state self.old) repo.now branch.now) }
        ensures leaves { Leaves (record { kept = K.kept; faults = K.faults; calls = K.calls; successes = K.successes })
            by (Some (reset repo.now branch.now what (lake_value self.old.present))) result self.old self.new }
    {
        // Test.
        laws_of_causes();
        test_write(&self.present, repo, branch)?;
        laws_of_writes();
        laws_of_followed_writes();
        laws_of_plain_names();

        // Take memory.
        let Ready { operation, puts } = ready_reset(
            self.alloc,
            &mut self.present,
            repo,
            branch,
            &what,
        )?;

        // Keep.
        keep(
            &mut self.keeper,
            &mut self.history,
            &mut self.present,
            by,
            operation,
            puts,
        )?;

        // Change.
        change::reset(&mut self.present, repo, branch, what);
        Ok(place(&self.present))
    }
}

// A branch that is to be made. It changes nothing that the lake says.
fn ready_create(
    alloc: Global,
    lake: &mut LakeState,
    repo: &RepoName,
    name: &RefName,
    commit: CommitId,
) -> Result<Ready, NoMemory>
    requires plain { is_like_id name.now ≡ false }
    requires few { AreFew (lake_value lake.old) }
    ensures same { lake_value lake.new ≡ lake_value lake.old }
    ensures names { lake.new.names ≡ lake.old.names }
    ensures room { OnOk result (HasRoomAt (room.Branch name.entry) repo.now lake.new) }
    ensures ready { IfOk result (IsReadyChange (operation.BranchCreate repo.now name.now commit)
        (puts.create_branch_puts repo.now name.now commit (lake_value lake.old))) }
    ensures limits { OnOk result (IsRefName name.now × IsDigest commit.0) }
{
    let operation = Operation::BranchCreate {
        repo: repo.copy(alloc)?,
        branch: name.copy(alloc)?,
        commit,
    };
    let puts = create_branch_puts(alloc, lake, repo, name, commit)?;
    change::make_room_at(alloc, lake, repo, Room::Branch(name))?;
    Ok(Ready { operation, puts })
}

// A branch that is to go.
fn ready_delete(
    alloc: Global,
    lake: &LakeState,
    repo: &RepoName,
    name: &RefName,
) -> Result<Ready, NoMemory>
    requires { is_like_id name.now ≡ false }
    ensures { IfOk result (IsReadyChange (operation.BranchDelete repo.now name.now)
        (puts.delete_branch_puts repo.now name.now (lake_value lake.now))) }
{
    let operation = Operation::BranchDelete {
        repo: repo.copy(alloc)?,
        branch: name.copy(alloc)?,
    };
    let puts = delete_branch_puts(alloc, lake, repo, name)?;
    Ok(Ready { operation, puts })
}

// Staged changes that are to be sealed. It changes nothing that the lake says.
fn ready_seal(
    alloc: Global,
    lake: &mut LakeState,
    repo: &RepoName,
    branch: &RefName,
    why: SealFor,
) -> Result<Ready, NoMemory>
    requires plain { is_like_id branch.now ≡ false }
    requires few { AreFew (lake_value lake.old) }
    ensures same { lake_value lake.new ≡ lake_value lake.old }
    ensures names { lake.new.names ≡ lake.old.names }
    ensures room { OnOk result (HasRoomAt (room.Change branch.entry) repo.now lake.new) }
    ensures ready { IfOk result (IsReadyChange (operation.Seal repo.now branch.now why)
        (puts.seal_puts repo.now branch.now (lake_value lake.old))) }
    ensures limits { OnOk result (IfSome (puts.branch_at repo.now branch.now (lake_value lake.old))
        (λ b. length (with_fresh (lake_value lake.old).next_token b).sealed < 2 ^ 32)) }
{
    let operation = Operation::Seal {
        repo: repo.copy(alloc)?,
        branch: branch.copy(alloc)?,
        why,
    };
    let puts = seal_puts(alloc, lake, repo, branch)?;
    change::make_room_at(alloc, lake, repo, Room::Change(branch))?;
    Ok(Ready { operation, puts })
}

// Changes that are to be dropped. It changes nothing that the lake says.
fn ready_reset(
    alloc: Global,
    lake: &mut LakeState,
    repo: &RepoName,
    branch: &RefName,
    what: &ResetWhat,
) -> Result<Ready, NoMemory>
    requires plain { is_like_id branch.now ≡ false }
    requires few { AreFew (lake_value lake.old) }
    ensures same { lake_value lake.new ≡ lake_value lake.old }
    ensures names { lake.new.names ≡ lake.old.names }
    ensures room { OnOk result (HasRoomAt (room.Change branch.entry) repo.now lake.new) }
    ensures ready { IfOk result (IsReadyChange (operation.Reset repo.now branch.now what.now)
        (puts.reset_puts repo.now branch.now what.now (lake_value lake.old))) }
{
    let operation = Operation::Reset {
        repo: repo.copy(alloc)?,
        branch: branch.copy(alloc)?,
        what: what.copy(alloc)?,
    };
    let puts = reset_puts(alloc, lake, repo, branch, what)?;
    change::make_room_at(alloc, lake, repo, Room::Change(branch))?;
    Ok(Ready { operation, puts })
}

// The version of the settings of a repository, 0 where it isn't there. It takes no memory.
fn settings_of(lake: &LakeState, repo: &RepoName) -> u64
    ensures { result ≡ option_map_or (λ r. r.settings) (get (lake_value lake.now).repositories repo.now) 0 }
{
    match lake.repository(repo) {
        Some(repository) => repository.settings,
        None => 0,
    }
}
