//! Tags that are made and deleted.
ghost use Rattle.std.specs.Prelude.{◌≡◌, Some, IfOk, OnOk, false};
ghost use Rattle.lake_base.specs.Names.{is_like_id};
ghost use Rattle.lake_format.specs.Spelling.{IsDigest};
ghost use Rattle.lake_model.specs.declared.history.Operation.TheVariants as operation;
ghost use Rattle.lake_model.specs.Refusals.{GivesOrFails};
ghost use Rattle.lake_model.specs.Steps.{IsCreateTagReply, delete_tag_reply};
ghost use Rattle.pair_format.specs.PairSpelling.{IsRefName};
ghost use Rattle.core_changes.specs.LakeRoom.{HasRoomAt};
ghost use Rattle.core_changes.specs.declared.repository.Room.TheVariants as room;
ghost use Rattle.core_state.specs.LakeStates.{lake_value};
ghost use Rattle.core_puts.specs.Puts as puts;
ghost use Rattle.lake_core.specs.Lakes.{state};
ghost use Rattle.lake_core.specs.Makings.{create_tag, delete_tag};
ghost use Rattle.lake_core.specs.ReadyChanges.{IsReadyChange};
ghost use Rattle.lake_core.specs.Leaving.{Leaves};

use crate::lake::Lake;
use crate::ready::Ready;
use commit_graph::RefExpr;
use core_causes::{test_create_tag, test_delete_tag};
use core_changes::lake as change;
use core_changes::repository::Room;
use core_keeping::laws_of_followed_names;
use core_puts::{create_tag_puts, delete_tag_puts, keep, place};
use core_standing::{law_of_present, laws_of_names, laws_of_plain_names};
use core_state::LakeState;
use keeper::Keeper;
use lake_base::{NoMemory, RefName, RepoName, TryCopy};
use lake_laws::causes::laws_of_causes;
use lake_model::{By, Operation, StepFault};
use lake_values::CommitId;
use std::alloc::Global;

impl<K: Keeper> Lake<K> {
    /// Makes a tag of the commit of an expression: the place of the entry, and the commit. Stopped, HistoryFull,
    /// NoRepo, NoRef, NoParent, Exists, Expired.
    pub fn create_tag(
        &mut self,
        by: By,
        repo: &RepoName,
        name: RefName,
        e: &RefExpr,
    ) -> Result<(u64, CommitId), StepFault>
        requires { is_like_id name ≡ false }
        ensures reply { IsCreateTagReply (state self.old) repo.now name e.now result }
        ensures leaves { Leaves (record { kept = K.kept; faults = K.faults; calls = K.calls; successes = K.successes })
            by (create_tag repo.now name e.now (lake_value self.old.present)) result self.old self.new }
    {
        // Test.
        laws_of_causes();
        law_of_present();
        let commit = test_create_tag(&self.present, repo, &name, e)?;
        laws_of_names();
        laws_of_followed_names();

        // Take memory.
        let Ready { operation, puts } = ready_create(
            self.alloc,
            &mut self.present,
            repo,
            &name,
            commit,
        )?;

        // Keep.
        keep(
            &mut self.keeper,
            &mut self.history,
            &mut self.present,
            by,
            operation,
            puts,
        )?;

        // Change.
        change::create_tag(&mut self.present, repo, &name, commit);
        Ok((place(&self.present), commit))
    }

    /// Deletes a tag: the place of the entry. Stopped, HistoryFull, NoRepo, NoRef.
    pub fn delete_tag(&mut self, by: By, repo: &RepoName, name: &RefName) -> Result<u64, StepFault>
        ensures reply { GivesOrFails result (delete_tag_reply (state self.old) repo.now name.now) }
        ensures leaves { Leaves (record { kept = K.kept; faults = K.faults; calls = K.calls; successes = K.successes })
            by (Some (delete_tag repo.now name.now)) result self.old self.new }
    {
        // Test.
        laws_of_causes();
        test_delete_tag(&self.present, repo, name)?;
        laws_of_names();
        laws_of_followed_names();
        laws_of_plain_names();

        // Take memory.
        let Ready { operation, puts } = ready_delete(self.alloc, repo, name)?;

        // Keep.
        keep(
            &mut self.keeper,
            &mut self.history,
            &mut self.present,
            by,
            operation,
            puts,
        )?;

        // Change.
        change::delete_tag(&mut self.present, repo, name);
        Ok(place(&self.present))
    }
}

// A tag that is to be made. It changes nothing that the lake says.
fn ready_create(
    alloc: Global,
    lake: &mut LakeState,
    repo: &RepoName,
    name: &RefName,
    commit: CommitId,
) -> Result<Ready, NoMemory>
    requires { is_like_id name.now ≡ false }
    ensures same { lake_value lake.new ≡ lake_value lake.old }
    ensures names { lake.new.names ≡ lake.old.names }
    ensures room { OnOk result (HasRoomAt (room.Tag name.entry) repo.now lake.new) }
    ensures ready { IfOk result (IsReadyChange (operation.TagCreate repo.now name.now commit)
        (puts.create_tag_puts repo.now name.now commit)) }
    ensures limits { OnOk result (IsRefName name.now × IsDigest commit.0) }
{
    let operation = Operation::TagCreate {
        repo: repo.copy(alloc)?,
        tag: name.copy(alloc)?,
        commit,
    };
    let puts = create_tag_puts(alloc, repo, name, commit)?;
    change::make_room_at(alloc, lake, repo, Room::Tag(name))?;
    Ok(Ready { operation, puts })
}

// A tag that is to go.
fn ready_delete(alloc: Global, repo: &RepoName, name: &RefName) -> Result<Ready, NoMemory>
    requires { is_like_id name.now ≡ false }
    ensures ready { IfOk result (IsReadyChange (operation.TagDelete repo.now name.now)
        (puts.delete_tag_puts repo.now name.now)) }
    ensures limits { OnOk result (IsRefName name.now) }
{
    let operation = Operation::TagDelete {
        repo: repo.copy(alloc)?,
        tag: name.copy(alloc)?,
    };
    let puts = delete_tag_puts(alloc, repo, name)?;
    Ok(Ready { operation, puts })
}
