//! Branches that are made and deleted, sealed and reset.
ghost use Rattle.std.specs.Prelude.{◌≡◌, Some, false};
ghost use Rattle.core_state.specs.LakeStates.{lake_value};
ghost use Rattle.lake_base.specs.Names.{is_like_id};
ghost use Rattle.lake_core.specs.Lakes.{state, versions};
ghost use Rattle.lake_model.specs.Refusals.{GivesOrFails};
ghost use Rattle.lake_model.specs.Steps.{delete_branch_reply, IsCreateBranchReply, reset_reply, seal_reply};
ghost use Rattle.shared_lake.specs.SeatSteps.{IsChanged};
ghost use Rattle.lake_core.specs.Makings.{create_branch, delete_branch, seal, reset};

use crate::shared::{LakeSeat, Shared};
use commit_graph::RefExpr;
use keeper::Keeper;
use lake_base::{RefName, RepoName};
use lake_model::{By, SealFor, StepFault, Versions};
use lake_values::{CommitId, ResetWhat};
use std::sync::Wait;

impl<K: Keeper> Shared<K> {
    /// Makes a branch at the commit of an expression: the place of the entry, and the commit. Stopped, HistoryFull,
    /// NoRepo, NoRef, NoParent, Exists, Expired. It waits.
    pub fn create_branch<W: Wait>(
        &self,
        rt: &W,
        seat: &mut LakeSeat,
        call: u64,
        repo: &RepoName,
        name: RefName,
        e: &RefExpr,
    ) -> Result<(u64, CommitId), StepFault>
        requires own { seat.old.turn ≡ self.now }
        requires plain { is_like_id name ≡ false }
        ensures { IsChanged (record { kept = K.kept; faults = K.faults; calls = K.calls; successes = K.successes })
            (record { seat = seat.old.number; call = call }) seat.old seat.new
            (λ l. create_branch repo.now name e.now (lake_value l.present))
            (λ l. IsCreateBranchReply (state l) repo.now name e.now result) result }
    {
        self.turn.with_change(
            rt,
            seat,
            move |lake, own| lake.create_branch(By { seat: own, call }, repo, name, e),
        )
    }

    /// Deletes a branch with its changes: the place of the entry. Stopped, HistoryFull, NoRepo, NoRef, DefaultBranch,
    /// Protected. It waits.
    pub fn delete_branch<W: Wait>(
        &self,
        rt: &W,
        seat: &mut LakeSeat,
        call: u64,
        repo: &RepoName,
        name: &RefName,
    ) -> Result<u64, StepFault>
        requires { seat.old.turn ≡ self.now }
        ensures { IsChanged (record { kept = K.kept; faults = K.faults; calls = K.calls; successes = K.successes })
            (record { seat = seat.old.number; call = call }) seat.old seat.new
            (λ l. Some (delete_branch repo.now name.now (lake_value l.present)))
            (λ l. GivesOrFails result (delete_branch_reply (state l) repo.now name.now)) result }
    {
        self.turn.with_change(
            rt,
            seat,
            move |lake, own| lake.delete_branch(By { seat: own, call }, repo, name),
        )
    }

    /// Seals the staged changes of a branch: the place of the entry, and the versions then. Stopped, HistoryFull,
    /// NoRepo, NoRef, and Protected where it is for a commit. It waits.
    pub fn seal<W: Wait>(
        &self,
        rt: &W,
        seat: &mut LakeSeat,
        call: u64,
        repo: &RepoName,
        branch: &RefName,
        why: SealFor,
    ) -> Result<Versions, StepFault>
        requires { seat.old.turn ≡ self.now }
        ensures { IsChanged (record { kept = K.kept; faults = K.faults; calls = K.calls; successes = K.successes })
            (record { seat = seat.old.number; call = call }) seat.old seat.new
            (λ l. Some (seal repo.now branch.now why (lake_value l.present)))
            (λ l. GivesOrFails result (seal_reply why (state l) (versions l) repo.now branch.now)) result }
    {
        self.turn.with_change(
            rt,
            seat,
            move |lake, own| lake.seal(By { seat: own, call }, repo, branch, why),
        )
    }

    /// Drops changes of a branch, sealed and staged: the place of the entry. Stopped, HistoryFull, NoRepo, NoRef,
    /// Protected. It waits.
    pub fn reset<W: Wait>(
        &self,
        rt: &W,
        seat: &mut LakeSeat,
        call: u64,
        repo: &RepoName,
        branch: &RefName,
        what: ResetWhat,
    ) -> Result<u64, StepFault>
        requires { seat.old.turn ≡ self.now }
        ensures { IsChanged (record { kept = K.kept; faults = K.faults; calls = K.calls; successes = K.successes })
            (record { seat = seat.old.number; call = call }) seat.old seat.new
            (λ l. Some (reset repo.now branch.now what (lake_value l.present)))
            (λ l. GivesOrFails result (reset_reply (state l) repo.now branch.now)) result }
    {
        self.turn.with_change(
            rt,
            seat,
            move |lake, own| lake.reset(By { seat: own, call }, repo, branch, what),
        )
    }
}
