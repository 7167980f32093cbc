//! Tags that are made and deleted.
ghost use Rattle.std.specs.Prelude.{◌≡◌, Some, false};
ghost use Rattle.core_state.specs.LakeStates.{lake_value};
ghost use Rattle.lake_base.specs.Names.{is_like_id};
ghost use Rattle.lake_core.specs.Lakes.{state};
ghost use Rattle.lake_model.specs.Refusals.{GivesOrFails};
ghost use Rattle.lake_model.specs.Steps.{delete_tag_reply, IsCreateTagReply};
ghost use Rattle.shared_lake.specs.SeatSteps.{IsChanged};
ghost use Rattle.lake_core.specs.Makings.{create_tag, delete_tag};

use crate::shared::{LakeSeat, Shared};
use commit_graph::RefExpr;
use keeper::Keeper;
use lake_base::{RefName, RepoName};
use lake_model::{By, StepFault};
use lake_values::CommitId;
use std::sync::Wait;

impl<K: Keeper> Shared<K> {
    /// Makes a tag of the commit of an expression: the place of the entry, and the commit. Stopped, HistoryFull,
    /// NoRepo, NoRef, NoParent, Exists, Expired. It waits.
    pub fn create_tag<W: Wait>(
        &self,
        rt: &W,
        seat: &mut LakeSeat,
        call: u64,
        repo: &RepoName,
        name: RefName,
        e: &RefExpr,
    ) -> Result<(u64, CommitId), StepFault>
        requires own { seat.old.turn ≡ self.now }
        requires plain { is_like_id name ≡ false }
        ensures { IsChanged (record { kept = K.kept; faults = K.faults; calls = K.calls; successes = K.successes })
            (record { seat = seat.old.number; call = call }) seat.old seat.new
            (λ l. create_tag repo.now name e.now (lake_value l.present))
            (λ l. IsCreateTagReply (state l) repo.now name e.now result) result }
    {
        self.turn.with_change(
            rt,
            seat,
            move |lake, own| lake.create_tag(By { seat: own, call }, repo, name, e),
        )
    }

    /// Deletes a tag: the place of the entry. Stopped, HistoryFull, NoRepo, NoRef. It waits.
    pub fn delete_tag<W: Wait>(
        &self,
        rt: &W,
        seat: &mut LakeSeat,
        call: u64,
        repo: &RepoName,
        name: &RefName,
    ) -> Result<u64, StepFault>
        requires { seat.old.turn ≡ self.now }
        ensures { IsChanged (record { kept = K.kept; faults = K.faults; calls = K.calls; successes = K.successes })
            (record { seat = seat.old.number; call = call }) seat.old seat.new
            (λ l. Some (delete_tag repo.now name.now))
            (λ l. GivesOrFails result (delete_tag_reply (state l) repo.now name.now)) result }
    {
        self.turn.with_change(
            rt,
            seat,
            move |lake, own| lake.delete_tag(By { seat: own, call }, repo, name),
        )
    }
}
