//! What stands at paths of a branch.
ghost use Rattle.std.specs.Prelude.{◌≡◌, Some, IfSome};
ghost use Rattle.core_state.specs.LakeStates.{lake_value};
ghost use Rattle.lake_core.specs.Lakes.{LakeValue, state, versions};
ghost use Rattle.lake_model.specs.Refusals.{GivesOrFails};
ghost use Rattle.lake_model.specs.Steps.{IsCopyReply, stage_reply};
ghost use Rattle.lake_model.specs.Uncommitted.{HasTicket, put_number};
ghost use Rattle.shared_lake.specs.SeatSteps.{Finds, IsChanged};
ghost use Rattle.lake_core.specs.Makings.{stage, copy};

use crate::shared::{LakeSeat, Shared};
use commit_graph::RefExpr;
use keeper::Keeper;
use lake_base::{Path, RefName, RepoName};
use lake_model::{By, StepFault};
use lake_values::{Change, Entry};
use std::sync::Wait;

impl<K: Keeper> Shared<K> {
    /// Stages a change on a branch of this version: the place of the entry. The ticket of an own object's number goes,
    /// which is one of the seat in each lake that it may find. Stopped, HistoryFull, NoRepo, NoRef, Protected, Changed.
    /// It waits.
    pub fn stage<W: Wait>(
        &self,
        rt: &W,
        seat: &mut LakeSeat,
        call: u64,
        repo: &RepoName,
        branch: &RefName,
        version: u64,
        path: Path,
        change: Change,
    ) -> Result<u64, StepFault>
        requires own { seat.old.turn ≡ self.now }
        requires ticket { (found : LakeValue K)
            → Finds (record { kept = K.kept; faults = K.faults; calls = K.calls; successes = K.successes })
            seat.old found
            → IfSome (put_number change) (HasTicket (state found) seat.old.number) }
        ensures { IsChanged (record { kept = K.kept; faults = K.faults; calls = K.calls; successes = K.successes })
            (record { seat = seat.old.number; call = call }) seat.old seat.new
            (λ l. Some (stage repo.now branch.now path change (lake_value l.present)))
            (λ l. GivesOrFails result
            (stage_reply (state l) (versions l) repo.now branch.now version)) result }
    {
        self.turn.with_change(
            rt,
            seat,
            move |lake, own| lake.stage(
                By { seat: own, call },
                repo,
                branch,
                version,
                path,
                change,
            ),
        )
    }

    /// Stages the entry that an expression has at a path at another path of a branch of this version: the place of the
    /// history's entry, and what was copied. Stopped, HistoryFull, NoRepo, NoRef, NoParent, Protected, Changed, NoPath,
    /// Expired. It waits.
    pub fn copy<W: Wait>(
        &self,
        rt: &W,
        seat: &mut LakeSeat,
        call: u64,
        repo: &RepoName,
        branch: &RefName,
        version: u64,
        path: Path,
        e: &RefExpr,
        from: &Path,
    ) -> Result<(u64, Entry), StepFault>
        requires { seat.old.turn ≡ self.now }
        ensures { IsChanged (record { kept = K.kept; faults = K.faults; calls = K.calls; successes = K.successes })
            (record { seat = seat.old.number; call = call }) seat.old seat.new
            (λ l. copy repo.now branch.now path e.now from.now (lake_value l.present))
            (λ l. IsCopyReply (state l) (versions l) repo.now branch.now version e.now from.now result) result }
    {
        self.turn.with_change(
            rt,
            seat,
            move |lake, own| lake.copy(
                By { seat: own, call },
                repo,
                branch,
                version,
                path,
                e,
                from,
            ),
        )
    }
}
