//! Repositories that are made.
ghost use Rattle.std.specs.Prelude.{◌≡◌, Some, false};
ghost use Rattle.core_state.specs.LakeStates.{lake_value};
ghost use Rattle.lake_base.specs.Names.{is_like_id};
ghost use Rattle.lake_core.specs.Lakes.{state};
ghost use Rattle.lake_model.specs.Steps.{IsCreateRepositoryReply};
ghost use Rattle.shared_lake.specs.SeatSteps.{IsChanged};
ghost use Rattle.lake_core.specs.Makings.{create_repo};

use crate::shared::{LakeSeat, Shared};
use keeper::Keeper;
use lake_base::{RefName, RepoName};
use lake_model::{By, StepFault};
use std::sync::Wait;

impl<K: Keeper> Shared<K> {
    /// Makes a repository at a date, in seconds since 1970, with its default branch at its first commit: the place of
    /// the entry. Stopped, HistoryFull, Exists, NameClash. It waits.
    pub fn create_repo<W: Wait>(
        &self,
        rt: &W,
        seat: &mut LakeSeat,
        call: u64,
        repo: RepoName,
        branch: RefName,
        date: u64,
    ) -> Result<u64, StepFault>
        requires own { seat.old.turn ≡ self.now }
        requires plain { is_like_id branch ≡ false }
        ensures { IsChanged (record { kept = K.kept; faults = K.faults; calls = K.calls; successes = K.successes })
            (record { seat = seat.old.number; call = call }) seat.old seat.new
            (λ l. Some (create_repo repo branch date (lake_value l.present)))
            (λ l. IsCreateRepositoryReply (state l) repo branch date result) result }
    {
        self.turn.with_change(
            rt,
            seat,
            move |lake, own| lake.create_repo(By { seat: own, call }, repo, branch, date),
        )
    }
}
