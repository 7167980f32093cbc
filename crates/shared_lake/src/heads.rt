//! Commits, merges and picks, by which a branch has a new head.
ghost use Rattle.std.specs.Prelude.{◌≡◌};
ghost use Rattle.core_commits.specs.Making.{head_answer, head_making};
ghost use Rattle.lake_core.specs.HeadConditions.{IsReadyFor};
ghost use Rattle.lake_core.specs.Lakes.{LakeValue, state, versions};
ghost use Rattle.lake_model.specs.Steps.{IsSwapReply, swap_rule};
ghost use Rattle.shared_lake.specs.SeatSteps.{Finds, IsChanged};

use crate::shared::{LakeSeat, Shared};
use keeper::Keeper;
use lake_base::{RefName, RepoName};
use lake_model::{By, StepFault, SwapKind};
use lake_values::{About, CommitId, CommitRecord};
use meta_range::Tree;
use std::sync::Wait;

impl<K: Keeper> Shared<K> {
    /// Makes a commit, a merge or a pick the head of a branch, by the versions of the branch and of the settings: the
    /// place of the entry, the head and what it says. What the step of one lake asks of the new head holds in each lake
    /// that the seat may find. Stopped, HistoryFull, NoRepo, NoRef, Protected for a commit, Changed exactly where one
    /// of both versions differs, Expired for the source or the new commit, NameClash. It waits.
    pub fn swap<W: Wait>(
        &self,
        rt: &W,
        seat: &mut LakeSeat,
        call: u64,
        repo: &RepoName,
        branch: &RefName,
        version: u64,
        settings: u64,
        kind: SwapKind,
        about: About,
        tree: Tree,
    ) -> Result<(u64, CommitId, CommitRecord), StepFault>
        requires own { seat.old.turn ≡ self.now }
        requires ready { (found : LakeValue K)
            → Finds (record { kept = K.kept; faults = K.faults; calls = K.calls; successes = K.successes })
            seat.old found
            → IsReadyFor (state found) (versions found) repo.now branch.now version settings kind about tree }
        ensures { IsChanged (record { kept = K.kept; faults = K.faults; calls = K.calls; successes = K.successes })
            (record { seat = seat.old.number; call = call }) seat.old seat.new
            (λ l. head_making repo.now branch.now kind about l.present)
            (λ l. IsSwapReply (state l) (versions l) repo.now branch.now version settings
            (swap_rule kind about) (head_answer result)) result }
    {
        self.turn.with_change(
            rt,
            seat,
            move |lake, own| lake.swap(
                By { seat: own, call },
                repo,
                branch,
                version,
                settings,
                kind,
                about,
                tree,
            ),
        )
    }
}
