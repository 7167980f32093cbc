//! A new head of a branch, behind the seal of its changes.
ghost use Rattle.std.specs.Prelude.{◌≡◌, ℕ, List, IfSome};
ghost use Rattle.core_puts.specs.KeeperViews.{KeeperView};
ghost use Rattle.core_readings.specs.Preparations.{HasSides};
ghost use Rattle.lake_core.specs.declared.standing.LakeOrigin.{LakeOrigin};
ghost use Rattle.lake_core.specs.Lakes.{LakeValue, state};
ghost use Rattle.shared_lake.specs.SeatSteps.{Finds, LakeSeat as AnySeat};
ghost use Rattle.flow_steps.specs.FlowSeats.{GoesOn};
ghost use Rattle.head_drafts.specs.HeadDrafts.{sides_of};
ghost use Rattle.commit_flow.specs.CommitFlows.{HasMadeHead, answered_at, said_at};

use crate::answer::CommitFault;
use crate::tries::attempts;
use flow_steps::FlowAnswer;
use head_steps::seal_for;
use keeper::Keeper;
use lake_base::{RefName, RepoName};
use lake_model::{SealFor, SwapKind};
use lake_values::{About, CommitId, CommitRecord};
use shared_lake::{LakeSeat, Pause, Shared};
use std::alloc::Global;
use std::sync::Wait;

/// Seals the branch, and makes its new head by at most ten tries. The commits of a merge or a pick are commits of the
/// repository in each lake that the seat may find as the call goes on.
pub(crate) fn new_head<K: Keeper, P: Pause, W: Wait>(
    rt: &W,
    alloc: Global,
    lake: &Shared<K>,
    seat: &mut LakeSeat,
    pause: &mut P,
    call: u64,
    repo: &RepoName,
    branch: &RefName,
    why: SealFor,
    kind: SwapKind,
    about: &About,
) -> Result<(u64, CommitId, CommitRecord), CommitFault>
    requires own { seat.old.turn ≡ lake.now }
    requires sides { (origin : LakeOrigin) (now : AnySeat) (found : LakeValue K) → GoesOn origin call seat.old now
        → Finds (record { kept = K.kept; faults = K.faults; calls = K.calls; successes = K.successes }) now found
        → IfSome (sides_of kind) (HasSides (state found) repo.now) }
    ensures { (versions : List ℕ)
        × HasMadeHead (record { repo = repo.now; branch = branch.now; kind = kind; about = about.now }) why
        call seat.old seat.new (P.calls pause.old) (P.calls pause.new) versions result }
{
    match seal_for(rt, lake, seat, call, repo, branch, why) {
        Ok(_) => attempts(
            rt, alloc, lake, seat, pause, call, repo, branch, kind, about,
        ),
        Err(fault) => Err(CommitFault::of_step(fault)),
    }
}

/// What is said of a commit that is made at this moment.
pub(crate) fn dated(about: About, moment: u64) -> About
    ensures { result ≡ said_at moment about }
{
    let About {
        committer,
        message,
        metadata,
        date: _,
    } = about;
    About {
        committer,
        message,
        metadata,
        date: moment,
    }
}

// What a flow answers, at all that its seat has seen.
pub(crate) fn answer_of(
    seat: &LakeSeat,
    outcome: Result<(u64, CommitId, CommitRecord), CommitFault>,
) -> FlowAnswer<(u64, CommitId, CommitRecord), CommitFault>
    ensures { result ≡ answered_at outcome seat.now }
{
    let position = seat.seen();
    FlowAnswer {
        outcome,
        position,
        edge: position,
    }
}
