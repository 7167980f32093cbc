//! A new head of a branch, tried at most ten times.
ghost use Rattle.std.specs.Prelude.{◌≡◌, IfSome};
ghost use Rattle.core_puts.specs.KeeperViews.{KeeperView};
ghost use Rattle.core_readings.specs.Preparations.{HasSides};
ghost use Rattle.lake_core.specs.Lakes.{LakeValue, state};
ghost use Rattle.shared_lake.specs.SeatSteps.{Finds};
ghost use Rattle.head_drafts.specs.HeadDrafts.{sides_of};
ghost use Rattle.commit_flow.specs.CommitTries.{HaveTriedHead, tried_of};

use crate::answer::CommitFault;
use flow_steps::first_found;
use head_drafts::HeadFault;
use head_steps::head_once;
use keeper::Keeper;
use lake_base::{RefName, RepoName};
use lake_model::{StepFault, SwapKind};
use lake_values::{About, CommitId, CommitRecord};
use shared_lake::{LakeSeat, Pause, Shared};
use std::alloc::Global;
use std::sync::Wait;

// What came of a try: the head was made, it found another version, or it was refused for anything else.
#[derive(Drop)]
enum TriedHead {
    Made((u64, CommitId, CommitRecord)),
    Changed(u64),
    Refused(HeadFault),
}

// What came of a try, told apart.
fn told_apart(answer: Result<(u64, CommitId, CommitRecord), HeadFault>) -> TriedHead
    ensures { result ≡ tried_of answer }
{
    match answer {
        Ok(made) => TriedHead::Made(made),
        Err(
            HeadFault::Step(
                StepFault::Changed {
                    version,
                    settings: _,
                },
            ),
        ) => TriedHead::Changed(version),
        Err(fault) => TriedHead::Refused(fault),
    }
}

/// Tries at most ten times: the place of the entry, the head and what it says.
pub(crate) fn attempts<K: Keeper, P: Pause, W: Wait>(
    rt: &W,
    alloc: Global,
    lake: &Shared<K>,
    seat: &mut LakeSeat,
    pause: &mut P,
    call: u64,
    repo: &RepoName,
    branch: &RefName,
    kind: SwapKind,
    about: &About,
) -> Result<(u64, CommitId, CommitRecord), CommitFault>
    requires own { seat.old.turn ≡ lake.now }
    requires sides { (found : LakeValue K)
        → Finds (record { kept = K.kept; faults = K.faults; calls = K.calls; successes = K.successes })
        seat.old found
        → IfSome (sides_of kind) (HasSides (state found) repo.now) }
    ensures { HaveTriedHead (record { repo = repo.now; branch = branch.now; kind = kind; about = about.now })
        call seat.old seat.new (P.calls pause.old) (P.calls pause.new) result }
{
    let mut changed: u32 = 0;
    let mut first = 0;
    let mut last = 0;
    'trying: while changed < 10 {
        let result = head_once(
            rt, alloc, lake, seat, pause, call, repo, branch, kind, about,
        );
        match told_apart(result) {
            TriedHead::Made(made) => return Ok(made),
            TriedHead::Changed(version) => {
                first = first_found(changed, first, version);
                last = version;
                changed += 1;
            }
            TriedHead::Refused(fault) => return Err(CommitFault::of_try(fault)),
        }
    }
    Err(CommitFault::TooManyTries { first, last })
}
