//! A new head of a branch, tried once.
ghost use Rattle.std.specs.Prelude.{◌≡◌, IfOk, IfSome};
ghost use Rattle.core_readings.specs.Preparations.{HasSides};
ghost use Rattle.lake_core.specs.Lakes.{LakeValue, state, versions};
ghost use Rattle.shared_lake.specs.SeatSteps.{Finds, IsRead};
ghost use Rattle.head_drafts.specs.HeadDrafts.{sides_of};
ghost use Rattle.flow_steps.specs.Retries.{HasPaused};
ghost use Rattle.head_steps.specs.HeadPauses.{times_changed};
ghost use Rattle.head_steps.specs.HeadTries.{HasTriedHead};
ghost use Rattle.head_steps.specs.NewHeads.{IsDraftedIn, draft_in};

use head_drafts::{DraftFault, HeadDraft, HeadFault, draft, sides_of, strategy_of};
use keeper::Keeper;
use lake_base::{RefName, RepoName, TryCopy};
use lake_model::SwapKind;
use lake_values::{About, CommitId, CommitRecord};
use shared_lake::{LakeSeat, Pause, Shared};
use std::alloc::Global;
use std::sync::Wait;

/// Tries once to make a commit, a merge or a pick the head of a branch: what it is made from is read, it is drafted
/// outside of the turn, the flow pauses, and the head is made by the versions that were read: the place of the entry,
/// the head and what it says. The commits of a merge or a pick are commits of the repository in each lake that the seat
/// may find. What the reading refuses, and what the draft is refused for, is told before the pause; then what the step
/// refuses, Changed among it; or the store failed; or memory ran out. It waits.
pub fn head_once<K: Keeper, P: Pause, W: Wait>(
    rt: &W,
    alloc: Global,
    lake: &Shared<K>,
    seat: &mut LakeSeat,
    pause: &mut P,
    call: u64,
    repo: &RepoName,
    branch: &RefName,
    kind: SwapKind,
    about: &About,
) -> Result<(u64, CommitId, CommitRecord), HeadFault>
    requires own { seat.old.turn ≡ lake.now }
    requires sides { (found : LakeValue K)
        → Finds (record { kept = K.kept; faults = K.faults; calls = K.calls; successes = K.successes })
        seat.old found
        → IfSome (sides_of kind) (HasSides (state found) repo.now) }
    ensures tried { HasTriedHead (record { repo = repo.now; branch = branch.now; kind = kind; about = about.now })
        call seat.old seat.new result }
    ensures paused { HasPaused 1 (times_changed result) (P.calls pause.old) (P.calls pause.new) }
{
    let (draft, about) = match drafted(rt, alloc, lake, seat, repo, branch, kind, about) {
        Ok(drafted) => drafted,
        Err(fault) => return Err(fault),
    };
    pause.between();
    match lake.swap(
        rt,
        seat,
        call,
        repo,
        branch,
        draft.version,
        draft.settings,
        kind,
        about,
        draft.tree,
    ) {
        Ok(made) => Ok(made),
        Err(fault) => Err(HeadFault::Step(fault)),
    }
}

// What a new head is made from is read, and the head is drafted, with a copy of what is said of it.
fn drafted<K: Keeper, W: Wait>(
    rt: &W,
    alloc: Global,
    lake: &Shared<K>,
    seat: &mut LakeSeat,
    repo: &RepoName,
    branch: &RefName,
    kind: SwapKind,
    about: &About,
) -> Result<(HeadDraft, About), HeadFault>
    requires own { seat.old.turn ≡ lake.now }
    requires sides { (found : LakeValue K)
        → Finds (record { kept = K.kept; faults = K.faults; calls = K.calls; successes = K.successes })
        seat.old found
        → IfSome (sides_of kind) (HasSides (state found) repo.now) }
    ensures read { IsRead (record { kept = K.kept; faults = K.faults; calls = K.calls; successes = K.successes })
        seat.old seat.new (λ l. IsDraftedIn
        (record { repo = repo.now; branch = branch.now; kind = kind; about = about.now })
        (state l) (versions l) (draft_in result)) }
    ensures about { IfOk result (λ drafted. drafted.1 ≡ about.now) }
{
    let sides = sides_of(&kind);
    let prepared = match lake.prepare(rt, seat, repo, branch, sides.as_ref()) {
        Ok(prepared) => prepared,
        Err(fault) => return Err(HeadFault::Step(fault)),
    };
    let tree = match draft(
        alloc,
        &prepared,
        strategy_of(&kind),
        branch,
        &about.metadata,
    ) {
        Ok(tree) => tree,
        Err(fault) => return Err(HeadFault::Draft(fault)),
    };
    let about = match about.copy(alloc) {
        Ok(about) => about,
        Err(_) => return Err(HeadFault::Draft(DraftFault::NoMemory)),
    };
    Ok((
        HeadDraft {
            version: prepared.version,
            settings: prepared.settings,
            tree,
        },
        about,
    ))
}
