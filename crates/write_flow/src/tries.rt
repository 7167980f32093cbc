//! A change that is guarded by its branch's version, tried at most ten times.
ghost use Rattle.std.specs.Prelude.{◌≡◌, IfOk, IfSome};
ghost use Rattle.core_puts.specs.KeeperViews.{KeeperView};
ghost use Rattle.lake_core.specs.Lakes.{LakeValue, state};
ghost use Rattle.lake_model.specs.Uncommitted.{HasTicket, put_number};
ghost use Rattle.shared_lake.specs.SeatSteps.{Finds};
ghost use Rattle.flow_steps.specs.FlowTries.{HasTried, copying, staging};
ghost use Rattle.flow_steps.specs.Retries.{HasPaused};
ghost use Rattle.write_flow.specs.WriteTries.{HaveTried, guarded_of, staged_number, tried_of, version_found};

use crate::answer::FlowFault;
use commit_graph::RefExpr;
use flow_steps::first_found;
use keeper::Keeper;
use lake_base::{NoMemory, Path, RefName, RepoName, TryCopy};
use lake_model::StepFault;
use lake_values::{Change, Entry};
use shared_lake::{LakeSeat, Pause, Shared};
use std::alloc::Global;
use std::sync::Wait;

/// Where a change is made.
#[derive(Clone, Copy)]
pub(crate) struct Target<'a> {
    pub(crate) repo: &'a RepoName,
    pub(crate) branch: &'a RefName,
    pub(crate) path: &'a Path,
}

/// What is made there: a change is staged, or the entry that an expression has at a path is copied.
#[derive(Clone, Copy)]
pub(crate) enum What<'a> {
    Change(&'a Change),
    Copy(&'a RefExpr, &'a Path),
}

// What came of a try: it told what it copied, it found another version, or it was refused for anything else.
#[derive(Drop)]
enum Tried {
    Told(Option<Entry>),
    Changed(u64),
    Refused(StepFault),
}

// Reads the version of the branch, pauses, and stages the change at that version.
fn stage_once<K: Keeper, P: Pause, W: Wait>(
    rt: &W,
    alloc: Global,
    lake: &Shared<K>,
    seat: &mut LakeSeat,
    pause: &mut P,
    call: u64,
    target: &Target<'_>,
    change: &Change,
) -> Result<Option<Entry>, StepFault>
    requires own { seat.old.turn ≡ lake.now }
    requires ticket { (found : LakeValue K)
        → Finds (record { kept = K.kept; faults = K.faults; calls = K.calls; successes = K.successes })
        seat.old found
        → IfSome (put_number change.now) (HasTicket (state found) seat.old.number) }
    ensures tried { HasTried (staging target.now.repo.now target.now.branch.now target.now.path.now change.now)
        call seat.old seat.new result }
    ensures paused { HasPaused 1 (version_found result) (P.calls pause.old) (P.calls pause.new) }
{
    let versions = match lake.versions(rt, seat, target.repo, target.branch) {
        Ok(versions) => versions,
        Err(fault) => return Err(fault),
    };
    pause.between();
    let (path, change) = match copies(alloc, target.path, change) {
        Ok(copies) => copies,
        Err(_) => return Err(StepFault::NoMemory),
    };
    match lake.stage(
        rt,
        seat,
        call,
        target.repo,
        target.branch,
        versions.version,
        path,
        change,
    ) {
        Ok(_) => Ok(None),
        Err(fault) => Err(fault),
    }
}

// A path and a change, equal to these.
fn copies(alloc: Global, path: &Path, change: &Change) -> Result<(Path, Change), NoMemory>
    ensures { IfOk result (λ copies. (copies.0 ≡ path.now) × (copies.1 ≡ change.now)) }
{
    let path = path.copy(alloc)?;
    Ok((path, change.copy(alloc)?))
}

// Reads the version of the branch, pauses, and copies at that version.
fn copy_once<K: Keeper, P: Pause, W: Wait>(
    rt: &W,
    alloc: Global,
    lake: &Shared<K>,
    seat: &mut LakeSeat,
    pause: &mut P,
    call: u64,
    target: &Target<'_>,
    e: &RefExpr,
    from: &Path,
) -> Result<Option<Entry>, StepFault>
    requires own { seat.old.turn ≡ lake.now }
    ensures tried { HasTried (copying target.now.repo.now target.now.branch.now target.now.path.now e.now from.now)
        call seat.old seat.new result }
    ensures paused { HasPaused 1 (version_found result) (P.calls pause.old) (P.calls pause.new) }
{
    let versions = match lake.versions(rt, seat, target.repo, target.branch) {
        Ok(versions) => versions,
        Err(fault) => return Err(fault),
    };
    pause.between();
    let path = match target.path.copy(alloc) {
        Ok(path) => path,
        Err(_) => return Err(StepFault::NoMemory),
    };
    match lake.copy(
        rt,
        seat,
        call,
        target.repo,
        target.branch,
        versions.version,
        path,
        e,
        from,
    ) {
        Ok((_, entry)) => Ok(Some(entry)),
        Err(fault) => Err(fault),
    }
}

// One try.
fn attempt<K: Keeper, P: Pause, W: Wait>(
    rt: &W,
    alloc: Global,
    lake: &Shared<K>,
    seat: &mut LakeSeat,
    pause: &mut P,
    call: u64,
    target: &Target<'_>,
    what: &What<'_>,
) -> Result<Option<Entry>, StepFault>
    requires own { seat.old.turn ≡ lake.now }
    requires ticket { (found : LakeValue K)
        → Finds (record { kept = K.kept; faults = K.faults; calls = K.calls; successes = K.successes })
        seat.old found
        → IfSome (staged_number what.now) (HasTicket (state found) seat.old.number) }
    ensures tried { HasTried (guarded_of target.now.repo.now target.now.branch.now target.now.path.now what.now)
        call seat.old seat.new result }
    ensures paused { HasPaused 1 (version_found result) (P.calls pause.old) (P.calls pause.new) }
{
    match what {
        What::Change(change) => stage_once(rt, alloc, lake, seat, pause, call, target, change),
        What::Copy(e, from) => copy_once(rt, alloc, lake, seat, pause, call, target, e, from),
    }
}

/// Tries at most ten times, and answers the entry that was copied.
pub(crate) fn attempts<K: Keeper, P: Pause, W: Wait>(
    rt: &W,
    alloc: Global,
    lake: &Shared<K>,
    seat: &mut LakeSeat,
    pause: &mut P,
    call: u64,
    target: &Target<'_>,
    what: &What<'_>,
) -> Result<Option<Entry>, FlowFault>
    requires own { seat.old.turn ≡ lake.now }
    requires ticket { (found : LakeValue K)
        → Finds (record { kept = K.kept; faults = K.faults; calls = K.calls; successes = K.successes })
        seat.old found
        → IfSome (staged_number what.now) (HasTicket (state found) seat.old.number) }
    ensures { HaveTried (guarded_of target.now.repo.now target.now.branch.now target.now.path.now what.now)
        call seat.old seat.new (P.calls pause.old) (P.calls pause.new) result }
{
    let mut changed: u32 = 0;
    let mut first = 0;
    let mut last = 0;
    'trying: while changed < 10 {
        let result = attempt(rt, alloc, lake, seat, pause, call, target, what);
        match told_apart(result) {
            Tried::Told(copied) => return Ok(copied),
            Tried::Changed(version) => {
                first = first_found(changed, first, version);
                last = version;
                changed += 1;
            }
            Tried::Refused(fault) => return Err(FlowFault::of_step(fault)),
        }
    }
    Err(FlowFault::TooManyTries { first, last })
}

// What came of a try, told apart.
fn told_apart(answer: Result<Option<Entry>, StepFault>) -> Tried
    ensures { result ≡ tried_of answer }
{
    match answer {
        Ok(copied) => Tried::Told(copied),
        Err(
            StepFault::Changed {
                version,
                settings: _,
            },
        ) => Tried::Changed(version),
        Err(fault) => Tried::Refused(fault),
    }
}
