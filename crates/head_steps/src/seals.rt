//! What a call of a new head does before its tries.
ghost use Rattle.std.specs.Prelude.{◌≡◌, ℕ};
ghost use Rattle.head_steps.specs.HeadSeals.{HasResolved, HasSealed};

use commit_graph::RefExpr;
use keeper::Keeper;
use lake_base::{RefName, RepoName};
use lake_model::{Point, SealFor, StepFault, Versions};
use shared_lake::{LakeSeat, Shared};
use std::sync::Wait;

/// Seals the staged changes of a branch for a call, for a commit or for a merge or a pick: the versions then. Stopped,
/// HistoryFull, NoRepo, NoRef, Protected for a commit. It waits.
pub fn seal_for<K: Keeper, W: Wait>(
    rt: &W,
    lake: &Shared<K>,
    seat: &mut LakeSeat,
    call: u64,
    repo: &RepoName,
    branch: &RefName,
    why: SealFor,
) -> Result<Versions, StepFault>
    requires { seat.old.turn ≡ lake.now }
    ensures { HasSealed repo.now branch.now why call seat.old seat.new result }
{
    lake.seal(rt, seat, call, repo, branch, why)
}

/// Resolves an expression for a call: what it leads to. NoRepo, NoRef, NoParent. It waits.
pub fn resolve_for<K: Keeper, W: Wait>(
    rt: &W,
    lake: &Shared<K>,
    seat: &mut LakeSeat,
    repo: &RepoName,
    e: &RefExpr,
) -> Result<Point, StepFault>
    requires { seat.old.turn ≡ lake.now }
    ensures { (call : ℕ) → HasResolved repo.now e.now call seat.old seat.new result }
{
    lake.resolve(rt, seat, repo, e)
}
