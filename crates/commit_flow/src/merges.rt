//! A merge: its source is resolved once, and then its new head is made.
ghost use Rattle.std.specs.Prelude.{◌≡◌, ℕ, List};
ghost use Rattle.lake_model.specs.declared.reply.SwapKind.TheVariants as kind;
ghost use Rattle.commit_flow.specs.CommitFlows.{HasMerged};

use crate::answer::CommitFault;
use crate::heads::new_head;
use commit_graph::RefExpr;
use head_steps::resolve_for;
use keeper::Keeper;
use lake_base::{RefName, RepoName};
use lake_model::{SealFor, SwapKind};
use lake_values::{About, CommitId, CommitRecord, Strategy};
use shared_lake::{LakeSeat, Pause, Shared};
use std::alloc::Global;
use std::sync::Wait;

/// Resolves the source, and makes the head that merges it.
pub(crate) fn merged<K: Keeper, P: Pause, W: Wait>(
    rt: &W,
    alloc: Global,
    lake: &Shared<K>,
    seat: &mut LakeSeat,
    pause: &mut P,
    call: u64,
    repo: &RepoName,
    source: &RefExpr,
    dest: &RefName,
    strategy: Strategy,
    about: &About,
) -> Result<(u64, CommitId, CommitRecord), CommitFault>
    requires { seat.old.turn ≡ lake.now }
    ensures { (versions : List ℕ) × HasMerged repo.now source.now
        (λ commit. record {
          repo = repo.now;
          branch = dest.now;
          kind = kind.Merge commit strategy;
          about = about.now;
        })
        call seat.old seat.new (P.calls pause.old) (P.calls pause.new) versions result }
{
    let point = match resolve_for(rt, lake, seat, repo, source) {
        Ok(point) => point,
        Err(fault) => return Err(CommitFault::of_step(fault)),
    };
    let kind = SwapKind::Merge {
        source: point.commit,
        strategy,
    };
    new_head(
        rt,
        alloc,
        lake,
        seat,
        pause,
        call,
        repo,
        dest,
        SealFor::Other,
        kind,
        about,
    )
}
