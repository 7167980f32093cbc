//! The calls that make a new head of a branch: commit, merge, revert and cherry-pick.
ghost use Rattle.std.specs.Prelude.{◌≡◌};
ghost use Rattle.lake_values.specs.declared.commit.Strategy.TheVariants.{Refuse};
ghost use Rattle.lake_model.specs.declared.history.SealFor.TheVariants as seal;
ghost use Rattle.lake_model.specs.declared.reply.SwapKind.TheVariants as kind;
ghost use Rattle.lake_calls.specs.Calls.{CommitCall as Committing, MergeCall as AnyMerge, PickCall as AnyPick};
ghost use Rattle.lake_calls.specs.CallReadings.{known_commit};
ghost use Rattle.lake_calls.specs.Courses.{commit_about, merge_about, pick_about, revert_about};
ghost use Rattle.lake_calls.specs.declared.call.Call.TheVariants.{Heads};
ghost use Rattle.lake_calls.specs.declared.heads.HeadCall.TheVariants as head;
ghost use Rattle.lake_calls.specs.declared.reply.Done.TheVariants as done;
ghost use Rattle.flow_steps.specs.FlowAnswers.{still};
ghost use Rattle.commit_flow.specs.CommitFlows.{HasMadeHead, HasMerged, HasPicked, IsAnswered, said_at};

use crate::answer::CommitFault;
use crate::heads::{answer_of, dated, new_head};
use crate::merges::merged;
use crate::picks::{Picking, picked};
use block_store::Blocks;
use commit_graph::RefExpr;
use flow_steps::FlowAnswer;
use keeper::Keeper;
use lake_base::{RefName, RepoName};
use lake_model::{SealFor, SwapKind};
use lake_values::{About, CommitId, CommitRecord, Strategy};
use shared_lake::{Client, LakeSeat, Pause, Shared};
use std::alloc::Global;
use std::sync::Wait;

/// Commits what is staged and sealed on a branch: the place of the entry, the new head and what it says. The changes
/// are sealed first, and stay sealed where the commit is refused behind that; then it is tried at most ten times. The
/// call's own commit is said of by `about`, but for its date, which is the moment of the client. It waits.
pub fn commit<K: Keeper, B: Blocks, P: Pause, W: Wait>(
    rt: &W,
    alloc: Global,
    lake: &Shared<K>,
    seat: &mut LakeSeat,
    client: &mut Client<'_, '_, B, P>,
    repo: &RepoName,
    branch: &RefName,
    about: About,
) -> FlowAnswer<(u64, CommitId, CommitRecord), CommitFault>
    requires turn { seat.old.turn ≡ lake.now }
    ensures served { (c : Committing)
        → c.repo ≡ repo.now → c.branch ≡ branch.now → commit_about c client.old.now ≡ said_at client.old.now about
        → IsAnswered (HasMadeHead
        (record {
          repo = repo.now;
          branch = branch.now;
          kind = kind.Commit;
          about = said_at client.old.now about;
        }) seal.Commit client.old.call seat.old seat.new (P.calls client.old.pause.now) (P.calls client.new.pause.now))
        (λ one. done.Committed (known_commit one)) seat.old seat.new client.old.call (Heads (head.Commit c))
        client.old.now
        (still (B.faults client.old.blocks.now) (B.misses client.old.blocks.now) (B.missed client.old.blocks.now))
        result }
    ensures turn { seat.new.turn ≡ seat.old.turn }
    ensures blocks { client.new.blocks ≡ client.old.blocks }
    ensures pause { client.new.pause.ghost_name ≡ client.old.pause.ghost_name }
    ensures call { (client.new.call ≡ client.old.call) × (client.new.now ≡ client.old.now) }
{
    let call = client.call;
    let about = dated(about, client.now);
    let made = new_head(
        rt,
        alloc,
        lake,
        seat,
        client.pause,
        call,
        repo,
        branch,
        SealFor::Commit,
        SwapKind::Commit,
        &about,
    );
    answer_of(seat, made)
}

/// Merges the commit of an expression into a branch: the place of the entry, the new head and what it says. The
/// expression is resolved once, before the branch is sealed. The date is the client's moment, and not that of `about`. It waits.
pub fn merge<K: Keeper, B: Blocks, P: Pause, W: Wait>(
    rt: &W,
    alloc: Global,
    lake: &Shared<K>,
    seat: &mut LakeSeat,
    client: &mut Client<'_, '_, B, P>,
    repo: &RepoName,
    source: &RefExpr,
    dest: &RefName,
    strategy: Strategy,
    about: About,
) -> FlowAnswer<(u64, CommitId, CommitRecord), CommitFault>
    requires turn { seat.old.turn ≡ lake.now }
    ensures served { (c : AnyMerge)
        → c.repo ≡ repo.now → c.branch ≡ dest.now → c.source.e ≡ source.now → c.strategy ≡ strategy
        → merge_about c client.old.now ≡ said_at client.old.now about
        → IsAnswered (HasMerged repo.now source.now (λ commit. record {
          repo = repo.now;
          branch = dest.now;
          kind = kind.Merge commit strategy;
          about = said_at client.old.now about;
        }) client.old.call seat.old seat.new (P.calls client.old.pause.now) (P.calls client.new.pause.now))
        (λ one. done.Merged one.0) seat.old seat.new client.old.call (Heads (head.Merge c)) client.old.now
        (still (B.faults client.old.blocks.now) (B.misses client.old.blocks.now) (B.missed client.old.blocks.now))
        result }
    ensures turn { seat.new.turn ≡ seat.old.turn }
    ensures blocks { client.new.blocks ≡ client.old.blocks }
    ensures pause { client.new.pause.ghost_name ≡ client.old.pause.ghost_name }
    ensures call { (client.new.call ≡ client.old.call) × (client.new.now ≡ client.old.now) }
{
    let call = client.call;
    let about = dated(about, client.now);
    let made = merged(
        rt,
        alloc,
        lake,
        seat,
        client.pause,
        call,
        repo,
        source,
        dest,
        strategy,
        &about,
    );
    answer_of(seat, made)
}

/// Undoes the commit of an expression on a branch, over its parent of this number, counted from 1, which a commit of
/// several parents needs: the place of the entry, the new head and what it says. Its message is `Revert ID`; of
/// `about` the committer counts, and the date is the moment of the client. It waits.
pub fn revert<K: Keeper, B: Blocks, P: Pause, W: Wait>(
    rt: &W,
    alloc: Global,
    lake: &Shared<K>,
    seat: &mut LakeSeat,
    client: &mut Client<'_, '_, B, P>,
    repo: &RepoName,
    branch: &RefName,
    e: &RefExpr,
    number: Option<u32>,
    about: About,
) -> FlowAnswer<(u64, CommitId, CommitRecord), CommitFault>
    requires turn { seat.old.turn ≡ lake.now }
    ensures served { (c : AnyPick)
        → c.repo ≡ repo.now → c.branch ≡ branch.now → c.at.e ≡ e.now → c.parent ≡ number
        → c.committer ≡ about.committer
        → IsAnswered (HasPicked repo.now e.now number (λ point parent. record {
          repo = repo.now;
          branch = branch.now;
          kind = kind.Pick point.commit parent Refuse;
          about = revert_about c client.old.now point.commit;
        }) client.old.call seat.old seat.new (P.calls client.old.pause.now) (P.calls client.new.pause.now))
        (λ one. done.Reverted (known_commit one)) seat.old seat.new client.old.call (Heads (head.Revert c))
        client.old.now
        (still (B.faults client.old.blocks.now) (B.misses client.old.blocks.now) (B.missed client.old.blocks.now))
        result }
    ensures turn { seat.new.turn ≡ seat.old.turn }
    ensures blocks { client.new.blocks ≡ client.old.blocks }
    ensures pause { client.new.pause.ghost_name ≡ client.old.pause.ghost_name }
    ensures call { (client.new.call ≡ client.old.call) × (client.new.now ≡ client.old.now) }
{
    let call = client.call;
    let about = dated(about, client.now);
    let made = picked(
        rt,
        alloc,
        lake,
        seat,
        client.pause,
        call,
        repo,
        branch,
        e,
        number,
        Picking::Undo,
        &about,
    );
    answer_of(seat, made)
}

/// Takes what the commit of an expression changed over its parent of this number, counted from 1, into a branch: the
/// place of the entry, the new head and what it says. Its message is that of the commit; of `about` the committer
/// counts, and the date is the moment of the client. It waits.
pub fn cherry_pick<K: Keeper, B: Blocks, P: Pause, W: Wait>(
    rt: &W,
    alloc: Global,
    lake: &Shared<K>,
    seat: &mut LakeSeat,
    client: &mut Client<'_, '_, B, P>,
    repo: &RepoName,
    branch: &RefName,
    e: &RefExpr,
    number: Option<u32>,
    about: About,
) -> FlowAnswer<(u64, CommitId, CommitRecord), CommitFault>
    requires turn { seat.old.turn ≡ lake.now }
    ensures served { (c : AnyPick)
        → c.repo ≡ repo.now → c.branch ≡ branch.now → c.at.e ≡ e.now → c.parent ≡ number
        → c.committer ≡ about.committer
        → IsAnswered (HasPicked repo.now e.now number (λ point parent. record {
          repo = repo.now;
          branch = branch.now;
          kind = kind.Pick parent point.commit Refuse;
          about = pick_about c client.old.now point.message;
        }) client.old.call seat.old seat.new (P.calls client.old.pause.now) (P.calls client.new.pause.now))
        (λ one. done.CherryPicked (known_commit one)) seat.old seat.new client.old.call (Heads (head.CherryPick c))
        client.old.now
        (still (B.faults client.old.blocks.now) (B.misses client.old.blocks.now) (B.missed client.old.blocks.now))
        result }
    ensures turn { seat.new.turn ≡ seat.old.turn }
    ensures blocks { client.new.blocks ≡ client.old.blocks }
    ensures pause { client.new.pause.ghost_name ≡ client.old.pause.ghost_name }
    ensures call { (client.new.call ≡ client.old.call) × (client.new.now ≡ client.old.now) }
{
    let call = client.call;
    let about = dated(about, client.now);
    let made = picked(
        rt,
        alloc,
        lake,
        seat,
        client.pause,
        call,
        repo,
        branch,
        e,
        number,
        Picking::Take,
        &about,
    );
    answer_of(seat, made)
}
