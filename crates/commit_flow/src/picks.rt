//! A revert or a cherry-pick: its commit and its parent are resolved once, and then its new head is made.
ghost use Rattle.std.specs.Prelude.{◌≡◌, ◌++◌, ℕ, List, IfOk, [], codes};
ghost use Rattle.lake_base.specs.Digest.{encode_lower};
ghost use Rattle.lake_calls.specs.CallRefusals.{chosen_parent, nth_parent};
ghost use Rattle.commit_flow.specs.CommitFaults.{parent_answer};
ghost use Rattle.commit_flow.specs.CommitFlows.{HasPicked};
ghost use Rattle.commit_flow.specs.PickedHeads.{IsPicking, picking_head, said_with};

use crate::answer::CommitFault;
use crate::heads::new_head;
use commit_graph::RefExpr;
use head_steps::resolve_for;
use keeper::Keeper;
use lake_base::{NoMemory, RefName, RepoName, Text, TryCopy};
use lake_model::{Point, SealFor, SwapKind};
use lake_values::{About, CommitId, CommitRecord, Pairs, Strategy};
use shared_lake::{LakeSeat, Pause, Shared};
use std::alloc::Global;
use std::sync::Wait;

/// What is done with what a commit changed over its parent: it is undone, or it is taken.
#[derive(Clone, Copy)]
pub(crate) enum Picking {
    Undo,
    Take,
}

/// Resolves the commit and its parent, and makes the head that undoes what it changed, or takes it.
pub(crate) fn picked<K: Keeper, P: Pause, W: Wait>(
    rt: &W,
    alloc: Global,
    lake: &Shared<K>,
    seat: &mut LakeSeat,
    pause: &mut P,
    call: u64,
    repo: &RepoName,
    branch: &RefName,
    e: &RefExpr,
    number: Option<u32>,
    picking: Picking,
    about: &About,
) -> Result<(u64, CommitId, CommitRecord), CommitFault>
    requires { seat.old.turn ≡ lake.now }
    ensures { (versions : List ℕ) × HasPicked repo.now e.now number (picking_head picking repo.now branch.now about.now)
        call seat.old seat.new (P.calls pause.old) (P.calls pause.new) versions result }
{
    let point = match resolve_for(rt, lake, seat, repo, e) {
        Ok(point) => point,
        Err(fault) => return Err(CommitFault::of_step(fault)),
    };
    let (kind, about) = match chosen(alloc, picking, point, number, about) {
        Ok(chosen) => chosen,
        Err(fault) => return Err(fault),
    };
    new_head(
        rt,
        alloc,
        lake,
        seat,
        pause,
        call,
        repo,
        branch,
        SealFor::Other,
        kind,
        &about,
    )
}

// How a new head is made of what an expression led to, and what is said of it.
fn chosen(
    alloc: Global,
    picking: Picking,
    point: Point,
    number: Option<u32>,
    about: &About,
) -> Result<(SwapKind, About), CommitFault>
    ensures { IsPicking picking point number about.now result }
{
    let parent = parent_of(point.parents.as_slice(), number)?;
    let (base, source) = match picking {
        Picking::Undo => (point.commit, parent),
        Picking::Take => (parent, point.commit),
    };
    let kind = SwapKind::Pick {
        base,
        source,
        strategy: Strategy::Refuse,
    };
    let message = match picking {
        Picking::Undo => match revert_message(alloc, point.commit) {
            Ok(message) => message,
            Err(_) => return Err(CommitFault::NoMemory),
        },
        Picking::Take => point.message,
    };
    match about_with(alloc, about, message) {
        Ok(about) => Ok((kind, about)),
        Err(_) => Err(CommitFault::NoMemory),
    }
}

// The parent of this number, counted from 1; without one the only parent there is. NeedsParentNumber, NoParent.
fn parent_of(parents: &[CommitId], number: Option<u32>) -> Result<CommitId, CommitFault>
    ensures { result ≡ parent_answer (chosen_parent parents.now number) }
{
    let number = match number {
        Some(number) => number,
        None if parents.len() > 1 => return Err(CommitFault::NeedsParentNumber),
        None => 1,
    };
    match nth_parent(parents, number) {
        Some(parent) => Ok(parent),
        None => Err(CommitFault::NoParent(number)),
    }
}

// The parent of this number, counted from 1, if there is one.
fn nth_parent(parents: &[CommitId], number: u32) -> Option<CommitId>
    ensures { result ≡ nth_parent parents.now number }
{
    match number.checked_sub(1) {
        Some(place) => parents.get(place as usize).copied(),
        None => None,
    }
}

// The message of a commit that undoes another: `Revert ID`.
fn revert_message(alloc: Global, id: CommitId) -> Result<Text, NoMemory>
    ensures { IfOk result (λ text. text ≡ codes "Revert " ++ encode_lower id.0) }
{
    let id = id.hex(alloc)?;
    let mut text = String::new(alloc);
    text.push_str("Revert ")?;
    text.push_str(id.as_str())?;
    Ok(Text::of(text))
}

// What is said of a commit with this message, without metadata. A lake has no commit whose message is longer than one
// may be; of such a one it answers that memory ran out.
fn about_with(alloc: Global, about: &About, message: Text) -> Result<About, NoMemory>
    ensures { IfOk result (λ said. said ≡ said_with about.now message) }
{
    if message.as_slice().len() > 65_536 {
        return Err(NoMemory);
    }
    Ok(About {
        committer: about.committer.copy(alloc)?,
        message,
        metadata: Pairs::new(alloc),
        date: about.date,
    })
}
