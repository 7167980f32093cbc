//! Objects deleted, linked and copied, and changes that are dropped.
ghost use Rattle.std.specs.Prelude.{◌≡◌, None, Some, length};
ghost use Rattle.lake_model.specs.Uncommitted.{put_number};
ghost use Rattle.lake_calls.specs.Calls.{LinkCall as Link};
ghost use Rattle.lake_calls.specs.Courses.{copied_from, link_entry};
ghost use Rattle.lake_calls.specs.declared.objects.CopyCall.{CopyCall};
ghost use Rattle.lake_calls.specs.declared.call.Call.TheVariants.{Names, Objects};
ghost use Rattle.lake_calls.specs.declared.names.NamingCall.TheVariants as naming;
ghost use Rattle.lake_calls.specs.declared.names.ResetCall.{ResetCall};
ghost use Rattle.lake_calls.specs.declared.objects.DeleteCall.{DeleteCall};
ghost use Rattle.lake_calls.specs.declared.objects.ObjectCall.TheVariants as object;
ghost use Rattle.lake_calls.specs.declared.reply.Done.TheVariants as done;
ghost use Rattle.lake_model.specs.declared.history.Operation.TheVariants.{Reset};
ghost use Rattle.lake_model.specs.Refusals.{first_cause};
ghost use Rattle.lake_model.specs.Steps.{write_causes};
ghost use Rattle.lake_values.specs.declared.entry.Change.TheVariants.{Delete, Put};
ghost use Rattle.flow_steps.specs.FlowAnswers.{still};
ghost use Rattle.flow_steps.specs.FlowTries.{copying, staging};
ghost use Rattle.body_laws.specs.BodiesKept.{KeepsFitting};
ghost use Rattle.write_flow.specs.WriteFlows.{IsCopyTold, IsMadeAnswer, IsTriedAnswer};
ghost use Rattle.write_flow.specs.WriteFlows.{entry_put, outcome_of, told_of_step};

use crate::answer::{Done, FlowFault};
use crate::tries::{Target, What, attempts};
use block_store::Blocks;
use commit_graph::RefExpr;
use flow_steps::FlowAnswer;
use keeper::Keeper;
use lake_base::{Path, RefName, RepoName};
use lake_model::StepFault;
use lake_values::{Change, Entry, ResetWhat};
use shared_lake::{Client, LakeSeat, Pause, Shared};
use std::alloc::Global;
use std::sync::Wait;

/// Deletes what stands at a path of a branch, by at most ten tries: the place of the entry. It waits.
pub fn delete_object<K: Keeper, B: Blocks, P: Pause, W: Wait>(
    rt: &W,
    alloc: Global,
    lake: &Shared<K>,
    seat: &mut LakeSeat,
    client: &mut Client<'_, '_, B, P>,
    repo: &RepoName,
    branch: &RefName,
    path: &Path,
) -> FlowAnswer<Done, FlowFault>
    requires { seat.old.turn ≡ lake.now }
    ensures served { IsTriedAnswer (staging repo.now branch.now path.now Delete) None seat.old seat.new client.old.call
        (Objects (object.Delete (record { repo = repo.now; branch = branch.now; path = path.now }))) client.old.now
        (λ entry told. (entry ≡ None) × (told ≡ done.ObjectDeleted))
        (still (B.faults client.old.blocks.now) (B.misses client.old.blocks.now) (B.missed client.old.blocks.now))
        (P.calls client.old.pause.now) (P.calls client.new.pause.now) result }
    ensures bodies { KeepsFitting seat.old seat.new (B.held client.old.blocks.now) (B.held client.new.blocks.now) }
    ensures turn { seat.new.turn ≡ seat.old.turn }
    ensures blocks { client.new.blocks ≡ client.old.blocks }
    ensures pause { client.new.pause.ghost_name ≡ client.old.pause.ghost_name }
    ensures call { (client.new.call ≡ client.old.call) × (client.new.now ≡ client.old.now) }
{
    let target = Target { repo, branch, path };
    let change = Change::Delete;
    let what = What::Change(&change);
    let call = client.call;
    let outcome = attempts(rt, alloc, lake, seat, client.pause, call, &target, &what);
    answer_of(seat, outcome, None)
}

/// Links an object outside at a path of a branch, by at most ten tries: the place of the entry, and what stands there
/// then. It waits.
pub fn link_object<K: Keeper, B: Blocks, P: Pause, W: Wait>(
    rt: &W,
    alloc: Global,
    lake: &Shared<K>,
    seat: &mut LakeSeat,
    client: &mut Client<'_, '_, B, P>,
    repo: &RepoName,
    branch: &RefName,
    path: &Path,
    entry: Entry,
) -> FlowAnswer<Done, FlowFault>
    requires own { seat.old.turn ≡ lake.now }
    requires outside { put_number (Put entry) ≡ None }
    ensures served { (c : Link)
        → c.repo ≡ repo.now → c.branch ≡ branch.now → c.path ≡ path.now → link_entry c client.old.now ≡ entry
        → IsTriedAnswer (staging repo.now branch.now path.now (Put entry)) (Some entry) seat.old seat.new
        client.old.call (Objects (object.Link c)) client.old.now
        (λ put told. (put ≡ Some entry) × (told ≡ done.Linked (record { path = path.now; entry = entry })))
        (still (B.faults client.old.blocks.now) (B.misses client.old.blocks.now) (B.missed client.old.blocks.now))
        (P.calls client.old.pause.now) (P.calls client.new.pause.now) result }
    ensures bodies { KeepsFitting seat.old seat.new (B.held client.old.blocks.now) (B.held client.new.blocks.now) }
    ensures turn { seat.new.turn ≡ seat.old.turn }
    ensures blocks { client.new.blocks ≡ client.old.blocks }
    ensures pause { client.new.pause.ghost_name ≡ client.old.pause.ghost_name }
    ensures call { (client.new.call ≡ client.old.call) × (client.new.now ≡ client.old.now) }
{
    let target = Target { repo, branch, path };
    let change = Change::Put(entry);
    let what = What::Change(&change);
    let call = client.call;
    let outcome = attempts(rt, alloc, lake, seat, client.pause, call, &target, &what);
    answer_of(seat, outcome, put_by(change))
}

/// Copies the entry that an expression has at a path to a path of a branch, by at most ten tries: the place of the
/// entry, and what stands there then. It waits.
pub fn copy_object<K: Keeper, B: Blocks, P: Pause, W: Wait>(
    rt: &W,
    alloc: Global,
    lake: &Shared<K>,
    seat: &mut LakeSeat,
    client: &mut Client<'_, '_, B, P>,
    repo: &RepoName,
    branch: &RefName,
    path: &Path,
    e: &RefExpr,
    from: &Path,
) -> FlowAnswer<Done, FlowFault>
    requires { seat.old.turn ≡ lake.now }
    ensures served { (c : CopyCall)
        → c.repo ≡ repo.now → c.branch ≡ branch.now → c.path ≡ path.now → (copied_from c).e ≡ e.now
        → c.source_path ≡ from.now
        → IsTriedAnswer (copying repo.now branch.now path.now e.now from.now) None seat.old seat.new client.old.call
        (Objects (object.Copy c)) client.old.now (IsCopyTold path.now)
        (still (B.faults client.old.blocks.now) (B.misses client.old.blocks.now) (B.missed client.old.blocks.now))
        (P.calls client.old.pause.now) (P.calls client.new.pause.now) result }
    ensures bodies { KeepsFitting seat.old seat.new (B.held client.old.blocks.now) (B.held client.new.blocks.now) }
    ensures turn { seat.new.turn ≡ seat.old.turn }
    ensures blocks { client.new.blocks ≡ client.old.blocks }
    ensures pause { client.new.pause.ghost_name ≡ client.old.pause.ghost_name }
    ensures call { (client.new.call ≡ client.old.call) × (client.new.now ≡ client.old.now) }
{
    let target = Target { repo, branch, path };
    let what = What::Copy(e, from);
    let call = client.call;
    let outcome = attempts(rt, alloc, lake, seat, client.pause, call, &target, &what);
    answer_of(seat, outcome, None)
}

/// Drops changes of a branch, sealed and staged: the place of the entry. It waits.
pub fn reset_branch<K: Keeper, B: Blocks, P: Pause, W: Wait>(
    rt: &W,
    lake: &Shared<K>,
    seat: &mut LakeSeat,
    client: &mut Client<'_, '_, B, P>,
    repo: &RepoName,
    branch: &RefName,
    what: ResetWhat,
) -> FlowAnswer<Done, FlowFault>
    requires { seat.old.turn ≡ lake.now }
    ensures served { IsMadeAnswer (λ state. first_cause (write_causes state repo.now branch.now))
        (Reset repo.now branch.now what) seat.old seat.new client.old.call
        (Names (naming.ResetBranch (record { repo = repo.now; branch = branch.now; what = what }))) client.old.now
        (λ entry told. (entry ≡ None) × (told ≡ done.BranchReset))
        (still (B.faults client.old.blocks.now) (B.misses client.old.blocks.now) (B.missed client.old.blocks.now))
        result }
    ensures bodies { KeepsFitting seat.old seat.new (B.held client.old.blocks.now) (B.held client.new.blocks.now) }
    ensures turn { seat.new.turn ≡ seat.old.turn }
    ensures client { client.new ≡ client.old }
{
    let reset = lake.reset(rt, seat, client.call, repo, branch, what);
    answer_of(seat, step_told(reset), None)
}

// What a step tells that finds no entry, as tries tell it.
fn step_told(placed: Result<u64, StepFault>) -> Result<Option<Entry>, FlowFault>
    ensures { result ≡ told_of_step placed }
{
    match placed {
        Ok(_) => Ok(None),
        Err(fault) => Err(FlowFault::of_step(fault)),
    }
}

// The entry that a change puts.
pub(crate) fn put_by(change: Change) -> Option<Entry>
    ensures { result ≡ entry_put change }
{
    match change {
        Change::Put(entry) => Some(entry),
        Change::Delete => None,
    }
}

// What a flow answers of its tries, and of the entry that it put.
pub(crate) fn answer_of(
    seat: &LakeSeat,
    outcome: Result<Option<Entry>, FlowFault>,
    put: Option<Entry>,
) -> FlowAnswer<Done, FlowFault>
    ensures outcome { result.outcome ≡ outcome_of (length seat.now.seen) put outcome }
    ensures position { result.position ≡ length seat.now.seen }
    ensures edge { result.edge ≡ length seat.now.seen }
{
    let position = seat.seen();
    let outcome = match outcome {
        Ok(copied) => Ok(Done {
            at: position,
            entry: copied.or(put),
        }),
        Err(fault) => Err(fault),
    };
    FlowAnswer {
        outcome,
        position,
        edge: position,
    }
}
