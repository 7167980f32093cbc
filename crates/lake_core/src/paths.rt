//! What stands at paths of a branch.
ghost use Rattle.std.specs.Prelude.{◌≡◌, ◌⊎◌, ℕ, List, Option, Some, None, IfOk, IfSome, IsSome, MatchResult, OnOk};
ghost use Rattle.lake_base.specs.Names.{path_fault};
ghost use Rattle.lake_base.specs.declared.digest.Digest.{Digest};
ghost use Rattle.lake_values.specs.Entry.{EntryValue};
ghost use Rattle.commit_graph.specs.Expressions.{RefExprValue};
ghost use Rattle.lake_format.specs.Spelling.{IsEntry};
ghost use Rattle.pair_format.specs.PairSpelling.{IsSpelledChange};
ghost use Rattle.lake_model.specs.declared.fault.StepFault.{StepFault};
ghost use Rattle.lake_model.specs.declared.fault.StepFault.TheVariants as fault;
ghost use Rattle.lake_model.specs.declared.history.By.{By};
ghost use Rattle.lake_model.specs.declared.history.HistoryEntry.{HistoryEntry};
ghost use Rattle.lake_model.specs.Soundness.{IsSound};
ghost use Rattle.lake_model.specs.State.{State};
ghost use Rattle.lake_model.specs.Versions.{VersionsGiven};
ghost use Rattle.lake_model.specs.declared.history.Operation.TheVariants as operation;
ghost use Rattle.lake_model.specs.Refusals.{GivesOrFails, IsRefusal, first_cause};
ghost use Rattle.lake_model.specs.Steps.{IsCopyReply, copy_causes, stage_causes, stage_reply};
ghost use Rattle.lake_model.specs.Uncommitted.{HasTicket, put_number};
ghost use Rattle.lake_values.specs.declared.entry.Change.TheVariants.{Put as put};
ghost use Rattle.core_causes.specs.Finding.{FindsCopy, source_of};
ghost use Rattle.core_changes.specs.LakeChanges.{after_copy};
ghost use Rattle.core_standing.specs.Standing.{MayMake, Stands, versions_since};
ghost use Rattle.core_changes.specs.LakeRoom.{HasRoomAt};
ghost use Rattle.core_changes.specs.declared.repository.Room.TheVariants as room;
ghost use Rattle.core_state.specs.Counts.{HasVersions};
ghost use Rattle.core_state.specs.LakeStates.{LakeStateValue, lake_value, state_of};
ghost use Rattle.core_puts.specs.Puts.{branch_at, stage_puts};
ghost use Rattle.lake_core.specs.Lakes.{state, versions};
ghost use Rattle.lake_core.specs.Makings.{copy, stage};
ghost use Rattle.lake_core.specs.ReadyChanges.{IsReadyChange, IsReadyCopy, IsTestedCopy};
ghost use Rattle.lake_core.specs.Leaving.{Leaves};

use crate::lake::Lake;
use crate::ready::{Ready, ReadyCopy, TestedCopy};
use commit_graph::RefExpr;
use core_causes::{Copied, test_copy, test_stage};
use core_changes::lake as change;
use core_changes::repository::Room;
use core_keeping::laws_of_followed_writes;
use core_puts::{copy_puts, keep, place, stage_puts};
use core_standing::{law_of_present, laws_of_writes};
use core_state::LakeState;
use keeper::{Keeper, Put};
use lake_base::{NoMemory, Path, RefName, RepoName, TryCopy};
use lake_laws::causes::laws_of_causes;
use lake_model::{By, CopySource, Operation, StepFault};
use lake_values::{Change, CommitId, Entry};
use std::alloc::Global;

impl<K: Keeper> Lake<K> {
    /// Stages a change on a branch of this version: the place of the entry. The ticket of an own object's number goes,
    /// which is one of the seat. Stopped, HistoryFull, NoRepo, NoRef, Protected, Changed.
    pub fn stage(
        &mut self,
        by: By,
        repo: &RepoName,
        branch: &RefName,
        version: u64,
        path: Path,
        change: Change,
    ) -> Result<u64, StepFault>
        requires { IfSome (put_number change) (HasTicket (state self.old) by.seat) }
        ensures reply { GivesOrFails result
            (stage_reply (state self.old) (versions self.old) repo.now branch.now version) }
        ensures leaves { Leaves (record { kept = K.kept; faults = K.faults; calls = K.calls; successes = K.successes })
            by (Some (stage repo.now branch.now path change (lake_value self.old.present))) result self.old self.new }
    {
        // Test, and take memory.
        laws_of_causes();
        let Ready { operation, puts } = ready_stage(
            self.alloc,
            &mut self.present,
            repo,
            branch,
            version,
            &path,
            &change,
        )?;
        laws_of_writes();
        laws_of_followed_writes();

        // Keep.
        keep(
            &mut self.keeper,
            &mut self.history,
            &mut self.present,
            by,
            operation,
            puts,
        )?;

        // Change.
        change::stage(&mut self.present, repo, branch, path, change);
        Ok(place(&self.present))
    }

    /// Stages the entry that an expression has at a path at another path of a branch of this version: the place of the
    /// history's entry, and what was copied. Stopped, HistoryFull, NoRepo, NoRef, NoParent, Protected, Changed, NoPath,
    /// Expired.
    pub fn copy(
        &mut self,
        by: By,
        repo: &RepoName,
        branch: &RefName,
        version: u64,
        path: Path,
        e: &RefExpr,
        from: &Path,
    ) -> Result<(u64, Entry), StepFault>
        ensures reply { IsCopyReply (state self.old) (versions self.old) repo.now branch.now version
            e.now from.now result }
        ensures leaves { Leaves (record { kept = K.kept; faults = K.faults; calls = K.calls; successes = K.successes })
            by (copy repo.now branch.now path e.now from.now (lake_value self.old.present)) result self.old self.new }
    {
        // Test, and take memory.
        law_of_copies();
        laws_of_followed_writes();
        let ready = ready_copy(
            self.alloc,
            &mut self.present,
            repo,
            branch,
            version,
            &path,
            e,
            from,
        )?;

        // Keep.
        keep(
            &mut self.keeper,
            &mut self.history,
            &mut self.present,
            by,
            ready.operation,
            ready.puts,
        )?;

        // Change.
        change::copy(&mut self.present, repo, branch, path, ready.entry);
        Ok((place(&self.present), ready.answer))
    }
}

// Of a lake that stands for its history the state is sound; each cause that refuses a copy is a refusal, no want of
// memory and no fault of the store; and a copy that none refuses may be made. (A law: it does nothing.)
fn law_of_copies()
    ensures sound { (opened : LakeStateValue) (history : List HistoryEntry) (l : LakeStateValue)
        → Stands opened history l → IsSound (state_of l) }
    ensures refused { (state : State) (given : VersionsGiven) (repo branch : List ℕ) (version : ℕ)
        (e : RefExprValue) (from : List ℕ) (fault : StepFault)
        → first_cause (copy_causes state given repo branch version e from) ≡ Some fault → IsRefusal fault }
    ensures may { (opened : LakeStateValue) (history : List HistoryEntry) (l : LakeStateValue) (by : By)
        (repo branch : List ℕ) (version : ℕ) (path : List ℕ) (e : RefExprValue) (from : List ℕ)
        (entry : EntryValue) (commit : Option Digest) → Stands opened history l
        → first_cause (copy_causes (state_of l) (versions_since opened history) repo branch version e from) ≡ None
        → FindsCopy (state_of l) repo e from entry commit
        → MayMake opened history l by (operation.Copy repo branch path (source_of e.name commit) from entry)
        (after_copy repo branch path entry) }
{
    laws_of_causes();
    law_of_present();
    laws_of_writes();
}

// A change that nothing refuses, and that is to be staged. It changes nothing that the lake says, and nothing at all
// where a cause refuses it. Stopped, HistoryFull, NoRepo, NoRef, Protected, Changed, NoMemory.
fn ready_stage(
    alloc: Global,
    lake: &mut LakeState,
    repo: &RepoName,
    branch: &RefName,
    version: u64,
    path: &Path,
    change: &Change,
) -> Result<Ready, StepFault>
    ensures same { lake_value lake.new ≡ lake_value lake.old }
    ensures names { lake.new.names ≡ lake.old.names }
    ensures room { OnOk result (HasRoomAt (room.Change branch.entry) repo.now lake.new) }
    ensures tells { (given : VersionsGiven) → HasVersions given (lake_value lake.old) → MatchResult result
        (λ ready. (first_cause
        (stage_causes (state_of (lake_value lake.old)) given repo.now branch.now version) ≡ None)
        × IsReadyChange (operation.Stage repo.now branch.now path.now change.now)
        (stage_puts repo.now branch.now path.now change.now (lake_value lake.old)) ready)
        (λ f. (f ≡ fault.NoMemory) ⊎ ((first_cause
        (stage_causes (state_of (lake_value lake.old)) given repo.now branch.now version) ≡ Some f)
        × (lake.new ≡ lake.old))) }
    ensures limits { OnOk result (IsSome (branch_at repo.now branch.now (lake_value lake.old))
        → (path_fault path.now ≡ None) × IsSpelledChange change.now) }
{
    test_stage(lake, repo, branch, version)?;
    let ready = parts_of_stage(alloc, lake, repo, branch, path, change)?;
    Ok(ready)
}

// What a change that is to be staged takes of memory, and room for it. It changes nothing that the lake says.
fn parts_of_stage(
    alloc: Global,
    lake: &mut LakeState,
    repo: &RepoName,
    branch: &RefName,
    path: &Path,
    change: &Change,
) -> Result<Ready, NoMemory>
    ensures same { lake_value lake.new ≡ lake_value lake.old }
    ensures names { lake.new.names ≡ lake.old.names }
    ensures room { OnOk result (HasRoomAt (room.Change branch.entry) repo.now lake.new) }
    ensures ready { IfOk result (IsReadyChange (operation.Stage repo.now branch.now path.now change.now)
        (stage_puts repo.now branch.now path.now change.now (lake_value lake.old))) }
    ensures limits { OnOk result (IsSome (branch_at repo.now branch.now (lake_value lake.old))
        → (path_fault path.now ≡ None) × IsSpelledChange change.now) }
{
    let operation = Operation::Stage {
        repo: repo.copy(alloc)?,
        branch: branch.copy(alloc)?,
        path: path.copy(alloc)?,
        change: change.copy(alloc)?,
    };
    let puts = stage_puts(alloc, lake, repo, branch, path, change)?;
    change::make_room_at(alloc, lake, repo, Room::Change(branch))?;
    Ok(Ready { operation, puts })
}

// A copy that nothing refuses, and that is to be kept. It changes nothing that the lake says, and nothing at all where
// a cause refuses it. Stopped, HistoryFull, NoRepo, NoRef, NoParent, Protected, Changed, NoPath, Expired, NoMemory.
fn ready_copy(
    alloc: Global,
    lake: &mut LakeState,
    repo: &RepoName,
    branch: &RefName,
    version: u64,
    path: &Path,
    e: &RefExpr,
    from: &Path,
) -> Result<ReadyCopy, StepFault>
    requires { IsSound (state_of (lake_value lake.old)) }
    ensures same { lake_value lake.new ≡ lake_value lake.old }
    ensures names { lake.new.names ≡ lake.old.names }
    ensures room { OnOk result (HasRoomAt (room.Change branch.entry) repo.now lake.new) }
    ensures tells { (given : VersionsGiven) → HasVersions given (lake_value lake.old) → MatchResult result
        (λ ready. (first_cause
        (copy_causes (state_of (lake_value lake.old)) given repo.now branch.now version e.now from.now) ≡ None)
        × IsReadyCopy (lake_value lake.old) repo.now branch.now path.now e.now from.now ready)
        (λ f. (f ≡ fault.NoMemory) ⊎ ((first_cause
        (copy_causes (state_of (lake_value lake.old)) given repo.now branch.now version e.now from.now) ≡ Some f)
        × (lake.new ≡ lake.old))) }
    ensures limits { IfOk result (λ ready. IsSome (branch_at repo.now branch.now (lake_value lake.old))
        → (path_fault path.now ≡ None) × IsEntry ready.entry) }
{
    let tested = tested_copy(alloc, lake, repo, branch, version, path, e, from)?;
    let puts = puts_of_copy(alloc, lake, repo, branch, path, &tested.entry)?;
    Ok(ReadyCopy {
        operation: tested.operation,
        puts,
        entry: tested.entry,
        answer: tested.answer,
    })
}

// The puts of an entry that is to be copied, and room for it. It changes nothing that the lake says.
fn puts_of_copy(
    alloc: Global,
    lake: &mut LakeState,
    repo: &RepoName,
    branch: &RefName,
    path: &Path,
    entry: &Entry,
) -> Result<Vec<Put>, NoMemory>
    ensures same { lake_value lake.new ≡ lake_value lake.old }
    ensures names { lake.new.names ≡ lake.old.names }
    ensures room { OnOk result (HasRoomAt (room.Change branch.entry) repo.now lake.new) }
    ensures puts { IfOk result (λ puts. puts.items
        ≡ stage_puts repo.now branch.now path.now (put entry.now) (lake_value lake.old)) }
    ensures limits { OnOk result (IsSome (branch_at repo.now branch.now (lake_value lake.old))
        → (path_fault path.now ≡ None) × IsEntry entry.now) }
{
    let puts = copy_puts(alloc, lake, repo, branch, path, entry)?;
    change::make_room_at(alloc, lake, repo, Room::Change(branch))?;
    Ok(puts)
}

// What is copied from: this commit, or else the branch of a name.
fn copy_source(
    alloc: Global,
    name: &RefName,
    commit: Option<CommitId>,
) -> Result<CopySource, NoMemory>
    ensures { IfOk result (λ source. source ≡ source_of name.now commit) }
{
    match commit {
        Some(id) => Ok(CopySource::Commit(id)),
        None => Ok(CopySource::Branch(name.copy(alloc)?)),
    }
}

// A copy that nothing refuses: its operation, and its entry twice, for the lake and for the answer. Stopped,
// HistoryFull, NoRepo, NoRef, NoParent, Protected, Changed, NoPath, Expired, NoMemory.
fn tested_copy(
    alloc: Global,
    lake: &LakeState,
    repo: &RepoName,
    branch: &RefName,
    version: u64,
    path: &Path,
    e: &RefExpr,
    from: &Path,
) -> Result<TestedCopy, StepFault>
    requires { IsSound (state_of (lake_value lake.now)) }
    ensures { (given : VersionsGiven) → HasVersions given (lake_value lake.now) → MatchResult result
        (λ tested. (first_cause
        (copy_causes (state_of (lake_value lake.now)) given repo.now branch.now version e.now from.now) ≡ None)
        × IsTestedCopy (state_of (lake_value lake.now)) repo.now branch.now path.now e.now from.now tested)
        (λ f. (f ≡ fault.NoMemory) ⊎ (first_cause
        (copy_causes (state_of (lake_value lake.now)) given repo.now branch.now version e.now from.now) ≡ Some f)) }
{
    let copied = test_copy(lake, repo, branch, version, e, from)?;
    let tested = copied_parts(alloc, repo, branch, path, &e.name, from, copied)?;
    Ok(tested)
}

// The operation of a copy, and its entry twice.
fn copied_parts(
    alloc: Global,
    repo: &RepoName,
    branch: &RefName,
    path: &Path,
    name: &RefName,
    from: &Path,
    copied: Copied<'_>,
) -> Result<TestedCopy, NoMemory>
    ensures operation { IfOk result (λ parts. parts.operation ≡ operation.Copy repo.now branch.now path.now
        (source_of name.now copied.entry.commit) from.now copied.entry.entry.now) }
    ensures entry { IfOk result (λ parts. parts.entry ≡ copied.entry.entry.now) }
    ensures answer { IfOk result (λ parts. parts.answer ≡ copied.entry.entry.now) }
{
    let operation = Operation::Copy {
        repo: repo.copy(alloc)?,
        branch: branch.copy(alloc)?,
        path: path.copy(alloc)?,
        from: copy_source(alloc, name, copied.commit)?,
        from_path: from.copy(alloc)?,
        entry: copied.entry.copy(alloc)?,
    };
    Ok(TestedCopy {
        operation,
        entry: copied.entry.copy(alloc)?,
        answer: copied.entry.copy(alloc)?,
    })
}
