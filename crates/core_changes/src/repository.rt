//! What is done to a repository that stays, and the room that is made for it.
ghost use Rattle.std.specs.Prelude.{◌≡◌, IfSome, OnOk, Some, option_map};
ghost use Rattle.std.specs.FinMap.{get};
ghost use Rattle.byte_map.specs.Values.{some_values};
ghost use Rattle.lake_model.specs.NoteChanges.{notes_after, without_note};
ghost use Rattle.lake_model.specs.Parts.{changed_at};
ghost use Rattle.core_state.specs.declared.branch.BranchState.{BranchState as AnyBranch};
ghost use Rattle.core_state.specs.BranchStates.{BranchStateValue, branch_value};
ghost use Rattle.core_state.specs.RepositoryStates.{repository_value};
ghost use Rattle.core_changes.specs.BranchChanges.{HasRoom, HasRoomTo, FitsBranch, branch_after};
ghost use Rattle.core_changes.specs.RepositoryChanges.{HasRoomFor, HasRoomIn, FitsRepository, repository_after};

use crate::branch::{BranchChange, change_branch, make_room};
use crate::places::{drop_place, make_place, put_in_place};
use byte_map::ByteMap;
use core_state::{BranchState, RepositoryState};
use lake_base::{NoMemory, RefName};
use lake_values::{CommitId, Note, NoteName};
use std::alloc::Global;

/// What is done to a repository that stays.
#[derive(Debug, Drop)]
pub enum RepositoryChange<'a> {
    /// A branch is made.
    PutBranch {
        name: &'a RefName,
        branch: BranchState,
    },
    /// A branch goes.
    DropBranch {
        name: &'a RefName,
    },
    /// A tag names a commit.
    PutTag {
        name: &'a RefName,
        commit: CommitId,
    },
    /// A tag goes.
    DropTag {
        name: &'a RefName,
    },
    /// A setting is set, or deleted where no new one is given, and the settings have this version.
    SetNote {
        name: NoteName,
        note: Option<Note>,
        version: u64,
    },
    /// A branch is changed.
    InBranch {
        name: &'a RefName,
        change: BranchChange,
    },
}

/// What room is made for.
#[derive(Clone, Copy, Debug)]
pub enum Room<'a> {
    /// A new branch of this name.
    Branch(&'a RefName),
    /// A new tag of this name.
    Tag(&'a RefName),
    /// A change of the branch of this name.
    Change(&'a RefName),
    /// What needs no room.
    Nothing,
}

/// Makes room in a repository. It changes nothing else.
pub fn make_room_in(alloc: Global, r: &mut RepositoryState, room: Room<'_>) -> Result<(), NoMemory>
    ensures same { repository_value r.new ≡ repository_value r.old }
    ensures room { OnOk result (HasRoomIn room.entry r.new) }
{
    match room {
        Room::Branch(name) => make_place(alloc, &mut r.branches, name),
        Room::Tag(name) => make_place(alloc, &mut r.tags, name),
        Room::Change(name) => make_room_at(&mut r.branches, name),
        Room::Nothing => Ok(()),
    }
}

/// Makes a change of a repository, for which there is room. It needs no memory, and can't be refused.
pub fn change_repository(r: &mut RepositoryState, change: RepositoryChange<'_>)
    requires room { HasRoomFor change r.old }
    requires possible { FitsRepository change (repository_value r.old) }
    ensures { repository_value r.new ≡ repository_after change.entry (repository_value r.old) }
{
    match change {
        RepositoryChange::PutBranch { name, branch } => put_in_place(&mut r.branches, name, branch),
        RepositoryChange::DropBranch { name } => drop_place(&mut r.branches, name),
        RepositoryChange::PutTag { name, commit } => put_in_place(&mut r.tags, name, commit),
        RepositoryChange::DropTag { name } => drop_place(&mut r.tags, name),
        RepositoryChange::SetNote {
            name,
            note,
            version,
        } => set_note(r, name, note, version),
        RepositoryChange::InBranch { name, change } => change_branch_at(
            &mut r.branches,
            name,
            change,
        ),
    }
}

// Sets a setting, or deletes it.
fn set_note(r: &mut RepositoryState, name: NoteName, note: Option<Note>, version: u64)
    ensures { repository_value r.new ≡ record (repository_value r.old) {
      settings = version;
      notes = notes_after name note (repository_value r.old).notes;
    } }
{
    r.settings = version;
    match note {
        Some(Note::Retention(rules)) => r.retention = Some(rules),
        Some(Note::Protection(protection)) => r.protection = Some(protection),
        Some(Note::Hooks(hooks)) => r.hooks = Some(hooks),
        None => delete_note(r, name),
    }
}

// Deletes a setting.
fn delete_note(r: &mut RepositoryState, name: NoteName)
    ensures { repository_value r.new ≡ record (repository_value r.old) {
      notes = without_note name (repository_value r.old).notes;
    } }
{
    match name {
        NoteName::Retention => r.retention = None,
        NoteName::Protection => r.protection = None,
        NoteName::Hooks => r.hooks = None,
    }
}

// Makes room for a change of a branch, where it is there.
fn make_room_at(
    branches: &mut ByteMap<RefName, Option<BranchState>>,
    name: &RefName,
) -> Result<(), NoMemory>
    ensures same { some_values (option_map branch_value) branches.new
        ≡ some_values (option_map branch_value) branches.old }
    ensures room { OnOk result ((b : AnyBranch) → get branches.new name.now ≡ Some (Some b) → HasRoom b) }
{
    match branches.get_mut(name) {
        Some(place) => make_room_here(place),
        None => Ok(()),
    }
}

// Makes room for a change of the branch in a place, where one is there.
fn make_room_here(place: &mut Option<BranchState>) -> Result<(), NoMemory>
    ensures same { option_map branch_value place.new ≡ option_map branch_value place.old }
    ensures room { OnOk result (IfSome place.new HasRoom) }
{
    match place {
        Some(branch) => make_room(branch),
        None => Ok(()),
    }
}

// Changes a branch, where it is there.
fn change_branch_at(
    branches: &mut ByteMap<RefName, Option<BranchState>>,
    name: &RefName,
    change: BranchChange,
)
    requires room { (b : AnyBranch) → get branches.old name.now ≡ Some (Some b) → HasRoomTo change b }
    requires possible { (b : BranchStateValue)
        → get (some_values (option_map branch_value) branches.old) name.now ≡ Some b → FitsBranch change b }
    ensures { some_values (option_map branch_value) branches.new
        ≡ changed_at name.now (branch_after change) (some_values (option_map branch_value) branches.old) }
{
    if let Some(place) = branches.get_mut(name) {
        change_branch_here(place, change);
    }
}

// Changes the branch in a place, where one is there.
fn change_branch_here(place: &mut Option<BranchState>, change: BranchChange)
    requires room { IfSome place.old (HasRoomTo change) }
    requires possible { IfSome place.old (λ b. FitsBranch change (branch_value b)) }
    ensures { option_map branch_value place.new
        ≡ option_map (branch_after change) (option_map branch_value place.old) }
{
    if let Some(branch) = place {
        change_branch(branch, change);
    }
}
