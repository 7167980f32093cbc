//! What an operation makes of a lake, and the room that is made for it.
ghost use Rattle.std.specs.Prelude.{◌≡◌, Some, IfSome, IsSome, OnOk, option_map};
ghost use Rattle.std.specs.FinMap.{get, insert, remove};
ghost use Rattle.std.specs.Ordering.{nat_cmp};
ghost use Rattle.std.specs.BTreeMap.{get as tree_get};
ghost use Rattle.byte_map.specs.Values.{some_values};
ghost use Rattle.lake_model.specs.Parts.{changed_at};
ghost use Rattle.lake_model.specs.Uncommitted.{put_number};
ghost use Rattle.core_changes.specs.declared.repository.Room.TheVariants as room;
ghost use Rattle.core_state.specs.declared.repository.RepositoryState.{RepositoryState as AnyRepository};
ghost use Rattle.core_state.specs.RepositoryStates.{RepositoryStateValue, repository_value};
ghost use Rattle.core_state.specs.Counts.{AreFew};
ghost use Rattle.core_state.specs.LakeStates.{lake_value, tickets_of};
ghost use Rattle.core_changes.specs.RepositoryChanges.{HasRoomFor, HasRoomIn, FitsRepository, repository_after};
ghost use Rattle.core_changes.specs.FreshTokens.{AreTokensBelow};
ghost use Rattle.core_changes.specs.LakeRoom.{HasRoomAt, HasTicketRoom};
ghost use Rattle.core_changes.specs.LakeChanges.{after_branch_create, after_branch_delete, after_copy, after_fault};
ghost use Rattle.core_changes.specs.LakeChanges.{after_head, after_note_set, after_reset, after_seal, after_stage};
ghost use Rattle.core_changes.specs.LakeChanges.{after_tag_create, after_tag_delete, after_ticket_drop};
ghost use Rattle.core_changes.specs.LakeChanges.{after_ticket_take};

use crate::branch::{BranchChange, branch_at};
use crate::repository::{RepositoryChange, Room, change_repository, make_room_in};
use byte_map::ByteMap;
use core_state::{LakeState, RepositoryState};
use lake_base::{NoMemory, Path, RefName, RepoName};
use lake_values::{Change, CommitId, Entry, Note, NoteName, Place, ResetWhat};
use std::alloc::Global;
use std::collections::BTreeMap;

/// Makes room in a repository, where it is there. It changes nothing else.
#[tactic(auto, unfolding(core_state::specs::LakeStates::lake_value))]
pub fn make_room_at(
    alloc: Global,
    lake: &mut LakeState,
    repo: &RepoName,
    room: Room<'_>,
) -> Result<(), NoMemory>
    ensures same { lake_value lake.new ≡ lake_value lake.old }
    ensures names { lake.new.names ≡ lake.old.names }
    ensures room { OnOk result (HasRoomAt room.entry repo.now lake.new) }
{
    match lake.repositories.get_mut(repo) {
        Some(place) => make_room_here(alloc, place, room),
        None => Ok(()),
    }
}

// Makes room in the repository in a place, where one is there.
fn make_room_here(
    alloc: Global,
    place: &mut Option<RepositoryState>,
    room: Room<'_>,
) -> Result<(), NoMemory>
    ensures same { option_map repository_value place.new ≡ option_map repository_value place.old }
    ensures room { OnOk result (IfSome place.new (HasRoomIn room.entry)) }
{
    match place {
        Some(repository) => make_room_in(alloc, repository, room),
        None => Ok(()),
    }
}

/// Makes room for the next ticket. It changes nothing else.
#[tactic(auto, unfolding(core_state::specs::LakeStates::lake_value))]
pub fn make_ticket_room(lake: &mut LakeState) -> Result<(), NoMemory>
    ensures same { lake_value lake.new ≡ lake_value lake.old }
    ensures names { lake.new.names ≡ lake.old.names }
    ensures room { OnOk result (HasTicketRoom lake.new) }
{
    let number = lake.next_number;
    if lake.tickets.contains_key(&number) {
        return Ok(());
    }
    lake.tickets.insert(number, None)?;
    Ok(())
}

// Makes a change of a repository, where it is there.
fn change_at(
    repositories: &mut ByteMap<RepoName, Option<RepositoryState>>,
    repo: &RepoName,
    change: RepositoryChange<'_>,
)
    requires room { (r : AnyRepository) → get repositories.old repo.now ≡ Some (Some r) → HasRoomFor change r }
    requires possible { (r : RepositoryStateValue)
        → get (some_values (option_map repository_value) repositories.old) repo.now ≡ Some r
        → FitsRepository change r }
    ensures { some_values (option_map repository_value) repositories.new
        ≡ changed_at repo.now (repository_after change.entry)
        (some_values (option_map repository_value) repositories.old) }
{
    if let Some(place) = repositories.get_mut(repo) {
        change_here(place, change);
    }
}

// Makes a change of the repository in a place, where one is there.
fn change_here(place: &mut Option<RepositoryState>, change: RepositoryChange<'_>)
    requires room { IfSome place.old (HasRoomFor change) }
    requires possible { IfSome place.old (λ r. FitsRepository change (repository_value r)) }
    ensures { option_map repository_value place.new
        ≡ option_map (repository_after change.entry) (option_map repository_value place.old) }
{
    if let Some(repository) = place {
        change_repository(repository, change);
    }
}

/// A number is given out to a seat: there is room for its ticket. It takes no memory.
#[tactic(auto, unfolding(core_state::specs::LakeStates::lake_value))]
pub fn take_ticket(lake: &mut LakeState, seat: u32)
    requires room { HasTicketRoom lake.old }
    requires few { AreFew (lake_value lake.old) }
    ensures made { lake_value lake.new ≡ after_ticket_take seat (lake_value lake.old) }
    ensures names { lake.new.names ≡ lake.old.names }
{
    put_ticket(&mut lake.tickets, lake.next_number, seat);
    lake.next_number += 1;
    lake.entries += 1;
}

/// An upload is given up. It takes no memory.
#[tactic(auto, unfolding(core_state::specs::LakeStates::lake_value))]
pub fn drop_ticket(lake: &mut LakeState, number: u64)
    requires few { AreFew (lake_value lake.old) }
    ensures made { lake_value lake.new ≡ after_ticket_drop number (lake_value lake.old) }
    ensures names { lake.new.names ≡ lake.old.names }
{
    remove_ticket(&mut lake.tickets, number);
    lake.entries += 1;
}

/// A change is staged, for which there is room, and the ticket of its number goes. It takes no memory.
#[tactic(auto, unfolding(core_state::specs::LakeStates::lake_value))]
pub fn stage(lake: &mut LakeState, repo: &RepoName, branch: &RefName, path: Path, change: Change)
    requires room { HasRoomAt (room.Change branch) repo.now lake.old }
    requires few { AreFew (lake_value lake.old) }
    ensures made { lake_value lake.new ≡ after_stage repo.now branch.now path change (lake_value lake.old) }
    ensures names { lake.new.names ≡ lake.old.names }
{
    if let Some(number) = put_number(&change) {
        remove_ticket(&mut lake.tickets, number);
    }
    let change = BranchChange::Stage { path, change };
    change_at(
        &mut lake.repositories,
        repo,
        RepositoryChange::InBranch {
            name: branch,
            change,
        },
    );
    lake.entries += 1;
}

/// An entry is copied to a path, for which there is room. It takes no memory.
#[tactic(auto, unfolding(core_state::specs::LakeStates::lake_value))]
pub fn copy(lake: &mut LakeState, repo: &RepoName, branch: &RefName, path: Path, entry: Entry)
    requires room { HasRoomAt (room.Change branch) repo.now lake.old }
    requires few { AreFew (lake_value lake.old) }
    ensures made { lake_value lake.new ≡ after_copy repo.now branch.now path entry (lake_value lake.old) }
    ensures names { lake.new.names ≡ lake.old.names }
{
    let change = BranchChange::Stage {
        path,
        change: Change::Put(entry),
    };
    change_at(
        &mut lake.repositories,
        repo,
        RepositoryChange::InBranch {
            name: branch,
            change,
        },
    );
    lake.entries += 1;
}

/// Changes are dropped. It needs no memory.
#[tactic(auto, unfolding(core_state::specs::LakeStates::lake_value))]
pub fn reset(lake: &mut LakeState, repo: &RepoName, branch: &RefName, what: ResetWhat)
    requires room { HasRoomAt (room.Change branch) repo.now lake.old }
    requires few { AreFew (lake_value lake.old) }
    ensures made { lake_value lake.new ≡ after_reset repo.now branch.now what (lake_value lake.old) }
    ensures names { lake.new.names ≡ lake.old.names }
{
    let change = BranchChange::Reset {
        what,
        version: lake.next_version,
    };
    change_at(
        &mut lake.repositories,
        repo,
        RepositoryChange::InBranch {
            name: branch,
            change,
        },
    );
    lake.next_version += 1;
    lake.entries += 1;
}

/// Staged changes are sealed: there is room for that. It takes no memory.
#[tactic(auto, unfolding(core_state::specs::LakeStates::lake_value))]
pub fn seal(lake: &mut LakeState, repo: &RepoName, branch: &RefName)
    requires room { HasRoomAt (room.Change branch) repo.now lake.old }
    requires few { AreFew (lake_value lake.old) }
    requires tokens { AreTokensBelow (lake_value lake.old) }
    ensures made { lake_value lake.new ≡ after_seal repo.now branch.now (lake_value lake.old) }
    ensures names { lake.new.names ≡ lake.old.names }
{
    let change = BranchChange::Seal {
        fresh: lake.next_token,
        version: lake.next_version,
    };
    change_at(
        &mut lake.repositories,
        repo,
        RepositoryChange::InBranch {
            name: branch,
            change,
        },
    );
    lake.next_version += 1;
    lake.next_token += 1;
    lake.entries += 1;
}

/// A branch has a new head: nothing is sealed, and the staged changes stay. It takes no memory.
#[tactic(auto, unfolding(core_state::specs::LakeStates::lake_value))]
pub fn set_head(lake: &mut LakeState, repo: &RepoName, branch: &RefName, commit: CommitId)
    requires { AreFew (lake_value lake.old) }
    ensures made { lake_value lake.new ≡ after_head repo.now branch.now commit (lake_value lake.old) }
    ensures names { lake.new.names ≡ lake.old.names }
{
    let change = BranchChange::Head {
        commit,
        version: lake.next_version,
    };
    change_at(
        &mut lake.repositories,
        repo,
        RepositoryChange::InBranch {
            name: branch,
            change,
        },
    );
    lake.next_version += 1;
    lake.references += 1;
    lake.entries += 1;
}

/// A branch is made at a commit: there is room for it. It takes no memory.
#[tactic(auto, unfolding(core_state::specs::LakeStates::lake_value))]
pub fn create_branch(
    alloc: Global,
    lake: &mut LakeState,
    repo: &RepoName,
    name: &RefName,
    commit: CommitId,
)
    requires room { HasRoomAt (room.Branch name) repo.now lake.old }
    requires few { AreFew (lake_value lake.old) }
    ensures made { lake_value lake.new ≡ after_branch_create repo.now name.now commit (lake_value lake.old) }
    ensures names { lake.new.names ≡ lake.old.names }
{
    let branch = branch_at(alloc, lake.next_version, commit, lake.next_token);
    change_at(
        &mut lake.repositories,
        repo,
        RepositoryChange::PutBranch { name, branch },
    );
    lake.next_version += 1;
    lake.next_token += 1;
    lake.references += 1;
    lake.entries += 1;
}

/// A branch goes. It takes no memory.
#[tactic(auto, unfolding(core_state::specs::LakeStates::lake_value))]
pub fn delete_branch(lake: &mut LakeState, repo: &RepoName, name: &RefName)
    requires few { AreFew (lake_value lake.old) }
    ensures made { lake_value lake.new ≡ after_branch_delete repo.now name.now (lake_value lake.old) }
    ensures names { lake.new.names ≡ lake.old.names }
{
    change_at(
        &mut lake.repositories,
        repo,
        RepositoryChange::DropBranch { name },
    );
    lake.references += 1;
    lake.entries += 1;
}

/// A tag names a commit: there is room for it. It takes no memory.
#[tactic(auto, unfolding(core_state::specs::LakeStates::lake_value))]
pub fn create_tag(lake: &mut LakeState, repo: &RepoName, name: &RefName, commit: CommitId)
    requires room { HasRoomAt (room.Tag name) repo.now lake.old }
    requires few { AreFew (lake_value lake.old) }
    ensures made { lake_value lake.new ≡ after_tag_create repo.now name.now commit (lake_value lake.old) }
    ensures names { lake.new.names ≡ lake.old.names }
{
    change_at(
        &mut lake.repositories,
        repo,
        RepositoryChange::PutTag { name, commit },
    );
    lake.references += 1;
    lake.entries += 1;
}

/// A tag goes. It takes no memory.
#[tactic(auto, unfolding(core_state::specs::LakeStates::lake_value))]
pub fn delete_tag(lake: &mut LakeState, repo: &RepoName, name: &RefName)
    requires few { AreFew (lake_value lake.old) }
    ensures made { lake_value lake.new ≡ after_tag_delete repo.now name.now (lake_value lake.old) }
    ensures names { lake.new.names ≡ lake.old.names }
{
    change_at(
        &mut lake.repositories,
        repo,
        RepositoryChange::DropTag { name },
    );
    lake.references += 1;
    lake.entries += 1;
}

/// A setting is set, or deleted where no new one is given. It takes no memory.
#[tactic(auto, unfolding(core_state::specs::LakeStates::lake_value))]
pub fn set_note(lake: &mut LakeState, repo: &RepoName, name: NoteName, note: Option<Note>)
    requires few { AreFew (lake_value lake.old) }
    ensures made { lake_value lake.new ≡ after_note_set repo.now name note (lake_value lake.old) }
    ensures names { lake.new.names ≡ lake.old.names }
{
    let change = RepositoryChange::SetNote {
        name,
        note,
        version: lake.next_version,
    };
    change_at(&mut lake.repositories, repo, change);
    lake.next_version += 1;
    lake.references += 1;
    lake.entries += 1;
}

/// The store failed: the lake is stopped. It takes no memory.
#[tactic(auto, unfolding(core_state::specs::LakeStates::lake_value))]
pub fn stop(lake: &mut LakeState)
    requires few { AreFew (lake_value lake.old) }
    ensures made { lake_value lake.new ≡ after_fault (lake_value lake.old) }
    ensures names { lake.new.names ≡ lake.old.names }
{
    lake.stopped = true;
    lake.entries += 1;
}

// The number of an own object that a change puts.
fn put_number(change: &Change) -> Option<u64>
    ensures { result ≡ put_number change.now }
{
    match change {
        Change::Put(entry) => match entry.place {
            Place::Own { number, .. } => Some(number),
            Place::External { .. } => None,
        },
        Change::Delete => None,
    }
}

// Puts a number, which has a place, on a ticket of a seat.
fn put_ticket(tickets: &mut BTreeMap<u64, Option<u32>>, number: u64, seat: u32)
    requires { IsSome (tree_get nat_cmp tickets.old number) }
    ensures { tickets_of tickets.new.entries ≡ insert (tickets_of tickets.old.entries) number seat }
{
    if let Some(place) = tickets.get_mut(&number) {
        *place = Some(seat);
    }
}

// Takes the ticket of a number away.
fn remove_ticket(tickets: &mut BTreeMap<u64, Option<u32>>, number: u64)
    ensures { tickets_of tickets.new.entries ≡ remove (tickets_of tickets.old.entries) number }
{
    // Its length tells that the numbers ascend.
    let _count = tickets.len();
    let _seat = tickets.remove(&number);
}
