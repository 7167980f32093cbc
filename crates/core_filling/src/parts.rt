//! What joins a repository of a lake.
ghost use Rattle.std.specs.Prelude.{◌≡◌, OnOk, option_map};
ghost use Rattle.byte_map.specs.Values.{some_values};
ghost use Rattle.lake_model.specs.NoteChanges.{with_note};
ghost use Rattle.lake_model.specs.Parts.{changed_at};
ghost use Rattle.branch_record.specs.Tokens.{with_change};
ghost use Rattle.core_state.specs.BranchStates.{branch_value};
ghost use Rattle.core_state.specs.LakeStates.{lake_value};
ghost use Rattle.core_state.specs.RepositoryStates.{repository_value};
ghost use Rattle.core_changes.specs.LakeChanges.{in_repository};
ghost use Rattle.core_filling.specs.Parts.{with_part, with_marked_commit, with_token_change};

use byte_map::ByteMap;
use core_state::{BranchState, LakeState, RepositoryState};
use lake_base::{NoMemory, Path, RefName, RepoName};
use lake_values::{Change, CommitId, CommitRecord, Note};
use meta_range::Tree;
use std::alloc::Global;
use std::sync::Arc;

/// What joins a repository.
#[derive(Drop)]
pub enum Part<'a> {
    /// A branch of this name.
    Branch {
        name: RefName,
        branch: BranchState,
    },
    /// A tag of this name.
    Tag {
        name: RefName,
        commit: CommitId,
    },
    /// A commit with its tree, under its id.
    Commit {
        commit: CommitRecord,
        tree: Arc<Tree, Global>,
        expired: bool,
    },
    /// A setting.
    Setting(Note),
    /// A change under a token of the branch of this name.
    Change {
        branch: &'a RefName,
        token: u64,
        path: Path,
        change: Change,
    },
}

/// Puts a part into the repository of a name, where it is there. A commit that the graph doesn't take is answered as
/// out of memory: of pairs that are tied it takes each, parents first.
#[tactic(auto, unfolding(core_state::specs::LakeStates::lake_value))]
pub fn put_part(
    alloc: Global,
    lake: &mut LakeState,
    repo: &RepoName,
    part: Part<'_>,
) -> Result<(), NoMemory>
    ensures lake { OnOk result (lake_value lake.new
        ≡ in_repository repo.now (with_part part.entry) (lake_value lake.old)) }
    ensures names { lake.new.names ≡ lake.old.names }
{
    match lake.repositories.get_mut(repo) {
        Some(place) => put_here(alloc, place, part),
        None => Ok(()),
    }
}

// Puts a part into the repository in a place, where one is there.
fn put_here(
    alloc: Global,
    place: &mut Option<RepositoryState>,
    part: Part<'_>,
) -> Result<(), NoMemory>
    ensures { OnOk result (option_map repository_value place.new
        ≡ option_map (with_part part.entry) (option_map repository_value place.old)) }
{
    match place {
        Some(repository) => put_in(alloc, repository, part),
        None => Ok(()),
    }
}

// Puts a part into a repository.
fn put_in(alloc: Global, repository: &mut RepositoryState, part: Part<'_>) -> Result<(), NoMemory>
    ensures { OnOk result (repository_value repository.new
        ≡ with_part part.entry (repository_value repository.old)) }
{
    match part {
        Part::Branch { name, branch } => {
            repository.branches.insert(name, Some(branch))?;
            Ok(())
        }
        Part::Tag { name, commit } => {
            repository.tags.insert(name, Some(commit))?;
            Ok(())
        }
        Part::Commit {
            commit,
            tree,
            expired,
        } => put_commit(alloc, repository, commit, tree, expired),
        Part::Setting(note) => {
            set(repository, note);
            Ok(())
        }
        Part::Change {
            branch,
            token,
            path,
            change,
        } => put_change_at(&mut repository.branches, branch, token, path, change),
    }
}

// Puts a commit with its tree into a repository.
fn put_commit(
    alloc: Global,
    repository: &mut RepositoryState,
    commit: CommitRecord,
    tree: Arc<Tree, Global>,
    expired: bool,
) -> Result<(), NoMemory>
    ensures { OnOk result (repository_value repository.new
        ≡ with_marked_commit commit tree.value expired (repository_value repository.old)) }
{
    let id = match repository.graph.add(alloc, commit) {
        Ok(id) => id,
        Err(_) => return Err(NoMemory),
    };
    repository.trees.insert(id, tree)?;
    if expired {
        repository.expired.insert(id, ())?;
    }
    Ok(())
}

// Sets a setting.
fn set(repository: &mut RepositoryState, note: Note)
    ensures { repository_value repository.new ≡ record (repository_value repository.old) {
      notes = with_note note (repository_value repository.old).notes;
    } }
{
    match note {
        Note::Retention(rules) => repository.retention = Some(rules),
        Note::Protection(protection) => repository.protection = Some(protection),
        Note::Hooks(hooks) => repository.hooks = Some(hooks),
    }
}

// Puts a change under a token of the branch of a name, where it is there.
fn put_change_at(
    branches: &mut ByteMap<RefName, Option<BranchState>>,
    name: &RefName,
    token: u64,
    path: Path,
    change: Change,
) -> Result<(), NoMemory>
    ensures { OnOk result (some_values (option_map branch_value) branches.new
        ≡ changed_at name.now (with_token_change token path change)
        (some_values (option_map branch_value) branches.old)) }
{
    match branches.get_mut(name) {
        Some(place) => put_change_here(place, token, path, change),
        None => Ok(()),
    }
}

// Puts a change under a token of the branch in a place, where one is there.
fn put_change_here(
    place: &mut Option<BranchState>,
    token: u64,
    path: Path,
    change: Change,
) -> Result<(), NoMemory>
    ensures { OnOk result (option_map branch_value place.new
        ≡ option_map (with_token_change token path change) (option_map branch_value place.old)) }
{
    match place {
        Some(branch) => branch.tokens.put(token, path, change),
        None => Ok(()),
    }
}
