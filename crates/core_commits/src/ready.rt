//! A new head is made ready: all memory that it takes is taken.
ghost use Rattle.std.specs.Prelude.{◌≡◌, false, IfOk};
ghost use Rattle.lake_base.specs.Names.{is_like_id};
ghost use Rattle.lake_model.specs.Steps.{swap_operation};
ghost use Rattle.core_state.specs.Counts.{AreFew};
ghost use Rattle.core_changes.specs.NewPlaces.{HaveSamePlaces};
ghost use Rattle.core_state.specs.LakeStates.{lake_value};
ghost use Rattle.core_commits.specs.CommitNames.{AreFilesOf, HasNamesRoom};
ghost use Rattle.core_commits.specs.ReadyHeads.{IsReadyHead};

use crate::commits::NewHead;
use crate::naming::{NewNames, make_names_room, names_of};
use core_puts::new_head_puts;
use core_state::LakeState;
use keeper::Put;
use lake_base::{NoMemory, RefName, RepoName, TryCopy};
use lake_model::{Operation, SwapKind};
use lake_values::{About, CommitRecord};
use std::alloc::Global;

/// A new head that is ready to be kept.
#[derive(Debug, Drop)]
pub struct ReadyHead {
    pub operation: Operation,
    pub puts: Vec<Put>,
    pub names: NewNames,
    /// What is answered of the commit.
    pub answer: CommitRecord,
}

/// Makes a new head ready, with room for its names. It changes nothing that the lake says.
#[tactic(auto, unfolding(core_state::specs::LakeStates::lake_value))]
pub fn ready_head(
    alloc: Global,
    lake: &mut LakeState,
    repo: &RepoName,
    branch: &RefName,
    kind: SwapKind,
    about: About,
    new: &NewHead,
) -> Result<ReadyHead, NoMemory>
    requires plain { is_like_id branch.now ≡ false }
    requires few { AreFew (lake_value lake.old) }
    ensures same { lake_value lake.new ≡ lake_value lake.old }
    ensures places { HaveSamePlaces lake.old.names.files lake.new.names.files }
    ensures ready { IfOk result (IsReadyHead repo.now branch.now kind about new.now lake.old) }
    ensures room { IfOk result (λ ready.
        HasNamesRoom new.now.content.name ready.names.files.items lake.new.names) }
    ensures kinds { IfOk result (λ ready. AreFilesOf new.now.tree.value ready.names.files.items) }
{
    let puts = new_head_puts(
        alloc,
        lake,
        repo,
        branch,
        new.content.name,
        &new.commit,
        &new.tree,
    )?;
    let operation = operation_of(alloc, repo, branch, kind, about)?;
    let answer = new.commit.copy(alloc)?;
    let names = names_of(alloc, repo, &new.tree)?;
    make_names_room(alloc, &mut lake.names, &new.content.name, &names)?;
    Ok(ReadyHead {
        operation,
        puts,
        names,
        answer,
    })
}

// The operation by which a new head is made.
fn operation_of(
    alloc: Global,
    repo: &RepoName,
    branch: &RefName,
    kind: SwapKind,
    about: About,
) -> Result<Operation, NoMemory>
    ensures { IfOk result (λ operation. operation ≡ swap_operation repo.now branch.now kind about) }
{
    let repo = repo.copy(alloc)?;
    let branch = branch.copy(alloc)?;
    Ok(match kind {
        SwapKind::Commit => Operation::Commit {
            repo,
            branch,
            about,
        },
        SwapKind::Merge { source, strategy } => Operation::Merge {
            repo,
            branch,
            source,
            strategy,
            about,
        },
        SwapKind::Pick {
            base,
            source,
            strategy,
        } => Operation::Pick {
            repo,
            branch,
            base,
            source,
            strategy,
            about,
        },
    })
}
