//! Commits that join a lake with their trees and their names.
ghost use Rattle.std.specs.Prelude.{◌≡◌, All, List, IsPermutation, map, OnOk};
ghost use Rattle.core_state.specs.LakeStates.{lake_value};
ghost use Rattle.core_filling.specs.Filling.{CommitRead, IsNamed, commit_read, with_commits, with_read};
ghost use Rattle.core_filling.specs.NewPlaces.{AddsPlaces, AddsPlacesOf};

use crate::names::put_names;
use crate::parts::{Part, put_part};
use core_state::LakeState;
use lake_base::{NoMemory, RepoName};
use lake_values::{CommitId, CommitRecord};
use meta_range::Tree;
use std::alloc::Global;
use std::sync::Arc;

/// A commit of a repository, whether it is expired, and its tree.
#[derive(Drop)]
pub struct ReadCommit {
    pub repo: RepoName,
    pub id: CommitId,
    pub expired: bool,
    pub commit: CommitRecord,
    pub tree: Arc<Tree, Global>,
}

/// Puts commits into a lake, parents first: those of lesser generations.
pub fn put_commits(
    alloc: Global,
    lake: &mut LakeState,
    mut commits: Vec<ReadCommit>,
) -> Result<(), NoMemory>
    requires { All IsNamed commits.items }
    ensures lake { OnOk result ((sorted : List CommitRead) × (IsPermutation (map commit_read commits.items) sorted
        × (lake_value lake.new ≡ with_commits sorted (lake_value lake.old)))) }
    ensures places { OnOk result (AddsPlacesOf (map commit_read commits.items)
        lake.old.names.files lake.new.names.files) }
{
    commits.sort_by_key(|read| u64::MAX - read.commit.generation)?;
    put_sorted(alloc, lake, commits)
}

// Puts commits into a lake, the last one first.
fn put_sorted(
    alloc: Global,
    lake: &mut LakeState,
    mut commits: Vec<ReadCommit>,
) -> Result<(), NoMemory>
    requires { All IsNamed commits.items }
    ensures lake { OnOk result (lake_value lake.new
        ≡ with_commits (map commit_read commits.items) (lake_value lake.old)) }
    ensures places { OnOk result (AddsPlacesOf (map commit_read commits.items)
        lake.old.names.files lake.new.names.files) }
{
    while let Some(read) = commits.pop() {
        put_read(alloc, lake, read)?;
    }
    Ok(())
}

// Puts a commit into a lake, and its names.
#[tactic(auto, unfolding(core_state::specs::LakeStates::lake_value))]
fn put_read(alloc: Global, lake: &mut LakeState, read: ReadCommit) -> Result<(), NoMemory>
    requires { IsNamed read }
    ensures lake { OnOk result (lake_value lake.new ≡ with_read (commit_read read) (lake_value lake.old)) }
    ensures places { OnOk result (AddsPlaces read.tree.value lake.old.names.files lake.new.names.files) }
{
    let ReadCommit {
        repo,
        id,
        expired,
        commit,
        tree,
    } = read;
    put_names(alloc, &mut lake.names, &repo, &id, &tree)?;
    let part = Part::Commit {
        commit,
        tree,
        expired,
    };
    put_part(alloc, lake, &repo, part)
}
