//! Repositories that are made.
ghost use Rattle.std.specs.Prelude.{◌≡◌, ◌<◌, ◌^◌, ◌++◌, ◌∷◌, [], None, false, IfOk, OnOk};
ghost use Rattle.lake_base.specs.Names.{is_like_id, repo_fault};
ghost use Rattle.pair_format.specs.PairSpelling.{IsRefName};
ghost use Rattle.pair_format.specs.declared.stored.Stored.TheVariants as stored;
ghost use Rattle.core_state.specs.Counts.{AreFew};
ghost use Rattle.core_state.specs.LakeStates.{lake_value};
ghost use Rattle.core_puts.specs.FirstCommits.{IsFirstCommit};
ghost use Rattle.core_puts.specs.Puts.{create_repository_puts, spelled_put};

use crate::files::{push_commit, push_files};
use crate::parts::{BranchParts, push_branch};
use crate::pushing::{push_counts, push_spelled};
use core_state::LakeState;
use keeper::Put;
use lake_base::{NoMemory, RefName, RepoName, Sequence, TryCopy};
use lake_values::{CommitId, CommitRecord};
use meta_range::Tree;
use pair_format::Stored;
use std::alloc::Global;

/// The puts of a repository that is made at the date of its first commit, with its default branch at that commit, of
/// which the id and the tree are given.
#[tactic(auto, unfolding(core_state::specs::LakeStates::lake_value))]
pub fn create_repository_puts(
    alloc: Global,
    lake: &LakeState,
    repo: &RepoName,
    branch: &RefName,
    commit: &CommitRecord,
    id: CommitId,
    tree: &Tree,
) -> Result<Vec<Put>, NoMemory>
    requires plain { is_like_id branch.now ≡ false }
    requires few { AreFew (lake_value lake.now) }
    requires first { IsFirstCommit (lake_value lake.now).cut commit.now id tree.now }
    ensures puts { IfOk result (λ puts. puts.items
        ≡ create_repository_puts repo.now branch.now commit.now.date (lake_value lake.now)) }
    ensures limits { OnOk result ((repo_fault repo.now ≡ None) × (IsRefName branch.now × (commit.now.date < 2 ^ 64))) }
{
    let mut puts = Vec::new(alloc);
    push_repository(alloc, &mut puts, repo, branch, commit.date)?;
    let parts = BranchParts {
        version: lake.next_version,
        head: id,
        staging: lake.next_token,
        sealed: Sequence::of(Vec::new(alloc)),
    };
    push_branch(alloc, &mut puts, repo, branch, parts)?;
    push_commit(alloc, &mut puts, repo, id, commit)?;
    push_files(alloc, &mut puts, tree)?;
    push_counts(
        alloc,
        &mut puts,
        lake.next_number,
        lake.next_version + 1,
        lake.next_token + 1,
    )?;
    Ok(puts)
}

// Appends the put of a new repository, whose settings have the version 0.
fn push_repository(
    alloc: Global,
    puts: &mut Vec<Put>,
    repo: &RepoName,
    branch: &RefName,
    date: u64,
) -> Result<(), NoMemory>
    requires { is_like_id branch.now ≡ false }
    ensures puts { OnOk result (puts.new.items ≡ puts.old.items
        ++ spelled_put (stored.Repository repo.now date branch.now 0) ∷ []) }
    ensures limits { OnOk result ((repo_fault repo.now ≡ None) × (IsRefName branch.now × (date < 2 ^ 64))) }
{
    let stored = Stored::Repository {
        repo: repo.copy(alloc)?,
        created: date,
        default_branch: branch.copy(alloc)?,
        settings: 0,
    };
    push_spelled(alloc, puts, stored)
}
