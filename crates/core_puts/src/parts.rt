//! What is put of a branch.
ghost use Rattle.std.specs.Prelude.{◌≡◌, ◌++◌, ◌∷◌, [], false, IfOk, OnOk, option_copied, option_map};
ghost use Rattle.lake_base.specs.Names.{is_like_id};
ghost use Rattle.core_state.specs.BranchStates.{branch_value, tokens_of, with_fresh};
ghost use Rattle.core_state.specs.LakeStates.{lake_value};
ghost use Rattle.pair_format.specs.PairSpelling.{IsSpelledStored};
ghost use Rattle.pair_format.specs.declared.stored.Stored.TheVariants as stored;
ghost use Rattle.core_puts.specs.Puts.{branch_at, spelled_put};
ghost use Rattle.core_puts.specs.BranchParts.{parts_of};

use crate::pushing::push_spelled;
use core_state::{BranchState, LakeState};
use keeper::Put;
use lake_base::{NoMemory, RefName, RepoName, Sequence, TryCopy};
use lake_values::CommitId;
use pair_format::Stored;
use std::alloc::Global;

// What is put of a branch, but for its names.
#[derive(Debug, Drop)]
pub(crate) struct BranchParts {
    pub(crate) version: u64,
    pub(crate) head: CommitId,
    pub(crate) staging: u64,
    // Newest first.
    pub(crate) sealed: Sequence<u64>,
}

// The branch of a name, where it is there.
pub(crate) fn branch_at<'a>(
    lake: &'a LakeState,
    repo: &RepoName,
    name: &RefName,
) -> Option<&'a BranchState>
    ensures { option_map branch_value (option_copied result) ≡ branch_at repo.now name.now (lake_value lake.now) }
{
    lake.repository(repo)?.branch(name)
}

// A branch as it is, but for its version.
pub(crate) fn parts_at(
    alloc: Global,
    branch: &BranchState,
    version: u64,
) -> Result<BranchParts, NoMemory>
    ensures { IfOk result (λ parts. parts ≡ parts_of (record (branch_value branch.now) { version = version })) }
{
    let record = &branch.record;
    let sealed = Vec::from_slice(alloc, record.sealed())?;
    Ok(BranchParts {
        version,
        head: record.head(),
        staging: record.staging(),
        sealed: Sequence::of(sealed),
    })
}

// A branch as a seal leaves it.
pub(crate) fn parts_after_seal(
    alloc: Global,
    branch: &BranchState,
    version: u64,
    fresh: u64,
) -> Result<BranchParts, NoMemory>
    ensures { IfOk result (λ parts. parts
        ≡ parts_of (record (with_fresh fresh (branch_value branch.now)) { version = version })) }
{
    if !branch.tokens.has_changes(branch.record.staging()) {
        return parts_at(alloc, branch, version);
    }
    let sealed = tokens_after_seal(alloc, branch)?;
    Ok(BranchParts {
        version,
        head: branch.record.head(),
        staging: fresh,
        sealed,
    })
}

// The staging token first of the sealed ones.
fn tokens_after_seal(alloc: Global, branch: &BranchState) -> Result<Sequence<u64>, NoMemory>
    ensures { IfOk result (λ sealed. sealed ≡ tokens_of (branch_value branch.now)) }
{
    let mut sealed = Vec::new(alloc);
    sealed.push(branch.record.staging())?;
    sealed.extend_from_slice(branch.record.sealed())?;
    Ok(Sequence::of(sealed))
}

// Appends the put of a branch. 2^32 sealed tokens and more are out of memory.
pub(crate) fn push_branch(
    alloc: Global,
    puts: &mut Vec<Put>,
    repo: &RepoName,
    name: &RefName,
    parts: BranchParts,
) -> Result<(), NoMemory>
    requires { is_like_id name.now ≡ false }
    ensures puts { OnOk result (puts.new.items ≡ puts.old.items
        ++ spelled_put (stored.Branch repo.now name.now parts.version parts.head parts.staging parts.sealed) ∷ []) }
    ensures limits { OnOk result (IsSpelledStored
        (stored.Branch repo.now name.now parts.version parts.head parts.staging parts.sealed)) }
{
    if parts.sealed.as_slice().len() >= 4294967296 {
        return Err(NoMemory);
    }
    let stored = stored_branch(alloc, repo, name, parts)?;
    push_spelled(alloc, puts, stored)
}

// What is stored of a branch.
fn stored_branch(
    alloc: Global,
    repo: &RepoName,
    name: &RefName,
    parts: BranchParts,
) -> Result<Stored, NoMemory>
    ensures { IfOk result (λ branch. branch
        ≡ stored.Branch repo.now name.now parts.version parts.head parts.staging parts.sealed) }
{
    let repo = repo.copy(alloc)?;
    let branch = name.copy(alloc)?;
    Ok(Stored::Branch {
        repo,
        branch,
        version: parts.version,
        head: parts.head,
        staging: parts.staging,
        sealed: parts.sealed,
    })
}
