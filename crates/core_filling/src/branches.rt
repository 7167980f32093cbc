//! Branches that join a lake, and which branch names a token.
ghost use Rattle.std.specs.Prelude.{◌≡◌, ◌∷◌, ℕ, Some, OnOk, if◌then◌else◌};
ghost use Rattle.std.specs.BTreeMap.{get as tree_get};
ghost use Rattle.std.specs.Ordering.{nat_cmp};
ghost use Rattle.branch_record.specs.Record.{AreDistinct, is_among};
ghost use Rattle.core_state.specs.LakeStates.{lake_value};
ghost use Rattle.core_filling.specs.Filling.{bare_branch, with_branch};

use crate::parts::{Part, put_part};
use branch_record::{BranchRecord, Tokens};
use core_state::{BranchState, LakeState};
use lake_base::{NoMemory, RefName, RepoName, TryCopy};
use lake_values::CommitId;
use std::alloc::Global;
use std::collections::BTreeMap;

/// Of each token the repository and the branch that name it.
pub type Holders = BTreeMap<u64, (RepoName, RefName)>;

/// Puts a branch without changes into its repository, where that is there: of a version, a head and a staging token,
/// and of sealed tokens, newest first.
pub fn put_branch(
    alloc: Global,
    lake: &mut LakeState,
    repo: &RepoName,
    name: RefName,
    parts: (u64, CommitId, u64),
    sealed: Vec<u64>,
) -> Result<(), NoMemory>
    requires { AreDistinct (parts.2 ∷ sealed.items) }
    ensures { OnOk result (lake_value lake.new
        ≡ with_branch repo.now name (bare_branch parts.0 parts.1 parts.2 sealed.items) (lake_value lake.old)) }
{
    let (version, head, staging) = parts;
    let branch = BranchState {
        record: BranchRecord::new(version, head, staging, sealed),
        tokens: Tokens::new(alloc),
    };
    put_part(alloc, lake, repo, Part::Branch { name, branch })
}

/// Tells of a branch that it names these tokens.
pub fn put_holder(
    alloc: Global,
    holders: &mut Holders,
    repo: &RepoName,
    name: &RefName,
    tokens: &[u64],
) -> Result<(), NoMemory>
    ensures { OnOk result ((token : ℕ) → tree_get nat_cmp holders.new token
        ≡ (if is_among tokens.now token then Some (repo.now, name.now) else tree_get nat_cmp holders.old token)) }
{
    for token in tokens {
        holders.insert(*token, (repo.copy(alloc)?, name.copy(alloc)?))?;
    }
    Ok(())
}
