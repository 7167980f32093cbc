//! Tags that are made and deleted.
ghost use Rattle.std.specs.Prelude.{◌≡◌, false, IfOk, OnOk};
ghost use Rattle.lake_base.specs.Names.{is_like_id};
ghost use Rattle.lake_format.specs.Spelling.{IsDigest};
ghost use Rattle.pair_format.specs.PairSpelling.{IsRefName};
ghost use Rattle.core_puts.specs.Puts.{create_tag_puts, delete_tag_puts};

use crate::pushing::{only_put, push_removed};
use keeper::Put;
use lake_base::{NoMemory, RefName, RepoName, TryCopy};
use lake_values::CommitId;
use pair_format::{Stored, StoredKey};
use std::alloc::Global;

/// The puts of a tag that names a commit.
pub fn create_tag_puts(
    alloc: Global,
    repo: &RepoName,
    name: &RefName,
    commit: CommitId,
) -> Result<Vec<Put>, NoMemory>
    requires { is_like_id name.now ≡ false }
    ensures puts { IfOk result (λ puts. puts.items ≡ create_tag_puts repo.now name.now commit) }
    ensures limits { OnOk result (IsRefName name.now × IsDigest commit.0) }
{
    let repo = repo.copy(alloc)?;
    let tag = name.copy(alloc)?;
    only_put(alloc, Stored::Tag { repo, tag, commit })
}

/// The puts of a tag that goes.
pub fn delete_tag_puts(alloc: Global, repo: &RepoName, name: &RefName) -> Result<Vec<Put>, NoMemory>
    requires { is_like_id name.now ≡ false }
    ensures puts { IfOk result (λ puts. puts.items ≡ delete_tag_puts repo.now name.now) }
    ensures limits { OnOk result (IsRefName name.now) }
{
    let mut puts = Vec::new(alloc);
    push_removed(alloc, &mut puts, &StoredKey::Tag { repo, tag: name })?;
    Ok(puts)
}
