//! Commits, and the files of their trees.
ghost use Rattle.std.specs.Prelude.{◌≡◌, ◌++◌, ◌∷◌, [], map, false, IfOk, OnOk};
ghost use Rattle.pair_format.specs.declared.stored.Stored.TheVariants as stored;
ghost use Rattle.core_puts.specs.Puts.{commit_put, file_puts, spelled_put};

use crate::pushing::push_spelled;
use keeper::Put;
use lake_base::{NoMemory, RepoName, Sequence, TryCopy};
use lake_values::{CommitId, CommitRecord};
use meta_range::{File, Tree};
use pair_format::Stored;
use std::alloc::Global;

// Appends the put of a commit of a repository.
pub(crate) fn push_commit(
    alloc: Global,
    puts: &mut Vec<Put>,
    repo: &RepoName,
    id: CommitId,
    commit: &CommitRecord,
) -> Result<(), NoMemory>
    ensures { OnOk result (puts.new.items ≡ puts.old.items ++ commit_put repo.now id commit.now ∷ []) }
{
    let stored = stored_commit(alloc, repo, id, commit)?;
    push_spelled(alloc, puts, stored)
}

// What is stored of a commit, which isn't expired.
fn stored_commit(
    alloc: Global,
    repo: &RepoName,
    id: CommitId,
    commit: &CommitRecord,
) -> Result<Stored, NoMemory>
    ensures { IfOk result (λ parts. parts ≡ stored.Commit repo.now id false commit.now) }
{
    let repo = repo.copy(alloc)?;
    let commit = commit.copy(alloc)?;
    Ok(Stored::Commit {
        repo,
        id,
        expired: false,
        commit,
    })
}

// Appends the puts of the files of a tree.
pub(crate) fn push_files(alloc: Global, puts: &mut Vec<Put>, tree: &Tree) -> Result<(), NoMemory>
    ensures { OnOk result (puts.new.items ≡ puts.old.items ++ file_puts tree.now.files) }
{
    let files = tree.files(alloc)?;
    let Some((metarange, ranges)) = files.as_slice().split_first() else {
        return Ok(());
    };
    push_metarange(alloc, puts, metarange)?;
    push_ranges(alloc, puts, ranges)
}

// Appends the put of a metarange.
pub(crate) fn push_metarange(
    alloc: Global,
    puts: &mut Vec<Put>,
    file: &File,
) -> Result<(), NoMemory>
    ensures { OnOk result (puts.new.items ≡ puts.old.items
        ++ spelled_put (stored.MetaRange file.now.name file.now.bytes) ∷ []) }
{
    let bytes = Vec::from_slice(alloc, file.bytes.as_slice())?;
    let stored = Stored::MetaRange {
        name: file.name,
        bytes: Sequence::of(bytes),
    };
    push_spelled(alloc, puts, stored)
}

// Appends the puts of ranges.
fn push_ranges(alloc: Global, puts: &mut Vec<Put>, ranges: &[File]) -> Result<(), NoMemory>
    ensures { OnOk result (puts.new.items ≡ puts.old.items
        ++ map (λ file. spelled_put (stored.Range file.name file.bytes)) ranges.now) }
{
    for range in ranges {
        push_range(alloc, puts, range)?;
    }
    Ok(())
}

// Appends the put of a range.
pub(crate) fn push_range(alloc: Global, puts: &mut Vec<Put>, file: &File) -> Result<(), NoMemory>
    ensures { OnOk result (puts.new.items ≡ puts.old.items
        ++ spelled_put (stored.Range file.now.name file.now.bytes) ∷ []) }
{
    let bytes = Vec::from_slice(alloc, file.bytes.as_slice())?;
    let stored = Stored::Range {
        name: file.name,
        bytes: Sequence::of(bytes),
    };
    push_spelled(alloc, puts, stored)
}
