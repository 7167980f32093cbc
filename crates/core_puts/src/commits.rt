//! The bytes of a commit, and the first commit of a repository.
ghost use Rattle.std.specs.Prelude.{◌≡◌, ◌<◌, IfOk, OnOk, length};
ghost use Rattle.lake_format.specs.Spelling.{commit_spelling, IsSpelledCommit};
ghost use Rattle.lake_format.specs.declared.cut.Cut.{Cut as AnyCut};
ghost use Rattle.meta_range.specs.Files.{file_of};
ghost use Rattle.meta_range.specs.Ranges.{first_file};
ghost use Rattle.core_state.specs.FirstStates.{first_record, first_tree};
ghost use Rattle.core_puts.specs.FreshLakes.{IsFirst};

use commit_graph::commit_bytes;
use lake_base::{Digest, NoMemory, Sequence, Text};
use lake_format::USUAL_CUT;
use lake_values::{CommitRecord, KeyMap, Pairs};
use meta_range::{File, Tree};
use std::alloc::Global;
use std::sync::Arc;

/// The first commit of a repository, with all that is made of it once.
#[derive(Debug, Drop)]
pub struct FirstCommit {
    pub commit: CommitRecord,
    /// Its bytes, under its id.
    pub content: File,
    pub tree: Arc<Tree, Global>,
    /// The one file of its tree.
    pub metarange: File,
}

/// The first commit of a repository that is made at a date, in seconds since 1970. It is the same by every cut.
pub fn first_commit(alloc: Global, date: u64) -> Result<FirstCommit, NoMemory>
    ensures { IfOk result (λ first. (cut : AnyCut) → IsFirst cut date first) }
{
    let tree = empty_tree(alloc)?;
    let metarange = metarange_of(alloc, &tree)?;
    let commit = commit_of(alloc, &tree, date)?;
    let content = commit_file(alloc, &commit)?;
    let tree = Arc::new(alloc, tree)?;
    Ok(FirstCommit {
        commit,
        content,
        tree,
        metarange,
    })
}

// The tree of the empty map. It has no ranges, so every cut gives the same one.
fn empty_tree(alloc: Global) -> Result<Tree, NoMemory>
    ensures { IfOk result (λ tree. (cut : AnyCut) → tree ≡ first_tree cut) }
{
    let tree = Tree::build(alloc, &KeyMap::new(alloc), &USUAL_CUT)?;
    Ok(tree)
}

// The first file of a tree that has some.
fn metarange_of(alloc: Global, tree: &Tree) -> Result<File, NoMemory>
    requires { 0 < length tree.now.files }
    ensures { IfOk result (λ file. file ≡ file_of (first_file tree.now.files)) }
{
    let mut files = tree.files(alloc)?;
    Ok(files.swap_remove(0))
}

// The record of the first commit of a date, with its tree.
fn commit_of(alloc: Global, tree: &Tree, date: u64) -> Result<CommitRecord, NoMemory>
    ensures { IfOk result (λ commit. (cut : AnyCut) → tree.now ≡ first_tree cut
        → commit ≡ first_record cut date) }
{
    Ok(CommitRecord {
        meta_range: tree.name(),
        generation: 1,
        date,
        parents: Sequence::of(Vec::new(alloc)),
        committer: Text::of(String::from_str(alloc, "lakefs")?),
        message: Text::of(String::from_str(alloc, "Repository created")?),
        metadata: Pairs::new(alloc),
    })
}

/// The bytes of a commit, under its id.
pub fn commit_file(alloc: Global, commit: &CommitRecord) -> Result<File, NoMemory>
    ensures spelled { IfOk result (λ file. file ≡ file_of (commit_spelling commit.now)) }
    ensures limits { OnOk result (IsSpelledCommit commit.now) }
{
    let bytes = commit_bytes(alloc, commit)?;
    Ok(File {
        name: Digest::of(bytes.as_slice()),
        bytes: Sequence::of(bytes),
    })
}
