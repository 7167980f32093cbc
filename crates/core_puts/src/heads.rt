//! Commits that become the head of a branch.
ghost use Rattle.std.specs.Prelude.{◌≡◌, ◌++◌, ◌<◌, ◌+◌, ◌∷◌, [], drop, false, length, IfOk, OnOk, option_and_then};
ghost use Rattle.std.specs.Prelude.{option_copied};
ghost use Rattle.std.specs.FinMap.{get};
ghost use Rattle.lake_base.specs.Names.{is_like_id};
ghost use Rattle.meta_range.specs.Files.{file_at};
ghost use Rattle.core_state.specs.Counts.{AreFew};
ghost use Rattle.core_state.specs.LakeStates.{lake_value};
ghost use Rattle.core_puts.specs.NewFiles.{new_metarange_puts, new_range_puts};
ghost use Rattle.core_puts.specs.Puts.{is_kept_metarange, is_kept_range, new_file_puts, new_head_puts};

use crate::files::{push_commit, push_metarange, push_range};
use crate::parts::{BranchParts, branch_at, push_branch};
use crate::pushing::push_counts;
use crate::removing::push_removals_of;
use byte_map::ByteMap;
use core_state::{FilePlace, LakeState};
use keeper::Put;
use lake_base::{Digest, NoMemory, RefName, RepoName, Sequence};
use lake_values::{CommitId, CommitRecord, ResetWhat};
use meta_range::Tree;
use std::alloc::Global;

/// The puts of a commit that becomes the head of a branch, of which the id and the tree are given: the commit, the
/// files of its tree that aren't kept yet, the removals of what was sealed, the branch and the counts. None where the
/// branch isn't there.
#[tactic(auto, unfolding(core_state::specs::LakeStates::lake_value))]
pub fn new_head_puts(
    alloc: Global,
    lake: &LakeState,
    repo: &RepoName,
    branch: &RefName,
    id: CommitId,
    commit: &CommitRecord,
    tree: &Tree,
) -> Result<Vec<Put>, NoMemory>
    requires plain { is_like_id branch.now ≡ false }
    requires few { AreFew (lake_value lake.now) }
    ensures { IfOk result (λ puts. puts.items ≡ new_head_puts repo.now branch.now
        (record { id = id; content = commit.now; tree = tree.now }) lake.now.names.files (lake_value lake.now)) }
{
    let mut puts = Vec::new(alloc);
    let Some(state) = branch_at(lake, repo, branch) else {
        return Ok(puts);
    };
    let record = &state.record;
    push_commit(alloc, &mut puts, repo, id, commit)?;
    push_new_files(alloc, &mut puts, &lake.names.files, tree)?;
    push_removals_of(
        alloc,
        &mut puts,
        &state.tokens,
        record.sealed(),
        &ResetWhat::All,
    )?;
    let parts = BranchParts {
        version: lake.next_version,
        head: id,
        staging: record.staging(),
        sealed: Sequence::of(Vec::new(alloc)),
    };
    push_branch(alloc, &mut puts, repo, branch, parts)?;
    push_counts(
        alloc,
        &mut puts,
        lake.next_number,
        lake.next_version + 1,
        lake.next_token,
    )?;
    Ok(puts)
}

// Appends the puts of the files of a tree that aren't kept as such yet.
fn push_new_files(
    alloc: Global,
    puts: &mut Vec<Put>,
    kept: &ByteMap<Digest, Option<FilePlace>>,
    tree: &Tree,
) -> Result<(), NoMemory>
    ensures { OnOk result (puts.new.items ≡ puts.old.items ++ new_file_puts kept.now tree.now.files) }
{
    let count = tree.range_count();
    push_new_metarange(alloc, puts, kept, tree)?;
    push_new_ranges(alloc, puts, kept, tree, count)
}

// Appends the put of the metarange of a tree, where it isn't kept as one yet.
#[tactic(auto, unfolding(crate::specs::NewFiles::new_metarange_puts))]
fn push_new_metarange(
    alloc: Global,
    puts: &mut Vec<Put>,
    kept: &ByteMap<Digest, Option<FilePlace>>,
    tree: &Tree,
) -> Result<(), NoMemory>
    requires { 0 < length tree.now.files }
    ensures { OnOk result (puts.new.items ≡ puts.old.items
        ++ new_metarange_puts kept.now (file_at tree.now.files 0)) }
{
    if is_kept_metarange(kept, tree) {
        return Ok(());
    }
    let file = tree.file(alloc, 0)?;
    push_metarange(alloc, puts, &file)
}

// Appends the puts of the ranges of a tree, of which it has so many, that aren't kept as such yet.
fn push_new_ranges(
    alloc: Global,
    puts: &mut Vec<Put>,
    kept: &ByteMap<Digest, Option<FilePlace>>,
    tree: &Tree,
    count: usize,
) -> Result<(), NoMemory>
    requires { length tree.now.files ≡ count + 1 }
    ensures { OnOk result (puts.new.items ≡ puts.old.items ++ new_range_puts kept.now (drop 1 tree.now.files)) }
{
    for range in 0..count {
        push_new_range(alloc, puts, kept, tree, range + 1)?;
    }
    Ok(())
}

// Appends the put of the range at a place of a tree, where it isn't kept as one yet.
#[tactic(auto, unfolding(crate::specs::NewFiles::new_range_puts))]
fn push_new_range(
    alloc: Global,
    puts: &mut Vec<Put>,
    kept: &ByteMap<Digest, Option<FilePlace>>,
    tree: &Tree,
    place: usize,
) -> Result<(), NoMemory>
    requires { place < length tree.now.files }
    ensures { OnOk result (puts.new.items ≡ puts.old.items
        ++ new_range_puts kept.now (file_at tree.now.files place ∷ [])) }
{
    if is_kept_range(kept, tree, place) {
        return Ok(());
    }
    let file = tree.file(alloc, place)?;
    push_range(alloc, puts, &file)
}

// Whether the metarange of a tree is kept as one.
fn is_kept_metarange(kept: &ByteMap<Digest, Option<FilePlace>>, tree: &Tree) -> bool
    requires { 0 < length tree.now.files }
    ensures { result ≡ is_kept_metarange kept.now (file_at tree.now.files 0) }
{
    match place_of(kept, &tree.file_name(0)) {
        Some(place) => place.is_metarange(),
        None => false,
    }
}

// Whether the range at a place of a tree is kept as one.
fn is_kept_range(kept: &ByteMap<Digest, Option<FilePlace>>, tree: &Tree, place: usize) -> bool
    requires { place < length tree.now.files }
    ensures { result ≡ is_kept_range kept.now (file_at tree.now.files place) }
{
    match place_of(kept, &tree.file_name(place)) {
        Some(place) => !place.is_metarange(),
        None => false,
    }
}

// Where the file of a name is kept.
fn place_of<'a>(
    kept: &'a ByteMap<Digest, Option<FilePlace>>,
    name: &Digest,
) -> Option<&'a FilePlace>
    ensures { option_copied result ≡ option_and_then (λ place. place) (get kept.now name.now.0) }
{
    match kept.get(name) {
        Some(place) => place.as_ref(),
        None => None,
    }
}
