//! The names of a commit that joins a lake, and of the files of its tree.
ghost use Rattle.std.specs.Prelude.{◌≡◌, ◌<◌, length, OnOk};
ghost use Rattle.std.specs.FinMap.{insert};
ghost use Rattle.byte_map.specs.Values.{some_values};
ghost use Rattle.lake_format.specs.Spelling.{file_name};
ghost use Rattle.meta_range.specs.Files.{file_at};
ghost use Rattle.core_state.specs.NameIndexes.{bytes_in, index_value};
ghost use Rattle.core_state.specs.NewCommits.{with_files};
ghost use Rattle.core_filling.specs.NewPlaces.{AddsPlaces};

use byte_map::ByteMap;
use core_state::{FilePlace, NameIndex};
use lake_base::{Digest, NoMemory, RepoName, TryCopy};
use lake_values::CommitId;
use meta_range::Tree;
use std::alloc::Global;
use std::sync::Arc;

// Puts the names of a commit of a repository and of the files of its tree.
pub(crate) fn put_names(
    alloc: Global,
    index: &mut NameIndex,
    repo: &RepoName,
    id: &CommitId,
    tree: &Arc<Tree, Global>,
) -> Result<(), NoMemory>
    ensures names { OnOk result (index_value index.new ≡ record {
      homes = insert (index_value index.old).homes id.now.0 repo.now;
      files = with_files tree.now.value.files (index_value index.old).files;
    }) }
    ensures places { OnOk result (AddsPlaces tree.now.value index.old.files index.new.files) }
{
    index.homes.insert(*id, Some(repo.copy(alloc)?))?;
    put_files(&mut index.files, tree)
}

// Puts the names of the files of a tree, the last one first.
fn put_files(
    files: &mut ByteMap<Digest, Option<FilePlace>>,
    tree: &Arc<Tree, Global>,
) -> Result<(), NoMemory>
    ensures names { OnOk result (some_values bytes_in files.new
        ≡ with_files tree.now.value.files (some_values bytes_in files.old)) }
    ensures places { OnOk result (AddsPlaces tree.now.value files.old files.new) }
{
    let mut left = tree.range_count();
    while left > 0 {
        put_file(files, tree, left)?;
        left -= 1;
    }
    put_file(files, tree, 0)
}

// Puts the name of the file at a place of a tree.
fn put_file(
    files: &mut ByteMap<Digest, Option<FilePlace>>,
    tree: &Arc<Tree, Global>,
    place: usize,
) -> Result<(), NoMemory>
    requires { place < length tree.now.value.files }
    ensures names { OnOk result (some_values bytes_in files.new ≡ insert (some_values bytes_in files.old)
        (file_name (file_at tree.now.value.files place)).0 (file_at tree.now.value.files place)) }
    ensures places { OnOk result (AddsPlaces tree.now.value files.old files.new) }
{
    let name = tree.file_name(place);
    let file = FilePlace::of(tree.clone()?, place);
    files.insert(name, Some(file))?;
    Ok(())
}
