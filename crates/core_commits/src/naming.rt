//! The names of a new commit and of the files of its tree.
ghost use Rattle.std.specs.Prelude.{◌≡◌, true, ℕ, List, IfOk, OnOk};
ghost use Rattle.std.specs.FinMap.{contains_key, insert};
ghost use Rattle.std.specs.List.{AllByRecursion};
ghost use Rattle.meta_range.specs.Ranges.{TreeValue};
ghost use Rattle.byte_map.specs.Values.{some_values};
ghost use Rattle.core_changes.specs.NewPlaces.{AreNamedPlaces, HasNewPlaces, HaveSamePlaces};
ghost use Rattle.core_state.specs.NameIndexes.{bytes_in, index_value};
ghost use Rattle.core_state.specs.NewCommits.{with_files};
ghost use Rattle.core_commits.specs.CommitNames.{AreFilesOf, AreNames, HasNamesRoom, HasPlace, with_named};

use byte_map::ByteMap;
use core_changes::places::{make_place, put_in_place};
use core_state::{FilePlace, NameIndex};
use lake_base::{Digest, NoMemory, RepoName, TryCopy};
use lake_values::CommitId;
use meta_range::Tree;
use std::alloc::Global;
use std::sync::Arc;

/// A file that is to be told of, under its name.
#[derive(Debug, Drop)]
pub struct NamedFile {
    pub name: Digest,
    pub place: FilePlace,
}

/// The names of a new commit: its repository, and the files of its tree.
#[derive(Debug, Drop)]
pub struct NewNames {
    pub home: RepoName,
    pub files: Vec<NamedFile>,
}

/// The names of a commit of a repository with this tree.
pub fn names_of(
    alloc: Global,
    repo: &RepoName,
    tree: &Arc<Tree, Global>,
) -> Result<NewNames, NoMemory>
    ensures names { IfOk result (AreNames repo.now tree.now.value.files) }
    ensures kinds { IfOk result (λ names. AreFilesOf tree.now.value names.files.items) }
{
    let home = repo.copy(alloc)?;
    let mut files = Vec::new(alloc);
    for place in 0..=tree.range_count() {
        files.push(NamedFile {
            name: tree.file_name(place),
            place: FilePlace::of(tree.clone()?, place),
        })?;
    }
    Ok(NewNames { home, files })
}

/// Makes room in an index for a commit and for names. It changes nothing else.
pub fn make_names_room(
    alloc: Global,
    index: &mut NameIndex,
    id: &CommitId,
    names: &NewNames,
) -> Result<(), NoMemory>
    ensures same { index_value index.new ≡ index_value index.old }
    ensures places { HaveSamePlaces index.old.files index.new.files }
    ensures room { OnOk result (HasNamesRoom id.now names.now.files.items index.new) }
{
    make_place(alloc, &mut index.homes, id)?;
    make_file_places(alloc, &mut index.files, names.files.as_slice())
}

// Makes places for files. It changes nothing else.
fn make_file_places(
    alloc: Global,
    places: &mut ByteMap<Digest, Option<FilePlace>>,
    files: &[NamedFile],
) -> Result<(), NoMemory>
    ensures same { some_values bytes_in places.new ≡ some_values bytes_in places.old }
    ensures places { HaveSamePlaces places.old places.new }
    ensures room { OnOk result (AllByRecursion (HasPlace places.new) files.now) }
{
    for file in files {
        make_place(alloc, places, &file.name)?;
    }
    Ok(())
}

/// Puts names in an index, in which there is room for them: of a commit, and of files. It takes no memory.
pub fn put_names(index: &mut NameIndex, id: &CommitId, names: NewNames)
    requires { HasNamesRoom id.now names.files.items index.old }
    ensures names { (repo : List ℕ) (files : List (List ℕ)) → AreNames repo files names
        → index_value index.new ≡ record {
          homes = insert (index_value index.old).homes id.now.0 repo;
          files = with_files files (index_value index.old).files;
        } }
    ensures places { (tree : TreeValue) → AreFilesOf tree names.files.items → AreNamedPlaces index.old.files
        → HasNewPlaces index.old.files index.new.files tree }
{
    let NewNames { home, files } = names;
    put_in_place(&mut index.homes, id, home);
    put_files(&mut index.files, files);
}

// Puts files in their places, the last one first.
fn put_files(places: &mut ByteMap<Digest, Option<FilePlace>>, mut files: Vec<NamedFile>)
    requires { AllByRecursion (HasPlace places.old) files.items }
    ensures named { some_values bytes_in places.new ≡ with_named files.items (some_values bytes_in places.old) }
    ensures places { (tree : TreeValue) → AreFilesOf tree files.items → AreNamedPlaces places.old
        → HasNewPlaces places.old places.new tree }
{
    while let Some(NamedFile { name, place }) = files.pop() {
        put_in_place(places, &name, place);
    }
}
