//! A store of objects in a folder.
ghost use Rattle.std.specs.Prelude.{◌≡◌, ◌≤◌, ◌++◌, ◌∷◌, string_bytes, IfOk, IfNone};
ghost use Rattle.folder_blocks.specs.ObjectNames.{object_name};
ghost use Rattle.lake_base.specs.Troubles.{failures_after};
ghost use Rattle.block_store.specs.Blocks.{FailsByFault, Misses};
ghost use Rattle.block_store.specs.FailingBlocks.{misses_after, missed_after};
ghost use Rattle.std.specs.List.Sorted.{IsStrictlyIncreasing};

use crate::files::{numbers_in, read_whole, remove, settle_folder, write_whole};
use crate::names::name_of;
use block_store::Blocks;
use lake_base::{NoMemory, Text, Trouble};
use std::alloc::Global;
use std::io::{Error, ErrorKind};
use std::path::Path;
use std::rt::Files;
use std::{fs, io};

/// A store of objects in the folder `objects` of a folder: one file an object, whose name is the object's number as 16
/// lower-case hex digits. It doesn't tell what it holds. It counts its failures and its misses.
#[derive(Drop)]
pub struct FolderBlocks<R: Files + AllocGlobal + Clone + Drop> {
    rt: R,
    alloc: Global,
    folder: String,
    faults: u64,
    misses: u64,
    missed: u64,
}

impl<R: Files + AllocGlobal + Clone + Drop> FolderBlocks<R> {
    /// The store of the folder `objects` in this folder. Folders that aren't there are made.
    pub fn at(rt: R, alloc: Global, folder: &Text) -> Result<FolderBlocks<R>, Trouble>
        ensures { IfOk result (λ blocks. (blocks.faults ≡ 0) × (blocks.misses ≡ 0)) }
    {
        let objects = Path::new(folder.as_str()).join(alloc, "objects")?;
        if make_folder(&rt, folder.as_str(), objects.as_str()).is_err() {
            return Err(Trouble::Failed);
        }
        let folder = String::from_str(alloc, objects.as_str())?;
        Ok(FolderBlocks {
            rt,
            alloc,
            folder,
            faults: 0,
            misses: 0,
            missed: 0,
        })
    }
}

// Makes the folder of objects, and waits until the disk has its name.
fn make_folder<R: Files>(rt: &R, folder: &str, objects: &str) -> io::Result<()> {
    fs::create_dir_all(rt, objects)?;
    settle_folder(rt, folder)
}

// Of an error in reading: want of memory, or a failure.
fn trouble_of(error: Error) -> Trouble {
    match error.kind() {
        ErrorKind::OutOfMemory => Trouble::NoMemory,
        _ => Trouble::Failed,
    }
}

impl<R: Files + AllocGlobal + Clone + Drop> FolderBlocks<R> {
    // The path of an object's file.
    fn path_of(&self, number: u64) -> Result<String, NoMemory>
        ensures { IfOk result (λ path. string_bytes path ≡ string_bytes self.now.folder ++ 47 ∷ object_name number) }
    {
        let name = name_of(self.alloc, number)?;
        let mut path = String::from_str(self.alloc, self.folder.as_str())?;
        path.push('/')?;
        path.push_str(name.as_str())?;
        Ok(path)
    }

    // A refused call, which is counted where it is a failure.
    fn refused<T>(&mut self, trouble: Trouble) -> Result<T, Trouble>
        ensures cause { FailsByFault self.old.faults self.new.faults result }
        ensures same { result ≡ Err trouble }
        ensures counted { self.new ≡ record self.old { faults = failures_after result self.old.faults } }
    {
        if trouble == Trouble::Failed {
            self.faults = self.faults.saturating_add(1);
        }
        Err(trouble)
    }
}

impl<R: Files + AllocGlobal + Clone + Drop> Blocks for FolderBlocks<R> {
    ghost use Rattle.std.specs.Prelude.{None};

    ghost held = { λ _. None };

    ghost faults = { λ blocks. blocks.faults };

    ghost misses = { λ blocks. blocks.misses };

    ghost missed = { λ blocks. blocks.missed };

    fn put(&mut self, number: u64, bytes: &[u8]) -> Result<(), Trouble>
        ensures cause { FailsByFault self.old.faults self.new.faults result }
        ensures counted { self.new ≡ record self.old { faults = failures_after result self.old.faults } }
    {
        let path = self.path_of(number)?;
        let mut draft = String::from_str(self.alloc, path.as_str())?;
        draft.push_str(".new")?;
        match write_whole(
            &self.rt,
            self.folder.as_str(),
            draft.as_str(),
            path.as_str(),
            bytes,
        ) {
            Ok(()) => Ok(()),
            Err(_) => self.refused(Trouble::Failed),
        }
    }

    fn get(&mut self, number: u64) -> Result<Option<Vec<u8>>, Trouble>
        ensures cause { FailsByFault self.old.faults self.new.faults result }

        ensures miss { IfOk result (λ got. IfNone got (Misses number self.old.misses self.new.misses self.new.missed)) }
        ensures later { self.old.misses ≤ self.new.misses }
        ensures counted { self.new ≡ record self.old {
          faults = failures_after result self.old.faults;
          misses = misses_after result self.old.misses;
          missed = missed_after number result self.old.missed;
        } }
    {
        let path = self.path_of(number)?;
        match read_whole(&self.rt, self.alloc, path.as_str()) {
            Ok(bytes) => Ok(Some(bytes)),
            Err(error) if error.kind() == ErrorKind::NotFound => {
                self.misses = self.misses.saturating_add(1);
                self.missed = number;
                Ok(None)
            }
            Err(error) => self.refused(trouble_of(error)),
        }
    }

    fn remove(&mut self, number: u64) -> Result<bool, Trouble>
        ensures cause { FailsByFault self.old.faults self.new.faults result }
        ensures counted { self.new ≡ record self.old { faults = failures_after result self.old.faults } }
    {
        let path = self.path_of(number)?;
        match remove(&self.rt, path.as_str()) {
            Ok(was) => Ok(was),
            Err(_) => self.refused(Trouble::Failed),
        }
    }

    fn list(&mut self) -> Result<Vec<u64>, Trouble>
        ensures ascending { IfOk result (λ numbers. IsStrictlyIncreasing numbers.items) }
        ensures cause { FailsByFault self.old.faults self.new.faults result }
        ensures counted { self.new ≡ record self.old { faults = failures_after result self.old.faults } }
    {
        match numbers_in(&self.rt, self.alloc, self.folder.as_str()) {
            Ok(numbers) => Ok(numbers),
            Err(error) => self.refused(trouble_of(error)),
        }
    }
}
