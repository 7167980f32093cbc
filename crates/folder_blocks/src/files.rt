//! What is done to the files of a folder.
ghost use Rattle.std.specs.Prelude.{◌≡◌, IfOk};
ghost use Rattle.std.specs.Ordering.{nat_cmp};
ghost use Rattle.std.specs.BTreeSet.{IsOrdered};
ghost use Rattle.std.specs.List.Sorted.{IsStrictlyIncreasing};

use crate::names::number_of;
use std::alloc::{AllocError, Global};
use std::collections::BTreeSet;
use std::fs::OpenFile;
use std::io::{ErrorKind, Read, Write};
use std::rt::Files;
use std::{fs, io};

// Writes a draft, and then gives it its name. What had the name goes first, so that it stands for all of the bytes or
// for nothing. A draft that can't be finished is taken away.
pub(crate) fn write_whole<R: Files>(
    rt: &R,
    folder: &str,
    draft: &str,
    name: &str,
    bytes: &[u8],
) -> io::Result<()> {
    remove(rt, name)?;
    match write_draft(rt, draft, bytes) {
        Ok(()) => {}
        Err(error) => {
            let _ = fs::remove_file(rt, draft);
            return Err(error);
        }
    }
    fs::rename(rt, draft, name)?;
    settle_folder(rt, folder)
}

// Writes a file and waits until the disk has it.
fn write_draft<R: Files>(rt: &R, draft: &str, bytes: &[u8]) -> io::Result<()> {
    let mut file = fs::create(rt, draft)?;
    file.write_all(bytes)?;
    file.sync_all()
}

// Waits until the disk has the names in a folder.
pub(crate) fn settle_folder<R: Files>(rt: &R, folder: &str) -> io::Result<()> {
    fs::open(rt, folder)?.sync_all()
}

// The bytes of a file.
pub(crate) fn read_whole<R: Files>(rt: &R, alloc: Global, name: &str) -> io::Result<Vec<u8>> {
    let mut file = fs::open(rt, name)?;
    let mut bytes = Vec::new(alloc);
    file.read_to_end(&mut bytes)?;
    Ok(bytes)
}

// Takes a file away, and answers whether it was there.
pub(crate) fn remove<R: Files>(rt: &R, name: &str) -> io::Result<bool> {
    match fs::remove_file(rt, name) {
        Ok(()) => Ok(true),
        Err(error) if error.kind() == ErrorKind::NotFound => Ok(false),
        Err(error) => Err(error),
    }
}

// The numbers whose files stand in a folder, ascending. Other names are passed over.
pub(crate) fn numbers_in<R: Files + AllocGlobal + Clone + Drop>(
    rt: &R,
    alloc: Global,
    folder: &str,
) -> io::Result<Vec<u64>>
    ensures { IfOk result (λ numbers. IsStrictlyIncreasing numbers.items) }
{
    let mut numbers = BTreeSet::new(alloc);
    for entry in fs::read_dir(rt, folder)? {
        match entry {
            Ok(entry) => if let Some(number) = number_of(entry.file_name().as_bytes()) {
                numbers.insert(number)?;
            },
            // A name that is no text is none of ours.
            Err(error) if error.kind() == ErrorKind::InvalidFilename => {}
            Err(error) => return Err(error),
        }
    }
    Ok(ascending(alloc, &numbers)?)
}

// The numbers of a set, ascending.
fn ascending(alloc: Global, numbers: &BTreeSet<u64>) -> Result<Vec<u64>, AllocError>
    ensures numbers { IfOk result (λ all. all.items ≡ numbers.now.keys) }
    ensures ordered { IsOrdered nat_cmp numbers.now }
{
    numbers.iter().copied().collect(alloc)
}
