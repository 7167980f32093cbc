//! The real files, as thin as can be. They tell contracts nothing of what they hold, since no contract can say what a
//! file holds.
ghost use Rattle.std.specs.Prelude.{◌≡◌};
ghost use Rattle.block_store.specs.Blocks.{FailsByFault};

use lake_base::{Text, Trouble};
use lakectl_commands::Files;
use std::alloc::Global;
use std::io::{self, Error, ErrorKind, Read, Write};
use std::{fs, rt};

/// The files of the machine, each under its path. A failed call is counted, unless it found no memory.
#[derive(Drop)]
pub struct StdFiles<'a, R: rt::Files> {
    rt: &'a R,
    alloc: Global,
    faults: u64,
}

impl<'a, R: rt::Files> StdFiles<'a, R> {
    /// The files that a runtime reaches.
    pub fn new(rt: &'a R, alloc: Global) -> StdFiles<'a, R>
        ensures { result.faults ≡ 0 }
    {
        StdFiles {
            rt,
            alloc,
            faults: 0,
        }
    }

    // A call that came to an error, which is counted where it is no want of memory.
    fn refused<T>(&mut self, error: Error) -> Result<T, Trouble>
        ensures { FailsByFault self.old.faults self.new.faults result }
    {
        match error.kind() {
            ErrorKind::OutOfMemory => Err(Trouble::NoMemory),
            _ => {
                self.faults = self.faults.saturating_add(1);
                Err(Trouble::Failed)
            }
        }
    }
}

// The bytes of a file.
fn read_whole<R: rt::Files>(rt: &R, alloc: Global, name: &str) -> io::Result<Vec<u8>> {
    let mut file = fs::open(rt, name)?;
    let mut bytes = Vec::new(alloc);
    file.read_to_end(&mut bytes)?;
    Ok(bytes)
}

// Makes a file, or empties it, and writes bytes to it.
fn write_whole<R: rt::Files>(rt: &R, name: &str, bytes: &[u8]) -> io::Result<()> {
    let mut file = fs::create(rt, name)?;
    file.write_all(bytes)
}

impl<'a, R: rt::Files> Files for StdFiles<'a, R> {
    ghost use Rattle.std.specs.Prelude.{None};

    ghost files = { λ _. None };

    ghost faults = { λ files. files.faults };

    fn read_file(&mut self, name: &Text) -> Result<Option<Vec<u8>>, Trouble> {
        match read_whole(self.rt, self.alloc, name.as_str()) {
            Ok(bytes) => Ok(Some(bytes)),
            Err(error) if error.kind() == ErrorKind::NotFound => Ok(None),
            Err(error) => self.refused(error),
        }
    }

    fn write_file(&mut self, name: &Text, bytes: &[u8]) -> Result<(), Trouble> {
        match write_whole(self.rt, name.as_str(), bytes) {
            Ok(()) => Ok(()),
            Err(error) => self.refused(error),
        }
    }
}
