//! Files in memory.
ghost use Rattle.std.specs.Prelude.{◌≡◌, false, IfErr, IfOk, IsErrOf, IsTrue, OnErr, OnOk, option_map};
ghost use Rattle.std.specs.FinMap as map;
ghost use Rattle.lake_base.specs.declared.outside.Trouble.TheVariants.{Failed as trouble_failed};
ghost use Rattle.lake_base.specs.declared.outside.Trouble.TheVariants.{NoMemory as trouble_no_memory};
ghost use Rattle.block_store.specs.Blocks.{FailsByFault};
ghost use Rattle.lakectl_commands.specs.HeldFiles.{KeepsOthers};
ghost use Rattle.lake_base.specs.Troubles.{failures_after};
ghost use Rattle.memory_machine.specs.FilesInMemory.{is_refused};

use crate::names::FileName;
use byte_map::ByteMap;
use lake_base::{Sequence, Text, Trouble, TryCopy};
use lakectl_commands::Files;
use std::alloc::Global;
use std::marker::Model;

/// Files in memory. Those of some names can't be written.
#[derive(Drop)]
pub struct MemoryFiles {
    alloc: Global,
    files: ByteMap<FileName, Sequence<u8>>,
    refused: Vec<Text>,
    faults: u64,
}

impl Model for MemoryFiles {
    ghost use Rattle.memory_machine.specs.FilesInMemory.{MemoryFilesValue, memory_files_code};

    ghost Value = { MemoryFilesValue };

    ghost coded = { memory_files_code };

    ghost view = { λ files. record {
      files = files.files;
      refused = files.refused.items;
      faults = files.faults;
    } };
}

impl MemoryFiles {
    /// No files. Those of these names can't be written. It takes no memory.
    pub fn new(alloc: Global, refused: Vec<Text>) -> MemoryFiles
        ensures { result ≡ record { files = map.empty; refused = refused.items; faults = 0 } }
    {
        MemoryFiles {
            alloc,
            files: ByteMap::new(alloc),
            refused,
            faults: 0,
        }
    }
}

impl Files for MemoryFiles {
    ghost use Rattle.std.specs.Prelude.{Some};

    ghost files = { λ files. Some files.files };

    ghost faults = { λ files. files.faults };

    fn read_file(&mut self, name: &Text) -> Result<Option<Vec<u8>>, Trouble>
        ensures read { IfOk result
            (λ read. option_map (λ bytes. bytes.items) read ≡ map.get self.old.files name.now) }
        ensures files { self.new.files ≡ self.old.files }
        ensures cause { FailsByFault self.old.faults self.new.faults result }

        // It fails for memory alone, and changes nothing.
        ensures sure { IfErr result (λ trouble. trouble ≡ trouble_no_memory) }
        ensures unchanged { self.new ≡ self.old }
    {
        let key = FileName::of(name.copy(self.alloc)?);
        match self.files.get(&key) {
            Some(bytes) => Ok(Some(Vec::from_slice(self.alloc, bytes.as_slice())?)),
            None => Ok(None),
        }
    }

    fn write_file(&mut self, name: &Text, bytes: &[u8]) -> Result<(), Trouble>
        ensures written { OnOk result (self.new.files ≡ map.insert self.old.files name.now bytes.now) }
        ensures failed { OnErr result (KeepsOthers name.now self.old.files self.new.files) }
        ensures cause { FailsByFault self.old.faults self.new.faults result }

        // It fails just where the name is one of those that can't be written, and else for memory alone. Then no file
        // changes.
        ensures refused { IsTrue (is_refused name.now self.old.refused) → IsErrOf result trouble_failed }
        ensures sure { is_refused name.now self.old.refused ≡ false
            → IfErr result (λ trouble. trouble ≡ trouble_no_memory) }
        ensures unchanged { OnErr result (self.new.files ≡ self.old.files) }

        ensures counted { self.new ≡ record self.old {
          files = self.new.files;
          faults = failures_after result self.old.faults;
        } }
    {
        if self.refused.contains(name) {
            self.faults = self.faults.saturating_add(1);
            return Err(Trouble::Failed);
        }
        let key = FileName::of(name.copy(self.alloc)?);
        let copy = Vec::from_slice(self.alloc, bytes)?;
        self.files.insert(key, Sequence::of(copy))?;
        Ok(())
    }
}
