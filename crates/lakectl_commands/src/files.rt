//! The files that commands read and write.
ghost use Rattle.std.specs.Prelude.{◌≡◌, ℕ, Option, Some, IfOk, OnOk, OnErr, IfSome, option_map, is_some};
ghost use Rattle.std.specs.FinMap.{get, insert};
ghost use Rattle.block_store.specs.Blocks.{FailsByFault};
ghost use Rattle.lakectl_commands.specs.HeldFiles.{HeldFiles, KeepsOthers};

use lake_base::{Text, Trouble};

/// Files, each under its name. They may tell contracts what they hold. Failures are counted.
pub trait Files: Drop {
    /// The files that are there, where that is told.
    ghost files: { Self → Option HeldFiles };

    /// How often a call has failed.
    ghost faults: { Self → ℕ };

    /// The bytes of a file. None where there is no such file.
    fn read_file(&mut self, name: &Text) -> Result<Option<Vec<u8>>, Trouble>
        ensures read { IfOk result (λ read. IfSome (files self.old)
            (λ before. option_map (λ bytes. bytes.items) read ≡ get before name.now)) }
        ensures files { files self.new ≡ files self.old }
        ensures cause { FailsByFault (faults self.old) (faults self.new) result };

    /// Writes a file, in place of what stood under its name. After a refusal that file may hold anything, or not be
    /// there.
    fn write_file(&mut self, name: &Text, bytes: &[u8]) -> Result<(), Trouble>
        ensures written { OnOk result (IfSome (files self.old)
            (λ before. files self.new ≡ Some (insert before name.now bytes.now))) }
        ensures failed { OnErr result (IfSome (files self.old)
            (λ before. IfSome (files self.new) (KeepsOthers name.now before))) }
        ensures told { is_some (files self.new) ≡ is_some (files self.old) }
        ensures cause { FailsByFault (faults self.old) (faults self.new) result };
}
