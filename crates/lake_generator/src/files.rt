//! Files, of which there are none.
ghost use Rattle.std.specs.Prelude.{Some};
ghost use Rattle.std.specs.FinMap.{empty};

use lake_base::{Text, Trouble};
use lakectl_commands::Files;

/// Files, of which there are none, and for which there is no room.
#[derive(Clone, Copy, Debug, Drop)]
pub(crate) struct NoFiles;

impl Files for NoFiles {
    ghost files = { λ _. Some empty };

    ghost faults = { λ _. 0 };

    fn read_file(&mut self, _name: &Text) -> Result<Option<Vec<u8>>, Trouble> {
        Ok(None)
    }

    fn write_file(&mut self, _name: &Text, _bytes: &[u8]) -> Result<(), Trouble> {
        Err(Trouble::NoMemory)
    }
}
