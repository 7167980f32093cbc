//! Why a lake wasn't founded.
ghost use Rattle.std.specs.Prelude.{◌≡◌};
ghost use Rattle.lake_core.specs.declared.open_fault.OpenFault.TheVariants.{NoMemory as open_no_memory};

use lake_base::{NoMemory, Trouble};

/// Why a lake wasn't founded.
#[derive(Debug, Drop)]
pub enum OpenFault {
    /// The keeper failed.
    StoreFault,
    /// No memory was left.
    NoMemory,
}

impl From<NoMemory> for OpenFault {
    ghost from_gives = { λ _ e. e ≡ open_no_memory };

    fn from(_: NoMemory) -> Self {
        OpenFault::NoMemory
    }
}

impl From<Trouble> for OpenFault {
    ghost use Rattle.lake_core.specs.OpenFaults.{open_fault_of};

    ghost from_gives = { λ trouble e. e ≡ open_fault_of trouble };

    fn from(trouble: Trouble) -> Self {
        match trouble {
            Trouble::Failed => OpenFault::StoreFault,
            Trouble::NoMemory => OpenFault::NoMemory,
        }
    }
}
