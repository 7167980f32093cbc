//! Why a folder isn't opened.
ghost use Rattle.std.specs.Prelude.{◌≡◌};
ghost use Rattle.folder_lakes.specs.FolderFaults.{of_opening, of_trouble};

use lake_base::Trouble;
use lake_opening::OpenFault;

/// Why a folder isn't opened.
#[derive(Clone, Copy, Debug, PartialEq, Eq)]
pub enum FolderFault {
    /// What opens folders failed, or the keeper of its pairs did.
    Failed,
    /// Its pairs are those of no lake.
    Refused,
    /// No memory was left.
    NoMemory,
}

impl From<Trouble> for FolderFault {
    ghost from_gives = { λ trouble e. e ≡ of_trouble trouble };

    fn from(trouble: Trouble) -> Self {
        match trouble {
            Trouble::Failed => FolderFault::Failed,
            Trouble::NoMemory => FolderFault::NoMemory,
        }
    }
}

impl From<OpenFault> for FolderFault {
    ghost from_gives = { λ fault e. e ≡ of_opening fault };

    fn from(fault: OpenFault) -> Self {
        match fault {
            OpenFault::StoreFault => FolderFault::Failed,
            OpenFault::BadPair(_) => FolderFault::Refused,
            OpenFault::Tree { .. } => FolderFault::Refused,
            OpenFault::NoMemory => FolderFault::NoMemory,
        }
    }
}
