//! How a run ends whose folder isn't opened.
ghost use Rattle.std.specs.Prelude.{◌≡◌};
ghost use Rattle.folder_lakes.specs.FolderStatus.{status_by, status_of_trouble};

use crate::fault::FolderFault;
use batch_lines::ExitStatus;
use lake_base::Trouble;

/// The status of a run whose folder isn't opened.
pub fn status_by(fault: FolderFault) -> ExitStatus
    ensures { result ≡ status_by fault }
{
    match fault {
        FolderFault::Failed => ExitStatus::HostFailed,
        FolderFault::Refused => ExitStatus::PairsRefused,
        FolderFault::NoMemory => ExitStatus::OutOfMemory,
    }
}

/// The status of a run that found no store of objects, no file, or no memory.
pub fn status_of_trouble(trouble: Trouble) -> ExitStatus
    ensures { result ≡ status_of_trouble trouble }
{
    match trouble {
        Trouble::Failed => ExitStatus::HostFailed,
        Trouble::NoMemory => ExitStatus::OutOfMemory,
    }
}
