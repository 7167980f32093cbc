//! Why a lake wasn't opened.
ghost use Rattle.std.specs.Prelude.{◌≡◌};
ghost use Rattle.lake_opening.specs.OpenFaults.{of_founding, of_reading, of_trouble};

use core_opening::OpeningFault;
use lake_base::Trouble;
use lake_core::OpenFault as FoundingFault;
use lake_values::CommitId;
use meta_range::TreeFault;

/// Why a lake wasn't opened.
#[derive(Debug, Drop)]
pub enum OpenFault {
    /// The keeper failed.
    StoreFault,
    /// The pair of this number, in the order of keys from 0, isn't of a form or breaks a tie, and no pair before it
    /// does; 0 where no pair has the key of the counts.
    BadPair(u64),
    /// No pair is broken, and this is the first commit, in the order of keys, whose tree isn't read.
    Tree { commit: CommitId, fault: TreeFault },
    /// No memory was left.
    NoMemory,
}

impl From<Trouble> for OpenFault {
    ghost from_gives = { λ trouble e. e ≡ of_trouble trouble };

    fn from(trouble: Trouble) -> Self {
        match trouble {
            Trouble::Failed => OpenFault::StoreFault,
            Trouble::NoMemory => OpenFault::NoMemory,
        }
    }
}

impl From<OpeningFault> for OpenFault {
    ghost from_gives = { λ fault e. e ≡ of_reading fault };

    fn from(fault: OpeningFault) -> Self {
        match fault {
            OpeningFault::BadPair(number) => OpenFault::BadPair(number),
            OpeningFault::Tree { commit, fault } => OpenFault::Tree { commit, fault },
            OpeningFault::NoMemory => OpenFault::NoMemory,
        }
    }
}

impl From<FoundingFault> for OpenFault {
    ghost from_gives = { λ fault e. e ≡ of_founding fault };

    fn from(fault: FoundingFault) -> Self {
        match fault {
            FoundingFault::StoreFault => OpenFault::StoreFault,
            FoundingFault::NoMemory => OpenFault::NoMemory,
        }
    }
}
