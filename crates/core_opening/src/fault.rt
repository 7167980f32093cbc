//! Why a lake wasn't read from pairs.
ghost use Rattle.std.specs.Prelude.{◌≡◌};
ghost use Rattle.core_opening.specs.declared.fault.OpeningFault.TheVariants.{NoMemory as opening_no_memory};

use lake_base::NoMemory;
use lake_values::CommitId;
use meta_range::TreeFault;

/// Why a lake wasn't read from pairs.
#[derive(Debug, Drop)]
pub enum OpeningFault {
    /// The pair of this number, in the order of keys from 0, isn't of a form or breaks a tie, and no pair before it
    /// does; 0 where no pair has the key of the counts.
    BadPair(u64),
    /// No pair is broken, and this is the first commit, in the order of keys, whose tree isn't read.
    Tree { commit: CommitId, fault: TreeFault },
    /// No memory was left.
    NoMemory,
}

impl From<NoMemory> for OpeningFault {
    ghost from_gives = { λ _ e. e ≡ opening_no_memory };

    fn from(_: NoMemory) -> Self {
        OpeningFault::NoMemory
    }
}
