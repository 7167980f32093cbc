//! Why a merge gives no changes.
ghost use Rattle.std.specs.Prelude.{◌≡◌};
ghost use Rattle.key_merge.specs.declared.fault.MergeFault.TheVariants.{NoMemory as merge_no_memory};

use lake_base::names::Path;
use lake_base::outside::NoMemory;
use lake_base::sequence::Sequence;
use std::alloc::AllocFailed;
use thiserror::Error;

/// Why a merge gives no changes.
#[derive(Debug, Drop, Error)]
pub enum MergeFault {
    /// There is no strategy, and paths conflict: the least 100 of them, in ascending order, and how many there are.
    #[error("{total} paths conflict")]
    Conflicts { paths: Sequence<Path>, total: u64 },
    /// No memory was left.
    #[error("out of memory")]
    NoMemory,
}

impl From<NoMemory> for MergeFault {
    ghost from_gives = { λ _ e. e ≡ merge_no_memory };

    fn from(_: NoMemory) -> Self {
        MergeFault::NoMemory
    }
}

impl<T: Drop> From<AllocFailed<T>> for MergeFault {
    ghost from_gives = { λ _ e. e ≡ merge_no_memory };

    fn from(_: AllocFailed<T>) -> Self {
        MergeFault::NoMemory
    }
}
