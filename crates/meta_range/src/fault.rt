//! Why bytes aren't a metarange, and why files aren't those of a tree.
ghost use Rattle.std.specs.Prelude.{◌≡◌};
ghost use Rattle.meta_range.specs.Metarange.{fault_of};
ghost use Rattle.meta_range.specs.TreeReading.{of_metarange, of_range};
ghost use Rattle.meta_range.specs.declared.fault.MetaFault.TheVariants.{NoMemory as meta_no_memory};
ghost use Rattle.meta_range.specs.declared.fault.TreeFault.TheVariants.{NoMemory as tree_no_memory};

use lake_base::digest::Digest;
use lake_base::outside::NoMemory;
use lake_format::FieldFault;
use range_file::RangeFault;
use std::alloc::AllocFailed;
use thiserror::Error;

/// Why bytes aren't a metarange: the first fault from the left. Ranges are numbered from 0.
#[derive(Clone, Copy, Debug, PartialEq, Eq, Error)]
pub enum MetaFault {
    /// The first byte is this, and not 1.
    #[error("version {0} is unknown")]
    Version(u8),
    /// The input, of so many bytes, ends inside a field.
    #[error("the input ends inside a field, after {0} bytes")]
    Truncated(usize),
    /// A field of what is said of this range is outside its limits: a count of 0, a path that isn't one, a first
    /// path that isn't above the last path before, or a last path below the first.
    #[error("range {0} is outside its limits")]
    BadRange(usize),
    /// So many bytes follow the last range.
    #[error("{0} bytes follow the last range")]
    Trailing(usize),
    /// No memory was left.
    #[error("out of memory")]
    NoMemory,
}

/// Why files aren't those of a tree: the first fault, of the metarange, then of each range in order, and last of
/// the cut. Ranges are numbered from 0.
#[derive(Clone, Copy, Debug, PartialEq, Eq, Error)]
pub enum TreeFault {
    /// No file of this name is given.
    #[error("a file is missing")]
    Missing(Digest),
    /// The file of this name has other bytes, whose SHA-256 was found.
    #[error("a file is damaged")]
    Damaged { named: Digest, found: Digest },
    /// The file of the metarange isn't one.
    #[error("the metarange is bad: {0}")]
    BadMeta(MetaFault),
    /// The file of this range isn't one.
    #[error("range {range} is bad: {fault}")]
    Bad { range: usize, fault: RangeFault },
    /// This range hasn't the count of rows, the first or the last path that the metarange tells.
    #[error("range {0} is not the one that the metarange tells of")]
    Mismatch(usize),
    /// This range, the first such, isn't the one that the cut gives.
    #[error("range {0} is not cut so")]
    NotCut(usize),
    /// No memory was left.
    #[error("out of memory")]
    NoMemory,
}

impl From<NoMemory> for MetaFault {
    ghost from_gives = { λ _ e. e ≡ meta_no_memory };

    fn from(_: NoMemory) -> Self {
        MetaFault::NoMemory
    }
}

impl<T: Drop> From<AllocFailed<T>> for MetaFault {
    ghost from_gives = { λ _ e. e ≡ meta_no_memory };

    fn from(_: AllocFailed<T>) -> Self {
        MetaFault::NoMemory
    }
}

impl From<NoMemory> for TreeFault {
    ghost from_gives = { λ _ e. e ≡ tree_no_memory };

    fn from(_: NoMemory) -> Self {
        TreeFault::NoMemory
    }
}

impl<T: Drop> From<AllocFailed<T>> for TreeFault {
    ghost from_gives = { λ _ e. e ≡ tree_no_memory };

    fn from(_: AllocFailed<T>) -> Self {
        TreeFault::NoMemory
    }
}

// What the fault of a field of this range is to an input of `len` bytes.
pub(crate) fn fault_of(fault: FieldFault, len: usize, range: usize) -> MetaFault
    ensures { result ≡ fault_of len range fault }
{
    match fault {
        FieldFault::Short { .. } => MetaFault::Truncated(len),
        FieldFault::Bad { .. } => MetaFault::BadRange(range),
        FieldFault::NoMemory => MetaFault::NoMemory,
    }
}

// What the fault of the metarange is to the tree.
pub(crate) fn of_metarange(fault: MetaFault) -> TreeFault
    ensures { result ≡ of_metarange fault }
{
    match fault {
        MetaFault::NoMemory => TreeFault::NoMemory,
        fault => TreeFault::BadMeta(fault),
    }
}

// What the fault of this range is to the tree.
pub(crate) fn of_range(fault: RangeFault, range: usize) -> TreeFault
    ensures { result ≡ of_range range fault }
{
    match fault {
        RangeFault::NoMemory => TreeFault::NoMemory,
        fault => TreeFault::Bad { range, fault },
    }
}
