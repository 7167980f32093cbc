//! Why bytes aren't the file of a range.
ghost use Rattle.std.specs.Prelude.{◌≡◌};
ghost use Rattle.range_file.specs.RangeReading.{fault_of};
ghost use Rattle.range_file.specs.declared.fault.RangeFault.TheVariants.{NoMemory as range_no_memory};

use lake_base::outside::NoMemory;
use lake_format::FieldFault;
use std::alloc::AllocFailed;
use thiserror::Error;

/// Why bytes aren't the file of a range: the first fault from the left. Rows are numbered from 0.
#[derive(Clone, Copy, Debug, PartialEq, Eq, Error)]
pub enum RangeFault {
    /// The first byte is this, and not 1.
    #[error("version {0} is unknown")]
    Version(u8),
    /// The input, of so many bytes, ends inside a field.
    #[error("the input ends inside a field, after {0} bytes")]
    Truncated(usize),
    /// The count of rows is 0.
    #[error("there is no row")]
    Empty,
    /// A field of this row is outside its limits.
    #[error("row {0} is outside its limits")]
    BadRow(usize),
    /// The path of this row isn't above the path of the row before.
    #[error("row {0} is out of order")]
    Order(usize),
    /// So many bytes follow the last row.
    #[error("{0} bytes follow the last row")]
    Trailing(usize),
    /// No memory was left.
    #[error("out of memory")]
    NoMemory,
}

impl From<NoMemory> for RangeFault {
    ghost from_gives = { λ _ e. e ≡ range_no_memory };

    fn from(_: NoMemory) -> Self {
        RangeFault::NoMemory
    }
}

impl<T: Drop> From<AllocFailed<T>> for RangeFault {
    ghost from_gives = { λ _ e. e ≡ range_no_memory };

    fn from(_: AllocFailed<T>) -> Self {
        RangeFault::NoMemory
    }
}

// What a field's fault is to an input of `len` bytes, where `bad` tells that the field is outside its limits.
pub(crate) fn fault_of(fault: FieldFault, len: usize, bad: RangeFault) -> RangeFault
    ensures { result ≡ fault_of len bad fault }
{
    match fault {
        FieldFault::Short { .. } => RangeFault::Truncated(len),
        FieldFault::Bad { .. } => bad,
        FieldFault::NoMemory => RangeFault::NoMemory,
    }
}
