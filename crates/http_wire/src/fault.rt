//! Why a message isn't read.
ghost use Rattle.std.specs.Prelude.{◌≡◌};

use lake_base::NoMemory;
use std::alloc::{AllocError, AllocFailed};
use thiserror::Error;

/// Why a message isn't read. The faults that its bytes show come in this order: HeadTooLong, Ended and an end inside
/// the head, BadHead, Chunked, BadLength, BodyTooLong, an end inside the body.
#[derive(Clone, Copy, Debug, PartialEq, Eq, Drop, Error)]
pub enum WireFault {
    /// The source ended before a first byte.
    #[error("the source ended")]
    Ended,
    /// The source ended behind so many bytes of the message.
    #[error("the message ends after {0} bytes")]
    Truncated(u64),
    /// 16,384 bytes are there, and no head ends in them.
    #[error("head too long")]
    HeadTooLong,
    /// The head isn't one of HTTP/1.0 or 1.1 with at most 64 fields (RFC 9112, sections 2 to 5).
    #[error("bad head")]
    BadHead,
    /// The body comes in a coding, which isn't read.
    #[error("chunked body")]
    Chunked,
    /// There are two lengths, or one that isn't 1 to 19 digits.
    #[error("bad length")]
    BadLength,
    /// The body is to have so many bytes, which is above the limit.
    #[error("a body of {0} bytes is too long")]
    BodyTooLong(u64),
    /// The source failed, and counted it.
    #[error("the source failed")]
    ReadFault,
    /// No memory was left.
    #[error("out of memory")]
    NoMemory,
}

impl From<AllocError> for WireFault {
    ghost use Rattle.http_wire.specs.declared.fault.WireFault.TheVariants.{NoMemory as no_memory};

    ghost from_gives = { λ _ e. e ≡ no_memory };

    fn from(_: AllocError) -> Self {
        WireFault::NoMemory
    }
}

impl<T: Drop> From<AllocFailed<T>> for WireFault {
    ghost use Rattle.http_wire.specs.declared.fault.WireFault.TheVariants.{NoMemory as no_memory};

    ghost from_gives = { λ _ e. e ≡ no_memory };

    fn from(_: AllocFailed<T>) -> Self {
        WireFault::NoMemory
    }
}

impl From<NoMemory> for WireFault {
    ghost use Rattle.http_wire.specs.declared.fault.WireFault.TheVariants.{NoMemory as no_memory};

    ghost from_gives = { λ _ e. e ≡ no_memory };

    fn from(_: NoMemory) -> Self {
        WireFault::NoMemory
    }
}
