//! What stands outside the lake: sources, sinks and clocks.
ghost use Rattle.std.specs.Prelude.{◌≡◌, ◌≤◌, ◌<◌, ◌+◌, ◌++◌, ◌∷◌, [], ℕ, List, Option, length, take};
ghost use Rattle.std.specs.Prelude.{IfOk, IfSome, IsSome, OnErr};
ghost use Rattle.lake_base.specs.Outside.{HasCause, Reads, Takes, last_count};
ghost use Rattle.lake_base.specs.declared.outside.Trouble.TheVariants.{NoMemory as trouble_no_memory};

use std::alloc::{AllocError, AllocFailed};

/// An object of the outside failed, and counted it.
#[derive(Clone, Copy, Debug, PartialEq, Eq)]
pub struct Failed;

/// No memory was left.
#[derive(Clone, Copy, Debug, PartialEq, Eq)]
pub struct NoMemory;

impl From<AllocError> for NoMemory {
    fn from(_: AllocError) -> Self {
        NoMemory
    }
}

impl<T: Drop> From<AllocFailed<T>> for NoMemory {
    fn from(_: AllocFailed<T>) -> Self {
        NoMemory
    }
}

/// Why a call on an object that keeps things failed: by the object, which counted it, or for memory.
#[derive(Clone, Copy, Debug, PartialEq, Eq)]
pub enum Trouble {
    Failed,
    NoMemory,
}

impl From<AllocError> for Trouble {
    ghost from_gives = { λ _ e. e ≡ trouble_no_memory };

    fn from(_: AllocError) -> Self {
        Trouble::NoMemory
    }
}

impl<T: Drop> From<AllocFailed<T>> for Trouble {
    ghost from_gives = { λ _ e. e ≡ trouble_no_memory };

    fn from(_: AllocFailed<T>) -> Self {
        Trouble::NoMemory
    }
}

impl From<NoMemory> for Trouble {
    ghost from_gives = { λ _ e. e ≡ trouble_no_memory };

    fn from(_: NoMemory) -> Self {
        Trouble::NoMemory
    }
}

/// Where bytes come from.
pub trait Source: Drop {
    /// The bytes that are left, where the source tells them.
    ghost left: { Self → Option (List ℕ) };

    /// How often it has failed.
    ghost faults: { Self → ℕ };

    /// Reads the next bytes into the front of the room, and answers how many. In a room that isn't
    /// empty, 0 means the end. A failed read takes nothing.
    fn read(&mut self, room: &mut [u8]) -> Result<usize, Failed>
        ensures within { IfOk result (λ n. n ≤ length room.old) }
        ensures reads { IfOk result
            (λ n. IfSome (left self.old) (λ bytes. Reads bytes (left self.new) room.old room.new n)) }
        ensures failed { OnErr result (left self.new ≡ left self.old) }
        ensures cause { HasCause (faults self.old) (faults self.new) result };
}

/// Where bytes go.
pub trait Sink: Drop {
    /// The bytes that were written, where the sink tells them.
    ghost written: { Self → Option (List ℕ) };

    /// How often it has failed.
    ghost faults: { Self → ℕ };

    /// Writes a front of the bytes, and answers how many: at least one, where there is one.
    /// A failed write takes nothing.
    fn write(&mut self, bytes: &[u8]) -> Result<usize, Failed>
        ensures takes { IfOk result (Takes (length bytes.now)) }
        ensures written { IfOk result
            (λ n. IfSome (written self.old) (λ before. written self.new ≡ Some (before ++ take n bytes.now))) }
        ensures failed { OnErr result (written self.new ≡ written self.old) }
        ensures cause { HasCause (faults self.old) (faults self.new) result };
}

/// What tells the time. It can't fail.
pub trait Clock: Drop {
    /// The readings given so far, where the clock tells them.
    ghost readings: { Self → Option (List ℕ) };

    /// Seconds since 1970, 0 before that.
    fn now(&mut self) -> u64
        ensures reading { IfSome (readings self.new)
            (λ now. IfSome (readings self.old) (λ before. now ≡ before ++ result ∷ [])) }
        ensures told { IfSome (readings self.new) (λ _. IsSome (readings self.old)) }

        // A clock that tells its readings goes on telling them, as long as their count isn't at its end.
        ensures kept { IfSome (readings self.old)
            (λ before. length before + 1 < last_count → IsSome (readings self.new)) };
}
