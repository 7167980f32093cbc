//! Why a pair spells nothing.
ghost use Rattle.std.specs.Prelude.{◌≡◌};
ghost use Rattle.pair_format.specs.declared.fault.PairFault.TheVariants.{NoMemory as pair_no_memory};

use lake_base::outside::NoMemory;
use thiserror::Error;

/// Why a pair spells nothing: the first fault, of the key before the value. The place is where the innermost field
/// begins that is short, bad or one too many, counted from 0 in the key or in the value: a number, a digest, a count,
/// a text with its length, a flag.
#[derive(Clone, Copy, Debug, PartialEq, Eq, Error)]
pub enum PairFault {
    /// The key, at this place. A key of no bytes, and one of an unknown first byte, have their fault at 0.
    #[error("the key is no key at byte {0}")]
    Key(usize),
    /// The value, at this place.
    #[error("the value is no value of its key at byte {0}")]
    Value(usize),
    /// No memory was left.
    #[error("out of memory")]
    NoMemory,
}

impl From<NoMemory> for PairFault {
    ghost from_gives = { λ _ e. e ≡ pair_no_memory };

    fn from(_: NoMemory) -> Self {
        PairFault::NoMemory
    }
}
