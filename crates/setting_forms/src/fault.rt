//! Why a value isn't a setting.
ghost use Rattle.std.specs.Prelude.{◌≡◌};
ghost use Rattle.setting_forms.specs.declared.fault.RuleFault.TheVariants.{NoMemory as rule_no_memory};

use lake_base::outside::NoMemory;
use lake_base::text::Text;
use std::alloc::{AllocError, AllocFailed};

/// The first fault of a setting. Rules are numbered from 0. A field that stands outside the list of rules has
/// the rule number 0.
#[derive(Debug, Drop)]
pub enum RuleFault {
    /// It is no list.
    NotList,
    /// The rule of this number is no object.
    NotObject(usize),
    /// This field of this rule is missing, of another kind, or out of range.
    Field { rule: usize, name: Text },
    /// The list has this many rules, which are more than 256.
    TooMany(usize),
    /// No memory was left.
    NoMemory,
}

impl From<NoMemory> for RuleFault {
    ghost from_gives = { λ _ fault. fault ≡ rule_no_memory };

    fn from(_: NoMemory) -> RuleFault {
        RuleFault::NoMemory
    }
}

impl From<AllocError> for RuleFault {
    ghost from_gives = { λ _ fault. fault ≡ rule_no_memory };

    fn from(_: AllocError) -> RuleFault {
        RuleFault::NoMemory
    }
}

impl<T: Drop> From<AllocFailed<T>> for RuleFault {
    ghost from_gives = { λ _ fault. fault ≡ rule_no_memory };

    fn from(_: AllocFailed<T>) -> RuleFault {
        RuleFault::NoMemory
    }
}
