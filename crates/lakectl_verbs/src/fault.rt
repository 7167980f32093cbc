//! Why words are no command.
ghost use Rattle.std.specs.Prelude.{◌≡◌, ◌⊎◌};
ghost use Rattle.lakectl_verbs.specs.UsageSteps.{IsUsageFault};
ghost use Rattle.lakectl_verbs.specs.declared.fault.UsageFault.TheVariants.{NoMemory as usage_no_memory};
ghost use Rattle.lakectl_verbs.specs.declared.fault.UsageFault.TheVariants.{Value as usage_value};

use lake_base::{NoMemory, Text};
use std::alloc::{AllocError, AllocFailed, Global};

/// The first fault of a line of words.
#[derive(Debug, Drop)]
pub enum UsageFault {
    /// No noun follows the user.
    NoCommand,
    /// The noun, or the noun with its verb, isn't in the table.
    Unknown,
    /// Nothing follows `--user`; the verb's simple command doesn't take the rest; or options are given that exclude
    /// each other.
    Words,
    /// A URI hasn't just the parts that its command takes, or has an empty one; or two URIs name two repositories.
    Uri,
    /// The value of this name isn't of its kind.
    Value(Text),
    /// No memory was left.
    NoMemory,
}

impl From<NoMemory> for UsageFault {
    ghost from_gives = { λ _ fault. fault ≡ usage_no_memory };

    fn from(_: NoMemory) -> UsageFault {
        UsageFault::NoMemory
    }
}

impl From<AllocError> for UsageFault {
    ghost from_gives = { λ _ fault. fault ≡ usage_no_memory };

    fn from(_: AllocError) -> UsageFault {
        UsageFault::NoMemory
    }
}

impl<T: Drop> From<AllocFailed<T>> for UsageFault {
    ghost from_gives = { λ _ fault. fault ≡ usage_no_memory };

    fn from(_: AllocFailed<T>) -> UsageFault {
        UsageFault::NoMemory
    }
}

/// The value of this name is bad; or no memory was left.
pub fn bad_value(alloc: Global, name: &str) -> UsageFault
    ensures { IsUsageFault result (usage_value name.now) }
{
    match String::from_str(alloc, name) {
        Ok(name) => UsageFault::Value(Text::of(name)),
        Err(_) => UsageFault::NoMemory,
    }
}
