//! The values of a command, each of its kind.
ghost use Rattle.std.specs.Prelude.{◌≡◌, IfOk, map};
ghost use Rattle.lakectl_verbs.specs.UsageSteps.{IsUsed};
ghost use Rattle.lakectl_verbs.specs.ReadWords.{value_seen};
ghost use Rattle.lakectl_sent.specs.OptionValues.{fits};
ghost use Rattle.lakectl_sent.specs.SentMessages.{check_of};

use crate::metadata::metadata_of;
use crate::number::number_of;
use lake_base::NoMemory;
use lakectl_verbs::{Kind, UsageFault, Value, bad_value};
use std::alloc::Global;

// Whether a value is of its argument's kind.
fn fits(alloc: Global, value: &Value<'_>) -> Result<bool, NoMemory>
    ensures { IfOk result (λ fit. fit ≡ fits (value_seen value.now)) }
{
    match value.argument.kind {
        Kind::Any => Ok(true),
        Kind::Number => Ok(number_of(value.text).is_some()),
        Kind::Meta => Ok(metadata_of(alloc, value.text)?.is_some()),
        Kind::Uri(_) => Ok(true),
    }
}

/// Each value is of its kind; else the fault of the first that isn't.
pub(crate) fn check_of(alloc: Global, values: &[Value<'_>]) -> Result<(), UsageFault>
    ensures { IsUsed (λ done. done) result (check_of (map value_seen values.now)) }
{
    for value in values {
        if !fits(alloc, value)? {
            return Err(bad_value(alloc, value.argument.name));
        }
    }
    Ok(())
}
