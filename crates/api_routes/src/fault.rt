//! Why a request is no call.
ghost use Rattle.std.specs.Prelude.{◌≡◌};
ghost use Rattle.api_routes.specs.FormSteps.{IsFault};
ghost use Rattle.api_routes.specs.declared.fault.FormFault.TheVariants.{NoMemory as form_no_memory};
ghost use Rattle.lake_calls.specs.declared.reply.FormRefusal.TheVariants.{Missing, BadValue};

use lake_base::{NoMemory, Text};
use lake_calls::FormRefusal;
use std::alloc::{AllocError, AllocFailed, Global};

/// Why a request is no call.
#[derive(Debug, Drop)]
pub enum FormFault {
    /// The first refusal of its form.
    Refused(FormRefusal),
    /// No memory was left.
    NoMemory,
}

impl From<NoMemory> for FormFault {
    ghost from_gives = { λ _ fault. fault ≡ form_no_memory };

    fn from(_: NoMemory) -> FormFault {
        FormFault::NoMemory
    }
}

impl From<AllocError> for FormFault {
    ghost from_gives = { λ _ fault. fault ≡ form_no_memory };

    fn from(_: AllocError) -> FormFault {
        FormFault::NoMemory
    }
}

impl<T: Drop> From<AllocFailed<T>> for FormFault {
    ghost from_gives = { λ _ fault. fault ≡ form_no_memory };

    fn from(_: AllocFailed<T>) -> FormFault {
        FormFault::NoMemory
    }
}

/// The query's key or the body's field of this name is missing; or no memory was left.
pub fn missing(alloc: Global, key: &str) -> FormFault
    ensures { IsFault result (Missing key.now) }
{
    match String::from_str(alloc, key) {
        Ok(key) => FormFault::Refused(FormRefusal::Missing(Text::of(key))),
        Err(_) => FormFault::NoMemory,
    }
}

/// The value of this name is bad; or no memory was left.
pub fn bad_value(alloc: Global, key: &str) -> FormFault
    ensures { IsFault result (BadValue key.now) }
{
    match String::from_str(alloc, key) {
        Ok(key) => FormFault::Refused(FormRefusal::BadValue(Text::of(key))),
        Err(_) => FormFault::NoMemory,
    }
}
