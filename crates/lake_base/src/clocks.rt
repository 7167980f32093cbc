//! Clocks that give fixed moments, for tests and for runs without a system's clock.
ghost use Rattle.std.specs.Prelude.{◌≡◌, ◌<◌, ◌+◌, ◌++◌, ◌∷◌, [], length, IfSome, IsSome};
ghost use Rattle.lake_base.specs.Memory.{next_count};
ghost use Rattle.lake_base.specs.Outside.{last_count};
ghost use Rattle.lake_base.specs.Clocks.{fixed_readings, script_readings, moment_after};

use crate::outside::Clock;
use std::marker::Model;

/// A clock that stands still: it always gives one moment.
#[derive(Debug, Drop)]
pub struct FixedClock {
    at: u64,
    given: u64,
}

impl Model for FixedClock {
    ghost use Rattle.lake_base.specs.Clocks.{FixedClockValue};

    ghost Value = { FixedClockValue };

    ghost view = { λ clock. record { at = clock.at; given = clock.given } };
}

impl FixedClock {
    /// A clock that always gives this moment. It takes no memory.
    pub fn new(at: u64) -> FixedClock
        ensures { result ≡ record { at = at; given = 0 } }
    {
        FixedClock { at, given: 0 }
    }
}

impl Clock for FixedClock {
    ghost readings = { fixed_readings };

    fn now(&mut self) -> u64
        ensures reading { IfSome (fixed_readings self.new) (λ now. IfSome (fixed_readings self.old)
            (λ before. now ≡ before ++ result ∷ [])) }
        ensures told { IfSome (fixed_readings self.new) (λ _. IsSome (fixed_readings self.old)) }
        ensures kept { IfSome (fixed_readings self.old)
            (λ before. length before + 1 < last_count → IsSome (fixed_readings self.new)) }

        // It gives its moment, also where the readings are no longer told.
        ensures moment { result ≡ self.old.at }
        ensures counted { self.new ≡ record self.old { given = next_count self.old.given } }
    {
        self.given = self.given.saturating_add(1);
        self.at
    }
}

/// A clock that gives moments in turn.
#[derive(Debug, Drop)]
pub struct ScriptClock {
    moments: Vec<u64>,
    given: u64,
}

impl Model for ScriptClock {
    ghost use Rattle.lake_base.specs.Clocks.{ScriptClockValue};

    ghost Value = { ScriptClockValue };

    ghost view = { λ clock. record { moments = clock.moments.items; given = clock.given } };
}

impl ScriptClock {
    /// A clock that gives these moments in turn, and then the last again; 0 where there is none.
    /// It takes no memory.
    pub fn new(moments: Vec<u64>) -> ScriptClock
        ensures { result ≡ record { moments = moments.items; given = 0 } }
    {
        ScriptClock { moments, given: 0 }
    }
}

// The reading after so many.
fn moment_after(moments: &[u64], given: u64) -> u64
    ensures { result ≡ moment_after moments.now given }
{
    let Some(last) = moments.len().checked_sub(1) else {
        return 0;
    };
    if given < last as u64 {
        moments[given as usize]
    } else {
        moments[last]
    }
}

impl Clock for ScriptClock {
    ghost readings = { script_readings };

    fn now(&mut self) -> u64
        ensures reading { IfSome (script_readings self.new) (λ now. IfSome (script_readings self.old)
            (λ before. now ≡ before ++ result ∷ [])) }
        ensures told { IfSome (script_readings self.new) (λ _. IsSome (script_readings self.old)) }
        ensures kept { IfSome (script_readings self.old)
            (λ before. length before + 1 < last_count → IsSome (script_readings self.new)) }

        // It goes on in turn, also where the readings are no longer told.
        ensures moment { result ≡ moment_after self.old.moments self.old.given }
        ensures counted { self.new ≡ record self.old { given = next_count self.old.given } }
    {
        let moment = moment_after(self.moments.as_slice(), self.given);
        self.given = self.given.saturating_add(1);
        moment
    }
}
