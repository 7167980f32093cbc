//! The system's clock, as thin as can be. It tells contracts nothing of its readings, since no contract can say what
//! time it is.

use lake_base::Clock;
use std::time;
use std::time::SystemTime;

/// The system's clock. A moment before 1970, or one that can't be told, is 0.
#[derive(Drop)]
pub struct SystemClock<'a, R: time::Clock> {
    rt: &'a R,
}

impl<'a, R: time::Clock> SystemClock<'a, R> {
    /// The clock of a runtime.
    pub fn new(rt: &'a R) -> SystemClock<'a, R> {
        SystemClock { rt }
    }
}

impl<'a, R: time::Clock> Clock for SystemClock<'a, R> {
    ghost use Rattle.std.specs.Prelude.{None};

    ghost readings = { λ _. None };

    fn now(&mut self) -> u64 {
        let Ok(time) = SystemTime::now(self.rt) else {
            return 0;
        };
        match time.duration_since(SystemTime::UNIX_EPOCH) {
            Ok(since) => since.as_secs(),
            Err(_) => 0,
        }
    }
}
