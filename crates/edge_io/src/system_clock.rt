//! The system's clock. What the system tells is trusted.
ghost use Rattle.std.specs.Prelude.{◌≡◌};
ghost use Rattle.edge_io.specs.Clock.{nanoseconds_in, capped, times_of};

use crate::clock::Clock;
use crate::since::{RuntimeTime, Since1970};
use std::io;
use std::time::{self, Duration};

/// A clock over readings of the time since 1970. Its times are the readings in nanoseconds, at most 2^64 - 1, and 0
/// where a reading gives no time.
#[derive(Drop)]
pub struct SystemClock<T> {
    readings: T,
}

impl<T: Since1970> SystemClock<T> {
    /// The clock of these readings.
    pub fn of(readings: T) -> SystemClock<T>
        ensures { result.readings ≡ readings }
    {
        SystemClock { readings }
    }
}

impl<R: time::Clock> SystemClock<RuntimeTime<R>> {
    /// The clock of this runtime. It tells no times.
    pub fn new(runtime: R) -> SystemClock<RuntimeTime<R>>
        ensures { result.readings.runtime ≡ runtime }
    {
        SystemClock::of(RuntimeTime::new(runtime))
    }
}

impl<T: Since1970> Clock for SystemClock<T> {
    ghost times = { λ clock. times_of (T.readings clock.readings) };

    fn now(&mut self) -> u64 {
        nanoseconds(self.readings.read())
    }
}

// A reading in nanoseconds, at most 2^64 - 1, or 0 where there is none.
fn nanoseconds(since: io::Result<Duration>) -> u64
    ensures { result ≡ capped (nanoseconds_in since) }
{
    match since {
        Ok(since) => u64::try_from(since.as_nanos()).unwrap_or(u64::MAX),
        Err(_) => 0,
    }
}
