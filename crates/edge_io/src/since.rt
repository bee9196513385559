//! Readings of the time since 1970.
ghost use Rattle.std.specs.Prelude.{◌≡◌, ℕ, List, Option, None};
ghost use Rattle.edge_io.specs.Clock.{Ticks, nanoseconds_in};

use std::io;
use std::time::{self, Duration};

/// What is read for the time that has passed since 1970.
pub trait Since1970 {
    /// The readings to come, in nanoseconds, where it tells them. A reading that gives no time is 0.
    ghost readings: { Self → Option (List ℕ) };

    /// The time since 1970, or the error of a system that gives none. Told readings come in order, the last one
    /// for ever.
    fn read(&mut self) -> io::Result<Duration>
        ensures { Ticks (readings self.old) (readings self.new) (nanoseconds_in result) };
}

/// The readings of a runtime, which tells none. What the system does is trusted.
#[derive(Drop)]
pub struct RuntimeTime<R> {
    runtime: R,
}

impl<R: time::Clock> RuntimeTime<R> {
    /// The readings of this runtime.
    pub fn new(runtime: R) -> RuntimeTime<R>
        ensures { result.runtime ≡ runtime }
    {
        RuntimeTime { runtime }
    }
}

impl<R: time::Clock> Since1970 for RuntimeTime<R> {
    ghost readings = { λ _. None };

    fn read(&mut self) -> io::Result<Duration> {
        self.runtime.since_1970()
    }
}
