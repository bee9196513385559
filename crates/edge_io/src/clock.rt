//! The contract of a clock.
ghost use Rattle.std.specs.Prelude.{ℕ, List, Option};
ghost use Rattle.edge_io.specs.Clock.{Ticks};

/// A clock.
pub trait Clock {
    /// The times to come, where it tells them.
    ghost times: { Self → Option (List ℕ) };

    /// The time, in nanoseconds. A told clock gives its times in order, the last one for ever, and 0 where
    /// there is none.
    fn now(&mut self) -> u64
        ensures { Ticks (times self.old) (times self.new) result };
}
