//! A clock that gives the times of a list.
ghost use Rattle.std.specs.Prelude.{◌≡◌, Some};
ghost use Rattle.edge_io.specs.Clock.{first_time, later_times};

use crate::clock::Clock;
use plfs_types::IdList;
use std::marker::Model;

/// Times, in nanoseconds.
pub type ClockList = IdList;

/// A clock that gives the times of a list in order, and then the last one for ever; 0 where there is none.
/// In contracts it is the list of the times to come.
#[derive(Drop)]
pub struct ListClock {
    values: ClockList,
    at: usize,
}

impl Model for ListClock {
    ghost use Rattle.std.specs.Prelude.{◌≤◌, ◌-◌, ℕ, List, length, drop};

    ghost Value = { List ℕ };

    ghost view = { λ c. drop c.at c.values };

    ghost invariant = { λ c. c.at ≤ length c.values - 1 };
}

impl ListClock {
    /// A clock of these times.
    pub fn new(values: ClockList) -> ListClock
        ensures { result ≡ values }
    {
        ListClock { values, at: 0 }
    }
}

impl Clock for ListClock {
    ghost times = { λ clock. Some clock };

    fn now(&mut self) -> u64
        ensures time { result ≡ first_time self.old }
        ensures later { self.new ≡ later_times self.old }
    {
        let Some(time) = self.values.as_slice().get(self.at).copied() else {
            return 0;
        };
        if self.at + 1 < self.values.as_slice().len() {
            self.at += 1;
        }
        time
    }
}
