//! How far a check is, on standard error where that is a terminal.
ghost use Rattle.std.specs.Prelude.{◌≡◌};

use check_program::Watcher;
use std::io::IsTerminal;
use system_edge::hundredths;

/// How far a check is, in a line that each new one overwrites. It is cleared behind the last container.
#[derive(Clone, Copy)]
pub struct Progress<'a> {
    rt: &'a HostRuntime,
    is_shown: bool,
    // The hundredths of all containers that were told last, and one more.
    told: u64,
}

impl<'a> Progress<'a> {
    /// It is shown where standard error is a terminal.
    pub fn new(rt: &'a HostRuntime) -> Progress<'a>
        ensures { result.told ≡ 0 }
    {
        Progress {
            rt,
            is_shown: rt.stderr().is_terminal(),
            told: 0,
        }
    }
}

impl<'a> Watcher for Progress<'a> {
    fn checked(&mut self, rooms: u64, all: u64) {
        if !self.is_shown {
            return;
        }
        let rt = self.rt;
        if all <= rooms {
            let _ = eprint!(rt; "\x1b[K");
            return;
        }
        let now = hundredths(rooms, all) + 1;
        if now != self.told {
            self.told = now;
            let _ = eprint!(rt; "{rooms} of {all}\x1b[K\r");
        }
    }
}
