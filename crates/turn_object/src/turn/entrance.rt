//! Where the callers of a turn wait until they may take a ticket.

use std::hint::spin_loop;
use std::sync::Wait;
use std::sync::atomic::{AtomicBool, AtomicU64, Ordering};
use std::thread;

// How often a caller looks before it sleeps. A look takes 10 to 60 nanoseconds, so all of them last longer than most calls.
const LOOKS: u32 = 4000;

const LOOKS_A_YIELD: u32 = 100;

// What a sleeper counts that was told to wake, and has not come yet. One that was not told counts 1.
const COMING: u64 = 1 << 32;

/// Lets one caller in at a time. Of those that wait one looks, again and again, whether nobody is inside; the others sleep. Nobody is woken while one looks, so that
/// callers of short calls come in one after the other without the system's help; and who comes back soon may be let in before one that sleeps, since nobody
/// would be inside until the sleeper is awake. While one that was told to wake has not come, no other is told.
#[derive(Drop)]
pub(crate) struct Entrance {
    is_taken: AtomicBool,
    is_watched: AtomicBool,
    sleepers: AtomicU64,
    wakes: AtomicU64,
}

impl Entrance {
    /// An entrance with nobody inside.
    pub(crate) fn new() -> Entrance {
        Entrance {
            is_taken: AtomicBool::new(false),
            is_watched: AtomicBool::new(false),
            sleepers: AtomicU64::new(0),
            wakes: AtomicU64::new(0),
        }
    }

    /// Waits until nobody is inside, and goes in.
    pub(crate) fn enter<W: Wait>(&self, rt: &W) {
        for _ in rt.forever() {
            if self.try_enter() || self.watch() {
                return;
            }
            self.sleep(rt);
        }
        unreachable!()
    }

    /// Goes out, and tells one of those that sleep to wake, unless another looks or one is coming.
    pub(crate) fn leave<W: Wait>(&self, rt: &W) {
        self.is_taken.store(false, Ordering::SeqCst);
        if !self.is_watched.load(Ordering::SeqCst) && self.tell_one(rt) {
            self.wakes.fetch_add(1, Ordering::SeqCst);
            self.wakes.wake_one();
        }
    }

    // Whether it went in, since nobody was inside.
    fn try_enter(&self) -> bool {
        !self.is_taken.swap(true, Ordering::SeqCst)
    }

    // Whether it went in while it looked. It doesn't look where another does.
    fn watch(&self) -> bool {
        if self.is_watched.swap(true, Ordering::SeqCst) {
            return false;
        }
        let mut has_entered = false;
        for look in 1..=LOOKS {
            if !self.is_taken.load(Ordering::SeqCst) && self.try_enter() {
                has_entered = true;
                break;
            }
            if look % LOOKS_A_YIELD == 0 {
                thread::yield_now();
            } else {
                spin_loop();
            }
        }
        self.is_watched.store(false, Ordering::SeqCst);
        has_entered
    }

    // Sleeps until it is told to wake. Whoever is inside once this caller counts as a sleeper tells one as it leaves, or another looks, who comes in or counts itself and
    // looks once more; or one is coming, who does the same. A wake after the count was read ends the sleep before it begins.
    fn sleep<W: Wait>(&self, rt: &W) {
        self.sleepers.fetch_add(1, Ordering::SeqCst);
        for _ in rt.forever() {
            let wakes = self.wakes.load(Ordering::SeqCst);
            let is_free = !self.is_taken.load(Ordering::SeqCst);
            if self.has_risen(rt, is_free) {
                return;
            }
            self.wakes.park(rt, (wakes & 0xffff_ffff) as u32);
        }
        unreachable!()
    }

    // Whether one of those that sleep counts as told now. It does where one sleeps and none is coming.
    fn tell_one<W: Wait>(&self, rt: &W) -> bool {
        for _ in rt.forever() {
            let count = self.sleepers.load(Ordering::SeqCst);
            if count == 0 || COMING <= count {
                return false;
            }
            if self.replace(count, count - 1 + COMING) {
                return true;
            }
        }
        unreachable!()
    }

    // Whether a sleeper has stopped counting as one. It does where one was told, and else where nobody is inside.
    fn has_risen<W: Wait>(&self, rt: &W, is_free: bool) -> bool {
        for _ in rt.forever() {
            let count = self.sleepers.load(Ordering::SeqCst);
            let rest = if COMING <= count {
                count - COMING
            } else if is_free && 0 < count {
                count - 1
            } else {
                return false;
            };
            if self.replace(count, rest) {
                return true;
            }
        }
        unreachable!()
    }

    fn replace(&self, count: u64, with: u64) -> bool {
        self.sleepers
            .compare_exchange(count, with, Ordering::SeqCst, Ordering::SeqCst)
            .is_ok()
    }
}
