//! Who is told how far a check is.

/// Who is told how far a check is. It promises nothing.
pub trait Watcher {
    /// So many of all rooms have been checked. It comes before each room, and behind the last one.
    fn checked(&mut self, rooms: u64, all: u64);
}

/// One that does nothing.
#[derive(Clone, Copy)]
pub struct NoWatcher;

impl Watcher for NoWatcher {
    fn checked(&mut self, _rooms: u64, _all: u64) {}
}
