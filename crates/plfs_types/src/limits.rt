//! The limits of a container and of a run, each with its unit.

/// The greatest size of a logical file, and the greatest end of a write, in bytes.
pub const MAX_SIZE: u64 = 1 << 40;

/// The most bytes of one writer's log.
pub const MAX_LOG: u64 = 1 << 56;

/// The greatest stamp, in nanoseconds.
pub const MAX_STAMP: u64 = (1 << 63) - 1;

/// The latest time of a clock that a stamp is taken from, in nanoseconds. A clock that shows a later one counts as
/// showing this, so that stamps have room above it.
pub const MAX_TIME: u64 = 1 << 62;

/// The bytes of an index entry.
pub const ENTRY_SIZE: usize = 40;

/// The most entries of an index dropping that are read at once.
pub const ENTRIES_A_READ: u64 = 4096;

/// The most entries that a packed index holds.
pub const MAX_PACKED: u64 = 1 << 20;

/// The most bytes that are read at once of a packed or flattened index, and of a file that is written out.
pub const MAX_PIECE: u64 = 1 << 20;

/// The most bytes of a script.
pub const MAX_SCRIPT: usize = 1 << 20;
