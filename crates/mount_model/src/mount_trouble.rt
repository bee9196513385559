//! Why a store could not be mounted.
use plfs_types::Name;

/// Why a store could not be mounted.
#[derive(Clone, Copy)]
pub enum MountTrouble {
    /// Of the names among the marks this is the least one in byte order that is no number of 1 to 2^32 - 1.
    Damaged { file: Name },
    /// The greatest mark is 2^32 - 1.
    Spent,
    /// The store answered what no store with a folder of marks does.
    NoMarks,
    /// The store failed.
    Fault,
    /// Memory was refused.
    NoMemory,
}
