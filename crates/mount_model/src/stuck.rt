//! What a machine ends with where a call did not do what it was made for.
use crate::reply::Refusal;
use plfs_types::Name;

/// The first trouble that a machine met.
#[derive(Clone, Copy, PartialEq, Eq)]
pub enum Stuck {
    /// The store failed.
    Fault,
    /// This file has, at this byte, what no sound container has there. A missing file, a foreign name and a reply that
    /// tells of damage have place 0.
    Damaged {
        folder: Name,
        file: Name,
        place: u64,
    },
    /// The mount refused a call.
    Refused(Refusal),
}
