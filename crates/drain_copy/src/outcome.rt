//! What a drain comes to.
use mount_model::Stuck;
use plfs_types::Name;

/// What a drain wrote.
#[derive(Clone, Copy, PartialEq, Eq)]
pub struct Drained {
    /// Of how many writers it wrote entries.
    pub writers: u64,
    /// How many entries it wrote.
    pub entries: u128,
    /// How many bytes it wrote to their logs.
    pub bytes: u128,
}

/// Why a drain ended before it was through.
#[derive(Clone, Copy, PartialEq, Eq)]
pub enum DrainStuck {
    /// The first trouble of a call at the source.
    Source(Stuck),
    /// The target failed.
    TargetFault,
    /// This file of the target has, at this byte, what no sound container has there, or the target gave an answer that no sound
    /// one gives there, which has place 0.
    TargetDamaged {
        folder: Name,
        file: Name,
        place: u64,
    },
    /// The writer has a metadata dropping at the target, where so many of its entries are, and more of them at the source.
    Taken {
        writer: u64,
        there: u64,
        here: u64,
    },
}
