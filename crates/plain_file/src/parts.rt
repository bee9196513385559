//! The parts that an open reader keeps of its file.
use crate::pieces::Pieces;
use plfs_types::{CoverList, Sequence, TruncList};

/// The host of a writer.
#[derive(Clone, Copy, Debug, PartialEq, Eq)]
pub struct WriterHost {
    pub writer: u64,
    pub host: u32,
}

/// A list of writers' hosts.
pub type HostList = Sequence<WriterHost>;

/// What an open reader keeps: where the bytes of its file lie.
#[derive(Drop)]
pub struct ReaderParts {
    /// The container's room.
    pub room: u64,
    /// The pieces of the file.
    pub pieces: Pieces,
    /// The size of the file.
    pub size: u64,
    /// How many entries of each writer are in it.
    pub covers: CoverList,
    /// The truncates that are in it.
    pub truncs: TruncList,
    /// The host of each writer that has a dropping.
    pub hosts: HostList,
}
