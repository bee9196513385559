//! What is read of a container.
use plfs_types::{Cover, CoverList, EntryList, Sequence, TruncList};

/// A container that is read, and what is known of it.
#[derive(Drop)]
pub struct Known {
    /// The container's room.
    pub room: u64,
    /// Whether the entries that are read are kept, or only counted.
    pub keeps: bool,
    /// The entries that aren't read again.
    pub covers: CoverList,
}

/// What was read of a writer.
#[derive(Drop)]
pub struct WriterRead {
    pub host: u32,
    pub writer: u64,
    /// It counts all entries of the writer.
    pub cover: Cover,
    /// Its entries behind those that were known, where they are kept.
    pub entries: EntryList,
}

/// A list of what was read of writers.
pub type WriterReadList = Sequence<WriterRead>;

/// What was read of a container.
#[derive(Drop)]
pub struct Contained {
    /// The container's room.
    pub room: u64,
    /// Its writers that have an index dropping, by ascending id.
    pub writers: WriterReadList,
    /// Its truncates, by rising stamp.
    pub truncs: TruncList,
}
