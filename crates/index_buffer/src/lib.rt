//! The index entries of a writer that have not landed yet, encoded as they come.
//!
//! A write is told to its index dropping later than to its log: its entry waits here until many go out
//! as one step. The crate owns the pending entries: contracts see them as a list with the greatest
//! number of them, and what lies in memory is their 40 bytes each, one entry behind the other, so that
//! they are handed on without a copy. It stands on `index_entry`, which owns the bytes of an entry, and
//! on `plfs_types`.
#![tactic(auto)]

mod buffer;

pub use buffer::Buffer;
