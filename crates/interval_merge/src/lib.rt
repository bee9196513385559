//! The pieces of many writers as one list.
//!
//! The crate owns the way from index entries to the pieces of a file without asking for the newest
//! write byte by byte: one writer's entries become pieces, lists of pieces are merged in pairs, and
//! truncates cut the whole afterwards. Each step is proved to give what that question would give.
//! It stands on `plain_file`, which owns the question, and on `plfs_types`.
#![tactic(auto)]

mod clipping;
mod length;
mod memory;
mod room;
mod sweep;
mod threads;
mod tournament;
mod writer;

pub use clipping::clip;
pub use length::{last_of, size, wrote_after};
pub use memory::give_back;
pub use sweep::merge;
pub use threads::merge_on;
pub use tournament::{PiecesList, merge_all};
pub use writer::of_writer;
