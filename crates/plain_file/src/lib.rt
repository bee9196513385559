//! Changes of a file, the plain file that they make, and the pieces that it is read from.
//!
//! The crate owns what a file's content means: all writes and truncates in the order of their
//! stamps, applied to an empty file. It also owns the question that stands for that content byte by
//! byte, which write is the newest here, and the list of pieces that answers it. Its laws tie the
//! file, the newest writes and the pieces together. It stands on `plfs_types` alone.
#![tactic(auto)]

mod changes;
mod laws;
mod parts;
mod pieces;

pub use changes::{Change, ChangeList, Rank, replay};
pub use laws::{
    clipped_pieces, merged_pieces, newest_shows, pieces_are_one, pieces_clipped_before,
    pieces_end_within, pieces_lie_in_logs, pieces_name_bytes, size_is_from_clipped_pieces,
    size_is_from_pieces,
};
pub use parts::{HostList, ReaderParts, WriterHost};
pub use pieces::{Piece, PieceList, Pieces};
