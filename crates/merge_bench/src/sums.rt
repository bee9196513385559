//! Checksums of what was made, in which the order counts, and numbers that look like chance.

use plain_file::Piece;
use read_plan::Part;

/// The checksum of nothing.
pub const START: u64 = 0xcbf2_9ce4_8422_2325;

/// The checksum with one number more.
pub(crate) fn with(sum: u64, number: u64) -> u64 {
    (sum ^ number).wrapping_mul(0x100_0000_01b3)
}

/// The checksum of the pieces, field by field.
pub(crate) fn of_pieces(pieces: &[Piece]) -> u64 {
    let mut sum = START;
    for piece in pieces {
        sum = with(sum, piece.at);
        sum = with(sum, piece.len);
        sum = with(sum, piece.physical);
        sum = with(sum, piece.stamp);
        sum = with(sum, piece.writer);
    }
    sum
}

/// The checksum with the parts of a read.
pub(crate) fn with_parts(before: u64, parts: &[Part]) -> u64 {
    let mut sum = before;
    for part in parts {
        match part {
            Part::Hole { len } => sum = with(sum, *len),
            Part::From {
                writer,
                physical,
                len,
            } => sum = with(with(with(sum, *writer), *physical), *len),
        }
    }
    sum
}

/// The bytes of the pieces.
pub(crate) fn bytes_of(pieces: &[Piece]) -> u64 {
    let mut bytes = 0u64;
    for piece in pieces {
        bytes = bytes.saturating_add(piece.len);
    }
    bytes
}

/// The next of a fixed row of numbers that look like chance, each below 2^31.
pub(crate) fn next_of(seed: &mut u64) -> u64 {
    *seed = seed
        .wrapping_mul(6364136223846793005)
        .wrapping_add(1442695040888963407);
    *seed >> 33
}
