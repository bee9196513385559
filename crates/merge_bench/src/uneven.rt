//! Pieces of lengths that look like chance.

use crate::strided::BLOCK;
use crate::sums::next_of;
use plain_file::{Piece, PieceList, Pieces};
use plfs_types::NoMemory;
use std::alloc::Global;

/// So many pieces one behind the other, each of its own write and of 1 byte up to two blocks.
pub(crate) fn uneven(alloc: Global, count: u64) -> Result<Pieces, NoMemory> {
    let mut list = PieceList::new(alloc);
    let mut seed = 1983;
    let mut at = 0u64;
    for i in 0..count {
        let len = next_of(&mut seed) % (2 * BLOCK) + 1;
        list.push(Piece {
            at,
            len,
            physical: at,
            stamp: i.saturating_add(1),
            writer: 0,
        })?;
        at = at.saturating_add(len);
    }
    match Pieces::read(list) {
        Ok(pieces) => Ok(pieces),
        // They end within the greatest file, so they are pieces.
        Err(_) => Err(NoMemory),
    }
}
