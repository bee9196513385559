//! A flattened index as bytes.
ghost use Rattle.std.specs.Prelude.{◌≡◌, ◌++◌, IfOk, OnOk};
ghost use Rattle.std.specs.List.{flat_map};
ghost use Rattle.flat_format.specs.Spelling.{cover_spelling, piece_spelling, flat_spelling};

use crate::flat::{Flat, LETTERS};
use index_entry::push_number;
use plain_file::Piece;
use plfs_types::{Bytes, Cover, NoMemory};
use std::alloc::Global;

/// The bytes of this flattened index. It needs not be valid: who gathered a container that keeps no rule has one too.
pub fn encode(alloc: Global, index: &Flat) -> Result<Bytes, NoMemory>
    ensures { IfOk result (λ bytes. bytes ≡ flat_spelling index.now) }
{
    let covers = index.covers.as_slice();
    let pieces = index.pieces.as_slice();
    let mut bytes = Vec::with_capacity(alloc, size_of(covers.len(), pieces.len()))?;
    bytes.extend_from_slice(&LETTERS)?;
    push_number(&mut bytes, covers.len() as u64)?;
    push_number(&mut bytes, pieces.len() as u64)?;
    push_covers(&mut bytes, covers)?;
    push_pieces(&mut bytes, pieces)?;
    Ok(Bytes::from_vec(bytes))
}

/// How many bytes a flattened index of so many covers and pieces has, or more than there can be.
fn size_of(covers: usize, pieces: usize) -> usize {
    let pieces = pieces.saturating_mul(40);
    covers
        .saturating_mul(32)
        .saturating_add(pieces)
        .saturating_add(24)
}

fn push_covers(bytes: &mut Vec<u8>, covers: &[Cover]) -> Result<(), NoMemory>
    ensures { OnOk result (bytes.new.items ≡ bytes.old.items ++ flat_map cover_spelling covers.now) }
{
    for cover in covers {
        push_cover(bytes, cover)?;
    }
    Ok(())
}

fn push_cover(bytes: &mut Vec<u8>, cover: &Cover) -> Result<(), NoMemory>
    ensures { OnOk result (bytes.new.items ≡ bytes.old.items ++ cover_spelling cover.now) }
{
    let numbers = [
        cover.writer.to_le_bytes(),
        cover.count.to_le_bytes(),
        cover.bytes.to_le_bytes(),
        cover.stamp.to_le_bytes(),
    ];
    bytes.extend_from_slice(numbers.as_flattened())?;
    Ok(())
}

fn push_pieces(bytes: &mut Vec<u8>, pieces: &[Piece]) -> Result<(), NoMemory>
    ensures { OnOk result (bytes.new.items ≡ bytes.old.items ++ flat_map piece_spelling pieces.now) }
{
    for piece in pieces {
        push_piece(bytes, piece)?;
    }
    Ok(())
}

fn push_piece(bytes: &mut Vec<u8>, piece: &Piece) -> Result<(), NoMemory>
    ensures { OnOk result (bytes.new.items ≡ bytes.old.items ++ piece_spelling piece.now) }
{
    let numbers = [
        piece.at.to_le_bytes(),
        piece.len.to_le_bytes(),
        piece.physical.to_le_bytes(),
        piece.stamp.to_le_bytes(),
        piece.writer.to_le_bytes(),
    ];
    bytes.extend_from_slice(numbers.as_flattened())?;
    Ok(())
}
