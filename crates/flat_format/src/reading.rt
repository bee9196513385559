//! A flattened index from bytes.
ghost use Rattle.std.specs.Prelude.{◌≡◌, ◌≤◌, ◌+◌, ◌*◌, ◌⊎◌, ◌++◌, [], ◌∷◌, ℕ, length, drop, Ok, Err, IfOk, IfErr, IfSome, IfNone};
ghost use Rattle.index_entry.specs.Spelling.{number_in};
ghost use Rattle.index_entry.specs.Valid.{IsValidEntry};
ghost use Rattle.flat_format.specs.declared.flat.Flat.{Flat};
ghost use Rattle.flat_format.specs.declared.flat.FlatTrouble.TheVariants.{Bad, NoMemory as WantsMemory};
ghost use Rattle.flat_format.specs.Bad.{HasHead, HasLength, IsBadAt, IsFlatTrouble};
ghost use Rattle.flat_format.specs.Covers.{AreCovers, as_entry};
ghost use Rattle.flat_format.specs.Judged.{IsRecordTrouble, IsJudgedTrouble};
ghost use Rattle.flat_format.specs.Reading.{cover_in, piece_in, covers_in, pieces_in, flat_in};
ghost use Rattle.flat_format.specs.Spelling.{SpellsFlat};
ghost use Rattle.flat_format.specs.Valid.{AreFlatPieces, IsFlat};

use crate::flat::{COVER_SIZE, Flat, FlatTrouble, HEAD_SIZE, LETTERS};
use crate::rules::{can_follow, goes_on, is_counted};
use index_entry::number_at;
use plain_file::{Piece, PieceList, Pieces};
use plfs_types::{Cover, CoverList, ENTRY_SIZE, Sequence};
use std::alloc::Global;

/// The flattened index that the bytes spell. `Bad` comes exactly where they spell no valid one, with the place 0 where
/// there are fewer than `HEAD_SIZE` bytes or they don't begin with the letters, else 8 where the length doesn't fit the counts of
/// covers and pieces, else that of the first cover or piece that breaks a rule.
pub fn decode(alloc: Global, bytes: &[u8]) -> Result<Flat, FlatTrouble>
    // What is read is valid and spelled so.
    ensures found { IfOk result (λ flat. IsFlat flat × SpellsFlat bytes.now flat) }
    // Each valid one that is spelled so is read, unless memory runs out.
    ensures only { (flat : Flat) → IsFlat flat → SpellsFlat bytes.now flat → (result ≡ Ok flat) ⊎ (result ≡ Err WantsMemory) }
    // The place is that of the first fault.
    ensures bad { IfErr result (IsFlatTrouble bytes.now) }
    // Where there is a fault its place is told, unless memory runs out.
    ensures exact { (place : ℕ) → IsBadAt bytes.now place → (result ≡ Err (Bad place)) ⊎ (result ≡ Err WantsMemory) }
{
    judged(alloc, bytes)
}

/// The counts of covers and pieces, or the place 0 where the head is wrong, or 8 where the length doesn't fit the counts.
fn counts_of(bytes: &[u8]) -> Result<(u64, u64), u64>
    ensures head { IfOk result (λ counts. HasHead bytes.now × HasLength bytes.now) }
    ensures counts { IfOk result (λ counts. (counts.0 ≡ number_in 8 bytes.now) × (counts.1 ≡ number_in 16 bytes.now)) }
    ensures bad { IfErr result (λ place. ((HasHead bytes.now → ⊥) × (place ≡ 0)) ⊎ (HasHead bytes.now × (HasLength bytes.now → ⊥) × (place ≡ 8))) }
{
    if bytes.len() < HEAD_SIZE || &bytes[..8] != LETTERS.as_slice() {
        return Err(0);
    }
    let covers = number_at(bytes, 8);
    let pieces = number_at(bytes, 16);
    if bytes.len() as u128 != size_of(covers, pieces) {
        return Err(8);
    }
    Ok((covers, pieces))
}

/// The bytes of a flattened index of so many covers and pieces.
fn size_of(covers: u64, pieces: u64) -> u128
    ensures { result ≡ HEAD_SIZE + COVER_SIZE * covers + ENTRY_SIZE * pieces }
{
    HEAD_SIZE as u128
        + COVER_SIZE as u128 * u128::from(covers)
        + ENTRY_SIZE as u128 * u128::from(pieces)
}

/// The cover at this place, valid or not.
fn cover_at(bytes: &[u8], place: usize) -> Cover
    requires { place + COVER_SIZE ≤ length bytes.now }
    ensures { result ≡ cover_in (drop place bytes.now) }
{
    Cover {
        writer: number_at(bytes, place),
        count: number_at(bytes, place + 8),
        bytes: number_at(bytes, place + 16),
        stamp: number_at(bytes, place + 24),
    }
}

/// So many covers behind the head.
fn covers_of(alloc: Global, bytes: &[u8], count: usize) -> Result<CoverList, FlatTrouble>
    requires { HEAD_SIZE + COVER_SIZE * count ≤ length bytes.now }
    ensures value { IfOk result (λ covers. covers ≡ covers_in count bytes.now) }
    ensures valid { IfOk result (λ covers. AreCovers covers) }
    ensures bad { IfErr result (IsRecordTrouble AreCovers (covers_in count bytes.now) HEAD_SIZE COVER_SIZE) }
{
    let mut covers = Vec::new(alloc);
    for index in 0..count {
        let place = HEAD_SIZE + COVER_SIZE * index;
        let cover = cover_at(bytes, place);
        if !can_follow(covers.as_slice(), &cover) {
            return Err(FlatTrouble::Bad {
                place: place as u64,
            });
        }
        covers.push(cover)?;
    }
    Ok(Sequence::from_vec(covers))
}

/// The piece at this place, where it is a valid entry.
fn piece_at(bytes: &[u8], place: usize) -> Option<Piece>
    requires { place + ENTRY_SIZE ≤ length bytes.now }
    ensures value { IfSome result (λ piece. piece ≡ piece_in (drop place bytes.now)) }
    ensures valid { IfSome result (λ piece. IsValidEntry (as_entry piece)) }
    ensures none { IfNone result (IsValidEntry (as_entry (piece_in (drop place bytes.now))) → ⊥) }
{
    let mut record = [0; ENTRY_SIZE];
    record.copy_from_slice(&bytes[place..place + ENTRY_SIZE]);
    match index_entry::decode(&record) {
        Ok(entry) => Some(Piece {
            at: entry.at,
            len: entry.len,
            physical: entry.physical,
            stamp: entry.stamp,
            writer: entry.writer,
        }),
        Err(_) => None,
    }
}

/// The piece at this place, where it goes on after these pieces, and one of the covers counts its entry. `near` is the place of
/// the cover that counts the piece before.
fn next_piece(
    bytes: &[u8],
    place: usize,
    covers: &[Cover],
    near: &mut usize,
    pieces: &[Piece],
) -> Option<Piece>
    requires fits { place + ENTRY_SIZE ≤ length bytes.now }
    requires covers { AreCovers covers.now }
    requires pieces { AreFlatPieces covers.now pieces.now }
    ensures value { IfSome result (λ piece. piece ≡ piece_in (drop place bytes.now)) }
    ensures valid { IfSome result (λ piece. AreFlatPieces covers.now (pieces.now ++ piece ∷ [])) }
    ensures none { IfNone result (AreFlatPieces covers.now (pieces.now ++ piece_in (drop place bytes.now) ∷ []) → ⊥) }
{
    let piece = piece_at(bytes, place)?;
    if is_counted(covers, &piece, near) && goes_on(pieces, &piece) {
        Some(piece)
    } else {
        None
    }
}

/// So many pieces from this place on.
fn piece_list(
    alloc: Global,
    bytes: &[u8],
    begin: usize,
    count: usize,
    covers: &[Cover],
) -> Result<PieceList, FlatTrouble>
    requires fits { begin + ENTRY_SIZE * count ≤ length bytes.now }
    requires covers { AreCovers covers.now }
    ensures value { IfOk result (λ pieces. pieces ≡ pieces_in begin count bytes.now) }
    ensures valid { IfOk result (AreFlatPieces covers.now) }
    ensures bad { IfErr result (IsRecordTrouble (AreFlatPieces covers.now) (pieces_in begin count bytes.now) begin ENTRY_SIZE) }
{
    let mut pieces = Vec::with_capacity(alloc, count)?;
    let mut near = 0;
    for index in 0..count {
        let place = begin + ENTRY_SIZE * index;
        let Some(piece) = next_piece(bytes, place, covers, &mut near, pieces.as_slice()) else {
            return Err(FlatTrouble::Bad {
                place: place as u64,
            });
        };
        pieces.push(piece)?;
    }
    Ok(Sequence::from_vec(pieces))
}

/// So many pieces from this place on, as pieces.
fn pieces_of(
    alloc: Global,
    bytes: &[u8],
    begin: usize,
    count: usize,
    covers: &[Cover],
) -> Result<Pieces, FlatTrouble>
    requires fits { begin + ENTRY_SIZE * count ≤ length bytes.now }
    requires covers { AreCovers covers.now }
    ensures value { IfOk result (λ pieces. pieces ≡ pieces_in begin count bytes.now) }
    ensures valid { IfOk result (AreFlatPieces covers.now) }
    ensures bad { IfErr result (IsRecordTrouble (AreFlatPieces covers.now) (pieces_in begin count bytes.now) begin ENTRY_SIZE) }
{
    let list = piece_list(alloc, bytes, begin, count, covers)?;
    Ok(Pieces::of(list))
}

/// The flattened index that the bytes have by their counts.
fn judged(alloc: Global, bytes: &[u8]) -> Result<Flat, FlatTrouble>
    ensures whole { IfOk result (λ flat. HasHead bytes.now × HasLength bytes.now) }
    ensures value { IfOk result (λ flat. flat ≡ flat_in bytes.now) }
    ensures valid { IfOk result IsFlat }
    ensures bad { IfErr result (IsJudgedTrouble bytes.now) }
{
    let (covers, pieces) = match counts_of(bytes) {
        Ok(counts) => counts,
        Err(place) => return Err(FlatTrouble::Bad { place }),
    };
    let begin = HEAD_SIZE + COVER_SIZE * covers as usize;
    let covers = match covers_of(alloc, bytes, covers as usize) {
        Ok(covers) => covers,
        Err(trouble) => return Err(trouble),
    };
    let pieces = match pieces_of(alloc, bytes, begin, pieces as usize, covers.as_slice()) {
        Ok(pieces) => pieces,
        Err(trouble) => return Err(trouble),
    };
    Ok(Flat { covers, pieces })
}
