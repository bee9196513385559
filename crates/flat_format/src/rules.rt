//! The rules of covers and pieces.
ghost use Rattle.std.specs.Prelude.{◌≡◌, ◌≤◌, ◌<◌, ◌+◌, ◌↔◌, ◌++◌, [], ◌∷◌, length, IsTrue};
ghost use Rattle.plain_file.specs.declared.pieces.Piece.{Piece};
ghost use Rattle.plain_file.specs.Runs.{IsPiece, Joins, AreRuns};
ghost use Rattle.index_entry.specs.Valid.{IsValidEntry};
ghost use Rattle.plfs_types.specs.declared.entries.Cover.{Cover};
ghost use Rattle.flat_format.specs.Covers.{IsCover, AreCovers, IsCoveredBy, AnyCovers};
ghost use Rattle.flat_format.specs.Order.{HasPassedCovers, AtLast};

use plain_file::Piece;
use plfs_types::{Cover, MAX_LOG, MAX_STAMP};

/// Whether these covers and the next one are valid.
pub(crate) fn can_follow(covers: &[Cover], next: &Cover) -> bool
    requires { AreCovers covers.now }
    ensures { IsTrue result ↔ AreCovers (covers.now ++ next.now ∷ []) }
{
    is_cover(next) && is_of_greater_writer(covers, next.writer)
}

fn is_of_greater_writer(covers: &[Cover], writer: u64) -> bool
    ensures { IsTrue result ↔ AtLast (λ (c : Cover). c.writer < writer) covers.now }
{
    match covers.last() {
        None => true,
        Some(last) => last.writer < writer,
    }
}

fn is_cover(cover: &Cover) -> bool
    ensures { IsTrue result ↔ IsCover cover.now }
{
    1 <= cover.count
        && cover.count <= cover.bytes
        && cover.bytes <= MAX_LOG
        && 1 <= cover.stamp
        && cover.stamp <= MAX_STAMP
}

/// Whether these pieces and the next one are runs.
pub(crate) fn goes_on(pieces: &[Piece], next: &Piece) -> bool
    requires { AreRuns pieces.now }
    ensures { IsTrue result ↔ AreRuns (pieces.now ++ next.now ∷ []) }
{
    next.is_valid() && is_apart(pieces, next)
}

fn is_apart(pieces: &[Piece], next: &Piece) -> bool
    requires { AreRuns pieces.now }
    ensures { IsTrue result ↔ AtLast (λ (p : Piece). (p.at + p.len ≤ next.now.at) × (Joins p next.now → ⊥)) pieces.now }
{
    match pieces.last() {
        None => true,
        Some(last) => last.at + last.len <= next.at && !last.joins(next),
    }
}

/// Whether one of the covers counts the piece's entry. `near` is the place of the cover that was found last: neighbouring pieces
/// are mostly of neighbouring writers.
pub(crate) fn is_counted(covers: &[Cover], piece: &Piece, near: &mut usize) -> bool
    requires { AreCovers covers.now }
    ensures { IsTrue result ↔ AnyCovers piece.now covers.now }
{
    let place = first_from(covers, piece.writer, *near);
    *near = place;
    place < covers.len() && counts(&covers[place], piece)
}

/// The place of the first cover of this writer or a greater one. The cover behind `near`, and the one at it, are looked at first.
fn first_from(covers: &[Cover], writer: u64, near: usize) -> usize
    requires { AreCovers covers.now }
    ensures within { result ≤ length covers.now }
    ensures passed { HasPassedCovers writer result covers.now }
{
    let behind = place_behind(covers.len(), near);
    if is_at(covers, writer, behind) {
        behind
    } else if is_at(covers, writer, near) {
        near
    } else {
        covers.partition_point(|cover| cover.writer < writer)
    }
}

/// The place behind this one, the first place again behind the last one.
fn place_behind(count: usize, place: usize) -> usize {
    if place < count && place + 1 < count {
        place + 1
    } else {
        0
    }
}

/// Whether the cover at this place is that of the writer.
fn is_at(covers: &[Cover], writer: u64, place: usize) -> bool
    requires { AreCovers covers.now }
    ensures within { IsTrue result → place < length covers.now }
    ensures passed { IsTrue result → HasPassedCovers writer place covers.now }
{
    place < covers.len() && covers[place].writer == writer
}

fn counts(cover: &Cover, piece: &Piece) -> bool
    ensures { IsTrue result ↔ IsCoveredBy piece.now cover.now }
{
    cover.writer == piece.writer
        && piece.stamp <= cover.stamp
        && piece.len <= cover.bytes
        && piece.physical <= cover.bytes - piece.len
}
