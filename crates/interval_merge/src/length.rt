//! The size of a file.

ghost use Rattle.std.specs.Prelude.{◌≡◌, ◌+◌, ◌≤◌, ◌^◌, List, [], All, None, Some, Option, max};
ghost use Rattle.plain_file.specs.declared.changes.Change.{Change};
ghost use Rattle.plain_file.specs.File.{HasItsBytes, plain_size};
ghost use Rattle.plain_file.specs.Keys.{KeysDiffer};
ghost use Rattle.plain_file.specs.Shows.{entries_of, truncs_of};
ghost use Rattle.plain_file.specs.Runs.{AreRuns, ArePieces};
ghost use Rattle.plain_file.specs.Size.{later, last_trunc, is_after, end_after, size_from};

use plain_file::{Piece, Pieces};
use plfs_types::Trunc;

/// The size in bytes of the file whose pieces, not yet clipped, and truncates are these. It takes no
/// memory.
pub fn size(pieces: &Pieces, truncs: &[Trunc]) -> u64
    ensures from_pieces { result ≡ size_from pieces.now truncs.now }
    // That is the size of the plain file.
    ensures plain { (changes : List Change) → KeysDiffer (entries_of changes) → All HasItsBytes changes
        → ArePieces (entries_of changes) [] pieces.now → truncs.now ≡ truncs_of changes
        → result ≡ plain_size changes }
{
    size_of(pieces.as_slice(), truncs)
}

/// The size from the last truncate and the pieces after it.
fn size_of(pieces: &[Piece], truncs: &[Trunc]) -> u64
    requires { AreRuns pieces.now }
    ensures { result ≡ size_from pieces.now truncs.now }
{
    let last = last_of(truncs);
    if last.is_none() {
        return end_of(pieces);
    }
    let mut size = match last {
        None => 0,
        Some(trunc) => trunc.size,
    };
    for piece in pieces {
        if wrote_after(last, piece.stamp) {
            size = size.max(piece.at + piece.len);
        }
    }
    size
}

/// Where the last piece ends, 0 where there is none.
fn end_of(pieces: &[Piece]) -> u64
    requires { AreRuns pieces.now }
    ensures { result ≡ end_after None pieces.now }
{
    match pieces.last() {
        None => 0,
        Some(last) => last.at + last.len,
    }
}

/// The truncate that comes after the other.
fn later_of(last: Option<Trunc>, trunc: Trunc) -> Option<Trunc>
    ensures { result ≡ later last (Some trunc) }
{
    match last {
        Some(last) if (trunc.stamp, trunc.size) <= (last.stamp, last.size) => Some(last),
        _ => Some(trunc),
    }
}

/// The truncate that comes after all others, None where there is none.
pub fn last_of(truncs: &[Trunc]) -> Option<Trunc>
    ensures { result ≡ last_trunc truncs.now }
{
    let mut last = None;
    for trunc in truncs {
        last = later_of(last, *trunc);
    }
    last
}

/// Whether what has this stamp was written after the truncate; where there is none, it was.
pub fn wrote_after(last: Option<Trunc>, stamp: u64) -> bool
    ensures { result ≡ is_after last stamp }
{
    match last {
        None => true,
        Some(trunc) => trunc.stamp < stamp,
    }
}
