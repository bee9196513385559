//! Many lists of pieces as one.

ghost use Rattle.std.specs.Prelude.{◌≡◌, ◌<◌, ℕ, List, [], IfOk, vec_len};
ghost use Rattle.plfs_types.specs.declared.entries.Entry.{Entry};
ghost use Rattle.plain_file.specs.Sources.{source_at};
ghost use Rattle.plain_file.specs.Runs.{AreRuns, ArePieces};
ghost use Rattle.interval_merge.specs.Lists.{newest_source, ArePiecesOfEach, joined};

use crate::sweep::merge_two;
use plain_file::{PieceList, Pieces};
use plfs_types::{NoMemory, Sequence};
use std::alloc::Global;

/// A list of lists of pieces.
pub type PiecesList = Sequence<Pieces>;

/// The pieces of many lists of writes as one: each byte is of the newest of the writes that cover it.
/// Where several have one key it is of the first list's.
///
/// The lists are merged in pairs, the results in pairs again and so on, so that a piece is looked at
/// once for each time that the number of lists can be halved.
pub fn merge_all(alloc: Global, lists: PiecesList) -> Result<Pieces, NoMemory>
    // Each byte comes from the newest of the lists.
    ensures newest { IfOk result (λ merged. (x : ℕ) → source_at merged x ≡ newest_source lists x) }
    // So the pieces are those of the entries of all.
    ensures joined { IfOk result (λ merged. (entries : List (List Entry)) → ArePiecesOfEach entries lists → ArePieces (joined entries) [] merged) }
{
    let merged = merge_halves(alloc, lists.into_vec())?;
    Ok(merged)
}

/// Merges the first half of the lists, the second half, and both.
pub(crate) fn merge_halves(alloc: Global, lists: Vec<Pieces>) -> Result<Pieces, NoMemory>
    ensures runs { IfOk result (λ merged. AreRuns merged) }
    ensures newest { IfOk result (λ merged. (x : ℕ) → source_at merged x ≡ newest_source lists.items x) }
{
    let mut front = lists;
    if front.len() < 2 {
        return only(alloc, front);
    }
    let back = front.split_off(front.len() / 2)?;
    let a = merge_halves(alloc, front)?;
    let b = merge_halves(alloc, back)?;
    let merged = merge_two(a, b)?;
    Ok(merged)
}

/// The one list, or no pieces where there is none.
fn only(alloc: Global, lists: Vec<Pieces>) -> Result<Pieces, NoMemory>
    requires { vec_len lists < 2 }
    ensures runs { IfOk result (λ merged. AreRuns merged) }
    ensures newest { IfOk result (λ merged. (x : ℕ) → source_at merged x ≡ newest_source lists.items x) }
{
    let mut lists = lists;
    if let Some(pieces) = lists.pop() {
        return Ok(pieces);
    }
    Ok(no_pieces(alloc))
}

/// The empty list of pieces.
fn no_pieces(alloc: Global) -> Pieces
    ensures { result ≡ [] }
{
    Pieces::of(PieceList::new(alloc))
}
