//! What truncates leave of pieces.

ghost use Rattle.std.specs.Prelude.{◌≡◌, ◌≤◌, ◌<◌, ◌-◌, ℕ, [], List, IfOk, length, slice_index_or};
ghost use Rattle.plfs_types.specs.declared.entries.Entry.{Entry};
ghost use Rattle.plfs_types.specs.declared.entries.Trunc.{Trunc};
ghost use Rattle.plain_file.specs.Sources.{source_at, kept_source};
ghost use Rattle.plain_file.specs.Runs.{AreRuns, ArePieces};
ghost use Rattle.interval_merge.specs.Clip.{AreCutsOf, AreWithin, SizesFall, StampsFall, limit};

use plain_file::{Piece, PieceList, Pieces};
use plfs_types::{MAX_SIZE, NoMemory, Trunc};
use std::alloc::Global;
use std::cmp::Reverse;

/// The pieces that the truncates leave: a byte stays exactly where its stamp is above that of every
/// truncate whose size is at most the byte's place.
///
/// The truncates are sorted once, and each piece looks its limit up.
pub fn clip(alloc: Global, pieces: &Pieces, truncs: &[Trunc]) -> Result<Pieces, NoMemory>
    ensures kept { IfOk result (λ clipped. (x : ℕ) → source_at clipped x ≡ kept_source truncs.now x (source_at pieces.now x)) }
    // So the pieces are those of the same entries under the truncates.
    ensures truncated { IfOk result (λ clipped. (entries : List Entry) → ArePieces entries [] pieces.now → ArePieces entries truncs.now clipped) }
{
    let cuts = cuts_of(alloc, truncs)?;
    let runs = clipped_runs(alloc, pieces.as_slice(), truncs, cuts.as_slice())?;
    Ok(Pieces::of(runs))
}

/// The truncates as cuts.
fn cuts_of(alloc: Global, truncs: &[Trunc]) -> Result<Vec<Trunc>, NoMemory>
    ensures { IfOk result (λ cuts. AreCutsOf truncs.now cuts.items) }
{
    let order = newest_first(alloc, truncs)?;
    let cuts = lowered_sizes(alloc, order.as_slice())?;
    Ok(cuts)
}

/// The truncates, newest first.
fn newest_first(alloc: Global, truncs: &[Trunc]) -> Result<Vec<Trunc>, NoMemory>
    ensures fall { IfOk result (λ order. StampsFall order.items) }
    ensures same { IfOk result (λ order. (stamp : ℕ) → limit order.items stamp ≡ limit truncs.now stamp) }
{
    let mut order = Vec::from_slice(alloc, truncs)?;
    order.sort_by_key(|trunc| Reverse(trunc.stamp))?;
    Ok(order)
}

/// Each truncate, newest first, with the least of its own size and those before it.
fn lowered_sizes(alloc: Global, order: &[Trunc]) -> Result<Vec<Trunc>, NoMemory>
    requires { StampsFall order.now }
    ensures { IfOk result (λ cuts. AreCutsOf order.now cuts.items) }
{
    let mut cuts = Vec::new(alloc);
    let mut least = MAX_SIZE;
    for trunc in order {
        least = least.min(trunc.size);
        cuts.push(Trunc {
            stamp: trunc.stamp,
            size: least,
        })?;
    }
    Ok(cuts)
}

/// The runs that the truncates leave, which are cut as the cuts tell.
fn clipped_runs(
    alloc: Global,
    pieces: &[Piece],
    truncs: &[Trunc],
    cuts: &[Trunc],
) -> Result<PieceList, NoMemory>
    requires pieces { AreRuns pieces.now }
    requires cuts { AreCutsOf truncs.now cuts.now }
    ensures runs { IfOk result (λ clipped. AreRuns clipped) }
    ensures kept { IfOk result (λ clipped. (x : ℕ) → source_at clipped x ≡ kept_source truncs.now x (source_at pieces.now x)) }
{
    let mut clipped = PieceList::new(alloc);
    for piece in pieces {
        let end = limit_at(truncs, cuts, piece.stamp).min(piece.at + piece.len);
        if piece.at < end {
            clipped.push(Piece {
                at: piece.at,
                len: end - piece.at,
                physical: piece.physical,
                stamp: piece.stamp,
                writer: piece.writer,
            })?;
        }
    }
    Ok(clipped)
}

/// Up to where the truncates leave what has this stamp.
fn limit_at(truncs: &[Trunc], cuts: &[Trunc], stamp: u64) -> u64
    requires { AreCutsOf truncs.now cuts.now }
    ensures { result ≡ limit truncs.now stamp }
{
    let count = later_count(cuts, stamp);
    if count == 0 {
        return MAX_SIZE;
    }
    cuts[count - 1].size
}

/// How many of the first cuts have this stamp or a later one.
fn later_count(cuts: &[Trunc], stamp: u64) -> usize
    requires fall { StampsFall cuts.now }
    requires lower { SizesFall cuts.now }
    requires within { AreWithin cuts.now }
    ensures within { result ≤ length cuts.now }
    ensures no_later { result ≡ 0 → limit cuts.now stamp ≡ MAX_SIZE }
    ensures last_of_later { (d : Trunc) → 0 < result → limit cuts.now stamp ≡ (slice_index_or cuts.now (result - 1) d).size }
{
    cuts.partition_point(|cut| cut.stamp >= stamp)
}
