//! The pieces of one writer.

ghost use Rattle.std.specs.Prelude.{◌≡◌, ◌<◌, ◌≤◌, ℕ, [], All, IfOk, length, map, take};
ghost use Rattle.plain_file.specs.Sources.{source_at};
ghost use Rattle.plain_file.specs.Runs.{AreRuns, ArePieces};
ghost use Rattle.interval_merge.specs.Writer.{AscendFrom, HasPiece, piece_of};

use crate::sweep::extend;
use crate::tournament::{PiecesList, merge_all};
use plain_file::{Piece, PieceList, Pieces};
use plfs_types::{Entry, NoMemory};
use std::alloc::Global;

/// The pieces of a writer's entries, without truncates: each byte is of the newest of the entries
/// that cover it. Each entry has bytes, ends within 2^40, and ends in the log within 64 bits.
///
/// Entries that go forward through the file become pieces as they stand, and only where the writer
/// went back the lists before and after are merged.
pub fn of_writer(alloc: Global, entries: &[Entry]) -> Result<Pieces, NoMemory>
    requires { All HasPiece entries.now }
    ensures { IfOk result (λ pieces. ArePieces entries.now [] pieces) }
{
    let mut lists = PiecesList::new(alloc);
    let mut rest = entries;
    while !rest.is_empty() {
        let (forward, after) = rest.split_at(forward_len(rest));
        lists.push(of_forward(alloc, forward)?)?;
        rest = after;
    }
    let merged = merge_all(alloc, lists)?;
    Ok(merged)
}

/// How many of the first entries go forward through the file.
fn forward_len(entries: &[Entry]) -> usize
    requires valid { All HasPiece entries.now }
    requires some { 0 < length entries.now }
    ensures some { 0 < result }
    ensures within { result ≤ length entries.now }
    ensures forward { AscendFrom 0 (take result entries.now) }
{
    let mut end = 0;
    for (i, entry) in entries.iter().enumerate() {
        if entry.at < end {
            return i;
        }
        end = entry.at + entry.len;
    }
    entries.len()
}

/// The pieces of entries that go forward through the file.
fn of_forward(alloc: Global, entries: &[Entry]) -> Result<Pieces, NoMemory>
    requires valid { All HasPiece entries.now }
    requires forward { AscendFrom 0 entries.now }
    ensures { IfOk result (λ pieces. ArePieces entries.now [] pieces) }
{
    let runs = forward_runs(alloc, entries)?;
    Ok(Pieces::of(runs))
}

/// The entries as runs, where those that are joinable are one.
fn forward_runs(alloc: Global, entries: &[Entry]) -> Result<PieceList, NoMemory>
    requires valid { All HasPiece entries.now }
    requires forward { AscendFrom 0 entries.now }
    ensures runs { IfOk result (λ runs. AreRuns runs) }
    ensures says { IfOk result (λ runs. (x : ℕ) → source_at runs x ≡ source_at (map piece_of entries.now) x) }
{
    let mut done = PieceList::from_vec(Vec::with_capacity(alloc, entries.len())?);
    let mut last = None;
    for entry in entries {
        last = Some(extend(&mut done, last, whole_piece(entry))?);
    }
    if let Some(last) = last {
        done.push(last)?;
    }
    Ok(done)
}

/// The whole entry as a piece.
fn whole_piece(entry: &Entry) -> Piece
    ensures { result ≡ piece_of entry.now }
{
    Piece {
        at: entry.at,
        len: entry.len,
        physical: entry.physical,
        stamp: entry.stamp,
        writer: entry.writer,
    }
}
