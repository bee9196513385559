//! Entries of writers that take turns through a file block by block, and truncates between them.

ghost use Rattle.std.specs.Prelude.{◌↔◌, All, IsTrue};
ghost use Rattle.interval_merge.specs.Writer.{HasPiece};

use plain_file::Piece;
use plfs_types::{Entry, NoMemory, Trunc};
use std::alloc::Global;

/// The bytes of an entry.
pub const BLOCK: u64 = 4096;

/// What is measured.
#[derive(Clone, Copy)]
pub struct Task {
    /// How many entries there are.
    pub count: u64,
    /// How many writers they are of.
    pub writers: u64,
    /// Whether the times are printed.
    pub is_timed: bool,
}

/// The entries of one writer, each of which can be a piece.
#[derive(Drop)]
pub struct Writer {
    pub entries: Vec<Entry>,
    ghost valid: { All HasPiece entries.items },
}

/// The entries of all writers: block n of the file is of the writer n modulo their number, and has the
/// stamp n + 1. There are fewer writers where an entry could be no piece.
pub(crate) fn writers(alloc: Global, task: &Task) -> Result<Vec<Writer>, NoMemory> {
    let mut writers = Vec::new(alloc);
    for writer in 0..task.writers {
        let entries = entries_of(alloc, task, writer)?;
        if are_valid(entries.as_slice()) {
            writers.push(Writer { entries })?;
        }
    }
    Ok(writers)
}

/// The entries of one writer.
fn entries_of(alloc: Global, task: &Task, writer: u64) -> Result<Vec<Entry>, NoMemory> {
    let mut entries = Vec::new(alloc);
    for row in 0..task.count.div_ceil(task.writers.max(1)) {
        let block = row.saturating_mul(task.writers).saturating_add(writer);
        if block < task.count {
            entries.push(Entry {
                at: block.saturating_mul(BLOCK),
                len: BLOCK,
                physical: row.saturating_mul(BLOCK),
                stamp: block.saturating_add(1),
                writer,
            })?;
        }
    }
    Ok(entries)
}

fn are_valid(entries: &[Entry]) -> bool
    ensures { IsTrue result ↔ All HasPiece entries.now }
{
    entries.iter().all(has_piece)
}

fn has_piece(entry: &Entry) -> bool
    ensures { IsTrue result ↔ HasPiece entry.now }
{
    let piece = Piece {
        at: entry.at,
        len: entry.len,
        physical: entry.physical,
        stamp: entry.stamp,
        writer: entry.writer,
    };
    piece.is_valid()
}

/// So many truncates spread over the stamps of `count` blocks. Each cuts off the second half of the
/// block of its stamp; where there are more truncates than blocks, some have one stamp or come before
/// all blocks.
pub(crate) fn truncates(alloc: Global, count: u64, many: u64) -> Result<Vec<Trunc>, NoMemory> {
    let mut truncates = Vec::new(alloc);
    for i in 0..many {
        let stamp = i.saturating_add(1).saturating_mul(count) / many.max(1);
        truncates.push(Trunc {
            stamp,
            size: stamp.saturating_mul(BLOCK).saturating_sub(BLOCK / 2),
        })?;
    }
    Ok(truncates)
}
