//! The plan of a read.

ghost use Rattle.std.specs.Prelude.{◌≡◌, ℕ, ◌+◌, ◌-◌, ◌<◌, ◌≤◌, [], ◌++◌, List, map, filter, All, IfOk, OnOk, min, sum_by};
ghost use Rattle.plain_file.specs.declared.changes.Change.{Change};
ghost use Rattle.plain_file.specs.File.{plain, plain_size, slice, HasItsBytes};
ghost use Rattle.plain_file.specs.Keys.{KeysDiffer};
ghost use Rattle.plain_file.specs.Shows.{entries_of};
ghost use Rattle.plain_file.specs.Runs.{AreRuns, ArePiecesOf, EndsPast};
ghost use Rattle.plain_file.specs.Logs.{IsLogged};
ghost use Rattle.read_plan.specs.Parts.{part_len, is_logged, AreHolesApart, spelled};
ghost use Rattle.read_plan.specs.Ranges.{end_of, pieces_in_range};
ghost use Rattle.read_plan.specs.Plan.{piece_part, hole, filled, plan_of};

use crate::part::{Part, PartList};
use crate::searching::first_past;
use plain_file::{Piece, Pieces};
use plfs_types::NoMemory;
use std::alloc::Global;

/// The parts of a read of `len` bytes from byte `at` on, of a file of `size` bytes with these
/// pieces. They end where the file ends, so there are none at and past its end. It takes time for
/// the pieces that meet the range, and to find the first of them, at worst for the logarithm of the
/// number of all. Any range is taken.
pub fn plan(
    alloc: Global,
    pieces: &Pieces,
    size: u64,
    at: u64,
    len: u64,
) -> Result<PartList, NoMemory>
    // The pieces that meet the range, each cut to it, with a hole for each gap.
    ensures exact { IfOk result (λ parts. parts ≡ plan_of pieces.now size at len) }
    // The bytes that the file has in the range.
    ensures lengths { IfOk result (λ parts. sum_by part_len parts ≡ min len (size - at)) }
    ensures none_empty { IfOk result (λ parts. All (λ part. 0 < part_len part) parts) }
    ensures holes_apart { IfOk result AreHolesApart }
    // One part for each piece that meets the range, in order.
    ensures each_piece { IfOk result (λ parts.
        filter is_logged parts ≡ map piece_part (pieces_in_range at (end_of size at len) pieces.now)) }
    ensures no_bytes { min len (size - at) ≡ 0 → IfOk result (λ parts. parts ≡ []) }
    // The slice of every plain file that has these pieces and this size.
    ensures spells { IfOk result (λ parts. (changes : List Change) (logs : ℕ → List ℕ)
        → KeysDiffer (entries_of changes) → All HasItsBytes changes → All (IsLogged logs) changes
        → ArePiecesOf changes pieces.now → size ≡ plain_size changes
        → spelled logs parts ≡ slice (plain changes) at len) }
{
    let parts = parts_between(alloc, pieces, at, at + len.min(size.saturating_sub(at)))?;
    Ok(parts)
}

/// For how many parts room is made at first.
const FEW_PARTS: usize = 4;

/// The parts from byte `at` up to byte `until`.
fn parts_between(alloc: Global, pieces: &Pieces, at: u64, until: u64) -> Result<PartList, NoMemory>
    requires { at ≤ until }
    ensures runs { AreRuns pieces.now }
    ensures exact { IfOk result (λ parts. parts ≡ filled at until (pieces_in_range at until pieces.now)) }
{
    let pieces = pieces.as_slice();
    if at >= until {
        return Ok(PartList::new(alloc));
    }
    // A range with bytes has parts, so this asks for no memory without need.
    let mut parts = PartList::from_vec(Vec::with_capacity(alloc, FEW_PARTS)?);
    let first = first_past(pieces, at);
    push_parts(&mut parts, &pieces[first..], at, until)?;
    Ok(parts)
}

/// Adds the parts from byte `at` up to byte `until`. The first piece ends past `at`.
fn push_parts(parts: &mut PartList, pieces: &[Piece], at: u64, until: u64) -> Result<(), NoMemory>
    requires runs { AreRuns pieces.now }
    requires first { EndsPast at pieces.now }
    requires range { at < until }
    ensures { OnOk result (parts.new ≡ parts.old ++ filled at until (pieces_in_range at until pieces.now)) }
{
    let mut from = at;
    for piece in pieces {
        if piece.at >= until {
            break;
        }
        let begin = at.max(piece.at);
        let end = until.min(piece.at + piece.len);
        push_hole(parts, begin - from)?;
        parts.push(Part::From {
            writer: piece.writer,
            physical: piece.physical + (begin - piece.at),
            len: end - begin,
        })?;
        from = end;
    }
    push_hole(parts, until - from)
}

/// Adds a hole, unless it is empty.
fn push_hole(parts: &mut PartList, len: u64) -> Result<(), NoMemory>
    ensures { OnOk result (parts.new ≡ parts.old ++ hole len) }
{
    if len > 0 {
        parts.push(Part::Hole { len })?;
    }
    Ok(())
}
