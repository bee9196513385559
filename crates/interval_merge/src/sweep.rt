//! A sweep over two lists of pieces, from the first byte to the last.

ghost use Rattle.std.specs.Prelude.{◌≡◌, ◌⊎◌, List, ℕ, ◌+◌, ◌-◌, ◌<◌, ◌≤◌, [], ◌∷◌, ◌++◌, drop, length, IfOk, None, Option, option_map, option_to_list};
ghost use Rattle.plfs_types.specs.declared.entries.Entry.{Entry};
ghost use Rattle.plain_file.specs.Sources.{source_at, source_in, newer_source};
ghost use Rattle.plain_file.specs.Runs.{AreRuns, ArePieces, IsPiece, EndsPast};
ghost use Rattle.interval_merge.specs.Sweep.{AllEndBy, Extends, EndsFrom, Holds, IsPart, SaysUntil, IsRestFrom};

use crate::memory::give_back;
use crate::room::{behind, laid, with_room};
use plain_file::{Piece, PieceList, Pieces};
use plfs_types::{MAX_SIZE, NoMemory};
use std::alloc::Global;

/// The pieces of two lists of writes as one: each byte is of the newer of the writes that cover it,
/// that is of the greater stamp, or of the greater writer at one stamp. Where both keys are the same
/// it is of the first list's.
///
/// It takes time linear in the pieces.
pub fn merge(alloc: Global, a: &Pieces, b: &Pieces) -> Result<Pieces, NoMemory>
    ensures runs { IfOk result (λ merged. AreRuns merged) }
    // Each byte comes from the newer of the two.
    ensures newer { IfOk result (λ merged. (x : ℕ) → source_at merged x ≡ newer_source (source_at a.now x) (source_at b.now x)) }
    // So the pieces are those of the entries of both.
    ensures joined { IfOk result (λ merged. (entries others : List Entry) → ArePieces entries [] a.now → ArePieces others [] b.now → ArePieces (entries ++ others) [] merged) }
{
    let items = Vec::from_slice(alloc, b.as_slice())?;
    let runs = merged_runs(a.as_slice(), items)?;
    Ok(Pieces::of(runs))
}

/// What `merge` gives. Where one list is empty, the other is handed back as it stands. Else the second
/// one's memory grows and takes the pieces of both.
pub(crate) fn merge_two(a: Pieces, b: Pieces) -> Result<Pieces, NoMemory>
    ensures runs { IfOk result (λ merged. AreRuns merged) }
    ensures newer { IfOk result (λ merged. (x : ℕ) → source_at merged x ≡ newer_source (source_at a x) (source_at b x)) }
{
    if a.as_slice().is_empty() {
        return Ok(b);
    }
    if b.as_slice().is_empty() {
        return Ok(a);
    }
    let runs = merged_runs(a.as_slice(), b.into_vec())?;
    give_back(a.into_vec());
    Ok(Pieces::of(runs))
}

/// The runs of bytes of the newer pieces. They are laid into the memory of the second list, in front of
/// those of its pieces that are left, which first go as far back as the first list needs.
fn merged_runs(a: &[Piece], b: Vec<Piece>) -> Result<PieceList, NoMemory>
    requires a { AreRuns a.now }
    requires b { AreRuns b.items }
    ensures runs { IfOk result (λ merged. AreRuns merged) }
    ensures newer { IfOk result (λ merged. (x : ℕ) → source_at merged x ≡ newer_source (source_at a.now x) (source_at b.items x)) }
{
    let mut items = b;
    let mut place = with_room(&mut items, 0, 0, a.len() + 1)?;
    let mut left_a = a;
    let mut count = 0;
    let mut from = 0;
    while from < MAX_SIZE {
        let left = left_a.len().saturating_add(items.len() - place);
        place = with_room(&mut items, count, place, left.saturating_add(1))?;
        let left_b = behind(&items, place);
        let (piece, until) = next_part(left_a, left_b, from);
        place += ended_by(left_b, until);
        left_a = past(left_a, until);
        count = laid(&mut items, count, piece);
        from = until;
    }
    items.truncate(count);
    Ok(PieceList::from_vec(items))
}

/// What the newer of two lists says next from a byte on, or None where both say nothing, and up to where.
fn next_part(a: &[Piece], b: &[Piece], from: u64) -> (Option<Piece>, u64)
    requires a { AreRuns a.now × EndsPast from a.now }
    requires b { AreRuns b.now × EndsPast from b.now }
    requires from { from < MAX_SIZE }
    ensures { IsPart a.now b.now from result.0 result.1 }
{
    if let [p, ..] = a {
        if let [q, ..] = b {
            if from <= p.at && p.at + p.len <= q.at {
                return (Some(*p), p.at + p.len);
            }
            if from <= q.at && q.at + q.len <= p.at {
                return (Some(*q), q.at + q.len);
            }
        }
    }
    shared_part(a, b, from)
}

/// The same where the first pieces may share bytes.
fn shared_part(a: &[Piece], b: &[Piece], from: u64) -> (Option<Piece>, u64)
    requires a { AreRuns a.now × EndsPast from a.now }
    requires b { AreRuns b.now × EndsPast from b.now }
    requires from { from < MAX_SIZE }
    ensures { IsPart a.now b.now from result.0 result.1 }
{
    let (p, p_until) = says_until(a, from);
    let (q, q_until) = says_until(b, from);
    let until = p_until.min(q_until);
    match newer(p, q) {
        None => (None, until),
        Some(winner) => (Some(part_of(&winner, from, until)), until),
    }
}

/// Adds a piece behind the others. `last` is the last of them, not yet in `done`; the new last one
/// comes back.
pub(crate) fn extend(
    done: &mut PieceList,
    last: Option<Piece>,
    piece: Piece,
) -> Result<Piece, NoMemory>
    requires runs { AreRuns (done.old ++ option_to_list last) }
    requires ends { AllEndBy piece.at (done.old ++ option_to_list last) }
    requires piece { IsPiece piece }
    requires started { last ≡ None → done.old ≡ [] }
    ensures { IfOk result (λ new. Extends (done.old ++ option_to_list last) piece (done.new ++ new ∷ [])) }
{
    match last {
        None => Ok(piece),
        Some(last) => {
            if last.joins(&piece) {
                Ok(Piece {
                    at: last.at,
                    len: last.len + piece.len,
                    physical: last.physical,
                    stamp: last.stamp,
                    writer: last.writer,
                })
            } else {
                done.push(last)?;
                Ok(piece)
            }
        }
    }
}

/// The newer of two pieces at one byte.
fn newer(p: Option<Piece>, q: Option<Piece>) -> Option<Piece>
    ensures chosen { (result ≡ p) ⊎ (result ≡ q) }
    ensures newer { (x : ℕ) → option_map (source_in x) result ≡ newer_source (option_map (source_in x) p) (option_map (source_in x) q) }
{
    match (p, q) {
        (None, other) => other,
        (Some(p), None) => Some(p),
        (Some(p), Some(q)) => {
            if (p.stamp, p.writer) < (q.stamp, q.writer) {
                Some(q)
            } else {
                Some(p)
            }
        }
    }
}

/// What the pieces say at a byte, and up to where they say it.
fn says_until(pieces: &[Piece], from: u64) -> (Option<Piece>, u64)
    requires runs { AreRuns pieces.now }
    requires first { EndsPast from pieces.now }
    requires from { from < MAX_SIZE }
    ensures { SaysUntil pieces.now from result.0 result.1 }
{
    match pieces {
        [] => (None, MAX_SIZE),
        [piece, ..] => {
            if from < piece.at {
                (None, piece.at)
            } else {
                (Some(*piece), piece.at + piece.len)
            }
        }
    }
}

/// The pieces without the first, if that one ends at this byte.
fn past(pieces: &[Piece], at: u64) -> &[Piece]
    requires runs { AreRuns pieces.now }
    requires first { EndsFrom at pieces.now }
    ensures { IsRestFrom pieces.now at result.now }
{
    match pieces {
        [piece, rest @ ..] if piece.at + piece.len <= at => rest,
        _ => pieces,
    }
}

/// How many of the pieces end by this byte: the first one, or none.
fn ended_by(pieces: &[Piece], at: u64) -> usize
    requires runs { AreRuns pieces.now }
    requires first { EndsFrom at pieces.now }
    ensures rest { IsRestFrom pieces.now at (drop result pieces.now) }
    ensures within { result ≤ length pieces.now }
{
    match pieces {
        [piece, ..] if piece.at + piece.len <= at => 1,
        _ => 0,
    }
}

/// The bytes of the piece from one place up to another.
fn part_of(piece: &Piece, from: u64, until: u64) -> Piece
    requires more { from < until }
    requires within { until ≤ MAX_SIZE }
    requires holds { Holds from until piece.now }
    ensures at { result.at ≡ from }
    ensures len { result.len ≡ until - from }
    ensures piece { IsPiece result }
    ensures says { (x : ℕ) → from ≤ x → source_in x result ≡ source_in x piece.now }
{
    Piece {
        at: from,
        len: until - from,
        physical: piece.physical + (from - piece.at),
        stamp: piece.stamp,
        writer: piece.writer,
    }
}
