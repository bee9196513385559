//! The search for the first piece of a read.
//!
//! Where pieces are equally far apart, the place of a piece follows from the byte that it begins at. So
//! the search looks where the piece is expected and then near by, before it goes on by halves. A piece
//! of a strided file is found at the first look, and each look counts where the pieces take more memory
//! than the processor's caches.

ghost use Rattle.std.specs.Prelude.{◌≡◌, ℕ, ◌+◌, ◌-◌, ◌<◌, ◌≤◌, ◌↔◌, IsTrue, length, drop};
ghost use Rattle.plain_file.specs.Runs.{AreRuns, EndsPast};
ghost use Rattle.read_plan.specs.Ranges.{pieces_in_range};
ghost use Rattle.read_plan.specs.Brackets.{IsBracket};

use plain_file::Piece;

/// How often a place is expected before the search goes on by halves.
const ROUNDS: usize = 4;

/// Where the first piece past a byte may stand: at a place from `low` up to `high`, both counted.
#[derive(Clone, Copy)]
struct Bracket {
    low: usize,
    high: usize,
}

/// The place of the first piece that ends past this byte of the file, or else the number n of pieces.
/// It looks at no more than 4 pieces in each of its rounds, and then at no more than log2 n + 1.
pub fn first_past(pieces: &[Piece], at: u64) -> usize
    requires { AreRuns pieces.now }
    ensures within { result ≤ length pieces.now }
    ensures first { EndsPast at (drop result pieces.now) }
    ensures skipped { (until : ℕ) → pieces_in_range at until (drop result pieces.now) ≡ pieces_in_range at until pieces.now }
{
    let mut bracket = Bracket {
        low: 0,
        high: pieces.len(),
    };
    'rounds: for _ in 0..ROUNDS {
        if bracket.high - bracket.low < 8 {
            break;
        }
        let expected = expected_place(pieces, bracket, at);
        // By this branch the processor goes on at the place before the piece has come from memory.
        if has_byte(&pieces[expected], at) {
            return expected;
        }
        bracket = approached(pieces, bracket, at, expected);
    }
    by_halves(pieces, bracket, at)
}

/// Whether the piece has this byte of the file.
fn has_byte(piece: &Piece, at: u64) -> bool
    ensures { IsTrue result ↔ ((piece.now.at ≤ at) × (at < piece.now.at + piece.now.len)) }
{
    piece.at <= at && at - piece.at < piece.len
}

/// The bracket after a look at the expected place, and one as far from it as the root of the bracket's
/// size, about as far as the place is missed where lengths look like chance.
fn approached(pieces: &[Piece], bracket: Bracket, at: u64, expected: usize) -> Bracket
    requires runs { AreRuns pieces.now }
    requires holds { IsBracket pieces.now at bracket }
    requires from { bracket.low ≤ expected }
    requires until { expected < bracket.high }
    ensures { IsBracket pieces.now at result }
{
    let half = narrowed(pieces, bracket, at, expected);
    if half.low == half.high {
        return half;
    }
    let root = 1 << ((bracket.high - bracket.low).ilog2() / 2);
    let near = if half.low > expected {
        half.low.saturating_add(root).min(half.high - 1)
    } else {
        (half.high - 1).saturating_sub(root).max(half.low)
    };
    narrowed(pieces, half, at, near)
}

/// The place in the bracket at which a piece with this byte would stand if all were equally far apart.
fn expected_place(pieces: &[Piece], bracket: Bracket, at: u64) -> usize
    requires within { bracket.high ≤ length pieces.now }
    requires some { bracket.low < bracket.high }
    ensures from { bracket.low ≤ result }
    ensures until { result < bracket.high }
{
    let steps = bracket.high - 1 - bracket.low;
    let begin = pieces[bracket.low].at;
    let end = pieces[bracket.high - 1].at;
    if at <= begin {
        bracket.low
    } else if at >= end {
        bracket.high - 1
    } else {
        bracket.low + steps_to(at - begin, end - begin, steps as u64).min(steps as u64) as usize
    }
}

/// How many of so many equal steps through the whole lead to this part of it, about.
fn steps_to(part: u64, whole: u64, steps: u64) -> u64
    requires { 0 < whole }
{
    match part.checked_mul(steps) {
        Some(product) => product / whole,
        None => part / (whole / steps.max(1)).max(1),
    }
}

/// The place in the bracket, found by halves.
fn by_halves(pieces: &[Piece], bracket: Bracket, at: u64) -> usize
    requires runs { AreRuns pieces.now }
    requires holds { IsBracket pieces.now at bracket }
    ensures within { result ≤ length pieces.now }
    ensures first { EndsPast at (drop result pieces.now) }
    ensures skipped { (until : ℕ) → pieces_in_range at until (drop result pieces.now) ≡ pieces_in_range at until pieces.now }
{
    let mut left = bracket;
    while left.low < left.high {
        let middle = left.low + (left.high - left.low) / 2;
        left = narrowed(pieces, left, at, middle);
    }
    left.low
}

/// The bracket after a look at one of its places.
fn narrowed(pieces: &[Piece], bracket: Bracket, at: u64, place: usize) -> Bracket
    requires runs { AreRuns pieces.now }
    requires holds { IsBracket pieces.now at bracket }
    requires from { bracket.low ≤ place }
    requires until { place < bracket.high }
    ensures holds { IsBracket pieces.now at result }
    ensures smaller { result.high - result.low < bracket.high - bracket.low }
{
    let piece = &pieces[place];
    if at < piece.at {
        Bracket {
            low: bracket.low,
            high: place,
        }
    } else if at - piece.at < piece.len {
        // All before it end by its begin.
        Bracket {
            low: place,
            high: place,
        }
    } else {
        Bracket {
            low: place + 1,
            high: bracket.high,
        }
    }
}
