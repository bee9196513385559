//! Runs that are laid in front of pieces that are left, in the memory of these.

ghost use Rattle.std.specs.Prelude.{◌≡◌, ◌+◌, ℕ, ◌<◌, ◌≤◌, take, drop, vec_len, IfOk, OnOk};
ghost use Rattle.plain_file.specs.Runs.{AreRuns, IsPiece};
ghost use Rattle.interval_merge.specs.Sweep.{AllEndBy, Extends, Lays, CanLie};

use plain_file::Piece;
use plfs_types::NoMemory;

/// What stands where no piece was laid yet.
const NOTHING: Piece = Piece {
    at: 0,
    len: 0,
    physical: 0,
    stamp: 0,
    writer: 0,
};

/// The pieces from a place on.
pub(crate) fn behind(items: &Vec<Piece>, place: usize) -> &[Piece]
    requires { place ≤ vec_len items.now }
    ensures { result.now ≡ drop place items.now.items }
{
    &items.as_slice()[place..]
}

/// Makes room for so many more behind the first `count`, where what is left stands right behind these. It says where that stands then.
pub(crate) fn with_room(
    items: &mut Vec<Piece>,
    count: usize,
    place: usize,
    more: usize,
) -> Result<usize, NoMemory>
    requires place { (count ≤ place) × (place ≤ vec_len items.old) }
    requires more { 0 < more }
    ensures room { IfOk result (λ now. count < now) }
    ensures within { IfOk result (λ now. now ≤ vec_len items.new) }
    ensures front { OnOk result (take count items.new.items ≡ take count items.old.items) }
    ensures back { IfOk result (λ now. drop now items.new.items ≡ drop place items.old.items) }
{
    if count < place {
        return Ok(place);
    }
    let len = items.len();
    items.reserve_exact(more)?;
    items.resize(len + more, NOTHING)?;
    items.copy_within(place..len, place + more);
    Ok(place + more)
}

/// Lays what comes next, if anything, behind the first `count` runs, and says how many they are then.
pub(crate) fn laid(items: &mut Vec<Piece>, count: usize, piece: Option<Piece>) -> usize
    requires room { count < vec_len items.old }
    requires runs { AreRuns (take count items.old.items) }
    requires piece { CanLie (take count items.old.items) piece }
    ensures lays { Lays (take count items.old.items) piece (take result items.new.items) }
    ensures count { result ≤ count + 1 }
    ensures len { vec_len items.new ≡ vec_len items.old }
    ensures behind { (n : ℕ) → count < n → drop n items.new.items ≡ drop n items.old.items }
{
    match piece {
        None => count,
        Some(piece) => with_piece(items, count, piece),
    }
}

/// Lays a piece there, or makes the last run as much longer where that goes on with it.
fn with_piece(items: &mut Vec<Piece>, count: usize, piece: Piece) -> usize
    requires room { count < vec_len items.old }
    requires runs { AreRuns (take count items.old.items) }
    requires piece { IsPiece piece × AllEndBy piece.at (take count items.old.items) }
    ensures extends { Extends (take count items.old.items) piece (take result items.new.items) }
    ensures count { result ≤ count + 1 }
    ensures len { vec_len items.new ≡ vec_len items.old }
    ensures behind { (n : ℕ) → count < n → drop n items.new.items ≡ drop n items.old.items }
{
    if count > 0 {
        let last = items[count - 1];
        if last.joins(&piece) {
            items[count - 1] = Piece {
                at: last.at,
                len: last.len + piece.len,
                physical: last.physical,
                stamp: last.stamp,
                writer: last.writer,
            };
            return count;
        }
    }
    items[count] = piece;
    count + 1
}
