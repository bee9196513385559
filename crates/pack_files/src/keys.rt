//! The keys of units.
ghost use Rattle.std.specs.Prelude.{◌≡◌};
ghost use Rattle.plain_file.specs.Runs.{AreRuns};
ghost use Rattle.pack_files.specs.Keys.{first_key as first_key_of};
ghost use Rattle.pack_files.specs.Scanning.{key_at as key_of_place, unit_of, units_of};

use plain_file::Piece;
use plfs_types::Key;
use read_plan::first_past;
use unit_format::Unit;

/// The key of the first piece, where that has this byte, or else zeros.
fn first_key(pieces: &[Piece], place: u64) -> Key
    ensures { result ≡ first_key_of pieces.now place }
{
    match pieces.first() {
        Some(piece) if piece.at <= place => Key {
            stamp: piece.stamp,
            writer: piece.writer,
        },
        _ => Key {
            stamp: 0,
            writer: 0,
        },
    }
}

/// The key of the piece that has this byte, or zeros where none has it. It looks at about as many pieces as the number of all
/// has binary digits.
fn key_at(pieces: &[Piece], place: u64) -> Key
    requires { AreRuns pieces.now }
    ensures { result ≡ key_of_place pieces.now place }
{
    let first = first_past(pieces, place);
    first_key(&pieces[first..], place)
}

/// The unit with the key of the write that shows its first byte.
fn with_key(pieces: &[Piece], unit: Unit) -> Unit
    requires { AreRuns pieces.now }
    ensures { result ≡ unit_of pieces.now unit }
{
    let head = 16 + unit.name.name().bytes().len() as u64;
    Unit {
        name: unit.name,
        at: unit.at,
        len: unit.len,
        key: key_at(pieces, unit.at.saturating_sub(head)),
    }
}

/// Gives the units their keys, where they stand.
pub(crate) fn set_keys(pieces: &[Piece], units: &mut [Unit])
    requires { AreRuns pieces.now }
    ensures { units.new ≡ units_of pieces.now units.old }
{
    for place in 0..units.len() {
        units[place] = with_key(pieces, units[place]);
    }
}
