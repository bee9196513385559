//! An entry as bytes.
ghost use Rattle.std.specs.Prelude.{◌≡◌, ◌+◌, ◌≤◌, ◌++◌, take};
ghost use Rattle.std.specs.Int.{w64, to_le_bytes};
ghost use Rattle.index_entry.specs.Spelling.{spelling};
ghost use Rattle.index_entry.specs.Valid.{IsValidEntry};

use plfs_types::{ENTRY_SIZE, Entry};

/// The 40 bytes of a valid entry.
pub fn encode(entry: &Entry) -> [u8; ENTRY_SIZE]
    requires { IsValidEntry entry.now }
    ensures { result ≡ spelling entry.now }
{
    let mut bytes = [0; ENTRY_SIZE];
    put_number(&mut bytes, 0, entry.at);
    put_number(&mut bytes, 8, entry.len);
    put_number(&mut bytes, 16, entry.physical);
    put_number(&mut bytes, 24, entry.stamp);
    put_number(&mut bytes, 32, entry.writer);
    bytes
}

// Puts a number behind the first `place` bytes, which stay.
fn put_number(bytes: &mut [u8; ENTRY_SIZE], place: usize, number: u64)
    requires { place + 8 ≤ ENTRY_SIZE }
    ensures { take (place + 8) bytes.new ≡ take place bytes.old ++ to_le_bytes w64 number }
{
    let field = &mut bytes[place..place + 8];
    field.copy_from_slice(&number.to_le_bytes());
}
