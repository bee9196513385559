//! Numbers of 8 bytes, the lowest byte first, in bytes of any length.
ghost use Rattle.std.specs.Prelude.{◌≡◌, ◌+◌, ◌≤◌, ◌++◌, length, OnOk};
ghost use Rattle.std.specs.Int.{w64, to_le_bytes};
ghost use Rattle.index_entry.specs.Spelling.{number_in};

use plfs_types::NoMemory;

/// The number that lies at this place.
pub fn number_at(bytes: &[u8], place: usize) -> u64
    requires { place + 8 ≤ length bytes.now }
    ensures { result ≡ number_in place bytes.now }
{
    let mut number = [0; 8];
    number.copy_from_slice(&bytes[place..place + 8]);
    u64::from_le_bytes(number)
}

/// Adds a number at the end.
pub fn push_number(bytes: &mut Vec<u8>, number: u64) -> Result<(), NoMemory>
    ensures { OnOk result (bytes.new.items ≡ bytes.old.items ++ to_le_bytes w64 number) }
{
    bytes.extend_from_slice(&number.to_le_bytes())?;
    Ok(())
}
