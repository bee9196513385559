//! An entry from bytes.
ghost use Rattle.std.specs.Prelude.{◌≡◌, ◌+◌, ◌≤◌, ◌↔◌, take, drop, Ok, Err, IfOk, IfErr};
ghost use Rattle.std.specs.Int.{w64, to_le_bytes};
ghost use Rattle.plfs_types.specs.declared.entries.Entry.{Entry};
ghost use Rattle.index_entry.specs.declared.reading.BadEntry.{BadEntry};
ghost use Rattle.index_entry.specs.Spelling.{Spells, SpellsSome};
ghost use Rattle.index_entry.specs.Valid.{IsValidEntry, Breaks};

use plfs_types::{ENTRY_SIZE, Entry, MAX_STAMP, fits};

/// The first rule that an entry breaks.
#[derive(Clone, Copy, Debug, PartialEq, Eq)]
pub enum BadEntry {
    /// The length is 0.
    ZeroLength,
    /// The entry ends past the greatest size.
    TooFar,
    /// The stamp is 0 or above the greatest.
    StampRange,
}

/// The valid entry that the bytes spell. `ZeroLength` exactly where the length is 0, else `TooFar` exactly where
/// offset + length is above `MAX_SIZE`, else `StampRange` exactly where the stamp is 0 or above `MAX_STAMP`.
pub fn decode(bytes: &[u8; ENTRY_SIZE]) -> Result<Entry, BadEntry>
    // What is read is valid and spelled so.
    ensures found { IfOk result (λ entry. IsValidEntry entry × Spells bytes.now entry) }
    // Each valid entry that is spelled so is read.
    ensures only { (entry : Entry) → IsValidEntry entry → Spells bytes.now entry → result ≡ Ok entry }
    // The error is the first rule that the entry breaks.
    ensures exact { (rule : BadEntry) → (result ≡ Err rule) ↔ SpellsSome bytes.now (λ entry. Breaks entry rule) }
{
    judge(numbers(bytes))
}

// The entry, or the first rule that it breaks.
fn judge(entry: Entry) -> Result<Entry, BadEntry>
    ensures valid { IfOk result (λ same. (same ≡ entry) × IsValidEntry entry) }
    ensures broken { IfErr result (Breaks entry) }
{
    if entry.len == 0 {
        return Err(BadEntry::ZeroLength);
    }
    if !fits(entry.at, entry.len) {
        return Err(BadEntry::TooFar);
    }
    if entry.stamp == 0 || entry.stamp > MAX_STAMP {
        return Err(BadEntry::StampRange);
    }
    Ok(entry)
}

// The five numbers, valid or not.
fn numbers(bytes: &[u8; ENTRY_SIZE]) -> Entry
    ensures { Spells bytes.now result }
{
    Entry {
        at: number_at(bytes, 0),
        len: number_at(bytes, 8),
        physical: number_at(bytes, 16),
        stamp: number_at(bytes, 24),
        writer: number_at(bytes, 32),
    }
}

// The number that lies at this place, by what it is spelled as.
fn number_at(bytes: &[u8; ENTRY_SIZE], place: usize) -> u64
    requires { place + 8 ≤ ENTRY_SIZE }
    ensures { to_le_bytes w64 result ≡ take 8 (drop place bytes.now) }
{
    let mut number = [0; 8];
    number.copy_from_slice(&bytes[place..place + 8]);
    u64::from_le_bytes(number)
}
