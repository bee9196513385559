//! Parts of bounded size.
ghost use Rattle.std.specs.Prelude.{◌≡◌, ◌≤◌, ◌<◌, ◌-◌, ◌++◌, length, IfOk, OnOk};
ghost use Rattle.index_entry.specs.Spelling.{spelling, spelling_all};
ghost use Rattle.drain_copy.specs.Copying.{entries_part as entries_part_of, entry_place as entry_place_of, parts_of as parts_for};

use index_entry::push_number;
use plfs_types::{Bytes, ENTRIES_A_READ, ENTRY_SIZE, Entry, NoMemory};
use std::alloc::Global;

/// The most bytes of a log that are read at once. So many stay in a processor's cache until they are written, and of 2^20 not all
/// do. By half as many a drain took a twentieth longer, since it works on twice as many parts.
pub const LOG_PART: u64 = 1 << 18;

/// How many parts of this size so much takes.
pub(crate) fn parts_of(size: u64, left: u64) -> u64
    requires { 2 ≤ size }
    ensures { result ≡ parts_for size left }
{
    left / size + (left % size).min(1)
}

/// The place of an entry in an index dropping.
pub(crate) fn entry_place(count: u64, behind: u64) -> u64
    ensures { result ≡ entry_place_of count behind }
{
    count
        .saturating_add(behind)
        .saturating_mul(ENTRY_SIZE as u64)
}

/// The entries of one part, where so many are left.
pub(crate) fn entries_part(entries: &[Entry], left: usize) -> &[Entry]
    requires { left ≤ length entries.now }
    ensures { result.now ≡ entries_part_of entries.now left }
{
    let from = entries.len() - left;
    let count = left.min(ENTRIES_A_READ as usize);
    &entries[from..from + count]
}

fn push_entry(bytes: &mut Vec<u8>, entry: &Entry) -> Result<(), NoMemory>
    ensures { OnOk result (bytes.new.items ≡ bytes.old.items ++ spelling entry.now) }
{
    push_number(bytes, entry.at)?;
    push_number(bytes, entry.len)?;
    push_number(bytes, entry.physical)?;
    push_number(bytes, entry.stamp)?;
    push_number(bytes, entry.writer)?;
    Ok(())
}

/// The bytes of these entries.
pub(crate) fn spelled(alloc: Global, entries: &[Entry]) -> Result<Bytes, NoMemory>
    ensures { IfOk result (λ bytes. bytes ≡ spelling_all entries.now) }
{
    let mut bytes = Vec::new(alloc);
    for entry in entries {
        push_entry(&mut bytes, entry)?;
    }
    Ok(Bytes::from_vec(bytes))
}
