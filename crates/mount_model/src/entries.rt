//! The entries of an index dropping.
ghost use Rattle.std.specs.Prelude.{◌≡◌, ◌≤◌, drop, length};
ghost use Rattle.index_entry.specs.Spelling.{entry_in as entry_of};
ghost use Rattle.mount_model.specs.Entries.{is_next as next_of, next_read as read_next};

use index_entry::number_at;
use plfs_types::{Cover, ENTRIES_A_READ, Entry, MAX_LOG, MAX_SIZE, MAX_STAMP};

/// The entry that the first 40 bytes are, valid or not.
#[tactic(auto, unfolding(index_entry::specs::Spelling::entry_in))]
pub fn first_entry(bytes: &[u8]) -> Entry
    requires { 40 ≤ length bytes.now }
    ensures { result ≡ entry_of bytes.now }
{
    Entry {
        at: number_at(bytes, 0),
        len: number_at(bytes, 8),
        physical: number_at(bytes, 16),
        stamp: number_at(bytes, 24),
        writer: number_at(bytes, 32),
    }
}

/// The bytes after those of the first entry.
pub fn past_first(bytes: &[u8]) -> &[u8]
    requires { 40 ≤ length bytes.now }
    ensures { result.now ≡ drop 40 bytes.now }
{
    &bytes[40..]
}

/// How many entries the next Read asks for, where so many are left.
pub fn next_read(left: u64) -> u64
    ensures { result ≡ read_next left }
{
    left.min(ENTRIES_A_READ)
}

/// Whether the entry is valid and follows what the cover counts: it has its writer, a later stamp, and the next place in
/// the log, where it ends within the longest one.
pub fn is_next(cover: &Cover, entry: &Entry) -> bool
    ensures { result ≡ next_of cover.now entry.now }
{
    0 < entry.len
        && entry.at <= MAX_SIZE
        && entry.len <= MAX_SIZE - entry.at
        && cover.stamp < entry.stamp
        && entry.stamp <= MAX_STAMP
        && entry.writer == cover.writer
        && entry.physical == cover.bytes
        && entry.physical <= MAX_LOG
        && entry.len <= MAX_LOG - entry.physical
}
