//! Entries that are read: which ones may follow each other, which have landed, and what they tell together.
ghost use Rattle.std.specs.Prelude.{◌≡◌, ◌++◌, ◌*◌, ◌+◌, ◌<◌, ◌≤◌, ◌^◌, ◌↔◌, length, IfOk, IfErr, OnOk, IsTrue};
ghost use Rattle.index_entry.specs.Entries.{MayFollow, AreEntriesOf, logged as logged_in, last_stamp};
ghost use Rattle.index_entry.specs.Records.{IsBytes};
ghost use Rattle.mount_sound.specs.Entries.{greatest_end};
ghost use Rattle.store_api.specs.declared.tree.Tree.{Tree};
ghost use Rattle.store_laws.specs.Files.{file_at};
ghost use Rattle.mount_sound.specs.Dropping.{bytes_of};
ghost use Rattle.tree_laws.specs.Checked.{whole_entries};
ghost use Rattle.shape_check.specs.Rightness.{Fails, IsNoComplaint};
ghost use Rattle.shape_check.specs.Seeing.{IsSeen, IsLookedAt};
ghost use Rattle.tree_check.specs.Whole.{HasLength};
ghost use Rattle.tree_check.specs.Entries.{AreEntriesIn, AreInOrder, AreOrdered, ends_within, EndsWithin, IsMisfit};

use crate::whole::piece;
use mount_model::first_entry;
use plfs_types::{
    ENTRIES_A_READ, ENTRY_SIZE, Entry, EntryList, MAX_LOG, MAX_STAMP, Name, NoMemory, Path, fits,
};
use shape_check::{Complaint, Finding, Place};
use std::alloc::Global;
use store_api::Store;

/// The most bytes of an index dropping that are read at once: those of whole entries.
const PART: u64 = ENTRIES_A_READ * ENTRY_SIZE as u64;

/// Adds the whole entries that the bytes are, valid or not.
fn add_entries(entries: &mut EntryList, bytes: &[u8]) -> Result<(), NoMemory>
    ensures value { OnOk result (entries.new ≡ entries.old ++ whole_entries bytes.now) }
    ensures bytes { IsBytes bytes.now }
{
    let mut rest = bytes;
    while rest.len() >= ENTRY_SIZE {
        entries.push(first_entry(rest))?;
        let (_entry, after) = rest.split_at(ENTRY_SIZE);
        rest = after;
    }
    Ok(())
}

/// The whole entries of an index dropping of this length, valid or not. It is read part by part.
#[tactic(auto, using(crate::proofs::WholeLemmas::no_memory, crate::proofs::WholeLemmas::looked_same, crate::proofs::WholeLemmas::looked_on, shape_check::proofs::Facts::memory_unbroken))]
pub(crate) fn entries_at<S: Store>(
    alloc: Global,
    store: &mut S,
    place: &Place,
    path: &Path,
    size: u64,
) -> Result<EntryList, Finding>
    ensures looked { IsLookedAt (S.stored store.old) (S.stored store.new) }
    ensures ok { IfOk result (λ entries. (tree : Tree) → IsSeen (S.stored store.old) tree → (has : HasLength place.now path.now size tree) → AreEntriesIn (bytes_of (file_at has.placed.room path.now)) entries) }
    ensures err { IfErr result (Fails (HasLength place.now path.now size) (S.stored store.old) (S.stored store.new)) }
    ensures unbroken { IfErr result IsNoComplaint }
{
    let mut entries = EntryList::from_vec(Vec::with_capacity(alloc, size as usize / ENTRY_SIZE)?);
    let mut at = 0;
    while at < size {
        let bytes = piece(store, place, path, size, at, PART)?;
        add_entries(&mut entries, bytes.as_slice())?;
        at += (size - at).min(PART);
    }
    Ok(entries)
}

/// Whether the entry may follow one of this stamp of the writer, where so many bytes were logged before.
fn may_follow(writer: u64, last: u64, logged: u64, entry: &Entry) -> bool
    ensures { IsTrue result ↔ MayFollow writer last logged entry.now }
{
    entry.len != 0
        && fits(entry.at, entry.len)
        && entry.writer == writer
        && last < entry.stamp
        && entry.stamp <= MAX_STAMP
        && entry.physical == logged
}

/// Whether each entry may follow those before it, and all have no more bytes than a log.
pub(crate) fn judge(room: Name, path: &Path, writer: u64, entries: &[Entry]) -> Result<(), Finding>
    requires { 40 * length entries.now < 2 ^ 64 }
    ensures ok { OnOk result (AreInOrder writer entries.now) }
    ensures err { IfErr result (IsMisfit room path.now writer entries.now) }
{
    let mut last = 0;
    let mut logged = 0;
    let mut place = 0;
    for entry in entries {
        if !may_follow(writer, last, logged, entry) {
            return Err(Finding::Broken {
                complaint: Complaint::Entry {
                    room,
                    path: *path,
                    place,
                },
            });
        }
        if entry.len > MAX_LOG - logged {
            return Err(Finding::Broken {
                complaint: Complaint::LongLog { room, path: *path },
            });
        }
        last = entry.stamp;
        logged += entry.len;
        place += ENTRY_SIZE as u64;
    }
    Ok(())
}

/// Whether the entry ends within so many bytes of a log.
fn is_within(log: u64, entry: &Entry) -> bool
    ensures { IsTrue result ↔ EndsWithin log entry.now }
{
    entry.physical <= log && entry.len <= log - entry.physical
}

/// How many of the first entries end within so many bytes of a log.
pub(crate) fn landed_of(log: u64, entries: &[Entry]) -> usize
    ensures value { result ≡ ends_within log entries.now }
    ensures within { result ≤ length entries.now }
{
    for (count, entry) in entries.iter().enumerate() {
        if !is_within(log, entry) {
            return count;
        }
    }
    entries.len()
}

/// What entries of one writer tell together.
#[derive(Clone, Copy)]
pub(crate) struct Sum {
    /// The greatest end, or 0.
    pub(crate) end: u64,
    /// Their bytes in the log.
    pub(crate) bytes: u64,
    /// The last stamp, or 0.
    pub(crate) stamp: u64,
}

/// What entries in order tell together.
pub(crate) fn sum_of(entries: &[Entry]) -> Sum
    requires { AreOrdered entries.now }
    ensures end { result.end ≡ greatest_end entries.now }
    ensures bytes { result.bytes ≡ logged_in entries.now }
    ensures stamp { result.stamp ≡ last_stamp 0 entries.now }
{
    let mut end = 0u64;
    let mut bytes = 0;
    let mut stamp = 0;
    for entry in entries {
        end = end.max(entry.at + entry.len);
        bytes += entry.len;
        stamp = entry.stamp;
    }
    Sum { end, bytes, stamp }
}
