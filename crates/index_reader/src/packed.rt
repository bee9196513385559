//! What the bytes of a packed index give.
ghost use Rattle.std.specs.Prelude.{All, ℕ, ◌≡◌, ◌≤◌, ◌<◌, ◌+◌, ◌*◌, length, drop, vec_len, IfOk, IfNone};
ghost use Rattle.interval_merge.specs.Writer.{HasPiece};
ghost use Rattle.index_entry.specs.Entries.{logged, last_stamp};
ghost use Rattle.index_entry.specs.Records.{records_in};
ghost use Rattle.index_pack.specs.Bad.{HasLength};
ghost use Rattle.index_pack.specs.Reading.{run_in};
ghost use Rattle.index_reader.specs.PackRules.{has_head as begins, pack_told};
ghost use Rattle.plfs_types.specs.declared.names.Path.{Path as Place};
ghost use Rattle.index_reader.specs.Packed.{IsOfOne, headed_program};
ghost use Rattle.index_reader.specs.Packs.{if_headed, head_fault as fault_of, run_of as run_with, run_place as place_of_run, writer_of as owner_of, begins_covered as covers_first, tail_past as past, pack_tail};

use crate::entries::Tail;
use index_entry::number_at;
use index_pack::{HEAD_SIZE, PackTrouble, RUN_SIZE, unpack};
use interval_merge::give_back;
use mount_model::{Stuck, damage};
use plfs_types::{Bytes, Cover, Entry, EntryList, MAX_PACKED, NoMemory, Path};
use std::alloc::Global;

/// Whether the bytes have a head, with the letters that a packed index begins with.
fn has_head(bytes: &[u8]) -> bool
    ensures value { result ≡ begins bytes.now }
{
    bytes.len() >= HEAD_SIZE && &bytes[..8] == b"PLFSIDX2".as_slice()
}

/// What is wrong with the head of a packed index of so many bytes, of which so many entries are covered.
fn head_fault(told: u64, covered: u64, head: &[u8]) -> Option<u64>
    ensures value { result ≡ fault_of told covered head.now }
    ensures long { IfNone result (24 ≤ length head.now) }
    ensures told { IfNone result (24 ≤ told) }
{
    if !has_head(head) {
        return Some(0);
    }
    let count = number_at(head, 8);
    if count == 0 || count > MAX_PACKED {
        return Some(8);
    }
    if u128::from(told) != HEAD_SIZE as u128 + RUN_SIZE as u128 * u128::from(number_at(head, 16)) {
        return Some(16);
    }
    if count < covered { Some(8) } else { None }
}

/// What a head tells of the rest.
#[derive(Clone, Copy)]
pub(crate) enum Headed {
    /// Something is wrong with it, at this place.
    Fault { place: u64 },
    /// All entries are covered.
    Covered,
    /// There are entries past the covered ones.
    More,
}

/// Judges the head of a packed index of so many bytes, of which so many entries are covered.
pub(crate) fn judge(told: u64, cover: &Cover, head: &Bytes) -> Headed
    ensures value { (room : ℕ) (path : Place) → if_headed room path cover.now told head.now (fault_of told cover.now.count head.now) ≡ headed_program room path cover.now told head.now result }
    ensures told { result ≡ Headed.More → 24 ≤ told }
{
    let head = head.as_slice();
    match head_fault(told, cover.count, head) {
        Some(place) => Headed::Fault { place },
        None => {
            if number_at(head, 8) == cover.count {
                Headed::Covered
            } else {
                Headed::More
            }
        }
    }
}

/// The bytes from this place on.
fn from(bytes: &[u8], place: usize) -> &[u8]
    requires { place ≤ length bytes.now }
    ensures { result.now ≡ drop place bytes.now }
{
    &bytes[place..]
}

/// The entries whose packed index the bytes are, or the place of the first fault.
fn told(alloc: Global, bytes: &[u8]) -> Result<Result<EntryList, u64>, NoMemory>
    ensures value { IfOk result (λ told. told ≡ pack_told bytes.now) }
    ensures one { IfOk result (λ told. IfOk told IsOfOne) }
    ensures whole { IfOk result (λ told. IfOk told (λ entries. HasLength bytes.now)) }
{
    match unpack(alloc, bytes) {
        Ok(entries) => Ok(Ok(entries)),
        Err(PackTrouble::Bad { place }) => Ok(Err(place)),
        Err(PackTrouble::NoMemory) => Err(NoMemory),
    }
}

fn writer_of(entries: &[Entry]) -> u64
    ensures { result ≡ owner_of entries.now }
{
    match entries.first() {
        None => 0,
        Some(entry) => entry.writer,
    }
}

/// How many bytes all entries of a writer logged, and the last one's stamp.
fn end_of(entries: &[Entry]) -> (u64, u64)
    requires { IsOfOne entries.now }
    ensures bytes { result.0 ≡ logged entries.now }
    ensures stamp { result.1 ≡ last_stamp 0 entries.now }
{
    match entries.last() {
        None => (0, 0),
        Some(entry) => (entry.physical + entry.len, entry.stamp),
    }
}

/// The first of so many runs that has the entry of this number, from 0.
fn run_of(bytes: &[u8], runs: usize, number: u64) -> usize
    requires { 64 * runs ≤ length bytes.now }
    ensures value { result ≡ run_with number (records_in run_in 64 runs bytes.now) }
    ensures within { result ≤ runs }
{
    let mut rest = bytes;
    let mut left = runs;
    let mut number = number;
    while left > 0 {
        let count = number_at(rest, 24);
        if number < count {
            return runs - left;
        }
        number -= count;
        rest = from(rest, RUN_SIZE);
        left -= 1;
    }
    runs
}

/// The place of the first run that has the entry of this number, from 0.
fn run_place(bytes: &[u8], number: u64) -> u64
    requires { HasLength bytes.now }
    ensures { result ≡ place_of_run number bytes.now }
{
    let runs = number_at(bytes, 16) as usize;
    let run = run_of(from(bytes, HEAD_SIZE), runs, number);
    (HEAD_SIZE + RUN_SIZE * run) as u64
}

/// Whether the first so many entries have the cover's bytes and its stamp.
fn begins_covered(cover: &Cover, entries: &[Entry]) -> bool
    requires { IsOfOne entries.now }
    ensures { result ≡ covers_first cover.now entries.now }
{
    let count = (cover.count).min(entries.len() as u64) as usize;
    let (bytes, stamp) = end_of(&entries[..count]);
    bytes == cover.bytes && stamp == cover.stamp
}

/// The entries past the first so many.
fn past_first(entries: Vec<Entry>, covered: usize) -> Result<Vec<Entry>, NoMemory>
    requires { covered ≤ vec_len entries }
    ensures { IfOk result (λ rest. rest.items ≡ drop covered entries.items) }
{
    if covered == 0 {
        return Ok(entries);
    }
    let mut all = entries;
    let rest = all.split_off(covered)?;
    give_back(all);
    Ok(rest)
}

/// The entries past the covered ones, and a cover of all.
fn tail_past(cover: &Cover, entries: EntryList) -> Result<Tail, NoMemory>
    requires { IsOfOne entries }
    ensures value { IfOk result (λ tail. tail ≡ past cover.now entries) }
    ensures pieces { IfOk result (λ tail. All HasPiece tail.entries) }
{
    let all = entries.into_vec();
    let (bytes, stamp) = end_of(all.as_slice());
    let count = all.len();
    let covered = cover.count.min(count as u64) as usize;
    let rest = past_first(all, covered)?;
    Ok(Tail {
        cover: Cover {
            writer: cover.writer,
            count: count as u64,
            bytes,
            stamp,
        },
        entries: EntryList::from_vec(rest),
    })
}

/// The tail that the bytes give, or the damage that they are.
pub(crate) fn tail_of(
    alloc: Global,
    path: &Path,
    cover: &Cover,
    bytes: &[u8],
) -> Result<Result<Tail, Stuck>, NoMemory>
    ensures value { IfOk result (λ tail. tail ≡ pack_tail path.now cover.now bytes.now (pack_told bytes.now)) }
    ensures pieces { IfOk result (λ tail. IfOk tail (λ tail. All HasPiece tail.entries)) }
{
    let entries = match told(alloc, bytes)? {
        Ok(entries) => entries,
        Err(place) => return Ok(Err(damage(path, place))),
    };
    if writer_of(entries.as_slice()) != cover.writer {
        return Ok(Err(damage(path, HEAD_SIZE as u64)));
    }
    if !begins_covered(cover, entries.as_slice()) {
        return Ok(Err(damage(path, run_place(bytes, cover.count))));
    }
    let tail = tail_past(cover, entries)?;
    Ok(Ok(tail))
}
