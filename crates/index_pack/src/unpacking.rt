//! Entries from a packed index.
ghost use Rattle.std.specs.Prelude.{◌≡◌, ◌↔◌, IsTrue, IfSome, IfNone, ◌≤◌, ◌<◌, ◌+◌, ◌-◌, ◌*◌, ◌^◌, ◌⊎◌, ◌++◌, ℕ, List, length, drop, Ok, Err, IfOk, IfErr, OnOk};
ghost use Rattle.plfs_types.specs.declared.entries.Entry.{Entry};
ghost use Rattle.index_entry.specs.Spelling.{number_in, FitsPlaces};
ghost use Rattle.index_pack.specs.declared.trouble.PackTrouble.TheVariants.{Bad, NoMemory as WantsMemory};
ghost use Rattle.index_pack.specs.Bad.{HasHead, HasCount, HasLength, BreaksAt, IsBadAt, IsPackTrouble};
ghost use Rattle.index_pack.specs.RunEnds.{EndsWell, run_stamp};
ghost use Rattle.index_pack.specs.Reading.{run_in, runs_in, nth_run, later_runs};
ghost use Rattle.index_pack.specs.Runs.{IsRun, Ends, entry_of, run_entries, entries_of};
ghost use Rattle.index_pack.specs.Spelling.{Packs};
ghost use Rattle.index_pack.specs.Valid.{IsValidRun, AreValidRuns, writer_of};

use crate::runs::{Run, could_go_on, further};
use crate::trouble::{HEAD_SIZE, LETTERS, PackTrouble, RUN_SIZE};
use index_entry::number_at;
use plfs_types::{Entry, EntryList, MAX_LOG, MAX_PACKED, MAX_STAMP, NoMemory, Sequence, fits};
use std::alloc::Global;

/// The entries whose packed index the bytes are. `Bad` comes exactly where they are none, with the place 0 where there
/// are fewer than `HEAD_SIZE` bytes or they don't begin with the letters, else 8 where the number of entries isn't 1 to
/// `MAX_PACKED`, else 16 where the length doesn't fit the number of runs, else that of the first run that breaks a rule,
/// else 8 where the runs have another number of entries.
///
/// Memory is taken once the bytes have been judged, and is linear in the entries.
pub fn unpack(alloc: Global, bytes: &[u8]) -> Result<EntryList, PackTrouble>
    // The bytes are the packed index of what is read.
    ensures found { IfOk result (λ entries. Packs bytes.now entries) }
    // Entries whose packed index the bytes are, are read, unless memory runs out.
    ensures only { (entries : List Entry) → Packs bytes.now entries → (result ≡ Ok entries) ⊎ (result ≡ Err WantsMemory) }
    // The place is that of the first fault.
    ensures bad { IfErr result (IsPackTrouble bytes.now) }
    // Where there is a fault its place is told, unless memory runs out.
    ensures exact { (place : ℕ) → IsBadAt bytes.now place → (result ≡ Err (Bad place)) ⊎ (result ≡ Err WantsMemory) }
{
    judged(alloc, bytes)
}

/// The entries of the runs that the bytes have by their count, where they are a packed index.
fn judged(alloc: Global, bytes: &[u8]) -> Result<EntryList, PackTrouble>
    ensures found { IfOk result (λ entries. Packs bytes.now entries) }
    ensures bad { IfErr result (IsPackTrouble bytes.now) }
{
    let runs = match judge(bytes) {
        Ok(runs) => runs,
        Err(place) => return Err(PackTrouble::Bad { place }),
    };
    match entries_in(alloc, bytes, runs) {
        Ok(entries) => Ok(Sequence::from_vec(entries)),
        Err(NoMemory) => Err(PackTrouble::NoMemory),
    }
}

/// The number of runs, or the place of the first fault.
fn judge(bytes: &[u8]) -> Result<usize, u64>
    ensures head { IfOk result (λ runs. HasHead bytes.now × HasCount bytes.now × HasLength bytes.now) }
    ensures count { IfOk result (λ runs. runs ≡ number_in 16 bytes.now) }
    ensures valid { IfOk result (λ runs. AreValidRuns (runs_in runs bytes.now)) }
    ensures entries { IfOk result (λ runs. length (entries_of (runs_in runs bytes.now)) ≡ number_in 8 bytes.now) }
    ensures bad { IfErr result (IsBadAt bytes.now) }
{
    let (count, runs) = match counts_of(bytes) {
        Ok(counts) => counts,
        Err(place) => return Err(place),
    };
    match entry_count(bytes, runs as usize) {
        Err(index) => Err((HEAD_SIZE + RUN_SIZE * index) as u64),
        Ok(total) => {
            if total == count {
                Ok(runs as usize)
            } else {
                Err(8)
            }
        }
    }
}

/// The numbers of entries and of runs, or the place of what is wrong with the head.
fn counts_of(bytes: &[u8]) -> Result<(u64, u64), u64>
    ensures head { IfOk result (λ counts. HasHead bytes.now × HasCount bytes.now × HasLength bytes.now) }
    ensures counts { IfOk result (λ counts. (counts.0 ≡ number_in 8 bytes.now) × (counts.1 ≡ number_in 16 bytes.now)) }
    ensures bad { IfErr result (λ place. ((HasHead bytes.now → ⊥) × (place ≡ 0)) ⊎ (HasHead bytes.now × (HasCount bytes.now → ⊥) × (place ≡ 8)) ⊎ (HasHead bytes.now × HasCount bytes.now × (HasLength bytes.now → ⊥) × (place ≡ 16))) }
{
    if bytes.len() < HEAD_SIZE || &bytes[..8] != LETTERS.as_slice() {
        return Err(0);
    }
    let count = number_at(bytes, 8);
    if count == 0 || count > MAX_PACKED {
        return Err(8);
    }
    let runs = number_at(bytes, 16);
    if bytes.len() as u128 != HEAD_SIZE as u128 + RUN_SIZE as u128 * u128::from(runs) {
        return Err(16);
    }
    Ok((count, runs))
}

/// What the runs so far come to.
#[derive(Clone, Copy)]
struct Reached {
    /// How many entries they have.
    entries: u64,
    /// The last one's stamp.
    stamp: u64,
    /// The bytes of their entries.
    logged: u64,
}

/// How many entries the runs have, or the first run that breaks a rule.
fn entry_count(bytes: &[u8], runs: usize) -> Result<u64, usize>
    requires { HEAD_SIZE + RUN_SIZE * runs ≤ length bytes.now }
    ensures valid { IfOk result (λ total. AreValidRuns (runs_in runs bytes.now)) }
    ensures entries { IfOk result (λ total. length (entries_of (runs_in runs bytes.now)) ≡ total) }
    ensures within { IfErr result (λ index. index < runs) }
    ensures bad { IfErr result (BreaksAt (writer_of (runs_in runs bytes.now)) 0 0 (runs_in runs bytes.now)) }
{
    let writer = first_writer(bytes, runs);
    let mut so_far = Reached {
        entries: 0,
        stamp: 0,
        logged: 0,
    };
    for index in 0..runs {
        let Some(next) = passed(bytes, runs, index, writer, so_far) else {
            return Err(index);
        };
        so_far = next;
    }
    Ok(so_far.entries)
}

/// The writer of the first run, or 0 where there is none.
fn first_writer(bytes: &[u8], runs: usize) -> u64
    requires { HEAD_SIZE + RUN_SIZE * runs ≤ length bytes.now }
    ensures { result ≡ writer_of (runs_in runs bytes.now) }
{
    if runs == 0 {
        0
    } else {
        run_at(bytes, HEAD_SIZE).writer
    }
}

/// What the runs come to with the one of this index, where it keeps all rules.
fn passed(bytes: &[u8], runs: usize, index: usize, writer: u64, so_far: Reached) -> Option<Reached>
    requires fits { HEAD_SIZE + RUN_SIZE * runs ≤ length bytes.now }
    requires there { index < runs }
    requires some { so_far.entries ≤ so_far.logged }
    ensures valid { IfSome result (λ next. IsValidRun writer so_far.stamp so_far.logged (nth_run index bytes.now) (later_runs runs (index + 1) bytes.now)) }
    ensures entries { IfSome result (λ next. next.entries ≡ so_far.entries + (nth_run index bytes.now).count) }
    ensures stamp { IfSome result (λ next. next.stamp ≡ run_stamp (nth_run index bytes.now)) }
    ensures logged { IfSome result (λ next. next.logged ≡ so_far.logged + (nth_run index bytes.now).count * (nth_run index bytes.now).len) }
    ensures some { IfSome result (λ next. next.entries ≤ next.logged) }
    ensures none { IfNone result (IsValidRun writer so_far.stamp so_far.logged (nth_run index bytes.now) (later_runs runs (index + 1) bytes.now) → ⊥) }
{
    let run = run_at(bytes, HEAD_SIZE + RUN_SIZE * index);
    let Some((stamp, logged)) = ends_of(&run, writer, so_far.stamp, so_far.logged) else {
        return None;
    };
    if !is_longest(bytes, runs, index, &run) {
        return None;
    }
    Some(Reached {
        entries: so_far.entries + run.count,
        stamp,
        logged,
    })
}

/// Whether this run is the last one, or could not go on with the run behind the one of this index.
fn is_longest(bytes: &[u8], runs: usize, index: usize, run: &Run) -> bool
    requires fits { HEAD_SIZE + RUN_SIZE * runs ≤ length bytes.now }
    requires there { index < runs }
    ensures { IsTrue result ↔ Ends run.now (later_runs runs (index + 1) bytes.now) }
{
    if index + 1 == runs {
        return true;
    }
    let next = run_at(bytes, HEAD_SIZE + RUN_SIZE * (index + 1));
    !could_go_on(run, first_entry(&next))
}

/// The run at this place, valid or not.
fn run_at(bytes: &[u8], place: usize) -> Run
    requires { place + RUN_SIZE ≤ length bytes.now }
    ensures { result ≡ run_in (drop place bytes.now) }
{
    Run {
        start: number_at(bytes, place),
        stride: number_at(bytes, place + 8),
        len: number_at(bytes, place + 16),
        count: number_at(bytes, place + 24),
        physical: number_at(bytes, place + 32),
        stamp: number_at(bytes, place + 40),
        step: number_at(bytes, place + 48),
        writer: number_at(bytes, place + 56),
    }
}

fn first_entry(run: &Run) -> Entry
    ensures { result ≡ entry_of run.now 0 }
{
    Entry {
        at: run.start,
        len: run.len,
        physical: run.physical,
        stamp: run.stamp,
        writer: run.writer,
    }
}

/// The stamp of its last entry, and where its bytes end in the log, where its entries may follow others of this writer
/// with this last stamp and so many bytes.
fn ends_of(run: &Run, writer: u64, last: u64, offset: u64) -> Option<(u64, u64)>
    ensures value { IfSome result (λ ends. (ends.0 ≡ run_stamp run.now) × (ends.1 ≡ offset + run.now.count * run.now.len)) }
    ensures well { IfSome result (λ ends. EndsWell writer last offset run.now) }
    ensures none { IfNone result (EndsWell writer last offset run.now → ⊥) }
{
    if !has_shape(run) || !begins_at(run, writer, last, offset) {
        return None;
    }
    let last_at = further(run.start, run.count - 1, run.stride)?;
    let stamp = further(run.stamp, run.count - 1, run.step)?;
    let end = further(offset, run.count, run.len)?;
    if fits(last_at, run.len) && stamp <= MAX_STAMP && end <= MAX_LOG {
        Some((stamp, end))
    } else {
        None
    }
}

fn begins_at(run: &Run, writer: u64, last: u64, offset: u64) -> bool
    ensures { IsTrue result ↔ ((run.now.writer ≡ writer) × (run.now.physical ≡ offset) × (last < run.now.stamp) × (1 ≤ run.now.len)) }
{
    run.writer == writer && run.physical == offset && run.stamp > last && run.len > 0
}

fn has_shape(run: &Run) -> bool
    ensures { IsTrue result ↔ IsRun run.now }
{
    match run.count {
        0 => false,
        1 => run.stride == 0 && run.step == 0,
        _ => run.step > 0,
    }
}

/// The entries of so many runs.
fn entries_in(alloc: Global, bytes: &[u8], runs: usize) -> Result<Vec<Entry>, NoMemory>
    requires fits { HEAD_SIZE + RUN_SIZE * runs ≤ length bytes.now }
    requires valid { AreValidRuns (runs_in runs bytes.now) }
    ensures { IfOk result (λ entries. entries.items ≡ entries_of (runs_in runs bytes.now)) }
{
    let mut entries = Vec::new(alloc);
    for index in 0..runs {
        push_entries(&mut entries, &run_at(bytes, HEAD_SIZE + RUN_SIZE * index))?;
    }
    Ok(entries)
}

fn push_entries(entries: &mut Vec<Entry>, run: &Run) -> Result<(), NoMemory>
    requires { (k : ℕ) → k < run.now.count → FitsPlaces (entry_of run.now k) }
    ensures { OnOk result (entries.new.items ≡ entries.old.items ++ run_entries run.now) }
{
    for index in 0..run.count {
        entries.push(nth_entry(run, index))?;
    }
    Ok(())
}

/// Entry `index` of the run, from 0, whose numbers have 64 bits.
fn nth_entry(run: &Run, index: u64) -> Entry
    requires { FitsPlaces (entry_of run.now index) }
    ensures { result ≡ entry_of run.now index }
{
    Entry {
        at: run.start + index * run.stride,
        len: run.len,
        physical: run.physical + index * run.len,
        stamp: run.stamp + index * run.step,
        writer: run.writer,
    }
}
