//! An index dropping that was read, and what is told of its writer.
ghost use Rattle.std.specs.Prelude.{◌≡◌, ◌≤◌, ◌↔◌, IsTrue, None, length, take, IfOk, IfErr, IfSome, OnOk};
ghost use Rattle.tree_check.specs.Entries.{AreInOrder, IsMisfit};
ghost use Rattle.index_entry.specs.Entries.{last_stamp};
ghost use Rattle.mount_model.specs.Paths.{index_path, log_path as log_path_of};
ghost use Rattle.shape_check.specs.Files.{IsPlaced, OfPlace};
ghost use Rattle.shape_check.specs.Rightness.{Fails, IsFoundIn};
ghost use Rattle.shape_check.specs.Seeing.{IsLookedAt};
ghost use Rattle.tree_check.specs.Concerning.{IsOfEntries};
ghost use Rattle.tree_check.specs.Droppings.{IsMadeOf, IsOrderly, IsDroppingOf, IsKept, WasKept, AreBesideAll, IsBetween, AreOutside, IsFromTo, IsInside, IsLeftRight, IsLeftWrong};

use crate::entries::{entries_at, judge, landed_of, sum_of};
use crate::whole::length_or_none;
use container_layout::{Item, print};
use plfs_types::{ENTRY_SIZE, Entry, EntryList, Name, Path, Trunc};
use shape_check::{Complaint, Finding, Place};
use std::alloc::Global;
use std::mem;
use store_api::Store;

/// An index dropping that was read.
#[derive(Drop)]
pub(crate) struct Dropping {
    /// Its length in bytes.
    pub(crate) size: u64,
    /// All its whole entries.
    pub(crate) entries: EntryList,
    /// How many of the first have landed.
    pub(crate) landed: usize,
}

impl Dropping {
    /// Those that have landed.
    pub(crate) fn landed(&self) -> &[Entry]
        requires { self.now.landed ≤ length self.now.entries }
        ensures { result.now ≡ take self.now.landed self.now.entries }
    {
        &self.entries.as_slice()[..self.landed]
    }
}

/// The path of a writer's index dropping.
pub(crate) fn index_of(host: u32, writer: u64) -> Path
    ensures { result ≡ index_path host writer }
{
    print(&Item::Index { host, writer })
}

/// The path of its log.
fn log_of(host: u32, writer: u64) -> Path
    ensures { result ≡ log_path_of host writer }
{
    print(&Item::Log { host, writer })
}

/// Reads a writer's index dropping, none where it isn't there, unless its entries aren't in order.
#[tactic(auto, using(shape_check::proofs::Facts::unbroken_found))]
fn read_dropping<S: Store>(
    alloc: Global,
    store: &mut S,
    place: &Place,
    host: u32,
    writer: u64,
) -> Result<Dropping, Finding>
    ensures looked { IsLookedAt (S.stored store.old) (S.stored store.new) }
    ensures orderly { IfOk result (IsOrderly writer) }
    ensures ok { IfOk result (λ dropping. OfPlace (IsDroppingOf host writer dropping) place.now (S.stored store.old)) }
    ensures err { IfErr result (Fails (IsPlaced place.now) (S.stored store.old) (S.stored store.new)) }
    ensures named { IfErr result (IsFoundIn place.now.name (IsOfEntries (index_path host writer))) }
{
    let path = index_of(host, writer);
    let size = length_or_none(store, place, &path)?;
    let entries = entries_at(alloc, store, place, &path, size)?;
    let log = length_or_none(store, place, &log_of(host, writer))?;
    dropping_of(place.name, &path, writer, size, entries, log)
}

/// An index dropping that was read, and whose it is.
#[derive(Drop)]
pub(crate) struct Read {
    pub(crate) host: u32,
    pub(crate) writer: u64,
    pub(crate) dropping: Dropping,
}

/// The index dropping that was read last, if it is kept: one that a flattened index covers isn't read again for its writer.
pub(crate) type Kept = Option<Read>;

/// Whether it is of this writer, of this host.
fn is_of(read: &Read, host: u32, writer: u64) -> bool
    ensures { IsTrue result ↔ ((read.now.host ≡ host) × (read.now.writer ≡ writer)) }
{
    read.host == host && read.writer == writer
}

/// This writer's dropping, if it is the one that is kept. None is kept from then on.
fn take_kept(host: u32, writer: u64, kept: &mut Kept) -> Option<Dropping>
    ensures none { kept.new ≡ None }
    ensures some { IfSome result (WasKept host writer kept.old) }
{
    let Some(read) = mem::replace(kept, None) else {
        return None;
    };
    if is_of(&read, host, writer) {
        Some(read.dropping)
    } else {
        None
    }
}

/// This writer's dropping, which is read where it isn't the one that is kept. None is kept from then on.
pub(crate) fn take_dropping<S: Store>(
    alloc: Global,
    store: &mut S,
    place: &Place,
    host: u32,
    writer: u64,
    kept: &mut Kept,
) -> Result<Dropping, Finding>
    requires { IsKept place.now kept.old (S.stored store.old) }
    ensures none { kept.new ≡ None }
    ensures looked { IsLookedAt (S.stored store.old) (S.stored store.new) }
    ensures orderly { IfOk result (IsOrderly writer) }
    ensures ok { IfOk result (λ dropping. OfPlace (IsDroppingOf host writer dropping) place.now (S.stored store.old)) }
    ensures err { IfErr result (Fails (IsPlaced place.now) (S.stored store.old) (S.stored store.new)) }
    ensures named { IfErr result (IsFoundIn place.now.name (IsOfEntries (index_path host writer))) }
{
    match take_kept(host, writer, kept) {
        Some(dropping) => Ok(dropping),
        None => read_dropping(alloc, store, place, host, writer),
    }
}

/// The dropping of this length that has these entries, beside a log of that length.
fn dropping_of(
    room: Name,
    path: &Path,
    writer: u64,
    size: u64,
    entries: EntryList,
    log: u64,
) -> Result<Dropping, Finding>
    ensures ok { IfOk result (IsMadeOf writer size entries log) }
    ensures err { IfErr result (IsMisfit room path.now writer entries) }
{
    judge(room, path, writer, entries.as_slice())?;
    let landed = landed_of(log, entries.as_slice());
    Ok(Dropping {
        size,
        entries,
        landed,
    })
}

/// Whether no truncate is between two of the writer's landed entries.
#[tactic(auto, using(crate::proofs::EntryLemmas::ordered))]
pub(crate) fn check_beside(
    room: Name,
    host: u32,
    writer: u64,
    landed: &[Entry],
    truncs: &[Trunc],
) -> Result<(), Finding>
    requires { AreInOrder writer landed.now }
    ensures ok { OnOk result (AreBesideAll truncs.now landed.now) }
    ensures err { IfErr result (IsBetween room host writer landed.now truncs.now) }
{
    let Some(first) = landed.first() else {
        return Ok(());
    };
    let last = last_of(landed);
    check_between(room, host, writer, first.stamp, last, truncs)
}

/// The stamp of the last entry, 0 where there is none.
fn last_of(entries: &[Entry]) -> u64
    ensures { result ≡ last_stamp 0 entries.now }
{
    match entries.last() {
        Some(last) => last.stamp,
        None => 0,
    }
}

/// Whether the truncate has a stamp from the first to the last one.
fn is_inside(first: u64, last: u64, trunc: &Trunc) -> bool
    ensures { IsTrue result ↔ IsFromTo first last trunc.now }
{
    first <= trunc.stamp && trunc.stamp <= last
}

/// Whether no truncate has a stamp from the first to the last one.
fn check_between(
    room: Name,
    host: u32,
    writer: u64,
    first: u64,
    last: u64,
    truncs: &[Trunc],
) -> Result<(), Finding>
    ensures ok { OnOk result (AreOutside first last truncs.now) }
    ensures err { IfErr result (IsInside room host writer first last truncs.now) }
{
    for trunc in truncs {
        if is_inside(first, last, trunc) {
            return Err(Finding::Broken {
                complaint: Complaint::Between {
                    room,
                    path: index_of(host, writer),
                    stamp: trunc.stamp,
                },
            });
        }
    }
    Ok(())
}

/// What a metadata dropping tells.
#[derive(Clone, Copy)]
pub(crate) struct Left {
    pub(crate) last: u64,
    pub(crate) bytes: u64,
    pub(crate) stamp: u64,
    pub(crate) host: u32,
    pub(crate) writer: u64,
}

/// Whether the metadata dropping at this path tells of the landed entries, and the index dropping is just these.
#[tactic(auto, using(crate::proofs::EntryLemmas::ordered))]
pub(crate) fn judge_left(
    room: Name,
    path: &Path,
    left: &Left,
    dropping: &Dropping,
) -> Result<(), Finding>
    requires in_order { AreInOrder left.now.writer (take dropping.now.landed dropping.now.entries) }
    requires within { dropping.now.landed ≤ length dropping.now.entries }
    ensures ok { OnOk result (IsLeftRight left.now dropping.now) }
    ensures err { IfErr result (IsLeftWrong room path.now left.now dropping.now) }
{
    let sum = sum_of(dropping.landed());
    if left.last != sum.end || left.bytes != sum.bytes || left.stamp != sum.stamp {
        return Err(Finding::Broken {
            complaint: Complaint::Untrue { room, path: *path },
        });
    }
    if dropping.size % ENTRY_SIZE as u64 != 0
        || dropping.size / ENTRY_SIZE as u64 != dropping.landed as u64
    {
        return Err(Finding::Broken {
            complaint: Complaint::Unsettled {
                room,
                path: index_of(left.host, left.writer),
            },
        });
    }
    Ok(())
}
