//! A reader's machines over sets of writes, against the newest write asked byte by byte.
ghost use Rattle.std.specs.Prelude.{IfOk, IfSome, OnOk};
ghost use Rattle.mount_model.specs.Standing.{IsFresh, IsOver, rest_of};
ghost use Rattle.index_reader.specs.Covered as covered;
ghost use Rattle.index_reader.specs.Hosts as hosted;
ghost use Rattle.index_reader.specs.Listing as listed;

use crate::cases::ends;
use crate::sets::{EDGES, SETS, read};
use crate::worlds::{Set, newest, reply_to, size};
use flat_format::Flat;
use index_reader::{
    Dropping, DroppingList, Gathered, Listing, OpenReader, Reading, Share, ShareList, ShareRead,
    TruncRead, gather, join_shares,
};
use mount_model::Flow;
use plain_file::{PieceList, Pieces};
use plfs_types::{Bytes, CoverList, MAX_SIZE, NoMemory};
use refresh_index::{Refresh, RefreshOut};
use std::alloc::Global;
use std::thread::Threads;
use test_lines::Line;

/// The index droppings of the writers, by ascending id.
pub(crate) const FIRST: Dropping = Dropping {
    host: 33,
    writer: 3,
    packed: false,
};

pub(crate) const SECOND: Dropping = Dropping {
    host: 7,
    writer: 9,
    packed: false,
};

const THIRD: Dropping = Dropping {
    host: 0,
    writer: 20,
    packed: false,
};

// Takes the machine through its calls.
fn drive<F: Flow>(alloc: Global, set: &Set, flow: &mut F) -> Result<(), NoMemory>
    requires { IsFresh (F.standing flow.old) }
    ensures { OnOk result (IsOver (rest_of (F.standing flow.new))) }
{
    while let Some(call) = flow.next()? {
        let reply = reply_to(alloc, set, &call);
        drop(call);
        flow.take(reply)?;
    }
    Ok(())
}

// What the machine comes to.
fn ended<F: Flow + Drop>(alloc: Global, set: &Set, mut flow: F) -> Result<F::Out, NoMemory>
    requires { IsFresh (F.standing flow) }
{
    match drive(alloc, set, &mut flow) {
        Ok(()) => Ok(flow.out()),
        Err(why) => {
            drop(flow);
            Err(why)
        }
    }
}

fn listing(alloc: Global) -> Option<Listing>
    ensures { IfSome result (λ listing. listed.AreByWriter listing.droppings) }
{
    let droppings = DroppingList::from_vec(Vec::from_array(alloc, [FIRST, SECOND, THIRD]).ok()?);
    let pieces = Pieces::read(PieceList::new(alloc)).ok()?;
    let flat = Flat {
        covers: CoverList::new(alloc),
        pieces,
    };
    Some(Listing {
        room: 1,
        droppings,
        flat,
    })
}

// The share of a worker, to whom these droppings are given.
fn share_of(alloc: Global, set: &Set, given: &[Dropping]) -> Option<Share> {
    let droppings = DroppingList::from_vec(Vec::from_slice(alloc, given).ok()?);
    let flow = ShareRead::new(alloc, 1, droppings, CoverList::new(alloc));
    ended(alloc, set, flow).ok()?.ok()
}

fn add_each(
    alloc: Global,
    set: &Set,
    workers: &[&[Dropping]],
    shares: &mut ShareList,
) -> Option<()> {
    for given in workers {
        let share = share_of(alloc, set, given)?;
        shares.push(share).ok()?;
    }
    Some(())
}

/// The shares of workers to whom these droppings are given, as one.
pub(crate) fn joined<R: Threads + Sync>(
    rt: &R,
    alloc: Global,
    set: &Set,
    workers: &[&[Dropping]],
) -> Option<ShareList> {
    let mut shares = ShareList::new(alloc);
    if add_each(alloc, set, workers, &mut shares).is_none() {
        drop(shares);
        return None;
    }
    let share = join_shares(rt, alloc, shares, 2).ok()?;
    Some(ShareList::from_vec(vec![in alloc; share].ok()?))
}

/// What two workers gather.
pub(crate) fn gathered<R: Threads + Sync>(rt: &R, alloc: Global, set: &Set) -> Option<Gathered>
    ensures droppings { IfSome result (λ all. listed.AreByWriter all.droppings) }
    ensures covers { IfSome result (λ all. covered.AreByWriter all.flat.covers) }
{
    let truncs = ended(alloc, set, TruncRead::new(alloc, 1)).ok()?.ok()?;
    let Some(shares) = joined(rt, alloc, set, &[&[FIRST], &[SECOND, THIRD]]) else {
        drop(truncs);
        return None;
    };
    match listing(alloc) {
        Some(listing) => gather(alloc, listing, shares, truncs).ok(),
        None => {
            drop((shares, truncs));
            None
        }
    }
}

/// A reader of what is gathered.
pub(crate) fn opened<R: Threads + Sync>(rt: &R, alloc: Global, set: &Set) -> Option<OpenReader> {
    let all = gathered(rt, alloc, set)?;
    OpenReader::new(alloc, all).ok()
}

// What was there first: half of the writes, and half of the truncates.
fn front(alloc: Global, set: &Set) -> Option<Set> {
    let writes = set.writes.as_slice();
    let truncs = set.truncs.as_slice();
    let writes = Vec::from_slice(alloc, &writes[..writes.len() / 2]).ok()?;
    match Vec::from_slice(alloc, &truncs[..truncs.len() / 2]) {
        Ok(truncs) => Some(Set {
            writes,
            truncs,
            from: set.from,
        }),
        Err(_) => {
            drop(writes);
            None
        }
    }
}

// What the refresh of a reader comes to.
fn brought_on(alloc: Global, set: &Set, reader: OpenReader) -> Result<RefreshOut, NoMemory>
    ensures hosts { IfOk result (λ out. hosted.AreByWriter out.parts.hosts) }
    ensures covers { IfOk result (λ out. covered.AreByWriter out.parts.covers) }
{
    let mut flow = Refresh::new(alloc, reader.into_parts());
    match drive(alloc, set, &mut flow) {
        Ok(()) => Ok(flow.out()),
        Err(why) => {
            drop(flow);
            Err(why)
        }
    }
}

// A reader of what was there first, once it was refreshed.
fn refreshed<R: Threads + Sync>(rt: &R, alloc: Global, set: &Set) -> Option<OpenReader> {
    let front = front(alloc, set)?;
    let reader = opened(rt, alloc, &front);
    drop(front);
    let RefreshOut { parts, result } = brought_on(alloc, set, reader?).ok()?;
    match result {
        Ok(()) => Some(OpenReader::of_parts(parts)),
        Err(why) => {
            drop((parts, why));
            None
        }
    }
}

// Whether these are the bytes that are to be read there, up to the end of the file.
fn are_newest(set: &Set, at: u64, len: u64, bytes: &[u8]) -> bool {
    let end = at.saturating_add(len).min(size(set));
    if bytes.len() as u64 != end.saturating_sub(at) {
        return false;
    }
    let mut x = at;
    for byte in bytes {
        if *byte != newest(set, x) {
            return false;
        }
        x = x.saturating_add(1);
    }
    true
}

// The bytes that a read gives.
fn given(alloc: Global, set: &Set, reader: &OpenReader, at: u64, len: u64) -> Option<Bytes> {
    let flow = Reading::new(alloc, reader, at, len.min(64)).ok()?;
    ended(alloc, set, flow).ok()?.ok()
}

// Whether a read of so many bytes gives them.
fn reads(alloc: Global, set: &Set, reader: &OpenReader, at: u64, len: u64) -> bool {
    let at = set.from.saturating_add(at);
    match given(alloc, set, reader, at, len) {
        Some(bytes) => {
            let is_so = are_newest(set, at, len, bytes.as_slice());
            drop(bytes);
            is_so
        }
        None => false,
    }
}

// Whether the file is as long as it should be, and all of these reads give its bytes.
fn is_shown(alloc: Global, set: &Set, reader: &Option<OpenReader>) -> bool {
    let Some(reader) = reader else {
        return false;
    };
    reader.size() == size(set)
        && reads(alloc, set, reader, 0, 64)
        && reads(alloc, set, reader, 7, 20)
        && reads(alloc, set, reader, 31, 1)
}

// Whether a reader that was opened shows the file, and so does one that was refreshed.
fn shows<R: Threads + Sync>(rt: &R, alloc: Global, line: &str, from: u64) -> Option<bool> {
    let set = read(alloc, line, from)?;
    let reader = opened(rt, alloc, &set);
    let later = refreshed(rt, alloc, &set);
    let shown = is_shown(alloc, &set, &reader) && is_shown(alloc, &set, &later);
    drop((reader, later, set));
    Some(shown)
}

#[test]
fn a_reader_shows_the_newest_write_at_each_byte(rt: HostRuntime) {
    let mut wrong = Line::new(rt.alloc());
    // A file may end at the greatest size.
    for (sets, from) in [(SETS, 0), (EDGES, MAX_SIZE - 40)] {
        for line in sets.lines() {
            if shows(&rt, rt.alloc(), line, from) != Some(true) {
                wrong.push(line);
                wrong.push("\n");
            }
        }
    }
    ends(&rt, wrong)
}
