//! The power goes off in each act of a writer in turn, and what is kept is mounted again.
use crate::calls::{numbers, path};
use crate::lives::SYNCED;
use crate::playing::{Beginning, Cast, ONE, SOUND, Tried, begun, hold, live, make, mounted};
use crate::tables::{Table, all_tell};
use plfs_types::NoMemory;
use std::alloc::Global;
use store_memory::{Keep, KeepList, MemoryStore};
use test_lines::Line;

const FILES: [&str; 2] = ["hostdir.0/log.0.4294967297", "hostdir.0/index.0.4294967297"];

// So many bytes more than the kept ones are left of the writer's log, and of its index dropping.
fn extras(alloc: Global, extra: u64) -> Result<KeepList, NoMemory> {
    let mut keeps = KeepList::new(alloc);
    for file in &FILES {
        let path = path(file);
        keeps.push(Keep {
            room: 1,
            path,
            extra,
        })?;
    }
    Ok(keeps)
}

const INDEX: &str = "length hostdir.0/index.0.4294967297";

// What is seen of the container, of the log, the index dropping and the metadata dropping.
const LOOKS: [&str; 4] = [
    "top 1",
    "length hostdir.0/log.0.4294967297",
    INDEX,
    "length metadata/4.4.10.0.4294967297",
];

// What is seen after a loss of power that leaves so many bytes more, behind what the line has.
fn seen(cast: &Cast, mount: Tried, extra: u64, looks: &[&str], mut line: Line) -> Option<Line> {
    let Ok(keeps) = extras(cast.alloc, extra) else {
        drop(mount);
        return None;
    };
    let store = mount.close().lose(keeps);
    let mut mount = mounted(cast.alloc, store, &SOUND)?;
    for look in looks {
        make(cast.alloc, &mut mount, ONE, look, &mut line);
    }
    drop(mount);
    Some(line)
}

/// What is seen after a loss of power: the case is the act in which it goes off, of which one byte is made, and how many
/// bytes more are left.
pub(crate) fn left(cast: &Cast, case: &str) -> Option<Line> {
    let [act, extra, _] = numbers(case)?;
    let store = MemoryStore::off(cast.alloc, act, 1).ok()?;
    let mut mount = mounted(cast.alloc, store, &SOUND)?;
    let mut unread = Line::new(cast.alloc);
    live(cast, &mut mount, 12, &mut unread);
    drop(unread);
    seen(cast, mount, extra, &LOOKS, Line::new(cast.alloc))
}

/// What is left of the index dropping after a loss of power behind these rows: the case is the act in which the store
/// fails, and how many bytes that leaves.
pub(crate) fn kept(cast: &Cast, rows: &str, case: &str) -> Option<Line> {
    let [act, part, _] = numbers(case)?;
    let fails = Some((act, part));
    let mut mount = begun(cast.alloc, &Beginning { fails, ..SOUND })?;
    let mut line = Line::new(cast.alloc);
    hold(cast, &mut mount, rows, &mut line);
    seen(cast, mount, 0, &[INDEX], line)
}

// The flush fails and is made again.
const FLUSHED: &str = "after 8
    1 flush $: fault
    1 sync-index $: synced 0
    1 flush $: flushed 1
    1 length hostdir.0/index.0.$: length 40";

// Acts count from the first of the mounting: the act 3 makes the container, the act 9 writes, the act 10 syncs the log,
// the act 11 flushes the entries, the act 12 syncs the index dropping, and by the act 14 the writer leaves. After the
// power is off in an act each further call is in vain. What is seen after a loss that keeps no byte more, and after one
// that keeps two more where they are there.
const LOSSES: &[(Table, &str)] = &[
    (
        Table::Losses,
        "3 0: names access flats metadata openhosts truncs, no folder, no folder, absent
        3 2: names access flats metadata openhosts truncs, no folder, no folder, absent
        4 0: names access flats metadata openhosts truncs, no folder, no folder, absent
        4 2: names access flats metadata openhosts truncs, no folder, no folder, absent
        5 0: names access flats metadata openhosts truncs, no folder, no folder, absent
        5 2: names access flats metadata openhosts truncs, no folder, no folder, absent
        6 0: names access flats hostdir.0 metadata openhosts truncs, absent, absent, absent
        6 2: names access flats hostdir.0 metadata openhosts truncs, absent, absent, absent
        7 0: names access flats hostdir.0 metadata openhosts truncs, absent, length 0, absent
        7 2: names access flats hostdir.0 metadata openhosts truncs, absent, length 0, absent
        8 0: names access flats hostdir.0 metadata openhosts truncs, length 0, length 0, absent
        8 2: names access flats hostdir.0 metadata openhosts truncs, length 0, length 0, absent
        9 0: names access flats hostdir.0 metadata openhosts truncs, length 0, length 0, absent
        9 2: names access flats hostdir.0 metadata openhosts truncs, length 1, length 0, absent
        10 0: names access flats hostdir.0 metadata openhosts truncs, length 4, length 0, absent
        10 2: names access flats hostdir.0 metadata openhosts truncs, length 4, length 0, absent
        11 0: names access flats hostdir.0 metadata openhosts truncs, length 4, length 0, absent
        11 2: names access flats hostdir.0 metadata openhosts truncs, length 4, length 1, absent
        12 0: names access flats hostdir.0 metadata openhosts truncs, length 4, length 40, absent
        12 2: names access flats hostdir.0 metadata openhosts truncs, length 4, length 40, absent
        13 0: names access flats hostdir.0 metadata openhosts truncs, length 4, length 40, length 0
        13 2: names access flats hostdir.0 metadata openhosts truncs, length 4, length 40, length 0
        14 0: names access flats hostdir.0 metadata openhosts truncs, length 4, length 40, length 0
        14 2: names access flats hostdir.0 metadata openhosts truncs, length 4, length 40, length 0",
    ),
    // What the first flush left was synced before the second one, and the rest was not.
    (Table::Kept(FLUSHED), "11 20: length 20"),
];

// No entry is there whose bytes aren't in the log, and no metadata dropping without the entries that it tells of.
#[test]
fn a_loss_leaves_a_sound_container_and_what_was_kept(rt: HostRuntime) {
    all_tell(&rt, &Cast::new(rt.alloc(), SYNCED), LOSSES)
}
