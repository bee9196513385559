//! How a mount begins.
use crate::calls::name;
use crate::playing::{Beginning, Cast, SOUND, Tried, all_hold, clock, fill, store};
use crate::tables::{Table, all_tell};
use mount_core::{Mount, MountTrouble};
use plfs_types::{Name, NoMemory};
use std::alloc::Global;
use store_api::{Step, Store};
use store_memory::MemoryStore;
use test_lines::Line;

// A store whose room of marks has these folders, and these names in the folder of marks.
fn marked(alloc: Global, folders: &[Name], marks: &str) -> Result<MemoryStore, NoMemory> {
    let mut store = store(alloc, None)?;
    drop(store.act(&Step::MakeRoom {
        name: name(".plfs"),
        folders,
        files: &[],
    }));
    fill(&mut store, 0, "mounts", marks);
    Ok(store)
}

fn troubled(line: &mut Line, trouble: &MountTrouble) {
    match trouble {
        MountTrouble::Damaged { file } => line.letters("damaged ", file.bytes()),
        MountTrouble::Spent => line.push("spent"),
        MountTrouble::NoMarks => line.push("no marks"),
        _ => line.push("another trouble"),
    }
}

/// What a mounting comes to: the number that it draws, or its trouble.
pub(crate) fn drawn(alloc: Global, folders: &[Name], marks: &str) -> Option<Line> {
    let clock = clock(alloc, &[10]).ok()?;
    let store = marked(alloc, folders, marks).ok()?;
    let mut line = Line::new(alloc);
    match Mount::open(alloc, store, clock) {
        Ok(mount) => {
            line.say("", u64::from(mount.number()));
            drop(mount);
        }
        Err((store, trouble)) => {
            troubled(&mut line, &trouble);
            drop((store, trouble));
        }
    }
    Some(line)
}

// Of names that are no marks the least is told.
const MARKS: &[(Table, &str)] = &[
    (
        Table::Marks,
        ": 1
        9 10 2: 11
        4294967294: 4294967295
        1 4294967295: spent
        x 7 07 4294967296: damaged 07
        5 0: damaged 0",
    ),
    (Table::NoMarks, ": no marks"),
];

#[test]
fn the_next_mark_is_drawn_where_all_are_marks(rt: HostRuntime) {
    all_tell(&rt, &Cast::new(rt.alloc(), ""), MARKS)
}

fn crosses<T: Send + Sync + Drop>() {}

#[test]
fn a_mount_crosses_threads(_rt: HostRuntime) {
    crosses::<Tried>()
}

const SPENT: &str = "1 make f: room 1
    1 enter 1 0: ids spent
    1 hold 0: no room
    1 hold 1: ids spent
    1 flatten 0: no room
    1 flatten 1: ids spent
    1 pack 0: no room
    1 pack 1: ids spent
    1 list openhosts: names
    1 list flats: names";

#[test]
fn the_last_serial_ends_writers_holds_and_flattenings(rt: HostRuntime) {
    let beginning = Beginning {
        drawn: u32::MAX,
        ..SOUND
    };
    all_hold(&rt, &Cast::new(rt.alloc(), ""), &beginning, &[SPENT])
}
