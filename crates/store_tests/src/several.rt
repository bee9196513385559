//! Several stores in memory as one: where rooms lie, names that two stores have, and a room that may have been made.
use crate::acts::{Act, act_on};
use crate::memory::new_store;
use crate::opening::open;
use crate::playing::{Row, Site, holds};
use crate::telling::note;
use plfs_types::NoMemory;
use spread_store::{Spread, SpreadTrouble, StoreList};
use std::alloc::Global;
use std::process::Abort;
use store_memory::MemoryStore;
use test_lines::Line;

/// Two stores, and what they tell as one.
struct Case {
    /// The planned faults of the second store, each an act and a part.
    faults: &'static [(u64, u64)],
    /// The rooms that each has before.
    before: &'static [&'static str],
    rows: &'static [Row],
    /// What each store names in the end; or why they weren't opened.
    ends: &'static str,
}

impl Site for Spread<MemoryStore> {
    fn play(&mut self, act: Act, line: &mut Line) {
        act_on(self, act, line);
    }
}

// A store with these planned faults that has these rooms.
fn one(
    alloc: Global,
    faults: &[(u64, u64)],
    rooms: &[&'static str],
) -> Result<MemoryStore, NoMemory> {
    let mut store = new_store(alloc, faults)?;
    let mut line = Line::new(alloc);
    for room in rooms {
        act_on(&mut store, Act::MakeRoom(room, "", ""), &mut line);
    }
    Ok(store)
}

// Two stores that have these rooms, the second of which has these planned faults.
fn two(alloc: Global, case: &Case) -> Result<StoreList<MemoryStore>, NoMemory> {
    let mut stores = StoreList::new(alloc);
    for faults in [&[], case.faults] {
        let added = match one(alloc, faults, case.before) {
            Ok(store) => stores.push(store),
            Err(why) => Err(why),
        };
        if added.is_err() {
            drop(stores);
            return Err(NoMemory);
        }
    }
    Ok(stores)
}

// What each of the stores names.
fn named(mut stores: StoreList<MemoryStore>, line: &mut Line) {
    for store in stores.as_mut_slice().iter_mut() {
        act_on(store, Act::Rooms, line);
        line.push("; ");
    }
    drop(stores);
}

fn troubled(trouble: &SpreadTrouble, line: &mut Line) {
    match trouble {
        SpreadTrouble::Doubled { name } => line.letters("doubled ", name.bytes()),
        SpreadTrouble::Fault => line.push("fault"),
        SpreadTrouble::NoMemory => line.push("no memory"),
    }
}

fn ended<R: Abort>(rt: &R, alloc: Global, case: &Case, line: &mut Line) {
    let Ok(stores) = two(alloc, case) else {
        return note(line, false);
    };
    match open(rt, alloc, stores) {
        Ok(mut spread) => {
            holds(rt, alloc, &mut spread, case.rows);
            named(spread.close(), line);
        }
        Err((stores, trouble)) => {
            drop(stores);
            troubled(&trouble, line);
        }
    }
}

const CASES: [Case; 5] = [
    // Rooms lie where their names say. The bytes of f sum to 102, those of g to 103, and those of i to 105.
    Case {
        faults: &[],
        before: &[],
        rows: &[
            (Act::MakeRoom(".plfs", "", ""), "number 0"),
            (Act::MakeRoom("f", "", ""), "number 1"),
            (Act::MakeRoom("g", "", ""), "number 2"),
            (Act::MakeRoom("f", "", ""), "old 1"),
            (Act::FindRoom("g"), "number 2"),
            (Act::RenameRoom(1, "i"), "made"),
            (Act::RenameRoom(1, "g"), "target there"),
            (Act::Rooms, "names .plfs g i"),
        ],
        ends: "names .plfs i; names g; ",
    },
    // The least name of two stores is doubled.
    Case {
        faults: &[],
        before: &["h", "f"],
        rows: &[],
        ends: "doubled f",
    },
    // A room that may have been made is asked for. The second store's act 1 is its listing, act 2 its search, act 3 makes
    // the room or not, and act 4 asks for it.
    Case {
        faults: &[(2, 0), (3, 0)],
        before: &[],
        rows: &[
            (Act::MakeRoom("g", "", ""), "fault"),
            (Act::Rooms, "fault"),
            (Act::MakeRoom("g", "", ""), "number 0"),
            (Act::Rooms, "names g"),
        ],
        ends: "names; names g; ",
    },
    Case {
        faults: &[(2, 1), (3, 0)],
        before: &[],
        rows: &[
            (Act::MakeRoom("g", "", ""), "fault"),
            (Act::Rooms, "fault"),
            (Act::MakeRoom("g", "", ""), "old 0"),
            (Act::Rooms, "names g"),
        ],
        ends: "names; names g; ",
    },
    // A store that fails as it is listed opens none.
    Case {
        faults: &[(0, 0)],
        before: &[],
        rows: &[],
        ends: "fault",
    },
];

#[test]
fn several_stores_are_as_one(rt: HostRuntime) {
    for case in &CASES {
        let mut line = Line::new(rt.alloc());
        ended(&rt, rt.alloc(), case, &mut line);
        assert!(rt; line.as_str() == case.ends, "{}", line.as_str());
    }
}
