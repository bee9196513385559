//! Containers are held, truncated, renamed and let go: each answer, each fault and each stop.
use crate::playing::{Beginning, Cast, ONE, SOUND, all_hold, begun, fill, make, mounted};
use crate::tables::{Table, all_tell};
use crate::trials::Trial;
use test_lines::Line;

const SESSIONS: &[&str] = &[
    // A container is held alone.
    "1 make f: room 1
    1 hold 0: no room
    1 hold 7: no room
    1 hold 1: holding 4294967298
    2 hold 1: held
    2 enter 1 7: held
    2 mend-hold 1: held
    2 release 4294967298: not holder
    1 release 4294967299: not holder
    1 release 4294967298: done
    1 release 4294967298: not holder
    1 hold 1: holding 4294967301",
    // Who holds it truncates and renames it, up to the greatest size and the greatest stamp.
    "1 make f: room 1
    1 make g: room 2
    1 hold 7: no room
    1 hold 1: holding 4294967298
    2 mark 4294967298 5 0: not holder
    1 mark 4294967298 1099511627777 9223372036854775807: too far
    1 mark 4294967298 1099511627776 9223372036854775807: stamps spent
    1 mark 4294967298 5 0: marked 10
    1 mark 4294967298 5 40: marked 41
    1 mark 4294967298 5 9: damaged truncs/10.5
    1 mark 4294967298 5 9223372036854775806: marked 9223372036854775807
    1 list truncs: names 10.5 41.5 9223372036854775807.5
    2 move h 4294967298: not holder
    1 move g 4294967298: exists
    1 move f 4294967298: exists
    1 move h 4294967298: done
    1 find f: no room
    1 find h: room 1",
    // Who left it open is named.
    "1 make f: room 1
    1 enter 1 7: entered $
    2 hold 1: busy 7 $
    1 exit $: done
    2 hold 1: holding 4294967299",
    // Another's stop leaves the hold.
    "1 make f: room 1
    1 hold 1: holding $
    2/1 release $: stopped
    1 list openhosts: no folder
    1 release $: done",
];

#[test]
fn who_holds_a_container_alone_truncates_and_renames_it(rt: HostRuntime) {
    all_hold(&rt, &Cast::new(rt.alloc(), ""), &SOUND, SESSIONS)
}

/// What comes of a hold, where the container is made and these entries are in the folder of who has it open.
pub(crate) fn beside(cast: &Cast, entries: &str) -> Option<Line> {
    let mut mount = begun(cast.alloc, &SOUND)?;
    let mut line = Line::new(cast.alloc);
    make(cast.alloc, &mut mount, ONE, "make f", &mut line);
    let mut store = mount.close();
    fill(&mut store, 1, "openhosts", entries);
    let mut mount = mounted(cast.alloc, store, &SOUND)?;
    make(cast.alloc, &mut mount, ONE, "hold 1", &mut line);
    drop(mount);
    Some(line)
}

const ENTRIES: &[(Table, &str)] = &[(
    Table::Entries,
    "9.7 10.5: room 1, busy 10 5
    x 9.7: room 1, busy 9 7
    9.7 !: room 1, damaged openhosts/!
    10.5 010.5: room 1, damaged openhosts/010.5",
)];

#[test]
fn the_least_entry_in_byte_order_is_named(rt: HostRuntime) {
    all_tell(&rt, &Cast::new(rt.alloc(), ""), ENTRIES)
}

const LIFE: &str = "1 make f: room 1
    1 hold 1: holding $
    1 mark $ 5 0: marked 10
    1 move g $: done";

const TRIALS: &[(Table, &str)] = &[
    (
        Table::Trial(Trial {
            before: "after 1",
            act: 4,
            caller: 1,
            call: "hold 1",
            look: "list openhosts",
        }),
        "fails 0: fault, names, holding 4294967298
            fails 20: fault, no folder, held
            fails all: fault, no folder, held
            stops 0: stopped, names, holding 4294967298
            stops 1: stopped, no folder, held
            stops 41: stopped, no folder, held",
    ),
    (
        Table::Trial(Trial {
            before: "after 2",
            act: 5,
            caller: 1,
            call: "mark 4294967297 5 0",
            look: "length truncs/10.5",
        }),
        "fails 0: fault, absent, marked 10
            fails 20: fault, length 0, damaged truncs/10.5
            fails all: fault, length 0, damaged truncs/10.5
            stops 0: stopped, absent, not holder
            stops 1: stopped, length 0, not holder
            stops 41: stopped, length 0, not holder",
    ),
    (
        Table::Trial(Trial {
            before: "after 3",
            act: 6,
            caller: 1,
            call: "move g 4294967297",
            look: "find g",
        }),
        "fails 0: fault, no room, done
            fails 20: fault, room 1, exists
            fails all: fault, room 1, exists
            stops 0: stopped, no room, not holder
            stops 1: stopped, room 1, not holder
            stops 41: stopped, room 1, not holder",
    ),
    (
        Table::Trial(Trial {
            before: "after 4",
            act: 7,
            caller: 1,
            call: "release 4294967297",
            look: "list openhosts",
        }),
        "fails 0: fault, no folder, not holder
            fails 20: fault, names, not holder
            fails all: fault, names, not holder
            stops 0: stopped, no folder, not holder
            stops 1: stopped, names, not holder
            stops 41: stopped, names, not holder",
    ),
];

#[test]
fn a_fault_leaves_its_act_made_or_not_and_a_stop_leaves_nobody_that_holds(rt: HostRuntime) {
    all_tell(&rt, &Cast::new(rt.alloc(), LIFE), TRIALS)
}

const STAMPS: &[&str] = &[
    // No byte is made, or there is no stamp left: the clock is not asked.
    "after 2
    1/0 mark $ 5 0: stopped
    1 mend-hold 1: made
    1 hold 1: holding 4294967298
    1 mark 4294967298 6 0: marked 10",
    "after 2
    1/1 mark $ 5 9223372036854775807: stopped
    1 mend-hold 1: made
    1 hold 1: holding 4294967298
    1 mark 4294967298 6 0: marked 10",
    // The truncate is made: the clock is asked.
    "after 2
    1/1 mark $ 5 0: stopped
    1 mend-hold 1: made
    1 hold 1: holding 4294967298
    1 mark 4294967298 6 0: marked 20",
    "after 2
    1/41 mark $ 5 0: stopped
    1 mend-hold 1: made
    1 hold 1: holding 4294967298
    1 mark 4294967298 6 0: marked 20",
];

// The clock tells 10 where it is asked first, and then 20.
#[test]
fn the_clock_is_asked_where_a_truncate_is_made(rt: HostRuntime) {
    let beginning = Beginning {
        times: &[10, 20],
        ..SOUND
    };
    all_hold(&rt, &Cast::new(rt.alloc(), LIFE), &beginning, STAMPS)
}
