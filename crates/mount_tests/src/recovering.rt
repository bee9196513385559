//! What a dead writer left is synced and mended, and it is buried: each answer, each fault and each stop.
use crate::lives::ENDED;
use crate::playing::{Cast, SOUND, all_hold};
use crate::tables::{Table, all_tell};
use crate::trials::Trial;

const SESSIONS: &[&str] = &[
    // A live writer is left alone.
    "after 8
    2 inspect $: alive
    2 mend 0 1: no room
    2 mend 1 1: alive
    2 mend-meta 0: no room
    2 mend-meta 1: alive
    2 bury 0: no room
    2 bury 1: alive
    2 inspect 4294967298: done
    2 left-log 0 0: no room
    2 left-log 1 0: done
    2 left-index 1 0: done
    2 left-index 1 5: damaged hostdir.5/
    2 left-log 1 32: damaged hostdir.0/log.32.$",
    // A dead writer is mended and buried: not to one entry more than it has.
    "after 9
    2 inspect $: done
    2 mend 1 2: damaged hostdir.0/index.0.$
    2 mend 1 1: done
    2 length hostdir.0/index.0.$: length 40
    2 mend-meta 1: done
    2 mend-meta 1: done
    2 length metadata/4.4.10.0.$: length 0
    2 bury 1: done
    2 bury 1: done
    2 hold 1: holding 4294967298
    3 bury 1: done",
    // A hold that broke off is mended.
    "1 make f: room 1
    2 mend-hold 0: no room
    2 mend-hold 7: no room
    2 mend-hold 1: whole
    1 hold 1: holding $
    2 mend-hold 0: no room
    2 mend-hold 1: held
    1/0 release $: stopped
    2 mend-hold 1: made
    2 mend-hold 1: whole",
];

#[test]
fn a_live_writer_is_left_alone_and_what_is_dead_is_mended(rt: HostRuntime) {
    all_hold(&rt, &Cast::new(rt.alloc(), ENDED), &SOUND, SESSIONS)
}

// Its log is synced, or its index dropping, which is cut to nothing; its metadata dropping is made, and it is buried;
// and a hold that broke off is mended.
const TRIALS: &[(Table, &str)] = &[
    (
        Table::Trial(Trial {
            before: "after 9",
            act: 11,
            caller: 2,
            call: "left-log 1 0",
            look: "length hostdir.0/log.0.4294967297",
        }),
        "fails 0: fault, length 4, done
            fails 20: fault, length 4, done
            fails all: fault, length 4, done",
    ),
    (
        Table::Trial(Trial {
            before: "after 9",
            act: 11,
            caller: 2,
            call: "left-index 1 0",
            look: "length hostdir.0/index.0.4294967297",
        }),
        "fails 0: fault, length 40, done
            fails 20: fault, length 40, done
            fails all: fault, length 40, done",
    ),
    (
        Table::Trial(Trial {
            before: "after 9",
            act: 11,
            caller: 2,
            call: "mend 1 0",
            look: "length hostdir.0/index.0.4294967297",
        }),
        "fails 0: fault, length 40, done
            fails 20: fault, length 0, done
            fails all: fault, length 0, done
            stops 0: stopped, length 40, done
            stops 1: stopped, length 0, done
            stops 41: stopped, length 0, done",
    ),
    (
        Table::Trial(Trial {
            before: "after 9",
            act: 11,
            caller: 2,
            call: "mend-meta 1",
            look: "length metadata/4.4.10.0.4294967297",
        }),
        "fails 0: fault, absent, done
            fails 20: fault, length 0, done
            fails all: fault, length 0, done
            stops 0: stopped, absent, done
            stops 1: stopped, length 0, done
            stops 41: stopped, length 0, done",
    ),
    (
        Table::Trial(Trial {
            before: "after 9",
            act: 11,
            caller: 2,
            call: "bury 1",
            look: "list openhosts",
        }),
        "fails 0: fault, names 0.4294967297, done
            fails 20: fault, names, done
            fails all: fault, names, done
            stops 0: stopped, names 0.4294967297, done
            stops 1: stopped, names, done
            stops 41: stopped, names, done",
    ),
    (
        Table::Trial(Trial {
            before: "after 12",
            act: 13,
            caller: 2,
            call: "mend-hold 1",
            look: "list openhosts",
        }),
        "fails 0: fault, no folder, made
            fails 20: fault, names, whole
            fails all: fault, names, whole
            stops 0: stopped, no folder, made
            stops 1: stopped, names, whole
            stops 41: stopped, names, whole",
    ),
];

#[test]
fn mending_goes_on_after_each_fault_and_each_stop(rt: HostRuntime) {
    all_tell(&rt, &Cast::new(rt.alloc(), ENDED), TRIALS)
}
