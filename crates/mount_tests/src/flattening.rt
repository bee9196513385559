//! Containers are flattened, and index droppings are packed: each answer, each fault and each stop.
use crate::playing::{Cast, SOUND, all_hold};
use crate::tables::{Table, all_tell};
use crate::trials::Trial;

const SESSIONS: &[&str] = &[
    // Each stage follows the one before. The first id is drawn in vain.
    "1 make f: room 1
    1 hold 7: no room
    1 flatten 1: started 4294967298
    1 sync-flat 4294967298: not open
    1 install 4294967298: not open
    2 put 4294967298: not open
    1 put 4294967298: done
    1 put 4294967298: not open
    1 install 4294967298: not open
    2 sync-flat 4294967298: not open
    1 sync-flat 4294967298: done
    1 sync-flat 4294967298: not open
    1 put 4294967298: not open
    2 install 4294967298: not open
    1 install 4294967298: done
    1 install 4294967298: not open",
    // The temporary file gets the name of a flattened index.
    "1 make f: room 1
    1 flatten 0: no room
    1 flatten 7: no room
    1 flatten 1: started 4294967298
    1 put 4294967298: done
    1 sync-flat 4294967298: done
    1 length flats/tmp.4294967298: length 48
    1 install 4294967298: done
    1 length flats/tmp.4294967298: absent
    1 length flats/4294967298: length 48",
    // Or that of a packed index. The droppings of host 39 lie in the folder of its remainder by 32. They are packed
    // twice.
    "1 make f: room 1
    1 pack 0: no room
    1 pack 7: no room
    1 pack 1: damaged hostdir.7/
    2 enter 1 39: entered 4294967299
    2 floor 4294967299: floored 0
    2 hostdir 4294967299: done
    1 pack 1: started 4294967300
    1 put 4294967300: done
    1 sync-flat 4294967300: done
    1 length hostdir.7/tmp2.39.4294967300: length 48
    1 install 4294967300: done
    1 length hostdir.7/index2.39.4294967297: length 48
    1 pack 1: started 4294967301
    1 put 4294967301: done
    1 sync-flat 4294967301: done
    1 install 4294967301: done
    1 length hostdir.7/index2.39.4294967297: length 48
    1 list hostdir.7: names index2.39.4294967297
    1 list flats: names",
];

#[test]
fn each_stage_follows_the_one_before_and_the_last_names_the_file(rt: HostRuntime) {
    all_hold(&rt, &Cast::new(rt.alloc(), ""), &SOUND, SESSIONS)
}

const STARTS: &str = "fails 0: fault, absent, started 4294967299
    fails 20: fault, length 0, started 4294967299
    fails all: fault, length 0, started 4294967299
    stops 0: stopped, absent, started 4294967299
    stops 1: stopped, length 0, started 4294967299
    stops 41: stopped, length 0, started 4294967299";

const PUTS: &str = "fails 0: fault, length 0, done
    fails 20: fault, length 20, done
    fails all: fault, length 48, done
    stops 0: stopped, length 0, not open
    stops 1: stopped, length 1, not open
    stops 41: stopped, length 41, not open";

const SYNCS: &str = "fails 0: fault, length 48, done
    fails 20: fault, length 48, done
    fails all: fault, length 48, done
    stops 0: stopped, length 48, not open
    stops 1: stopped, length 48, not open
    stops 41: stopped, length 48, not open";

const INSTALLS: &str = "fails 0: fault, absent, not open
    fails 20: fault, length 48, not open
    fails all: fault, length 48, not open
    stops 0: stopped, absent, not open
    stops 1: stopped, length 48, not open
    stops 41: stopped, length 48, not open";

// The second caller makes the folder of the droppings that are packed.
const FLATTENED: &str = "1 make f: room 1
    2 enter 1 39: entered $
    2 floor $: floored 0
    2 hostdir $: done
    1 flatten 1: started 4294967298
    1 put 4294967298: done
    1 sync-flat 4294967298: done";

const FLATTENINGS: &[(Table, &str)] = &[
    (
        Table::Trial(Trial {
            before: "after 4",
            act: 7,
            caller: 1,
            call: "flatten 1",
            look: "length flats/tmp.4294967298",
        }),
        STARTS,
    ),
    (
        Table::Trial(Trial {
            before: "after 5",
            act: 8,
            caller: 1,
            call: "put 4294967298",
            look: "length flats/tmp.4294967298",
        }),
        PUTS,
    ),
    (
        Table::Trial(Trial {
            before: "after 6",
            act: 9,
            caller: 1,
            call: "sync-flat 4294967298",
            look: "length flats/tmp.4294967298",
        }),
        SYNCS,
    ),
    (
        Table::Trial(Trial {
            before: "after 7",
            act: 10,
            caller: 1,
            call: "install 4294967298",
            look: "length flats/4294967298",
        }),
        INSTALLS,
    ),
];

const PACKED: &str = "1 make f: room 1
    2 enter 1 39: entered $
    2 floor $: floored 0
    2 hostdir $: done
    1 pack 1: started 4294967298
    1 put 4294967298: done
    1 sync-flat 4294967298: done";

const PACKINGS: &[(Table, &str)] = &[
    (
        Table::Trial(Trial {
            before: "after 4",
            act: 7,
            caller: 1,
            call: "pack 1",
            look: "length hostdir.7/tmp2.39.4294967298",
        }),
        STARTS,
    ),
    (
        Table::Trial(Trial {
            before: "after 5",
            act: 8,
            caller: 1,
            call: "put 4294967298",
            look: "length hostdir.7/tmp2.39.4294967298",
        }),
        PUTS,
    ),
    (
        Table::Trial(Trial {
            before: "after 6",
            act: 9,
            caller: 1,
            call: "sync-flat 4294967298",
            look: "length hostdir.7/tmp2.39.4294967298",
        }),
        SYNCS,
    ),
    (
        Table::Trial(Trial {
            before: "after 7",
            act: 10,
            caller: 1,
            call: "install 4294967298",
            look: "length hostdir.7/index2.39.4294967297",
        }),
        INSTALLS,
    ),
];

#[test]
fn a_flattening_goes_on_after_each_fault_but_its_last_and_a_stop_ends_it(rt: HostRuntime) {
    all_tell(&rt, &Cast::new(rt.alloc(), FLATTENED), FLATTENINGS);
    all_tell(&rt, &Cast::new(rt.alloc(), PACKED), PACKINGS)
}
