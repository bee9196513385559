//! A call is broken off within its act: a part of that is there, and the caller's writers are dead.
use crate::lives::ENDED;
use crate::playing::{Cast, SOUND, all_hold};
use crate::tables::{Table, all_tell};
use crate::trials::Trial;

const STOPS: &[(Table, &str)] = &[
    (
        Table::Trial(Trial {
            before: "after 7",
            act: 11,
            caller: 1,
            call: "flush 4294967297",
            look: "length hostdir.0/index.0.4294967297",
        }),
        "stops 0: stopped, length 0, not open
            stops 1: stopped, length 1, not open
            stops 39: stopped, length 39, not open
            stops 40: stopped, length 40, not open
            stops 120: stopped, length 40, not open",
    ),
    (
        Table::Trial(Trial {
            before: "after 6",
            act: 9,
            caller: 1,
            call: "write 4294967297",
            look: "length hostdir.0/log.0.4294967297",
        }),
        "stops 3: stopped, length 3, not open",
    ),
    // another act is made whole or not at all
    (
        Table::Trial(Trial {
            before: "after 5",
            act: 8,
            caller: 1,
            call: "log 4294967297",
            look: "length hostdir.0/log.0.4294967297",
        }),
        "stops 0: stopped, absent, not open
            stops 1: stopped, length 0, not open",
    ),
];

#[test]
fn a_stopped_write_leaves_its_first_bytes_and_another_act_is_made_whole_or_not_at_all(
    rt: HostRuntime,
) {
    all_tell(&rt, &Cast::new(rt.alloc(), ENDED), STOPS)
}

const SESSIONS: &[&str] = &[
    // Another caller has no writers. A call that is refused and stopped ends its caller.
    "after 6
    2/40 flush $: stopped
    1 write $: wrote 10
    1/40 flush 99: stopped
    1 flush $: not open",
    // An entering that is stopped draws its serial.
    "after 3
    2/1 enter 1 0: stopped
    1 enter 1 0: entered 4294967299
    1 floor 4294967299: floored 0",
];

#[test]
fn a_stopped_call_ends_its_caller_and_draws_its_serial(rt: HostRuntime) {
    all_hold(&rt, &Cast::new(rt.alloc(), ENDED), &SOUND, SESSIONS)
}
