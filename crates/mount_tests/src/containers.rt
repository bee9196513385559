//! Containers are found, named and looked at.
use crate::playing::{Cast, SOUND, all_hold};

const SESSIONS: &[&str] = &[
    // A container is found and named. The room of the marks is none.
    "1 greet: greeted
    1 find f: no room
    1 make f: room 1
    1 find f: room 1
    1 rooms: rooms f",
    // A container is looked at. The room 0 is that of the marks.
    "1 make f: room 1
    1 top 1: names access flats metadata openhosts truncs
    1 list openhosts: names
    1 read /access: bytes=
    1 top 0: no room",
];

#[test]
fn a_container_is_found_named_and_looked_at(rt: HostRuntime) {
    all_hold(&rt, &Cast::new(rt.alloc(), ""), &SOUND, SESSIONS)
}
