//! The store fails at each of its acts in turn, and the same call is made again.
use crate::calls::FIRST;
use crate::lives::SYNCED;
use crate::playing::{Beginning, Cast, SOUND, begun, ends, hold, live};
use std::alloc::Global;
use store_api::Store;
use test_lines::Line;

// Acts of which one fails and leaves such a part, the writer that enters then, and how it leaves.
struct Case {
    first: u64,
    last: u64,
    parts: &'static [u64],
    writer: u64,
    leaves: &'static str,
}

const DONE: &str = "1 exit $: done";

const CASES: [Case; 7] = [
    // in the mounting
    Case {
        first: 0,
        last: 1,
        parts: &[0, 20, 40],
        writer: FIRST,
        leaves: DONE,
    },
    Case {
        first: 2,
        last: 2,
        parts: &[0],
        writer: FIRST,
        leaves: DONE,
    },
    // the mark was made, and the second try draws the next one
    Case {
        first: 2,
        last: 2,
        parts: &[20, 40],
        writer: 8589934593,
        leaves: DONE,
    },
    Case {
        first: 3,
        last: 3,
        parts: &[0, 20, 40],
        writer: FIRST,
        leaves: DONE,
    },
    // each entering draws an id
    Case {
        first: 4,
        last: 4,
        parts: &[0, 20, 40],
        writer: 4294967298,
        leaves: DONE,
    },
    Case {
        first: 5,
        last: 13,
        parts: &[0, 20, 40],
        writer: FIRST,
        leaves: DONE,
    },
    // a writer whose leaving failed is dead
    Case {
        first: 14,
        last: 14,
        parts: &[0, 20, 40],
        writer: FIRST,
        leaves: "1 exit $: not open",
    },
];

// Its entry, its bytes, and its metadata dropping.
const LEFT: &str = "1 length hostdir.0/index.0.$: length 40
    1 length hostdir.0/log.0.$: length 4
    1 length metadata/4.4.10.0.$: length 0";

// The store tells one fault, and else all is as if there were none.
fn goes_on(alloc: Global, case: &Case, act: u64, part: u64, wrong: &mut Line) {
    let beginning = Beginning {
        fails: Some((act, part)),
        ..SOUND
    };
    let cast = Cast {
        alloc,
        life: SYNCED,
        writer: case.writer,
        is_again: true,
    };
    let Some(mut mount) = begun(alloc, &beginning) else {
        wrong.push("not mounted");
        return;
    };
    live(&cast, &mut mount, 11, wrong);
    hold(&cast, &mut mount, case.leaves, wrong);
    hold(&cast, &mut mount, LEFT, wrong);
    let store = mount.close();
    if store.faults() != 1 {
        wrong.say("faults ", store.faults());
    }
    drop(store);
}

#[test]
fn a_writer_goes_on_after_each_fault(rt: HostRuntime) {
    let mut wrong = Line::new(rt.alloc());
    for case in &CASES {
        for act in case.first..=case.last {
            for part in case.parts {
                goes_on(rt.alloc(), case, act, *part, &mut wrong);
            }
        }
    }
    ends(&rt, wrong)
}
