//! Each call of a writer's life is broken off in turn, and then another mount on the same store goes on.
use crate::lives::SYNCED;
use crate::playing::{Cast, SOUND, begun, ends, hold, live, mounted};
use crate::spelling::parts;
use std::alloc::Global;
use test_lines::Line;

// The id that the second mount draws first.
const NEXT: u64 = 8589934593;

// The call of the row, broken off after so many bytes.
fn broken_off(alloc: Global, row: &str, bytes: u64) -> Line {
    let (deed, _) = parts(row, ':');
    let (_, call) = parts(deed, ' ');
    let mut line = Line::new(alloc);
    line.say("1/", bytes);
    line.push(" ");
    line.push(call);
    line.push(": stopped");
    line
}

// The row behind so many is broken off.
fn goes_on(alloc: Global, place: usize, row: &str, bytes: u64, wrong: &mut Line) {
    let first = Cast::new(alloc, SYNCED);
    let Some(mut mount) = begun(alloc, &SOUND) else {
        wrong.push("not mounted");
        return;
    };
    live(&first, &mut mount, place, wrong);
    let stop = broken_off(alloc, row, bytes);
    hold(&first, &mut mount, stop.as_str(), wrong);
    drop(stop);
    let Some(mut other) = mounted(alloc, mount.close(), &SOUND) else {
        wrong.push("not mounted again");
        return;
    };
    let second = Cast {
        writer: NEXT,
        ..first
    };
    hold(
        &second,
        &mut other,
        "after 12\n1 length hostdir.0/index.0.$: length 40",
        wrong,
    );
    drop(other);
}

#[test]
fn another_mount_goes_on_after_each_stop(rt: HostRuntime) {
    let mut wrong = Line::new(rt.alloc());
    for (place, row) in SYNCED.lines().enumerate() {
        for bytes in &[0, 1, 41, 120] {
            goes_on(rt.alloc(), place, row, *bytes, &mut wrong);
        }
    }
    ends(&rt, wrong)
}
