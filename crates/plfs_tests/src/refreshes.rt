//! A reader is brought to what a new opening would see.
use crate::playing::all_hold;
use test_lines::Line;

const REFRESHES: &str = "\
## What came since is read, over what was held.
$ play: 0
actor a
actor b
a open f -> open 4294967297
a write 0 text:AAAA -> wrote 0 4 10
a sync -> synced 1
b ropen f -> reader 4 cut 4294967297:1 trunc -
a write 1 text:BB -> wrote 1 2 11
a sync -> synced 2
b read 0 4 -> read 0 41414141
b refresh -> reader 4 cut 4294967297:2 trunc -
b read 0 4 -> read 0 41424241
b map -> map 0+1=10.4294967297@0 1+2=11.4294967297@4 3+1=10.4294967297@3
## Without a reader.
$ play: 1
actor a
a refresh -> refused not-open
## Nothing came; then a writer without entries.
$ play: 0
actor a
actor b
a open f -> open 4294967297
a write 0 text:AB -> wrote 0 2 10
a close -> closed 1
b ropen f -> reader 2 cut 4294967297:1 trunc -
b refresh -> reader 2 cut 4294967297:1 trunc -
a open f -> open 4294967298
b refresh -> reader 2 cut 4294967297:1 trunc -
b read 0 9 -> read 0 4142
## What was written and has not landed isn't seen.
$ play: 0
actor a
actor b
a open f -> open 4294967297
b ropen f -> reader 0 cut - trunc -
a write 0 text:AB -> wrote 0 2 10
b refresh -> reader 0 cut - trunc -
a sync -> synced 1
b refresh -> reader 2 cut 4294967297:1 trunc -
## The earlier stamp comes later, from a writer of a lesser id: it shows where nothing is over it.
$ play, at 20 10: 0
actor a
actor b
actor c
c open f -> open 4294967297
a open f -> open 4294967298
a write 1 text:AA -> wrote 1 2 20
a close -> closed 1
b ropen f -> reader 3 cut 4294967298:1 trunc -
c write 0 text:CCCC -> wrote 0 4 10
c close -> closed 1
b refresh -> reader 4 cut 4294967297:1,4294967298:1 trunc -
b read 0 9 -> read 0 43414143
## A truncate takes what was held, and what a later write passes over is zeros.
$ play: 0
actor a
actor b
a open f -> open 4294967297
a write 0 text:ABCD -> wrote 0 4 10
a close -> closed 1
b ropen f -> reader 4 cut 4294967297:1 trunc -
a trunc f 1 -> truncated 11
b refresh -> reader 1 cut 4294967297:1 trunc 11:1
a open f -> open 4294967299
a write 3 text:X -> wrote 3 1 12
a sync -> synced 1
b refresh -> reader 4 cut 4294967297:1,4294967299:1 trunc 11:1
b read 0 9 -> read 0 41000058
## Two truncates: the second lengthens the file, and what the first took does not come back.
$ play: 0
actor a
actor b
a open f -> open 4294967297
a write 0 text:ABCD -> wrote 0 4 10
a close -> closed 1
a trunc f 2 -> truncated 11
b ropen f -> reader 2 cut 4294967297:1 trunc 11:2
a trunc f 4 -> truncated 12
b refresh -> reader 4 cut 4294967297:1 trunc 11:2,12:4
b read 0 9 -> read 0 41420000
## A reader that a flattened index was read for, and one that packed indices were: their entries are held as others are.
$ play: 0
actor a
a open f -> open 4294967297
a write 0 text:AB -> wrote 0 2 10
a close -> closed 1
a flatten f -> flattened 4294967298 1 cut 4294967297:1
a ropen f -> reader 2 cut 4294967297:1 trunc -
a open f -> open 4294967299
a write 1 text:C -> wrote 1 1 10
a close -> closed 1
a refresh -> reader 2 cut 4294967297:1,4294967299:1 trunc -
a read 0 9 -> read 0 4143
$ migrate f: 0
= migrated 2 2 2 left 0
$ play: 0
actor a
a ropen f -> reader 2 cut 4294967297:1,4294967299:1 trunc -
a refresh -> reader 2 cut 4294967297:1,4294967299:1 trunc -
a read 0 9 -> read 0 4143
## The file was renamed: the reader keeps its container.
$ play: 0
actor a
actor b
a open f -> open 4294967297
a write 0 text:A -> wrote 0 1 10
a close -> closed 1
b ropen f -> reader 1 cut 4294967297:1 trunc -
a rename f g -> renamed
a open g -> open 4294967299
a write 1 text:B -> wrote 1 1 10
a close -> closed 1
b refresh -> reader 2 cut 4294967297:1,4294967299:1 trunc -
b read 0 9 -> read 0 4142
";

#[test]
fn a_refresh_sees_what_a_new_opening_would(rt: HostRuntime) {
    all_hold(&rt, rt.alloc(), &[("", REFRESHES)])
}

// A refresh to which an entry came makes six calls, each of them one act: it lists the top and the one folder of droppings,
// asks two lengths, reads an entry, and lists the truncates.
const CALLS: u64 = 6;

const STOPPED: &str = "\
## The actor stops in the call % of its refresh.
$ play: 0
actor a
actor b
a open f -> open 4294967297
a write 0 text:A -> wrote 0 1 10
a sync -> synced 1
b ropen f -> reader 1 cut 4294967297:1 trunc -
a write 1 text:B -> wrote 1 1 11
a sync -> synced 2
b stop % % -> armed
b refresh -> stopped
b read 0 9 -> gone
b refresh -> gone
a ropen f -> reader 2 cut 4294967297:2 trunc -
a read 0 9 -> read 0 4142
";

const NOT_STOPPED: &str = "\
## The stop is behind the last call of the refresh.
$ play: 0
actor a
actor b
a open f -> open 4294967297
a write 0 text:A -> wrote 0 1 10
a sync -> synced 1
b ropen f -> reader 1 cut 4294967297:1 trunc -
a write 1 text:B -> wrote 1 1 11
a sync -> synced 2
b stop % 0 -> armed
b refresh -> reader 2 cut 4294967297:2 trunc -
b read 0 9 -> read 0 4142
";

// Before the refresh come three acts of the mounting, six to open, one to write, three to sync, eight of the opening of the
// reader, and four more to write and to sync.
const FIRST: u64 = 25;

const LAST: u64 = 30;

const FAULTED: &str = "\
## The act % faults, one of a refresh: the reader is as it was, and another refresh brings what came.
$ faults % 0
$ play: 4
actor a
actor b
a open f -> open 4294967297
a write 0 text:A -> wrote 0 1 10
a sync -> synced 1
b ropen f -> reader 1 cut 4294967297:1 trunc -
a write 1 text:B -> wrote 1 1 11
a sync -> synced 2
b refresh -> fault
b read 0 9 -> read 0 41
b refresh -> reader 2 cut 4294967297:2 trunc -
b read 0 9 -> read 0 4142
";

const OFF: &str = "\
## The power is lost in the act %, one of a refresh: what was synced is there.
$ off % 1
$ play: 4
actor a
actor b
a open f -> open 4294967297
a write 0 text:A -> wrote 0 1 10
a sync -> synced 1
b ropen f -> reader 1 cut 4294967297:1 trunc -
a write 1 text:B -> wrote 1 1 11
a sync -> synced 2
b refresh -> fault
b read 0 9 -> fault
$ loss
$ play: 0
actor b
b ropen f -> reader 2 cut 4294967297:2 trunc -
b refresh -> reader 2 cut 4294967297:2 trunc -
b read 0 9 -> read 0 4142
";

#[test]
fn a_refresh_stops_faults_and_loses_power_at_each_call(rt: HostRuntime) {
    let mut table = Line::new(rt.alloc());
    for call in 1..=CALLS {
        for bytes in [0, 1] {
            table.fill(STOPPED, &[call, call, bytes]);
        }
    }
    table.fill(NOT_STOPPED, &[CALLS + 1]);
    for act in FIRST..=LAST {
        table.fill(FAULTED, &[act, act]);
        table.fill(OFF, &[act, act]);
    }
    all_hold(&rt, rt.alloc(), &[("", table.as_str())]);
    drop(table);
}

const LOST: &str = "\
## A refresh sees an entry that has landed and is not synced, and no run after a loss of power does.
$ play: 0
actor a 0 1
actor b
a open f -> open 4294967297
a write 0 text:A -> wrote 0 1 10
a sync -> synced 1
b ropen f -> reader 1 cut 4294967297:1 trunc -
a write 1 text:B -> wrote 1 1 11
a write 2 text:C -> wrote 2 1 12
b refresh -> reader 2 cut 4294967297:2 trunc -
b read 0 9 -> read 0 4142
$ loss
$ play: 0
actor b
b ropen f -> reader 1 cut 4294967297:1 trunc -
b refresh -> reader 1 cut 4294967297:1 trunc -
b read 0 9 -> read 0 41
";

#[test]
fn what_a_refresh_saw_may_be_lost(rt: HostRuntime) {
    all_hold(&rt, rt.alloc(), &[("", LOST)])
}
