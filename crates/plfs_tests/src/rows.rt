//! Scripts of one actor, each played over an empty store, with their lines.
use crate::actors::{OVERLAPS, STOPS, TURNS};
use crate::playing::all_hold;

const ONE_ACTOR: &str = "\
## A closed writer is read.
$ play: 0
actor a
a open f -> open 4294967297
a write 0 text:hello -> wrote 0 5 10
a sync -> synced 1
a close -> closed 1
a ropen f -> reader 5 cut 4294967297:1 trunc -
a read 0 5 -> read 0 68656c6c6f
## Entries that wait are not seen.
$ play: 0
actor a
a open f -> open 4294967297
a write 0 text:hello -> wrote 0 5 10
a ropen f -> reader 0 cut - trunc -
a read 0 5 -> read 0 -
## Stamps rise where the clock falls.
$ play, at 50 20: 0
actor a
a open f -> open 4294967297
a write 0 text:A -> wrote 0 1 50
a write 1 text:B -> wrote 1 1 51
## At one stamp the later writer, whose id is greater, wins.
$ play: 0
actor a
a open f -> open 4294967297
a write 0 text:AAAA -> wrote 0 4 10
a close -> closed 1
a open f -> open 4294967298
a write 2 text:BBB -> wrote 2 3 10
a close -> closed 1
a ropen f -> reader 5 cut 4294967297:1,4294967298:1 trunc -
a read 0 9 -> read 0 4141424242
## A writer without entries is in no cut.
$ play: 0
actor a
a open f -> open 4294967297
a close -> closed 0
a open f -> open 4294967298
a write 0 text:A -> wrote 0 1 10
a close -> closed 1
a ropen f -> reader 1 cut 4294967298:1 trunc -
a read 0 9 -> read 0 41
## Two files have nothing to do with one another.
$ play: 0
actor a
a open f -> open 4294967297
a write 0 text:A -> wrote 0 1 10
a close -> closed 1
a open g -> open 4294967298
a write 0 text:B -> wrote 0 1 10
a close -> closed 1
a ropen f -> reader 1 cut 4294967297:1 trunc -
a read 0 9 -> read 0 41
## What is written later is not seen.
$ play: 0
actor a
a open f -> open 4294967297
a write 0 text:A -> wrote 0 1 10
a sync -> synced 1
a ropen f -> reader 1 cut 4294967297:1 trunc -
a write 0 text:B -> wrote 0 1 11
a sync -> synced 2
a read 0 9 -> read 0 41
## Nor is what waits.
$ play: 0
actor a
a open f -> open 4294967297
a write 0 text:A -> wrote 0 1 10
a sync -> synced 1
a write 0 text:B -> wrote 0 1 11
a ropen f -> reader 1 cut 4294967297:1 trunc -
a read 0 9 -> read 0 41
## A write of no bytes does nothing.
$ play: 0
actor a
a open f -> open 4294967297
a write 3 hex: -> wrote 3 0 -
a write 3 text: -> wrote 3 0 -
a sync -> synced 0
a ropen f -> reader 0 cut - trunc -
a read 0 9 -> read 0 -
## 65 entries, of which the buffer keeps one.
$ play: 0
actor a
a open f -> open 4294967297
a write 0 text:x -> wrote 0 1 10
a write 1 text:x -> wrote 1 1 11
a write 2 text:x -> wrote 2 1 12
a write 3 text:x -> wrote 3 1 13
a write 4 text:x -> wrote 4 1 14
a write 5 text:x -> wrote 5 1 15
a write 6 text:x -> wrote 6 1 16
a write 7 text:x -> wrote 7 1 17
a write 8 text:x -> wrote 8 1 18
a write 9 text:x -> wrote 9 1 19
a write 10 text:x -> wrote 10 1 20
a write 11 text:x -> wrote 11 1 21
a write 12 text:x -> wrote 12 1 22
a write 13 text:x -> wrote 13 1 23
a write 14 text:x -> wrote 14 1 24
a write 15 text:x -> wrote 15 1 25
a write 16 text:x -> wrote 16 1 26
a write 17 text:x -> wrote 17 1 27
a write 18 text:x -> wrote 18 1 28
a write 19 text:x -> wrote 19 1 29
a write 20 text:x -> wrote 20 1 30
a write 21 text:x -> wrote 21 1 31
a write 22 text:x -> wrote 22 1 32
a write 23 text:x -> wrote 23 1 33
a write 24 text:x -> wrote 24 1 34
a write 25 text:x -> wrote 25 1 35
a write 26 text:x -> wrote 26 1 36
a write 27 text:x -> wrote 27 1 37
a write 28 text:x -> wrote 28 1 38
a write 29 text:x -> wrote 29 1 39
a write 30 text:x -> wrote 30 1 40
a write 31 text:x -> wrote 31 1 41
a write 32 text:x -> wrote 32 1 42
a write 33 text:x -> wrote 33 1 43
a write 34 text:x -> wrote 34 1 44
a write 35 text:x -> wrote 35 1 45
a write 36 text:x -> wrote 36 1 46
a write 37 text:x -> wrote 37 1 47
a write 38 text:x -> wrote 38 1 48
a write 39 text:x -> wrote 39 1 49
a write 40 text:x -> wrote 40 1 50
a write 41 text:x -> wrote 41 1 51
a write 42 text:x -> wrote 42 1 52
a write 43 text:x -> wrote 43 1 53
a write 44 text:x -> wrote 44 1 54
a write 45 text:x -> wrote 45 1 55
a write 46 text:x -> wrote 46 1 56
a write 47 text:x -> wrote 47 1 57
a write 48 text:x -> wrote 48 1 58
a write 49 text:x -> wrote 49 1 59
a write 50 text:x -> wrote 50 1 60
a write 51 text:x -> wrote 51 1 61
a write 52 text:x -> wrote 52 1 62
a write 53 text:x -> wrote 53 1 63
a write 54 text:x -> wrote 54 1 64
a write 55 text:x -> wrote 55 1 65
a write 56 text:x -> wrote 56 1 66
a write 57 text:x -> wrote 57 1 67
a write 58 text:x -> wrote 58 1 68
a write 59 text:x -> wrote 59 1 69
a write 60 text:x -> wrote 60 1 70
a write 61 text:x -> wrote 61 1 71
a write 62 text:x -> wrote 62 1 72
a write 63 text:x -> wrote 63 1 73
a write 64 text:x -> wrote 64 1 74
a ropen f -> reader 64 cut 4294967297:64 trunc -
## No writer, no reader, no file.
$ play: 1
actor a
a write 3 hex: -> refused not-open
a read 0 5 -> refused not-open
a ropen g -> refused no-file
a write 0 text:A -> refused not-open
a sync -> refused not-open
a close -> refused not-open
a rclose -> refused not-open
a map -> refused not-open
## A writer and a reader that are open.
$ play: 1
actor a
a open f -> open 4294967297
a open f -> refused already-open
a ropen f -> reader 0 cut - trunc -
a ropen f -> refused already-open
a close -> closed 0
a write 0 text:A -> refused not-open
";

const READS: &str = "\
## Overlaps of one writer.
$ play: 0
actor a
a open f -> open 4294967297
a write 0 text:AAAA -> wrote 0 4 10
a write 1 text:BB -> wrote 1 2 11
a close -> closed 2
a ropen f -> reader 4 cut 4294967297:2 trunc -
a read 0 9 -> read 0 41424241
## Of two writes over each other the later one wins.
$ play: 0
actor a
a open f -> open 4294967297
a write 1 text:BB -> wrote 1 2 10
a write 0 text:AAAA -> wrote 0 4 11
a close -> closed 2
a ropen f -> reader 4 cut 4294967297:2 trunc -
a read 0 9 -> read 0 41414141
## They lie beside each other.
$ play: 0
actor a
a open f -> open 4294967297
a write 0 text:AB -> wrote 0 2 10
a write 2 text:CD -> wrote 2 2 11
a close -> closed 2
a ropen f -> reader 4 cut 4294967297:2 trunc -
a read 0 9 -> read 0 41424344
## The later one begins before the earlier one.
$ play: 0
actor a
a open f -> open 4294967297
a write 2 text:CD -> wrote 2 2 10
a write 0 text:ABC -> wrote 0 3 11
a close -> closed 2
a ropen f -> reader 4 cut 4294967297:2 trunc -
a read 0 9 -> read 0 41424344
## There is a hole between them.
$ play: 0
actor a
a open f -> open 4294967297
a write 0 text:AB -> wrote 0 2 10
a write 4 text:E -> wrote 4 1 11
a close -> closed 2
a ropen f -> reader 5 cut 4294967297:2 trunc -
a read 0 9 -> read 0 4142000045
## They are of the same byte.
$ play: 0
actor a
a open f -> open 4294967297
a write 0 text:A -> wrote 0 1 10
a write 0 text:B -> wrote 0 1 11
a close -> closed 2
a ropen f -> reader 1 cut 4294967297:2 trunc -
a read 0 9 -> read 0 42
## Edges of reads.
$ play: 0
actor a
a open f -> open 4294967297
a write 0 text:ABC -> wrote 0 3 10
a close -> closed 1
a ropen f -> reader 3 cut 4294967297:1 trunc -
a read 0 0 -> read 0 -
a read 1 1 -> read 1 42
a read 2 9 -> read 2 43
a read 3 1 -> read 3 -
a read 8388608 1048576 -> read 8388608 -
## A read from a hole into what was written.
$ play: 0
actor a
a open f -> open 4294967297
a write 8388608 text:X -> wrote 8388608 1 10
a close -> closed 1
a ropen f -> reader 8388609 cut 4294967297:1 trunc -
a read 8388607 9 -> read 8388607 0058
## A hole is zeros, and the end gives nothing.
$ play: 0
actor a
a open f -> open 4294967297
a write 4 text:X -> wrote 4 1 10
a close -> closed 1
a ropen f -> reader 5 cut 4294967297:1 trunc -
a read 0 5 -> read 0 0000000058
a read 5 3 -> read 5 -
a read 3 9 -> read 3 0058
";

#[test]
fn actors_write_and_read_overlap_take_turns_and_stop(rt: HostRuntime) {
    all_hold(
        &rt,
        rt.alloc(),
        &[
            // one actor
            ("", ONE_ACTOR),
            ("", READS),
            // several, with written turns and stops
            ("", OVERLAPS),
            ("", TURNS),
            ("", STOPS),
        ],
    )
}
