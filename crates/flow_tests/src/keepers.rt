//! The calls of who truncates, renames, looks at or recovers a file, and what comes of the replies to them.
use crate::cases::all_hold;

const CASES: &str = "\
# A truncate comes above all that is listed, of which 30 is the greatest stamp in the metadata, and lets go.

truncate
find: room 1
hold 1: holding 7
list metadata: names 5.5.30.0.4294967297 9.9.10.0.4294967298
list truncs: names 40.1 7.9
mark 3 40: marked 41
release 7: done
= stamp 41

truncate
find: room 1
hold 1: holding 7
list metadata: names 5.5.30.0.4294967297 9.9.10.0.4294967298
list truncs: names
mark 3 30: refused stamps-spent
release 7: done
= refused

truncate
find: room 1
hold 1: holding 7
list metadata: names 5.5.30.0.4294967297 9.9.10.0.4294967298
list truncs: names
mark 3 30: marked 31
release 7: fault
= fault

truncate # a name that is no truncate's
find: room 1
hold 1: holding 7
list metadata: names 5.5.30.0.4294967297 9.9.10.0.4294967298
list truncs: names x
release 7: done
= damaged truncs/x 0

truncate # who holds the container is another
find: room 1
hold 1: refused held
= refused

# A rename lets go whatever its move is told.

rename
find: room 1
hold 1: holding 7
move 7: done
release 7: done
= renamed

rename
find: room 1
hold 1: holding 7
move 7: fault
release 7: done
= fault

rename
find: room 1
hold 1: holding 7
move 7: refused exists
release 7: fault
= refused

rename
find: room 1
hold 1: holding 7
move 7: done
release 7: fault
= fault

# What writers left tells of a file that nobody has open.

attr
find: room 5
list openhosts: names 0.4294967297
= merge 5

attr
find: room 5
list openhosts: names x
= damaged openhosts/x 0

attr # a truncate before the last write
find: room 5
list openhosts: names
list metadata: names 0.0.0.0.3 4.6.5.0.2 9.9.10.0.4
list truncs: names 7.2
= size 9 stored 15 2=6 4=9 truncates 7:2

attr # and one behind it
find: room 5
list openhosts: no-folder
list metadata: names 0.0.0.0.3 4.6.5.0.2 9.9.10.0.4
list truncs: names 11.2 7.8
= size 2 stored 15 2=6 4=9 truncates 7:8 11:2

# A recovery mends and buries the dead by ascending id. The dead one has two entries: of 5 bytes and of 3.

recover # torn, beside one that is live
find: room 1
list openhosts: names 0.4294967297 1.5
inspect 5: refused alive
inspect 4294967297: done
length index.0.4294967297: long 119
length log.0.4294967297: long 8
read index.0.4294967297 0 80: bytes 0 5 0 11 4294967297 4 3 5 12 4294967297
mend 2: done
log: done
index: done
meta 7: done
bury 4294967297: done
= buried 4294967297:2 alive 5 whole

recover # whole, and live after all
find: room 1
list openhosts: names 0.4294967297
inspect 4294967297: done
length index.0.4294967297: long 80
length log.0.4294967297: long 8
read index.0.4294967297 0 80: bytes 0 5 0 11 4294967297 4 3 5 12 4294967297
log: done
index: done
meta 7: refused alive
= buried alive 4294967297 whole

recover # nothing of it is there
find: room 1
list openhosts: names 0.4294967297
inspect 4294967297: done
length index.0.4294967297: no-folder
length log.0.4294967297: no-folder
bury 4294967297: done
= buried 4294967297:0 alive whole

recover
find: room 1
list openhosts: no-folder
mend-hold 1: made
= buried alive made
";

#[test]
fn a_file_is_truncated_renamed_told_of_and_recovered(rt: HostRuntime) {
    all_hold(&rt, rt.alloc(), CASES)
}
