//! The calls of who packs the closed writers of a file, and what comes of the replies to them.
use crate::cases::all_hold;

// Two writers, of which each wrote 32 blocks, in turn with the other.
const CASES: &str = "\
migrate # One run is told of each writer's 32 entries.
find: room 1
top: names access flats hostdir.0 metadata truncs
list metadata: names 3008512.1504256.41.0.4294967297 3008512.1504256.82.0.4294967298
list hostdir.0: names index.0.4294967297 index.0.4294967298 log.0.4294967297 log.0.4294967298
length index.0.4294967297: long 1280
read index.0.4294967297 0 1280: blocks 4294967297 10 32
pack 0 4294967297: started 5
put 5 88 32 1 0 94016 47008 32 0 10 1 4294967297: done
sync-flat 5: done
install 5: done
length index.0.4294967298: long 1280
read index.0.4294967298 0 1280: blocks 4294967298 51 32
pack 0 4294967298: started 6
put 6 88 32 1 0 94016 47008 32 0 51 1 4294967298: done
sync-flat 6: done
install 6: done
= migrated 2 64 2 left 0

migrate # Once they have packed indices, nothing is left to do.
find: room 1
top: names access flats hostdir.0 metadata truncs
list metadata: names 3008512.1504256.41.0.4294967297 3008512.1504256.82.0.4294967298
list hostdir.0: names index.0.4294967297 index.0.4294967298 index2.0.4294967297 index2.0.4294967298
= migrated 0 0 0 left 0

migrate # A writer with too many entries is passed over, and one without any is not looked at.
find: room 1
top: names access flats hostdir.0 metadata truncs
list metadata: names 0.0.0.0.4294967297 9.9.9.0.4294967298
list hostdir.0: names index.0.4294967297 index.0.4294967298 log.0.4294967297 log.0.4294967298
length index.0.4294967298: long 41943080
= migrated 0 0 0 left 1

migrate # Of two metadata of one writer the first counts, and its host is asked.
find: room 1
top: names access flats hostdir.0 metadata truncs
list metadata: names 8.8.8.3.4294967297 9.9.9.0.4294967297
list hostdir.0: names index.0.4294967297 index.0.4294967298 log.0.4294967297 log.0.4294967298
length index.3.4294967297: absent
= damaged hostdir.3/index.3.4294967297 0

migrate # No whole entry is damage at the end.
find: room 1
top: names access flats hostdir.0 metadata truncs
list metadata: names 3008512.1504256.41.0.4294967297 3008512.1504256.82.0.4294967298
list hostdir.0: names index.0.4294967297 index.0.4294967298 log.0.4294967297 log.0.4294967298
length index.0.4294967297: long 39
= damaged hostdir.0/index.0.4294967297 39

migrate # The second entry isn't there whole.
find: room 1
top: names access flats hostdir.0 metadata truncs
list metadata: names 3008512.1504256.41.0.4294967297 3008512.1504256.82.0.4294967298
list hostdir.0: names index.0.4294967297 index.0.4294967298 log.0.4294967297 log.0.4294967298
length index.0.4294967297: long 80
read index.0.4294967297 0 80: blocks 4294967297 10 1
= damaged hostdir.0/index.0.4294967297 40

migrate # The packs that were made stand, and the refusal is the result.
find: room 1
top: names access flats hostdir.0 metadata truncs
list metadata: names 3008512.1504256.41.0.4294967297
list hostdir.0: names index.0.4294967297 index.0.4294967298 log.0.4294967297 log.0.4294967298
length index.0.4294967297: long 40
read index.0.4294967297 0 40: blocks 4294967297 10 1
pack 0 4294967297: refused ids-spent
= refused

migrate # The trouble of the top ends it before the metadata are listed.
find: room 1
top: names access flats truncs
= damaged metadata/ 0
";

#[test]
fn closed_writers_are_packed(rt: HostRuntime) {
    all_hold(&rt, rt.alloc(), CASES)
}
