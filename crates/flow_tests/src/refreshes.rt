//! What is read of a reader that is refreshed, and what it then has.
use crate::cases::all_hold;

// The writer 9 of host 7 has two entries: of 5 bytes, and of 3 that overlap them in the file. The writers 3 of host 33 and 20
// of host 0 have none.
const CASES: &str = "\
# Nothing came.

refresh
top: names access flats hostdir.0 hostdir.1 hostdir.7 metadata truncs
list hostdir.0: names index.0.20
list hostdir.1: names index.33.3
list hostdir.7: names index.7.9
length index.33.3: long 0
length log.33.3: long 0
length index.7.9: long 80
length log.7.9: long 8
length index.0.20: long 0
length log.0.20: long 0
list truncs: names
= refreshed, size 7 3/33 9/7 20/0 9:2 0+4 4+3 truncates

refresh # what is held of a writer without a dropping stays
top: names access flats hostdir.5 metadata truncs
list hostdir.5: names index.5.8
length index.5.8: long 39
length log.5.8: long 0
list truncs: names
= refreshed, size 7 3/33 8/5 9/7 20/0 9:2 0+4 4+3 truncates

# What came is read from where the held entries end.

refresh # over what is held
top: names access flats hostdir.7 metadata truncs
list hostdir.7: names index.7.9
length index.7.9: long 120
length log.7.9: long 10
read index.7.9 80 40: bytes 6 2 8 13 9
list truncs: names
= refreshed, size 8 3/33 9/7 20/0 9:3 0+4 4+2 6+2 truncates

refresh # a truncate takes of both
top: names access flats hostdir.7 metadata truncs
list hostdir.7: names index.7.9
length index.7.9: long 120
length log.7.9: long 10
read index.7.9 80 40: bytes 6 2 8 13 9
list truncs: names 14.7
= refreshed, size 7 3/33 9/7 20/0 9:3 0+4 4+2 6+1 truncates 14:7

refresh # it comes alone
top: names access flats hostdir.7 metadata truncs
list hostdir.7: names index.7.9
length index.7.9: long 80
length log.7.9: long 8
list truncs: names 14.3
= refreshed, size 3 3/33 9/7 20/0 9:2 0+3 truncates 14:3

refresh # packed indices are not read
top: names access flats hostdir.7 metadata truncs
list hostdir.7: names index.7.9 index2.7.9
length index.7.9: long 80
length log.7.9: long 8
list truncs: names
= refreshed, size 7 3/33 9/7 20/0 9:2 0+4 4+3 truncates

# After a trouble all is as it was.

refresh # fewer entries than are held
top: names access flats hostdir.7 metadata truncs
list hostdir.7: names index.7.9
length index.7.9: long 79
= damaged hostdir.7/index.7.9 79, size 7 3/33 9/7 20/0 9:2 0+4 4+3 truncates

refresh # a log that lacks bytes of them
top: names access flats hostdir.7 metadata truncs
list hostdir.7: names index.7.9
length index.7.9: long 80
length log.7.9: long 7
= damaged hostdir.7/log.7.9 7, size 7 3/33 9/7 20/0 9:2 0+4 4+3 truncates

refresh # the stamp of the last one that is held
top: names access flats hostdir.7 metadata truncs
list hostdir.7: names index.7.9
length index.7.9: long 120
length log.7.9: long 10
read index.7.9 80 40: bytes 6 2 8 12 9
= damaged hostdir.7/index.7.9 80, size 7 3/33 9/7 20/0 9:2 0+4 4+3 truncates

refresh # another host, once all folders are listed
top: names access flats hostdir.7 hostdir.8 metadata truncs
list hostdir.7: names index.7.11
list hostdir.8: names index.8.9
= damaged hostdir.8/index.8.9 0, size 7 3/33 9/7 20/0 9:2 0+4 4+3 truncates

refresh # a foreign name
top: names access flats hostdir.7 metadata truncs
list hostdir.7: names index.7.9 x
= damaged hostdir.7/x 0, size 7 3/33 9/7 20/0 9:2 0+4 4+3 truncates

refresh # a packed index without an index dropping
top: names access flats hostdir.7 metadata truncs
list hostdir.7: names index.7.9 index2.7.11
= damaged hostdir.7/index2.7.11 0, size 7 3/33 9/7 20/0 9:2 0+4 4+3 truncates

refresh
top: names access flats hostdir.7 truncs
= damaged metadata/ 0, size 7 3/33 9/7 20/0 9:2 0+4 4+3 truncates

refresh
top: fault
= fault, size 7 3/33 9/7 20/0 9:2 0+4 4+3 truncates

refresh
top: names access flats hostdir.7 metadata truncs
list hostdir.7: names index.7.9
length index.7.9: long 120
length log.7.9: long 10
read index.7.9 80 40: bytes 6 2 8 13 9
list truncs: fault
= fault, size 7 3/33 9/7 20/0 9:2 0+4 4+3 truncates

refresh
top: no-memory
= no-memory
";

#[test]
fn a_refresh_reads_what_came_and_keeps_what_was_held(rt: HostRuntime) {
    all_hold(&rt, rt.alloc(), CASES)
}
