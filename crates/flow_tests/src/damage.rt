//! What a reader, and who truncates, looks at or recovers a file, reports as damage, and its place.
use crate::cases::all_hold;

const CASES: &str = "\
# A foreign name is damage at 0.

attr
find: room 5
list openhosts: names
list metadata: names x
= damaged metadata/x 0

attr
find: room 5
list openhosts: names
list metadata: names
list truncs: names x
= damaged truncs/x 0

truncate # it lets go, and tells the damage
find: room 1
hold 1: holding 7
list metadata: names x
release 7: done
= damaged metadata/x 0

recover
find: room 1
list openhosts: names x
= damaged openhosts/x 0

# What is missing is damage at 0.

list
list flats: no-folder
= damaged flats/ 0

list # a flattened index that is gone
list flats: names 10
length 10: absent
= damaged flats/10 0

list
list flats: names
top: names access flats truncs
= damaged metadata/ 0

list
list flats: names
top: names access flats metadata
= damaged truncs/ 0

list
list flats: names
top: names access flats hostdir.0 metadata openhosts truncs
list hostdir.0: no-folder
= damaged hostdir.0/ 0

truncates
list truncs: no-folder
= damaged truncs/ 0

attr
find: room 5
list openhosts: names
list metadata: no-folder
= damaged metadata/ 0

attr
find: room 5
list openhosts: names
list metadata: names
list truncs: no-folder
= damaged truncs/ 0

read # a log that is gone
read log.7.9 0 4: bytes hell
read log.7.9 5 3: absent
= damaged hostdir.7/log.7.9 0

read # or its folder
read log.7.9 0 4: no-folder
= damaged hostdir.7/ 0

share 1 # one whose bytes are covered counts as empty
length index.7.9: long 80
length log.7.9: absent
= damaged hostdir.7/log.7.9 0

# An entry out of its ranges is damage at its first byte.

share # one that ends at 2^40
length index.7.9: long 40
length log.7.9: long 5
read index.7.9 0 40: bytes 1099511627771 5 0 11 9
= share 9:1 1099511627771+5

share # and past it
length index.7.9: long 40
length log.7.9: long 5
read index.7.9 0 40: bytes 1099511627772 5 0 11 9
= damaged hostdir.7/index.7.9 0

share # two with the least stamp that there is, and the greatest
length index.7.9: long 80
length log.7.9: long 8
read index.7.9 0 80: bytes 0 5 0 1 9 4 3 5 9223372036854775807 9
= share 9:2 0+4 4+3

share # one with a less stamp
length index.7.9: long 40
length log.7.9: long 5
read index.7.9 0 40: bytes 0 5 0 0 9
= damaged hostdir.7/index.7.9 0

share # and with a greater one
length index.7.9: long 40
length log.7.9: long 5
read index.7.9 0 40: bytes 0 5 0 9223372036854775808 9
= damaged hostdir.7/index.7.9 0

share 2 # one whose bytes end at 2^56
length index.7.9: long 120
length log.7.9: long 72057594037927940
read index.7.9 80 40: bytes 4 2 72057594037927934 12 9
= share 9:3 4+2

share 2 # and past it
length index.7.9: long 120
length log.7.9: long 72057594037927940
read index.7.9 80 40: bytes 4 3 72057594037927934 12 9
= damaged hostdir.7/index.7.9 80

# A flattened index is damaged where it does not decode.

list # a length that doesn't fit the numbers
list flats: names 10
length 10: long 88
read 10 0 88: bytes PLFSFLT1 1 1 9 1 4 10 0 4 0 10
= damaged flats/10 8

list # a cover of no entry
list flats: names 10
length 10: long 96
read 10 0 96: bytes PLFSFLT1 1 1 9 0 4 10 0 4 0 10 9
= damaged flats/10 24

list # a piece that is newer than its writer's cover
list flats: names 10
length 10: long 96
read 10 0 96: bytes PLFSFLT1 1 1 9 1 4 10 0 4 0 11 9
= damaged flats/10 56

list # other letters
list flats: names 10
length 10: long 96
read 10 0 96: bytes PLFSFLT2 1 1 9 1 4 10 0 4 0 10 9
= damaged flats/10 0

list # none of its bytes are there
list flats: names 10
length 10: long 0
= damaged flats/10 0

# Its letters and its length are judged after the first Read. One of 8 TiB is read no further, and takes no memory.

list # without letters
list flats: names 10
length 10: long 8796093022208
read 10 0 1048576: padded 1048576
= damaged flats/10 0

list # with numbers that don't fit its length
list flats: names 10
length 10: long 8796093022208
read 10 0 1048576: padded 1048576 PLFSFLT1 1 1 9 1 4 10 0 4 0 10 9
= damaged flats/10 8

list # with numbers that fit: all of it is read before its covers are judged
list flats: names 10
length 10: long 1048600
read 10 0 1048576: padded 1048576 PLFSFLT1 32768
read 10 1048576 24: padded 24
= damaged flats/10 24

# A packed index is damaged where it does not fit.

packed 1 # no more entries than are covered
length index2.7.9: long 88
read index2.7.9 0 24: bytes PLFSIDX2 1 1
= share 9:1

packed 2 # fewer entries than are covered
length index2.7.9: long 88
read index2.7.9 0 24: bytes PLFSIDX2 1 1
= damaged hostdir.7/index2.7.9 8

packed 1 # the entries behind the covered one, which has the cover's bytes and stamp
length index2.7.9: long 88
read index2.7.9 0 24: bytes PLFSIDX2 2 1
read index2.7.9 24 64: bytes 0 5 5 2 0 11 1 9
= share 9:2 5+5

packed 1 # or another stamp
length index2.7.9: long 88
read index2.7.9 0 24: bytes PLFSIDX2 2 1
read index2.7.9 24 64: bytes 0 5 5 2 0 10 1 9
= damaged hostdir.7/index2.7.9 24

packed # other letters
length index2.7.9: long 88
read index2.7.9 0 24: bytes PLFSIDX1 2 1
= damaged hostdir.7/index2.7.9 0

# A log too short for a part is damaged where its bytes end.

read # a log that ends before a part begins
read log.7.9 0 4: bytes hell
read log.7.9 5 3: bytes
= damaged hostdir.7/log.7.9 5
";

#[test]
fn damage_is_told_with_its_place(rt: HostRuntime) {
    all_hold(&rt, rt.alloc(), CASES)
}
