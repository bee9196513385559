//! What is read of index droppings, of packed indices and of truncates.
use crate::cases::all_hold;

// The writer 9 has two entries where no case says otherwise: of 5 bytes, and of 3 that overlap them in the file.
const CASES: &str = "\
# Entries past the log do not count.

share
length index.7.9: long 80
length log.7.9: long 9
read index.7.9 0 80: bytes 0 5 0 11 9 4 3 5 12 9
= share 9:2 0+4 4+3

share
length index.7.9: long 80
length log.7.9: long 8
read index.7.9 0 80: bytes 0 5 0 11 9 4 3 5 12 9
= share 9:2 0+4 4+3

share
length index.7.9: long 80
length log.7.9: long 7
read index.7.9 0 80: bytes 0 5 0 11 9 4 3 5 12 9
= share 9:1 0+5

share
length index.7.9: long 80
length log.7.9: long 0
read index.7.9 0 80: bytes 0 5 0 11 9 4 3 5 12 9
= share

share # a torn tail is dropped
length index.7.9: long 119
length log.7.9: long 8
read index.7.9 0 80: bytes 0 5 0 11 9 4 3 5 12 9
= share 9:2 0+4 4+3

# An entry that breaks a rule is damage at its first byte.

share # of another writer
length index.7.9: long 80
length log.7.9: long 8
read index.7.9 0 80: bytes 0 5 0 11 8 4 3 5 12 9
= damaged hostdir.7/index.7.9 0

share # of length 0
length index.7.9: long 80
length log.7.9: long 8
read index.7.9 0 80: bytes 0 5 0 11 9 4 0 5 12 9
= damaged hostdir.7/index.7.9 40

share # with another place in the log
length index.7.9: long 80
length log.7.9: long 8
read index.7.9 0 80: bytes 0 5 0 11 9 4 3 6 12 9
= damaged hostdir.7/index.7.9 40

share # also past the log's end
length index.7.9: long 80
length log.7.9: long 8
read index.7.9 0 80: bytes 0 5 0 11 9 4 3 255 12 9
= damaged hostdir.7/index.7.9 40

share # with the stamp of the one before it
length index.7.9: long 80
length log.7.9: long 8
read index.7.9 0 80: bytes 0 5 0 11 9 4 3 5 11 9
= damaged hostdir.7/index.7.9 40

share # not looked at behind one that ends past the log
length index.7.9: long 80
length log.7.9: long 4
read index.7.9 0 80: bytes 0 5 0 11 9 4 3 5 11 9
= share

# What is missing is damage but for a log.

share
length index.7.9: absent
= damaged hostdir.7/index.7.9 0

share
length index.7.9: no-folder
= damaged hostdir.7/ 0

share
length index.7.9: long 80
length log.7.9: absent
read index.7.9 0 80: bytes 0 5 0 11 9 4 3 5 12 9
= share

share
length index.7.9: long 80
length log.7.9: no-folder
= damaged hostdir.7/ 0

share
length index.7.9: long 80
length log.7.9: long 8
read index.7.9 0 80: absent
= damaged hostdir.7/index.7.9 0

share
length index.7.9: long 80
length log.7.9: long 8
read index.7.9 0 80: fault
= fault

# A tail begins where its cover ends.

share 1
length index.7.9: long 80
length log.7.9: long 8
read index.7.9 40 40: bytes 4 3 5 12 9
= share 9:2 4+3

share 1
length index.7.9: long 79
length log.7.9: long 5
= share 9:1

share 1
length index.7.9: long 80
length log.7.9: long 4
= damaged hostdir.7/log.7.9 4

share 1
length index.7.9: long 39
= damaged hostdir.7/index.7.9 39

# Reads go on past the log and end early.

share # past the log too, all whole entries are read
length index.7.9: long 163919
length log.7.9: long 7
read index.7.9 0 163840: padded 163840 0 5 0 11 9 4 3 5 12 9
read index.7.9 163840 40: padded 40
= share 9:1 0+5

share # a Read that gives less is the last one
length index.7.9: long 163880
length log.7.9: long 7
read index.7.9 0 163840: padded 119 0 5 0 11 9 4 3 5 12 9
= share 9:1 0+5

# A packed index of two entries of 5 bytes is read in place of its dropping.

packed
length index2.7.9: long 88
read index2.7.9 0 24: bytes PLFSIDX2 2 1
read index2.7.9 24 64: bytes 0 5 5 2 0 11 1 9
= share 9:2 0+5 5+5

packed # another length than the number of runs says
length index2.7.9: long 87
read index2.7.9 0 24: bytes PLFSIDX2 2 1
= damaged hostdir.7/index2.7.9 16

packed # a run whose entries don't fit the number of entries
length index2.7.9: long 88
read index2.7.9 0 24: bytes PLFSIDX2 3 1
read index2.7.9 24 64: bytes 0 5 5 2 0 11 1 9
= damaged hostdir.7/index2.7.9 8

packed # a run with a stride past the greatest size
length index2.7.9: long 88
read index2.7.9 0 24: bytes PLFSIDX2 2 1
read index2.7.9 24 64: bytes 0 2199023255552 5 2 0 11 1 9
= damaged hostdir.7/index2.7.9 24

packed # another writer
length index2.7.9: long 88
read index2.7.9 0 24: bytes PLFSIDX2 2 1
read index2.7.9 24 64: bytes 0 5 5 2 0 11 1 8
= damaged hostdir.7/index2.7.9 24

# Truncates are listed by stamp.

truncates # by stamp, and at one stamp by size, while names are in the order of their bytes
list truncs: names 10.4 11.0 7.10 7.9 9.3
= truncates 7:9 7:10 9:3 10:4 11:0

truncates # the first foreign name is the damage
list truncs: names 10.4 9.03 x
= damaged truncs/9.03 0
";

#[test]
fn index_droppings_packed_indices_and_truncates_are_read(rt: HostRuntime) {
    all_hold(&rt, rt.alloc(), CASES)
}
