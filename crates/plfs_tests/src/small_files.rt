//! Small files that are packed into a container, read back and named.
use crate::playing::all_hold;

// A unit of `a` with the two bytes `hi` has 19 bytes, one of `b` with none 17. Region 1 begins at 4294967296.
const PACKED: &str = "\
## Files stand one behind the other, and are read back.
$ pack p 0: 0
a 6869
b -
= packed 2 end 36
$ unpack p a: 0 hi
$ unpack p b: 0
$ names p: 0
= names a,b
$ unpack p z: 1
= 0 refused no-file
$ pack p 0: 0
a 48
c 21
= packed 2 end 72
$ unpack p a: 0 H
$ names p: 0
= names a,b,c
$ pack p 1, at 5: 0
a 6f6c64
b 62
= packed 2 end 4294967334
$ unpack p a: 0 H
$ unpack p b: 0
$ pack p 2, at 20, unended: 0
b 6e6577
= packed 1 end 8589934612
$ unpack p b: 0 new
$ stat p: 0
= 0 stat 8589934612 130 by 4294967297:36,25769803777:36,38654705665:38,51539607553:20 trunc -
## An input of no files makes the container.
$ pack p 3: 0
= packed 0 end 12884901888
$ names p: 0
= names -
$ unpack p a: 1
= 0 refused no-file
$ names q: 1
= 0 refused no-file
$ unpack q a: 1
= 0 refused no-file
";

const BAD: &str = "\
## The first byte is that of no small file.
$ play: 0
actor a
a open f -> open 4294967297
a write 0 text:A -> wrote 0 1 10
a close -> closed 1
$ unpack f z: 7
= 0 damaged view 0
$ names f: 7
= 0 damaged view 0
$ pack f 0: 7
a -
= 0 damaged view 0
$ cat f: 0 A
$ pack f 1: 0
a -
= packed 1 end 4294967313
$ unpack f a: 7
= 0 damaged view 0
## Behind a unit stands a byte that counts once the eight bytes before it are no zeros.
$ pack f 0: 0
a 6869
= packed 1 end 19
$ play: 0
actor a
a open f -> open 8589934593
a write 27 hex:01 -> wrote 27 1 10
a close -> closed 1
$ unpack f a: 0 hi
$ play: 0
actor a
a open f -> open 17179869185
a write 19 hex:41 -> wrote 19 1 10
a close -> closed 1
$ unpack f a: 7
= 0 damaged view 19
";

const FAULTY: &str = "\
## The first fault of an input is said, and nothing is done.
$ pack p 0: 2
a 6869

= pack 2 spaces
$ pack p 0: 2
a  68
= pack 1 spaces
$ pack p 0: 2
a 68 69
= pack 1 count
$ pack p 0: 2
a
= pack 1 count
$ pack p 0: 2
.a 6
= pack 1 name
$ pack p 0: 2
a 68
b 6
= pack 2 data
$ pack p 0: 2
a 6A
.a 6
= pack 1 data
$ pack p 0: 2
{x*1048575}
= pack 1 count
$ pack p 0: 2
{x*1048576}
= pack 0 long
$ bytes: 1048577
$ pack p 0, source-fault 0: 5
a 6869
$ usage pack p
$ usage pack p 256
$ usage pack p 0 0
$ usage unpack p
$ usage names
$ acts: 0
## The sink fails, and the files are packed all the same.
$ pack p 0, sink-fault 0: 6
a 6869
$ unpack p a: 0 hi
## The store fails.
$ faults 10 0
$ pack p 0: 4
a 6869
= 0 fault
";

#[test]
fn small_files_are_packed_and_read(rt: HostRuntime) {
    all_hold(&rt, rt.alloc(), &[("", PACKED), ("", BAD), ("", FAULTY)])
}
