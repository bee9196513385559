//! Containers whose closed writers are packed.
use crate::playing::all_hold;

// The packed index of the first writer of `gen 2` is one run of its 32 entries.
const MIGRATED: &str = "\
## A checkpoint is told and read as before, also beside writers that are not packed.
$ gen 2: 0
= lines 134
= refused 0
= faults 0
= damaged 0
= same 64
= differs 0
= size 3008512
$ stat gen2: 0
= 0 stat 3008512 3008512 by 4294967297:1504256,4294967298:1504256 trunc -
$ migrate gen2: 0
= migrated 2 64 2 left 0
$ has 1 hostdir.0/index2.0.4294967297: PLFSIDX2 32 1 0 94016 47008 32 0 10 1 4294967297
$ migrate gen2: 0
= migrated 0 0 0 left 0
$ stat gen2: 0
= 0 stat 3008512 3008512 by 4294967297:1504256,4294967298:1504256 trunc -
$ gen 2: 0
= lines 134
= refused 0
= faults 0
= damaged 0
= same 64
= differs 0
= size 3008512
## A writer that is open, or was left open, is packed once a recovery has closed it.
$ play: 0
actor a
actor b 1
actor c 2
a open f -> open 4294967297
a write 0 text:AA -> wrote 0 2 10
a write 4 text:BB -> wrote 4 2 11
a write 8 text:CC -> wrote 8 2 12
a close -> closed 3
b open f -> open 4294967298
b write 2 text:D -> wrote 2 1 10
b write 7 text:E -> wrote 7 1 11
b write 6 text:F -> wrote 6 1 12
b close -> closed 3
c open f -> open 4294967299
c write 3 text:G -> wrote 3 1 10
c sync -> synced 1
$ map f: 0
= 0 map 0+2=10.4294967297@0 2+1=10.4294967298@0 3+1=10.4294967299@0 4+2=11.4294967297@2 6+1=12.4294967298@2 7+1=11.4294967298@1 8+2=12.4294967297@4
$ migrate f: 0
= migrated 2 6 3 left 0
$ map f: 0
= 0 map 0+2=10.4294967297@0 2+1=10.4294967298@0 3+1=10.4294967299@0 4+2=11.4294967297@2 6+1=12.4294967298@2 7+1=11.4294967298@1 8+2=12.4294967297@4
$ cat f: 0 AADGBBFECC
$ recover f: 0
= 0 recovered 4294967299:1 alive - hold no
$ migrate f: 0
= migrated 1 1 1 left 0
$ migrate f: 0
= migrated 0 0 0 left 0
$ map f: 0
= 0 map 0+2=10.4294967297@0 2+1=10.4294967298@0 3+1=10.4294967299@0 4+2=11.4294967297@2 6+1=12.4294967298@2 7+1=11.4294967298@1 8+2=12.4294967297@4
$ cat f: 0 AADGBBFECC
## There is no such file, and one of no writers.
$ migrate f: 1
= 0 refused no-file
$ play: 0
actor a
a open f -> open 8589934593
a close -> closed 0
$ migrate f: 0
= migrated 0 0 0 left 0
## The mounting broke off.
$ faults 1 0
$ migrate f: 4
= 0 fault
## The packed index is put, of which 10 bytes are left, and a later run makes another one.
$ faults 25 10
$ play: 0
actor a
a open f -> open 4294967297
a write 0 text:hello -> wrote 0 5 10
a close -> closed 1
$ migrate f: 4
= 0 fault
$ migrate f: 0
= migrated 1 1 1 left 0
$ cat f: 0 hello
## A damaged entry ends it.
$ play: 0
actor a
a open f -> open 4294967297
a write 0 text:hello -> wrote 0 5 10
a close -> closed 1
$ put 1 hostdir.0/index.0.4294967297 0: 0 0 0 0 0
$ migrate f: 7
= 0 damaged hostdir.0/index.0.4294967297 0
";

#[test]
fn migrated_containers_are_read_as_before(rt: HostRuntime) {
    all_hold(&rt, rt.alloc(), &[("", MIGRATED)])
}
