//! Containers that were changed from outside, and marks of mountings.
use crate::marks::{MARKED, MARKS, UNMARKED};
use crate::playing::all_hold;

// The container that is changed.
const MADE: &str = "\
$ play: 0
actor a
a open f -> open 4294967297
a write 0 text:hello -> wrote 0 5 10
a sync -> synced 1
a close -> closed 1
";

// An index entry is five numbers: here 5 bytes at 0, which stand at 0 in the log, of the stamp 10. Before those a
// flattened index of one entry has how many covers and pieces there are, and the cover: the writer, its entries, its bytes
// and the last stamp.
const CHANGED: &str = "\
## A file of another name stands in a host's folder.
$ file 1 hostdir.0/junk
$ play: 7
actor a
a ropen f -> damaged hostdir.0/junk 0
a read 0 5 -> refused not-open
## So it does among the truncates.
$ file 1 truncs/01.5
$ play: 7
actor a
a ropen f -> damaged truncs/01.5 0
a read 0 5 -> refused not-open
## There is no folder of truncates.
$ no-folder 1 truncs
$ play: 7
actor a
a ropen f -> damaged truncs/ 0
a read 0 5 -> refused not-open
## Its one entry stands twice.
$ put 1 hostdir.0/index.0.4294967297 40: 0 5 0 10 4294967297
$ play: 7
actor a
a ropen f -> damaged hostdir.0/index.0.4294967297 40
a read 0 5 -> refused not-open
## Its one entry has no stamp.
$ put 1 hostdir.0/index.0.4294967297 0: 0 0 0 0 0
$ play: 7
actor a
a ropen f -> damaged hostdir.0/index.0.4294967297 0
a read 0 5 -> refused not-open
## A second index of the writer.
$ folder 1 hostdir.1
$ file 1 hostdir.1/index.1.4294967297
$ play: 7
actor a
a ropen f -> damaged hostdir.1/index.1.4294967297 0
a read 0 5 -> refused not-open
## What is torn is not there.
$ cut 1 hostdir.0/index.0.4294967297 39
$ play: 0
actor a
a ropen f -> reader 0 cut - trunc -
a read 0 5 -> read 0 -
## Nor is what its log does not hold.
$ cut 1 hostdir.0/log.0.4294967297 4
$ play: 0
actor a
a ropen f -> reader 0 cut - trunc -
a read 0 5 -> read 0 -
## A flattened index is shorter than its head.
$ file 1 flats/5
$ put 1 flats/5 0: 0 0 0
$ cut 1 flats/5 23
$ play: 7
actor a
a ropen f -> damaged flats/5 0
a read 0 5 -> refused not-open
## A flattened index covers an entry that is gone.
$ file 1 flats/4294967298
$ put 1 flats/4294967298 0: PLFSFLT1 1 1 4294967297 1 4 10 0 4 0 10 4294967297
$ cut 1 hostdir.0/index.0.4294967297 39
$ play: 7
actor a
a ropen f -> damaged hostdir.0/index.0.4294967297 39
a read 0 5 -> refused not-open
## It covers a writer that is gone.
$ file 1 flats/4294967298
$ put 1 flats/4294967298 0: PLFSFLT1 1 1 4294967297 1 4 10 0 4 0 10 4294967297
$ no-file 1 hostdir.0/index.0.4294967297
$ play: 7
actor a
a ropen f -> damaged flats/4294967298 24
a read 0 5 -> refused not-open
## There is no stamp above that of a truncate.
$ file 1 truncs/9223372036854775807.0
$ play: 1
actor a
a open f -> open 8589934593
a write 0 text:A -> refused stamps-spent
a close -> closed 0
a trunc f 5 -> refused stamps-spent
";

#[test]
fn changed_containers_and_marks_show_where(rt: HostRuntime) {
    all_hold(
        &rt,
        rt.alloc(),
        &[
            // containers
            (MADE, CHANGED),
            // marks of mountings
            (MARKS, MARKED),
            ("", UNMARKED),
        ],
    )
}
