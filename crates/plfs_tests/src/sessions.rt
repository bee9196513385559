//! Runs one after the other over one store.
use crate::losses::LOST;
use crate::playing::all_hold;

const HELLO: &str = "\
$ play: 0
actor a
a open f -> open 4294967297
a write 0 text:hello -> wrote 0 5 10
a sync -> synced 1
a close -> closed 1
a ropen f -> reader 5 cut 4294967297:1 trunc -
a read 0 5 -> read 0 68656c6c6f
";

// Commands are statements of their own, and see what earlier runs have left.
const AFTER_HELLO: &str = "\
## A second run sees the first, and has ids of its own.
$ play: 0
actor a
a open f -> open 8589934593
a write 5 text:! -> wrote 5 1 10
a close -> closed 1
a ropen f -> reader 6 cut 4294967297:1,8589934593:1 trunc -
a read 0 9 -> read 0 68656c6c6f21
## Commands are runs of one statement.
$ map f: 0
= 0 map 0+5=10.4294967297@0
$ map g: 1
= 0 refused no-file
$ cat f: 0 hello
$ cat g: 1
= 0 refused no-file
$ stat f: 0
= 0 stat 5 5 by 4294967297:5 trunc -
$ trunc f 2: 0
= 0 truncated 11
$ cat f: 0 he
$ rename f g: 0
= 0 renamed
$ rename f h: 1
= 0 refused no-file
$ recover g: 0
= 0 recovered - alive - hold no
$ flatten f: 1
= 0 refused no-file
$ stat g: 0
= 0 stat 2 5 by 4294967297:5 trunc 11:2
$ ls: 0
= 0 ls g
## A file is flattened, cut and renamed.
$ map f: 0
= 0 map 0+5=10.4294967297@0
$ flatten f: 0
= 0 flattened 12884901889 1 cut 4294967297:1
$ trunc f 2: 0
= 0 truncated 11
$ rename f g: 0
= 0 renamed
$ ls: 0
= 0 ls g
$ recover g: 0
= 0 recovered - alive - hold no
$ map g: 0
= 0 map 0+2=10.4294967297@0
";

const FOLLOWING: &str = "\
## The flush of two entries faults and leaves one of them and a byte: the torn one is not counted.
$ faults 12 41
$ play: 4
actor a
a open f -> open 4294967297
a write 0 text:A -> wrote 0 1 10
a write 1 text:B -> wrote 1 1 11
a sync -> fault
$ play: 0
actor a
a ropen f -> reader 1 cut 4294967297:1 trunc -
a read 0 9 -> read 0 41
## It faults after one of them, and the script goes on and tries it again.
$ faults 12 40
$ play: 4
actor a
a open f -> open 4294967297
a write 0 text:A -> wrote 0 1 10
a write 1 text:B -> wrote 1 1 11
a sync -> fault
a sync -> synced 2
a ropen f -> reader 2 cut 4294967297:2 trunc -
a read 0 9 -> read 0 4142
## A run that ends leaves its open writer as it is, until a recovery buries it.
$ play: 0
actor a
a open f -> open 4294967297
a write 0 text:AB -> wrote 0 2 10
a sync -> synced 1
a write 2 text:C -> wrote 2 1 11
$ trunc f 0: 1
= 0 refused busy 0 4294967297
$ stat f: 0
= 0 stat 2 2 by 4294967297:2 trunc -
$ recover f: 0
= 0 recovered 4294967297:1 alive - hold no
$ trunc f 0: 0
= 0 truncated 11
$ cat f: 0
";

const GENERATED: &str = "\
## The mounting broke off.
$ faults 1 0
$ gen 2: 4
= 0 fault
## A second checkpoint is written over the first one.
$ gen 2: 0
= lines 134
= refused 0
= faults 0
= damaged 0
= same 64
= differs 0
= size 3008512
$ gen 2: 0
= lines 134
= refused 0
= faults 0
= damaged 0
= same 64
= differs 0
= size 3008512
$ stat gen2: 0
= 0 stat 3008512 6017024 by 4294967297:1504256,4294967298:1504256,8589934593:1504256,8589934594:1504256 trunc -
";

const LEFT: &str = "\
## A recovery cuts a torn index to its whole entries, and leaves the log.
$ play: 0
actor a
actor b
a open f -> open 4294967297
a write 0 text:A -> wrote 0 1 10
a write 1 text:B -> wrote 1 1 11
a write 2 text:C -> wrote 2 1 12
a stop 2 85 -> armed
a sync -> stopped
b recover f -> recovered 4294967297:2 alive - hold no
$ has 1 hostdir.0/index.0.4294967297: 0 1 0 10 4294967297 1 1 1 11 4294967297
$ has 1 hostdir.0/log.0.4294967297: ABC
$ has 1 metadata/2.2.11.0.4294967297:
## A flattening writes one index, and a second one leaves it as it was.
$ play: 0
actor a
actor b
a open f -> open 4294967297
a write 0 text:AAAA -> wrote 0 4 10
a sync -> synced 1
b flatten f -> flattened 4294967298 1 cut 4294967297:1
a write 1 text:BB -> wrote 1 2 11
a sync -> synced 2
b flatten f -> flattened 4294967299 3 cut 4294967297:2
$ has 1 flats/4294967298: PLFSFLT1 1 1 4294967297 1 4 10 0 4 0 10 4294967297
$ has 1 flats/4294967299: PLFSFLT1 1 3 4294967297 2 6 11 0 1 0 10 4294967297 1 2 4 11 4294967297 3 1 3 10 4294967297
";

// The containers lie in stores by their names, and a later run finds them all.
const CHECKPOINT: &str = "\
## A checkpoint over three stores is found again.
$ gen 64: 0
= lines 4226
= refused 0
= faults 0
= damaged 0
= same 2048
= differs 0
= size 96272384
$ play: 0
actor a
a open f -> open 8589934593
a close -> closed 0
a open g -> open 8589934594
a close -> closed 0
a open h -> open 8589934595
a close -> closed 0
$ ls: 0
= 0 ls f,g,gen64,h
";

#[test]
fn runs_follow_each_other_and_leave_these_files(rt: HostRuntime) {
    all_hold(
        &rt,
        rt.alloc(),
        &[
            (HELLO, AFTER_HELLO),
            ("", FOLLOWING),
            // after a loss of power
            ("", LOST),
            // generated checkpoints are read back whole
            ("", GENERATED),
            ("$ three\n", CHECKPOINT),
            // statements leave these files
            ("", LEFT),
        ],
    )
}
