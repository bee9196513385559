//! Mountings over a store in memory with these marks: each draws the mark behind the greatest, or tells why not.

pub(crate) const MARKS: &str = "\
$ room 0 .plfs
$ folder 0 mounts
$ file 0 mounts/1
";

pub(crate) const MARKED: &str = "\
## The next number is one more than the greatest.
$ play: 0
actor a
a open f -> open 8589934593
## Two marks.
$ file 0 mounts/41
$ play: 0
actor a
a open f -> open 180388626433
## The last number but one.
$ file 0 mounts/4294967294
$ play: 0
actor a
a open f -> open 18446744069414584321
## The last mark leaves no number.
$ file 0 mounts/4294967295
$ play: 1
actor a
a open f
= 0 refused mounts-spent
## A name that is no mark is damage.
$ file 0 mounts/x
$ play: 7
actor a
a open f
= 0 damaged mounts/x 0
## So is a 0.
$ file 0 mounts/0
$ play: 7
actor a
a open f
= 0 damaged mounts/0 0
## So is a number with a 0 before it.
$ file 0 mounts/01
$ play: 7
actor a
a open f
= 0 damaged mounts/01 0
## So is one with a sign.
$ file 0 mounts/+2
$ play: 7
actor a
a open f
= 0 damaged mounts/%2B2 0
## So is one that is too great.
$ file 0 mounts/4294967296
$ play: 7
actor a
a open f
= 0 damaged mounts/4294967296 0
";

pub(crate) const UNMARKED: &str = "\
## A room of marks without its folder is damaged.
$ room 0 .plfs
$ play: 7
actor a
a open f
= 0 damaged mounts/ 0
";
