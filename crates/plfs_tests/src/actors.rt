//! Scripts of several actors, with written turns and stops.

// Writers overlap.
pub(crate) const OVERLAPS: &str = "\
## The later stamp wins.
$ play, at 10 11: 0
actor w1
actor w2
w1 open f -> open 4294967297
w2 open f -> open 4294967298
w1 write 0 text:AAAA -> wrote 0 4 10
w2 write 1 text:BB -> wrote 1 2 11
w1 close -> closed 1
w2 close -> closed 1
w1 ropen f 2 -> reader 4 cut 4294967297:1,4294967298:1 trunc -
w1 read 0 4 -> read 0 41424241
w1 map -> map 0+1=10.4294967297@0 1+2=11.4294967298@0 3+1=10.4294967297@3
## At one stamp the greater id wins.
$ play: 0
actor w1
actor w2
w1 open f -> open 4294967297
w2 open f -> open 4294967298
w1 write 0 text:AAAA -> wrote 0 4 10
w2 write 1 text:BB -> wrote 1 2 10
w1 close -> closed 1
w2 close -> closed 1
w1 ropen f 2 -> reader 4 cut 4294967297:1,4294967298:1 trunc -
w1 read 0 4 -> read 0 41424241
w1 map -> map 0+1=10.4294967297@0 1+2=10.4294967298@0 3+1=10.4294967297@3
## The same, where the other actor entered first.
$ play: 0
actor w1
actor w2
w2 open f -> open 4294967297
w1 open f -> open 4294967298
w1 write 0 text:AAAA -> wrote 0 4 10
w2 write 1 text:BB -> wrote 1 2 10
w1 close -> closed 1
w2 close -> closed 1
w1 ropen f 2 -> reader 4 cut 4294967297:1,4294967298:1 trunc -
w1 read 0 4 -> read 0 41414141
w1 map -> map 0+4=10.4294967298@0
## The smaller id wins by its stamp.
$ play, at 20 10: 0
actor w1
actor w2
w1 open f -> open 4294967297
w2 open f -> open 4294967298
w1 write 0 text:AAAA -> wrote 0 4 20
w2 write 1 text:BB -> wrote 1 2 10
w1 close -> closed 1
w2 close -> closed 1
w1 ropen f 2 -> reader 4 cut 4294967297:1,4294967298:1 trunc -
w1 read 0 4 -> read 0 41414141
w1 map -> map 0+4=20.4294967297@0
";

// Turns are taken as they are written.
pub(crate) const TURNS: &str = "\
## Each turn is one call, after what needs none; a greeting takes no turn; what is left is carried on as it is written.
$ play: 0
actor a
actor b
a open f -> open 4294967297
b ropen f -> reader 0 cut - trunc -
b read 0 1 -> read 0 -
turn a 1
turn b 3
## A sync between two phases is seen, and one that waits for its turn is not.
$ play: 0
actor a
actor b
a open f -> open 4294967297
a write 0 text:A -> wrote 0 1 10
phase
a sync -> synced 1
b ropen f -> reader 0 cut - trunc -
b read 0 1 -> read 0 -
turn b 9
## An actor without a statement takes no turn, however many are written.
$ play: 1
actor a
actor b
a sync -> refused not-open
turn b 4294967295
turn a 4294967295
## Actors of hosts and capacities of their own: a full buffer is flushed, and no more is seen.
$ play: 0
actor a 33 2
actor b
a open f -> open 4294967297
a write 0 text:A -> wrote 0 1 10
a write 1 text:B -> wrote 1 1 11
a write 2 text:C -> wrote 2 1 12
b ropen f -> reader 2 cut 4294967297:2 trunc -
b read 0 9 -> read 0 4142
## A file ends at 2^40, and a write that is refused takes no stamp.
$ play: 1
actor a
a open f -> open 4294967297
a write 1099511627772 text:ABCD -> wrote 1099511627772 4 10
a write 1099511627773 text:ABCD -> refused too-far
a write 0 text:Z -> wrote 0 1 11
## Data that is told by its length, and comparisons with it.
$ play: 1
actor a
a open f -> open 4294967297
a write 3 fill:2:90 -> wrote 3 2 10
a write 1099511627772 ramp:4:254 -> wrote 1099511627772 4 11
a write 1099511627773 text:ABCD -> refused too-far
a close -> closed 2
a ropen f 16 -> reader 1099511627776 cut 4294967297:2 trunc -
a read 0 9 -> read 0 0000005a5a00000000
a verify 3 text:ZZ -> same
a verify 3 fill:3:90 -> differs 5
a verify 1099511627772 hex:feff0001 -> same
a verify 1099511627775 ramp:2:1 -> differs 1099511627776
a verify 7 text: -> same
a rclose -> rclosed
a read 0 1 -> refused not-open
";

// Stopped actors make no further call.
pub(crate) const STOPS: &str = "\
## Within a flush of three entries after 85 bytes: two of them have landed, and the writer never closes.
$ play: 0
actor a
actor b
a open f -> open 4294967297
a write 0 text:A -> wrote 0 1 10
a write 1 text:B -> wrote 1 1 11
a write 2 text:C -> wrote 2 1 12
a stop 2 85 -> armed
a sync -> stopped
a close -> gone
b ropen f -> reader 2 cut 4294967297:2 trunc -
b read 0 9 -> read 0 4142
## A stop past the statement's last call is dropped.
$ play: 0
actor a
a open f -> open 4294967297
a stop 2 0 -> armed
a write 0 text:A -> wrote 0 1 10
a sync -> synced 1
## Within the write's one call.
$ play: 0
actor a
actor b
a open f -> open 4294967297
a stop 1 1 -> armed
a write 0 text:AB -> stopped
a write 0 text:C -> gone
b ropen f -> reader 0 cut - trunc -
";
