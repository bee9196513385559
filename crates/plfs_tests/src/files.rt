//! Statements on whole files, with their lines.
use crate::playing::all_hold;

const FILES: &str = "\
## A truncate hides what was written before it, a further one upward shows zeros, and later writes come after both.
$ play, at 100 1: 0
actor a
a open f -> open 4294967297
a write 0 text:ABCDEF -> wrote 0 6 100
a close -> closed 1
a trunc f 2 -> truncated 101
a trunc f 4 -> truncated 102
a ropen f -> reader 4 cut 4294967297:1 trunc 101:2,102:4
a read 0 9 -> read 0 41420000
a rclose -> rclosed
a open f -> open 4294967300
a write 3 text:Z -> wrote 3 1 103
a close -> closed 1
a ropen f -> reader 4 cut 4294967297:1,4294967300:1 trunc 101:2,102:4
a read 0 9 -> read 0 4142005a
## A truncate is busy where a writer is open.
$ play, at 10 20: 1
actor a
actor b
a open f -> open 4294967297
a write 0 text:AB -> wrote 0 2 10
b trunc f 1 -> refused busy 0 4294967297
a close -> closed 1
b trunc f 1 -> truncated 20
## Of several writers it names the least by its bytes.
$ play: 1
actor a 9
actor b 10
actor c
a open f -> open 4294967297
b open f -> open 4294967298
c trunc f 0 -> refused busy 10 4294967298
c rename f g -> refused busy 10 4294967298
## No writer enters what a truncate holds.
$ play, at 30: 1
actor t
actor w
w open f -> open 4294967297
w close -> closed 0
phase
turn t 2
turn w 2
t trunc f 0 -> truncated 30
w open f -> refused held
w open f -> open 4294967300
## What a stop left torn is mended, and the dead writer is buried.
$ play: 1
actor a
actor b
a open f -> open 4294967297
a write 0 text:A -> wrote 0 1 10
a write 1 text:B -> wrote 1 1 11
a write 2 text:C -> wrote 2 1 12
a stop 2 85 -> armed
a sync -> stopped
a close -> gone
b ropen f -> reader 2 cut 4294967297:2 trunc -
b read 0 9 -> read 0 4142
b trunc f 0 -> refused busy 0 4294967297
b recover f -> recovered 4294967297:2 alive - hold no
b trunc f 0 -> truncated 12
## A rename disturbs no open reader, and takes no name that is taken.
$ play: 1
actor a
actor b
a open f -> open 4294967297
a write 0 text:hi -> wrote 0 2 10
a close -> closed 1
a open h -> open 4294967298
a close -> closed 0
b ropen f -> reader 2 cut 4294967297:1 trunc -
a rename f g -> renamed
b read 0 2 -> read 0 6869
b rclose -> rclosed
b ropen f -> refused no-file
b ropen g -> reader 2 cut 4294967297:1 trunc -
a rename g h -> refused exists
a rename g g -> refused exists
a ls -> ls g,h
## A writer that enters a container which is renamed stays in it.
$ play: 0
actor a
actor b
a open f -> open 4294967297
a close -> closed 0
phase
turn a 1
turn b 9
a open f -> open 4294967299
a write 0 text:A -> wrote 0 1 10
a close -> closed 1
b rename f g -> renamed
phase
b ls -> ls g
b ropen g -> reader 1 cut 4294967299:1 trunc -
b read 0 9 -> read 0 41
## What is told of a file is cached where no writer is open, and else merged.
$ play: 0
actor a
actor b
a open f -> open 4294967297
a write 0 text:ABCDEF -> wrote 0 6 10
b stat f -> stat 0 0 by - trunc -
a sync -> synced 1
b stat f -> stat 6 6 by 4294967297:6 trunc -
a close -> closed 1
b trunc f 2 -> truncated 11
b stat f -> stat 2 6 by 4294967297:6 trunc 11:2
## A live writer is named and not buried.
$ play: 1
actor a
actor b
a open f -> open 4294967297
a write 0 text:AB -> wrote 0 2 10
b recover f -> recovered - alive 4294967297 hold no
b trunc f 1 -> refused busy 0 4294967297
## Who stopped while it held a container leaves it held until a recovery.
$ play: 1
actor a
actor b
a open f -> open 4294967297
a close -> closed 0
b stop 3 0 -> armed
b trunc f 0 -> stopped
a open f -> refused held
a recover f -> recovered - alive - hold yes
a open f -> open 4294967300
## What a flattening covers and what landed after it are one file, whose pieces are as they would be without it.
$ play: 0
actor a
actor b
a open f -> open 4294967297
a write 0 text:AAAA -> wrote 0 4 10
a sync -> synced 1
b flatten f -> flattened 4294967298 1 cut 4294967297:1
a write 1 text:BB -> wrote 1 2 11
a sync -> synced 2
b ropen f -> reader 4 cut 4294967297:2 trunc -
b read 0 9 -> read 0 41424241
b map -> map 0+1=10.4294967297@0 1+2=11.4294967297@4 3+1=10.4294967297@3
## A flattened index has the pieces that a truncate hides, and no writer without entries.
$ play: 1
actor a
actor b
b flatten f -> refused no-file
a open f -> open 4294967297
a write 0 text:AAAA -> wrote 0 4 10
a close -> closed 1
b trunc f 2 -> truncated 11
a open f -> open 4294967299
b flatten f -> flattened 4294967300 1 cut 4294967297:1
b ropen f -> reader 2 cut 4294967297:1 trunc 11:2
b read 0 9 -> read 0 4141
## A second flattening covers what was synced since the first.
$ play: 0
actor a
actor b
a open f -> open 4294967297
a write 0 text:AAAA -> wrote 0 4 10
a sync -> synced 1
b flatten f -> flattened 4294967298 1 cut 4294967297:1
a write 1 text:BB -> wrote 1 2 11
a sync -> synced 2
b flatten f -> flattened 4294967299 3 cut 4294967297:2
b ropen f -> reader 4 cut 4294967297:2 trunc -
b read 0 9 -> read 0 41424241
b map -> map 0+1=10.4294967297@0 1+2=11.4294967297@4 3+1=10.4294967297@3
## A recovery changes nothing that an open reader sees.
$ play: 0
actor a
actor b
actor c
a open f -> open 4294967297
a write 0 text:AB -> wrote 0 2 10
a write 2 text:C -> wrote 2 1 11
a stop 2 41 -> armed
a sync -> stopped
b ropen f -> reader 2 cut 4294967297:1 trunc -
b read 0 9 -> read 0 4142
c recover f -> recovered 4294967297:1 alive - hold no
b read 0 9 -> read 0 4142
## There is no file, or no such size.
$ play: 1
actor a
a stat f -> refused no-file
a trunc f 0 -> refused no-file
a rename f g -> refused no-file
a recover f -> refused no-file
a ls -> ls -
a open f -> open 4294967297
a close -> closed 0
a trunc f 1099511627777 -> refused too-far
a trunc f 1099511627776 -> truncated 10
a stat f -> stat 1099511627776 0 by - trunc 10:1099511627776
a ls -> ls f
";

#[test]
fn files_are_cut_renamed_told_of_and_recovered_also_over_three_stores(rt: HostRuntime) {
    all_hold(&rt, rt.alloc(), &[("", FILES), ("$ three\n", FILES)])
}
