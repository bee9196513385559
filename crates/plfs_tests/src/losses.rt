//! Runs after a loss of power.
use crate::playing::all_hold;
use test_lines::Line;

// One entry is synced, a second one is flushed, and the third waits. The second entry stays, and of its log no byte that
// wasn't synced.
pub(crate) const LOST: &str = "\
## A loss leaves what was synced.
$ play: 0
actor a 0 1
a open f -> open 4294967297
a write 0 text:A -> wrote 0 1 10
a sync -> synced 1
a write 1 text:B -> wrote 1 1 11
a write 2 text:C -> wrote 2 1 12
$ loss 1 hostdir.0/index.0.4294967297 40
$ play: 0
actor b
b ropen f -> reader 1 cut 4294967297:1 trunc -
b read 0 9 -> read 0 41
b recover f -> recovered 4294967297:1 alive - hold no
b stat f -> stat 1 1 by 4294967297:1 trunc -
";

// Three acts of the mounting, six to open, one to write, three to sync, four to close, and nine of the reader.
const ACTS: u64 = 26;

const OFF: &str = "\
## The power is lost in the act %, and the file is recovered.
$ off % 1
$ play: 01234567 ..
actor a
a open f
a write 0 text:hello
a sync
a close
a ropen f
a read 0 5
$ loss
$ recover f: 01 ..
";

#[test]
fn no_loss_leaves_damage(rt: HostRuntime) {
    let mut table = Line::new(rt.alloc());
    for act in 0..ACTS {
        table.fill(OFF, &[act, act]);
    }
    all_hold(&rt, rt.alloc(), &[("", table.as_str())]);
    drop(table);
}
