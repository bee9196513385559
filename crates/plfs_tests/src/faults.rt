//! Scripts of which each act of the store faults in turn, or whose actor stops in each of its calls, and what a recovery
//! makes of what they left.
use crate::playing::all_hold;
use crate::spelling::parts;
use std::str;
use test_lines::Line;

// The acts of the script.
const ACTS: u64 = 54;

// A writer that stops in a flush, a reader beside it, and its recovery; then another recovery, and what is told of the
// file. None tells of damage, and of the script any other status may come.
const FAULTY: &str = "\
## The act % faults and leaves % bytes.
$ faults % %
$ play: 0123456 ..
actor a
actor b
a open f
a write 0 text:A
a write 1 text:B
a write 2 text:C
a stop 2 85
a sync
a close
b ropen f
b read 0 9
b refresh
b read 0 9
b trunc f 0
b recover f
b refresh
b trunc f 0
$ recover f: 01 ..
$ stat f: 01 ..
";

#[test]
fn no_fault_leaves_damage(rt: HostRuntime) {
    let mut table = Line::new(rt.alloc());
    for act in 0..ACTS {
        for part in [0, 20] {
            table.fill(FAULTY, &[act, part, act, part]);
        }
    }
    all_hold(&rt, rt.alloc(), &[("", table.as_str())]);
    drop(table);
}

/// Whether these are the lines of a script whose actor has stopped: nothing is busy once it was recovered; and a reader that
/// was opened before that reads the same bytes before and after it, or there was no file to open.
pub(crate) fn is_recovered(lines: &[u8]) -> bool {
    let lines = str::from_utf8(lines).unwrap_or("");
    let before = parts(parts(lines, "\n11 ").1, "\n12 ").0;
    let after = parts(parts(lines, "\n13 ").1, "\n14 ").0;
    !before.is_empty() && before == after && lines.contains(" stopped\n") && !lines.contains("busy")
}

// The actor stops in a call of its opening, of a sync of three entries, and of its close. Beside each stands the number of
// those calls.
const STOPPING: [(&str, u64); 3] = [
    (
        "\
## The actor stops in the call % of its opening, after % bytes.
$ play: 01 ..
actor a
actor b
a stop % %
a open f
a write 0 text:A
a write 1 text:B
a write 2 text:C
a sync
a close
b ropen f
b read 0 9
b recover f
b read 0 9
b trunc f 0
$ buried: yes
",
        6,
    ),
    (
        "\
## The actor stops in the call % of its sync, after % bytes.
$ play: 01 ..
actor a
actor b
a open f
a write 0 text:A
a write 1 text:B
a write 2 text:C
a stop % %
a sync
a close
b ropen f
b read 0 9
b recover f
b read 0 9
b trunc f 0
$ buried: yes
",
        3,
    ),
    (
        "\
## The actor stops in the call % of its close, after % bytes.
$ play: 01 ..
actor a
actor b
a open f
a write 0 text:A
a write 1 text:B
a write 2 text:C
a sync
a stop % %
a close
b ropen f
b read 0 9
b recover f
b read 0 9
b trunc f 0
$ buried: yes
",
        4,
    ),
];

#[test]
fn whoever_stopped_is_buried_by_a_recovery(rt: HostRuntime) {
    let mut table = Line::new(rt.alloc());
    for (session, calls) in &STOPPING {
        for call in 1..=*calls {
            for bytes in [0, 1, 41, 120] {
                table.fill(session, &[call, bytes, call, bytes]);
            }
        }
    }
    all_hold(&rt, rt.alloc(), &[("", table.as_str())]);
    drop(table);
}
