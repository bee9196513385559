//! One line of each outcome and of each refusal.
use crate::lines::named;
use plfs_types::{Trunc, WriterCount};
use report_text::{ReportTrouble, print, read};
use script_lang::{Outcome, Why};
use std::alloc::Global;
use std::test::Fail;
use test_lines::Line;

const TEXT: &str = "\
0 open 4294967297
1 wrote 0 5 7
2 wrote 3 0 -
3 synced 1
4 closed 2
5 reader 10 cut 1:2,3:4 trunc 5:6
6 read 0 6869c3bf
7 read 5 -
8 same
9 differs 3
10 map 0+5=7.1@0 5+2=9.2@8
11 map -
12 rclosed
13 stat 10 340282366920938463463374607431768211455 by 1:2 trunc -
14 truncated 9
15 renamed
16 flattened 3 2 cut 1:1
17 recovered 1:0 alive - hold no
18 recovered - alive 2,3 hold yes
19 ls a.b
20 ls -
21 armed
22 stopped
23 gone
24 fault
25 damaged hostdir.1/a%2Fb%20%7F 40
26 damaged access 0
0 refused no-file
1 refused held
2 refused busy 4294967295 18446744073709551615
3 refused exists
4 refused too-far
5 refused stamps-spent
6 refused ids-spent
7 refused not-open
8 refused already-open
9 refused mounts-spent
";

// What the lines of the text mean.
const MEANING: &str = "\
0: Opened, writer 4294967297
1: Wrote, at 0, len 5, stamp 7
2: Wrote, at 3, len 0, no stamp
3: Synced, landed 1
4: Closed, landed 2
5: Reader, size 10, writer 1 count 2, writer 3 count 4, stamp 5 size 6
6: Read, at 0, byte 104, byte 105, byte 195, byte 191
7: Read, at 5
8: Same
9: Differs, place 3
10: Map, at 0 len 5 physical 0 stamp 7 writer 1, at 5 len 2 physical 8 stamp 9 writer 2
11: Map
12: ReaderClosed
13: Stat, size 10, stored most, writer 1 bytes 2
14: Truncated, stamp 9
15: Renamed
16: Flattened, flat 3, pieces 2, writer 1 count 1
17: Recovered, writer 1 count 0, hold 0
18: Recovered, writer 2, writer 3, hold 1
19: Listed, name a.b
20: Listed
21: Armed
22: Stopped
23: Gone
24: Fault
25: Damaged, folder hostdir.1, file a/b \u{7f}, place 40
26: Damaged, folder , file access, place 0
0: Refused, NoFile
1: Refused, Held
2: Refused, Busy, host 4294967295, writer 18446744073709551615
3: Refused, Exists
4: Refused, TooFar
5: Refused, StampsSpent
6: Refused, IdsSpent
7: Refused, NotOpen
8: Refused, AlreadyOpen
9: Refused, MountsSpent
";

fn counts(line: &mut Line, of: &[WriterCount]) {
    for item in of {
        line.fill(", writer % count %", &[item.writer, item.count]);
    }
}

fn truncs(line: &mut Line, of: &[Trunc]) {
    for item in of {
        line.fill(", stamp % size %", &[item.stamp, item.size]);
    }
}

fn why(line: &mut Line, why: Why) {
    match why {
        Why::NoFile => line.push("NoFile"),
        Why::Held => line.push("Held"),
        Why::Busy { host, writer } => line.fill(
            "Busy, host %, writer %",
            &[u64::from(host), writer],
        ),
        Why::Exists => line.push("Exists"),
        Why::TooFar => line.push("TooFar"),
        Why::StampsSpent => line.push("StampsSpent"),
        Why::IdsSpent => line.push("IdsSpent"),
        Why::NotOpen => line.push("NotOpen"),
        Why::AlreadyOpen => line.push("AlreadyOpen"),
        Why::MountsSpent => line.push("MountsSpent"),
    }
}

// The outcomes of what concerns a container.
fn of_containers(line: &mut Line, outcome: &Outcome) {
    match outcome {
        Outcome::Stat {
            size,
            stored,
            shares,
            truncs: of,
        } => {
            line.fill("Stat, size %, stored ", &[*size]);
            line.push(if *stored == u128::MAX { "most" } else { "less" });
            for item in shares.as_slice() {
                line.fill(", writer % bytes %", &[item.writer, item.bytes]);
            }
            truncs(line, of.as_slice());
        }
        Outcome::Truncated { stamp } => line.fill("Truncated, stamp %", &[*stamp]),
        Outcome::Renamed => line.push("Renamed"),
        Outcome::Flattened { flat, pieces, cut } => {
            line.fill("Flattened, flat %, pieces %", &[*flat, *pieces]);
            counts(line, cut.as_slice());
        }
        Outcome::Recovered {
            buried,
            alive,
            hold,
        } => {
            line.push("Recovered");
            counts(line, buried.as_slice());
            for writer in alive.as_slice() {
                line.fill(", writer %", &[*writer]);
            }
            line.fill(", hold %", &[u64::from(*hold)]);
        }
        Outcome::Listed { names } => {
            line.push("Listed");
            for name in names.as_slice() {
                named(line, ", name ", name);
            }
        }
        Outcome::Armed => line.push("Armed"),
        Outcome::Stopped => line.push("Stopped"),
        Outcome::Gone => line.push("Gone"),
        Outcome::Refused { why: of } => {
            line.push("Refused, ");
            why(line, *of);
        }
        Outcome::Damaged {
            folder,
            file,
            place,
        } => {
            named(line, "Damaged, folder ", folder);
            named(line, ", file ", file);
            line.fill(", place %", &[*place]);
        }
        _ => line.push("Fault"),
    }
}

fn tell(line: &mut Line, outcome: &Outcome) {
    match outcome {
        Outcome::Opened { writer } => line.fill("Opened, writer %", &[*writer]),
        Outcome::Wrote { at, len, stamp } => {
            line.fill("Wrote, at %, len %, ", &[*at, *len]);
            match stamp {
                Some(stamp) => line.fill("stamp %", &[*stamp]),
                None => line.push("no stamp"),
            }
        }
        Outcome::Synced { landed } => line.fill("Synced, landed %", &[*landed]),
        Outcome::Closed { landed } => line.fill("Closed, landed %", &[*landed]),
        Outcome::Reader {
            size,
            cut,
            truncs: of,
        } => {
            line.fill("Reader, size %", &[*size]);
            counts(line, cut.as_slice());
            truncs(line, of.as_slice());
        }
        Outcome::Read { at, content } => {
            line.fill("Read, at %", &[*at]);
            for byte in content.as_slice() {
                line.fill(", byte %", &[u64::from(*byte)]);
            }
        }
        Outcome::Same => line.push("Same"),
        Outcome::Differs { place } => line.fill("Differs, place %", &[*place]),
        Outcome::Map { pieces } => {
            line.push("Map");
            for e in pieces.as_slice() {
                line.fill(
                    ", at % len % physical % stamp % writer %",
                    &[e.at, e.len, e.physical, e.stamp, e.writer],
                );
            }
        }
        Outcome::ReaderClosed => line.push("ReaderClosed"),
        _ => of_containers(line, outcome),
    }
}

#[test]
fn each_outcome_has_its_line_and_is_read_back(rt: HostRuntime) -> Result<(), Fail> {
    let lines = read(rt.alloc(), TEXT.as_bytes())?;
    let mut told = Line::new(rt.alloc());
    for line in lines.as_slice() {
        told.fill("%: ", &[line.number()]);
        let seen = line.seen();
        tell(&mut told, seen.outcome());
        drop(seen);
        told.push("\n");
    }
    let text = print(rt.alloc(), &lines);
    drop(lines);
    assert!(rt; told.as_str() == MEANING);
    assert!(rt; text?.as_slice() == TEXT.as_bytes());
    Ok(())
}

fn bad_line(alloc: Global, line: &mut Line, text: &str) {
    match read(alloc, text.as_bytes()) {
        Ok(lines) => {
            drop(lines);
            line.push("lines");
        }
        Err(ReportTrouble::Bad { line: number }) => line.fill("bad %", &[number]),
        Err(ReportTrouble::NoMemory) => line.push("no memory"),
    }
}

const BAD: &str = "\
bad 1: 0 same|\
bad 1: \n|\
bad 1: 0  same\n|\
bad 1: 00 same\n|\
bad 1: 0 Same\n|\
bad 1: 0 read 0\n|\
bad 1: 0 read 0 616\n|\
bad 1: 0 read 0 6A\n|\
bad 1: 0 wrote 3 0 \n|\
bad 1: 0 ls a,\n|\
bad 1: 0 ls -f\n|\
bad 1: 0 map\n|\
bad 1: 0 damaged a%2f 0\n|\
bad 1: 0 damaged a,b 0\n|\
bad 1: 0 damaged %41 0\n|\
bad 1: 0 damaged /a 0\n|\
bad 1: 0 refused busy 4294967296 1\n|\
bad 3: 0 same\n1 same\n2 sam\n3 same\n|\
lines: |\
lines: 9 ls b,a\n|\
lines: 0 reader 1 cut 3:0,1:2 trunc -\n";

#[test]
fn the_first_bad_line_is_named(rt: HostRuntime) -> Result<(), Fail> {
    // What a run orders or leaves out is still a line.
    for row in BAD.split('|') {
        let (want, text) = row.split_once(": ").ok_or("a row")?;
        let mut line = Line::new(rt.alloc());
        bad_line(rt.alloc(), &mut line, text);
        assert!(rt; line.as_str() == want, "{row}");
    }
    Ok(())
}
