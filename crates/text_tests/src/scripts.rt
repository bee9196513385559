//! Scripts: the first fault of each kind, the limits, and what a script means.
use crate::lines::named;
use plfs_types::Bytes;
use script_lang::{Data, Kind, Script, ScriptTrouble, Statement};
use std::alloc::Global;
use std::test::Fail;
use test_lines::Line;

fn kind(kind: Kind) -> &'static str {
    match kind {
        Kind::Spaces => "% spaces",
        Kind::Actor => "% actor",
        Kind::Word => "% word",
        Kind::Count => "% count",
        Kind::Number => "% number",
        Kind::Name => "% name",
        Kind::Data => "% data",
        Kind::Reads => "% reads",
        Kind::Long => "% long",
    }
}

// The line and the kind of the bytes' first fault as a script.
fn fault(alloc: Global, line: &mut Line, bytes: &[u8]) {
    match Script::read(alloc, bytes) {
        Ok(script) => {
            drop(script);
            line.push("a script");
        }
        Err(
            ScriptTrouble::Fault {
                line: number,
                kind: of,
            },
        ) => line.fill(kind(of), &[number]),
        Err(ScriptTrouble::NoMemory) => line.push("no memory"),
    }
}

// Each has one fault, or two of which the first in the order of kinds counts.
const FAULTS: &str = "\
2 spaces: actor a\na  sync|\
2 spaces: actor a\na sync |\
1 spaces:  |\
1 spaces: b  sync|\
1 actor: b sync|\
1 actor: b blow|\
1 actor: actor actor|\
1 actor: actor 1a|\
1 actor: actor abcdefghijklmnopq|\
2 actor: actor a\nactor a|\
3 actor: actor a\nphase\nactor b|\
3 actor: actor a\na sync\nactor b|\
2 actor: actor a\nturn b 1|\
1 actor: actor A 1 2 3|\
2 word: actor a\na blow|\
2 word: actor a\na blow 1 2 3|\
1 count: actor|\
1 count: turn|\
2 count: actor a\na|\
1 count: phase 2|\
2 count: actor a\na sync 1|\
2 count: actor a\na read x|\
2 count: actor a\nturn a|\
1 number: actor a 4294967296|\
1 number: actor a 0 0|\
1 number: actor a 0 4097|\
2 number: actor a\na read 18446744073709551616 1|\
2 number: actor a\na read 01 1|\
2 number: actor a\na read 1 16777217|\
2 number: actor a\na write x hex:0|\
2 number: actor a\nturn a 0|\
2 number: actor a\na ropen f 17|\
2 number: actor a\na stop 0 1|\
2 name: actor a\na open .f|\
2 name: actor a\na trunc .f x|\
2 data: actor a\na write 1 hex:0|\
2 data: actor a\na write 1 hex:AB|\
2 data: actor a\na write 1 fill:16777217:1|\
2 data: actor a\na write 1 ramp:1:256|\
2 data: actor a\na verify 1 text|\
2 data: actor a\na write 1 fill:1";

#[test]
fn the_first_fault_counts(rt: HostRuntime) -> Result<(), Fail> {
    for row in FAULTS.split('|') {
        let (want, text) = row.split_once(": ").ok_or("a row")?;
        let mut line = Line::new(rt.alloc());
        fault(rt.alloc(), &mut line, text.as_bytes());
        assert!(rt; line.as_str() == want, "{row}");
    }
    Ok(())
}

// Tells of a script with this beginning, so many pieces behind it, each with its number from 0, and this end.
fn long(alloc: Global, line: &mut Line, first: &str, piece: &str, count: u64, last: &str) {
    let mut text = Line::new(alloc);
    text.push(first);
    for number in 0..count {
        text.fill(piece, &[number]);
    }
    text.push(last);
    fault(alloc, line, text.as_str().as_bytes());
    line.push("\n");
    drop(text);
}

const READ: &str = "a read 0 16777216\n";

#[test]
fn a_script_has_its_limits(rt: HostRuntime) {
    let alloc = rt.alloc();
    let mut line = Line::new(alloc);
    // Reads sum to 2^28 at most.
    long(alloc, &mut line, "actor a\n", READ, 16, "a read 7 0\n");
    long(alloc, &mut line, "actor a\n", READ, 16, "a read 7 1\n");
    long(alloc, &mut line, "actor a\n", READ, 16, "a read 01 1\n");
    // There are at most 256 actors.
    long(alloc, &mut line, "", "actor a%\n", 257, "");
    // There are at most 2^20 bytes.
    long(alloc, &mut line, "", "#", 1 << 20, "");
    long(alloc, &mut line, "\n", "\n", 1 << 20, "");
    let want = "a script\n18 reads\n18 number\n257 actor\na script\n0 long\n";
    assert!(rt; line.as_str() == want, "{}", line.as_str());
}

fn tell_data(line: &mut Line, data: &Data) {
    match data {
        Data::Hex(bytes) => line.letters(" hex:", bytes.as_slice()),
        Data::Text(bytes) => line.letters(" text:", bytes.as_slice()),
        Data::Fill { len, byte } => line.fill(" fill:%:%", &[*len, u64::from(*byte)]),
        Data::Ramp { len, first } => line.fill(" ramp:%:%", &[*len, u64::from(*first)]),
    }
}

fn tell_statement(line: &mut Line, statement: &Statement) {
    match statement {
        Statement::Open { name } => named(line, "open ", &name.name()),
        Statement::Write { at, content } => {
            line.fill("write %", &[*at]);
            tell_data(line, content);
        }
        Statement::Close => line.push("close"),
        Statement::Ropen { name, workers } => {
            named(line, "ropen ", &name.name());
            line.fill(" by %", &[u64::from(*workers)]);
        }
        Statement::Verify { at, content } => {
            line.fill("verify %", &[*at]);
            tell_data(line, content);
        }
        Statement::Stat { name } => named(line, "stat ", &name.name()),
        Statement::Stop { call, bytes } => line.fill("stop % %", &[*call, *bytes]),
        _ => line.push("another"),
    }
}

/// What a script means: the name, the host and the capacity of each actor, then for each phase its turns, and for each of
/// its statements the line, the place of the actor, and the statement.
pub(crate) fn tell(alloc: Global, line: &mut Line, script: &Script) {
    for actor in script.actors.as_slice() {
        named(line, "", &actor.name);
        line.fill(
            " at % for %\n",
            &[u64::from(actor.host), u64::from(actor.cap)],
        );
    }
    for phase in script.phases.as_slice() {
        line.push("phase\n");
        for turned in phase.turns.as_slice() {
            line.fill("turns of %: %\n", &[turned.actor, turned.count]);
        }
        for numbered in phase.statements.as_slice() {
            line.fill("%, by %: ", &[numbered.line(), numbered.actor()]);
            match numbered.copy(alloc) {
                Ok(statement) => {
                    tell_statement(line, &statement);
                    drop(statement);
                }
                Err(_) => line.push("no memory"),
            }
            line.push("\n");
        }
    }
}

const LINES: &str = "\
# two actors
actor a 3
actor b2 4294967295 4096

b2 open f
turn a 4294967295
a stop 1 18446744073709551615
phase
b2 write 18446744073709551615 text:
b2 write 1 hex:00ff
a ropen f
a ropen f 16
a verify 0 ramp:16777216:255
a write 0 hex:
# end";

const MEANING: &str = "\
a at 3 for 64
b2 at 4294967295 for 4096
phase
turns of 0: 4294967295
5, by 1: open f
7, by 0: stop 1 18446744073709551615
phase
9, by 1: write 18446744073709551615 text:
10, by 1: write 1 hex:\0\u{ff}
11, by 0: ropen f by 1
12, by 0: ropen f by 16
13, by 0: verify 0 ramp:16777216:255
14, by 0: write 0 hex:
";

#[test]
fn a_script_means_its_lines(rt: HostRuntime) -> Result<(), Fail> {
    // An empty script has one empty phase.
    for (text, want) in [(LINES, MEANING), ("", "phase\n")] {
        let script = Script::read(rt.alloc(), text.as_bytes())?;
        let mut line = Line::new(rt.alloc());
        tell(rt.alloc(), &mut line, &script);
        drop(script);
        assert!(rt; line.as_str() == want, "{text}");
    }
    Ok(())
}

#[test]
fn a_copy_of_a_statement_is_the_same(rt: HostRuntime) -> Result<(), Fail> {
    let content = Data::Hex(Bytes::copy(rt.alloc(), b"00ff")?);
    let statement = Statement::Write { at: 1, content };
    let copy = statement.copy(rt.alloc());
    drop(statement);
    let copy = copy?;
    let mut line = Line::new(rt.alloc());
    tell_statement(&mut line, &copy);
    drop(copy);
    assert!(rt; line.as_str() == "write 1 hex:00ff");
    Ok(())
}
