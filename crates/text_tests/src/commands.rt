//! The words that are a command, and the words that are none.
use crate::lines::named;
use command_line::Command;
use plfs_types::{NoMemory, Word};
use std::alloc::Global;
use std::test::Fail;
use test_lines::Line;

fn read(alloc: Global, text: &str) -> Result<Option<Command>, NoMemory> {
    let mut words = Vec::new(alloc);
    for word in text.split(' ') {
        words.push(Word::copy(alloc, word)?)?;
    }
    Command::read(alloc, words.as_slice())
}

fn tell(line: &mut Line, command: Command) {
    match command {
        Command::Run => line.push("run"),
        Command::Play => line.push("play"),
        Command::Gen { writers } => line.fill("gen %", &[u64::from(writers)]),
        Command::Cat { name } => named(line, "cat ", &name.name()),
        Command::Stat { name } => named(line, "stat ", &name.name()),
        Command::Map { name } => named(line, "map ", &name.name()),
        Command::Flatten { name } => named(line, "flatten ", &name.name()),
        Command::Recover { name } => named(line, "recover ", &name.name()),
        Command::Migrate { name } => named(line, "migrate ", &name.name()),
        Command::Names { name } => named(line, "names ", &name.name()),
        Command::Pack { name, region } => {
            named(line, "pack ", &name.name());
            line.fill(" into %", &[region]);
        }
        Command::Unpack { name, file } => {
            named(line, "unpack ", &name.name());
            named(line, " file ", &file.name());
        }
        Command::Trunc { name, size } => {
            named(line, "trunc ", &name.name());
            line.fill(" to %", &[size]);
        }
        Command::Rename { name, to } => {
            named(line, "rename ", &name.name());
            named(line, " to ", &to.name());
        }
        Command::Ls => line.push("ls"),
    }
}

// Words, and the command that they are.
const COMMANDS: &str = "\
run: run
play: play
gen 1: gen 1
gen 256: gen 256
cat f: cat f
cat run: cat run
stat a.b-c_D9: stat a.b-c_D9
map f: map f
flatten f: flatten f
recover f: recover f
migrate f: migrate f
trunc f 0: trunc f to 0
trunc 7 18446744073709551615: trunc 7 to 18446744073709551615
rename a b: rename a to b
names f: names f
pack f 0: pack f into 0
pack 7 255: pack 7 into 255
unpack f a: unpack f file a
unpack a a: unpack a file a
ls: ls
: none
help: none
--help: none
-h: none
--version: none
Run: none
ru: none
run x: none
play x: none
gen: none
gen 0: none
gen 257: none
gen 01: none
gen +1: none
gen 1 2: none
cat: none
cat : none
cat .f: none
cat f g: none
cat -- f: none
cat a/b: none
trunc f: none
trunc f 007: none
trunc f 18446744073709551616: none
trunc f -1: none
rename a: none
rename a b c: none
names: none
names f g: none
names .f: none
unpack f: none
pack f 256: none
pack f 00: none
pack f -1: none
pack f -: none
pack f 0 a: none
pack .f 0: none
unpack f a b: none
unpack .f a: none
unpack f .a: none
pack f: none
pack f 256: none
pack f 00: none
pack f -1: none
pack f -: none
pack f 0 a: none
pack .f 0: none
";

#[test]
fn words_read_as_their_command_and_others_are_refused(rt: HostRuntime) -> Result<(), Fail> {
    assert!(rt; Command::read(rt.alloc(), &[])?.is_none());
    for row in COMMANDS.lines() {
        let (text, want) = row.split_once(": ").ok_or("a row")?;
        let mut line = Line::new(rt.alloc());
        match read(rt.alloc(), text)? {
            Some(command) => tell(&mut line, command),
            None => line.push("none"),
        }
        assert!(rt; line.as_str() == want, "{row}");
    }
    Ok(())
}
