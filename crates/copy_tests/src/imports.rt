//! The words of an import.
use crate::deeds::words_of;
use copy_program::ImportCommand;
use std::alloc::Global;
use test_lines::Line;

/// Words, and the host that they say and whether a file may be written over; or that they are no import.
const COMMANDS: &[(&str, &str)] = &[
    ("import dir", "0"),
    ("import dir 0", "0"),
    ("import dir 4294967295", "4294967295"),
    ("import dir --over", "0 over"),
    ("import dir 3 --over", "3 over"),
    ("import import", "0"),
    ("", "none"),
    ("import", "none"),
    ("put f", "none"),
    ("dir import", "none"),
    ("import dir --over 3", "none"),
    ("import dir 4294967296", "none"),
    ("import dir 03", "none"),
    ("import dir -1", "none"),
    ("import dir over", "none"),
    ("import dir 3 4", "none"),
    ("import dir 3 --over more", "none"),
];

// What these words say.
fn told(alloc: Global, text: &str) -> Line {
    let words = words_of(alloc, text);
    let mut line = Line::new(alloc);
    match ImportCommand::read(&words) {
        Some(command) => {
            line.say("", u64::from(command.host));
            line.push(if command.over { " over" } else { "" });
        }
        None => line.push("none"),
    }
    drop(words);
    line
}

#[test]
fn words_are_an_import_or_none(rt: HostRuntime) {
    let alloc = rt.alloc();
    let mut wrong = Line::new(alloc);
    for (words, want) in COMMANDS {
        let told = told(alloc, words);
        wrong.expect(words, &told, want);
        drop(told);
    }
    assert!(rt; wrong.as_str().is_empty(), "{}", wrong.as_str());
    drop(wrong);
}
