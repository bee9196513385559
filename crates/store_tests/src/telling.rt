//! Answers of stores as text.
use plfs_types::Name;
use store_api::{Answer, Trouble};
use test_lines::Line;

/// A word, a number and a word.
pub(crate) fn count(line: &mut Line, word: &str, number: u64, unit: &str) {
    line.say(word, number);
    line.push(unit);
}

/// A word where what should be done was not.
pub(crate) fn note(line: &mut Line, is_done: bool) {
    if !is_done {
        line.push("not done");
    }
}

fn named(line: &mut Line, word: &str, names: &[Name]) {
    line.push(word);
    for name in names {
        line.letters(" ", name.bytes());
    }
}

/// What a store answered.
pub(crate) fn tell(line: &mut Line, told: &Result<Answer, Trouble>) {
    match told {
        Ok(Answer::Made) => line.push("made"),
        Ok(Answer::Old { room }) => line.say("old ", *room),
        Ok(Answer::Absent) => line.push("absent"),
        Ok(Answer::NoRoom) => line.push("no room"),
        Ok(Answer::NoFolder) => line.push("no folder"),
        Ok(Answer::NotEmpty { least }) => named(line, "not empty", &[*least]),
        Ok(Answer::TargetThere) => line.push("target there"),
        Ok(Answer::Names(names)) => named(line, "names", names.as_slice()),
        Ok(Answer::Number { value }) => line.say("number ", *value),
        Ok(Answer::Bytes(bytes)) => line.letters("bytes ", bytes.as_slice()),
        Ok(Answer::Beyond) => line.push("beyond"),
        Err(_) => line.push("fault"),
    }
}
