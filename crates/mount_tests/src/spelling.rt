//! Replies as text.
use mount_model::{Refusal, Reply};
use plfs_types::Name;
use store_api::Answer;
use test_lines::Line;

/// What stands before the first such sign and what stands behind it, or all of the text and nothing.
pub(crate) fn parts(text: &str, sign: char) -> (&str, &str) {
    let text = text.trim();
    let (first, rest) = text.split_once(sign).unwrap_or((text, ""));
    (first, rest.trim_start())
}

// A word, and these names behind it.
fn named(line: &mut Line, word: &str, names: &[Name]) {
    line.push(word);
    for name in names {
        line.letters(" ", name.bytes());
    }
}

fn seen(line: &mut Line, answer: &Answer) {
    let word = match answer {
        Answer::Names(names) => return named(line, "names", names.as_slice()),
        Answer::Number { value } => return line.say("length ", *value),
        Answer::Bytes(bytes) => return line.letters("bytes=", bytes.as_slice()),
        Answer::Absent => "absent",
        Answer::NoFolder => "no folder",
        _ => "another answer",
    };
    line.push(word);
}

fn word_of(why: Refusal) -> &'static str {
    match why {
        Refusal::NoRoom => "no room",
        Refusal::Held => "held",
        Refusal::Busy { .. } => "busy",
        Refusal::Exists => "exists",
        Refusal::Full => "full",
        Refusal::NotFlushed => "not flushed",
        Refusal::NoMeta => "no meta",
        Refusal::TooFar => "too far",
        Refusal::StampsSpent => "stamps spent",
        Refusal::IdsSpent => "ids spent",
        Refusal::NotOpen => "not open",
        Refusal::NotHolder => "not holder",
        Refusal::Alive => "alive",
    }
}

fn refused(line: &mut Line, why: Refusal) {
    line.push(word_of(why));
    if let Refusal::Busy { host, id } = why {
        line.say(" ", u64::from(host));
        line.say(" ", id);
    }
}

fn numbered(line: &mut Line, reply: &Reply) {
    let (word, number) = match reply {
        Reply::Room { room } => ("room ", *room),
        Reply::Entered { writer } => ("entered ", *writer),
        Reply::Floored { floor } => ("floored ", *floor),
        Reply::Wrote { stamp } => ("wrote ", *stamp),
        Reply::Flushed { landed } => ("flushed ", *landed),
        Reply::Synced { landed } => ("synced ", *landed),
        Reply::Holding { holder } => ("holding ", *holder),
        Reply::Marked { stamp } => ("marked ", *stamp),
        Reply::Started { flat } => ("started ", *flat),
        _ => ("another reply ", 0),
    };
    line.say(word, number);
}

/// A reply behind what the line has.
pub(crate) fn spell(line: &mut Line, reply: &Reply) {
    match reply {
        Reply::Greeted => line.push("greeted"),
        Reply::Rooms(names) => named(line, "rooms", names.as_slice()),
        Reply::Looked(answer) => seen(line, answer),
        Reply::Done => line.push("done"),
        Reply::Mended { made } => line.push(if *made { "made" } else { "whole" }),
        Reply::Stopped => line.push("stopped"),
        Reply::Refused(why) => refused(line, *why),
        Reply::Damaged { folder, file } => {
            line.letters("damaged ", folder.bytes());
            line.letters("/", file.bytes());
        }
        Reply::Fault => line.push("fault"),
        _ => numbered(line, reply),
    }
}
