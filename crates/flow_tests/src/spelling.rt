//! Calls and troubles as text.
use mount_model::{Call, Look, Stuck};
use test_lines::Line;

/// What stands before the first such sign and what stands behind it, or all of the text and nothing.
pub(crate) fn parts(text: &str, sign: char) -> (&str, &str) {
    let text = text.trim();
    let (first, rest) = text.split_once(sign).unwrap_or((text, ""));
    (first.trim_end(), rest.trim_start())
}

/// Two numbers, with a blank before them and a sign between them.
pub(crate) fn pair(line: &mut Line, first: u64, sign: &str, second: u64) {
    line.say(" ", first);
    line.say(sign, second);
}

fn look_at(line: &mut Line, look: &Look) {
    match look {
        Look::Top => line.push("top"),
        Look::List { folder } => line.letters("list ", folder.bytes()),
        Look::Length { path } => line.letters("length ", path.file.bytes()),
        Look::Read { path, at, len } => {
            line.letters("read ", path.file.bytes());
            pair(line, *at, " ", *len);
        }
    }
}

/// The number of 8 bytes at this place, as far as they are there, the least first.
fn number_at(bytes: &[u8], place: usize) -> u64 {
    let mut number = [0; 8];
    for index in 0..8 {
        if place < bytes.len() && index < bytes.len() - place {
            number[index] = bytes[place + index];
        }
    }
    u64::from_le_bytes(number)
}

/// Of a packed index its length and its numbers.
fn packed(line: &mut Line, flat: u64, bytes: &[u8]) {
    line.push("put");
    pair(line, flat, " ", bytes.len() as u64);
    for index in 1..(bytes.len() / 8).min(100) {
        line.say(" ", number_at(bytes, 8 * index));
    }
}

/// The word of a call without a number.
fn word_of(call: &Call) -> &'static str {
    match call {
        Call::Greet => "greet",
        Call::Find { .. } => "find",
        Call::MakeContainer { .. } => "make",
        Call::Floor { .. } => "floor",
        Call::MakeHostdir { .. } => "hostdir",
        Call::MakeIndex { .. } => "index",
        Call::MakeLog { .. } => "log",
        Call::Flush { .. } => "flush",
        Call::SyncIndex { .. } => "sync-index",
        Call::PutMeta { .. } => "meta",
        Call::Exit { .. } => "exit",
        Call::SyncDropping { log, .. } => if *log { "log" } else { "index" },
        _ => "another call",
    }
}

fn numbered(line: &mut Line, call: &Call) {
    let (word, number) = match call {
        Call::Write { at, .. } => ("write ", *at),
        Call::SyncLog { writer } => ("sync-log ", *writer),
        Call::Hold { room } => ("hold ", *room),
        Call::Move { holder, .. } => ("move ", *holder),
        Call::Release { holder } => ("release ", *holder),
        Call::SyncFlat { flat } => ("sync-flat ", *flat),
        Call::InstallFlat { flat } => ("install ", *flat),
        Call::Inspect { writer } => ("inspect ", *writer),
        Call::Mend { whole, .. } => ("mend ", *whole),
        Call::MendMeta { last, .. } => ("meta ", *last),
        Call::Bury { writer, .. } => ("bury ", *writer),
        Call::MendHold { room } => ("mend-hold ", *room),
        _ => return line.push(word_of(call)),
    };
    line.say(word, number);
}

/// A call behind what the line has.
pub(crate) fn spell(line: &mut Line, call: &Call) {
    let (word, first, second) = match call {
        Call::Look { look, .. } => return look_at(line, look),
        Call::PutFlat { flat, bytes } => return packed(line, *flat, bytes.as_slice()),
        Call::Enter { host, cap, .. } => ("enter", *host as u64, *cap as u64),
        Call::Mark { size, top, .. } => ("mark", *size, *top),
        Call::StartPack { host, writer, .. } => ("pack", *host as u64, *writer),
        _ => return numbered(line, call),
    };
    line.push(word);
    pair(line, first, " ", second);
}

/// How a machine ended that came to no good.
pub(crate) fn trouble(line: &mut Line, why: &Stuck) {
    match why {
        Stuck::Damaged {
            folder,
            file,
            place,
        } => {
            line.letters("damaged ", folder.bytes());
            line.letters("/", file.bytes());
            line.say(" ", *place);
        }
        Stuck::Refused(_) => line.push("refused"),
        Stuck::Fault => line.push("fault"),
    }
}
