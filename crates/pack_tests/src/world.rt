//! A container of two writers, as the calls of machines see it.
use mount_model::{Call, Look, Reply};
use plfs_types::{Block, Bytes, Name, NameList, NoMemory};
use std::alloc::Global;
use store_api::Answer;
use test_lines::Line;

// The writes: where in the file, how many bytes, where in the log, the stamp and the writer.
const WRITES: [[u64; 5]; 4] = [
    [0, 19, 0, 11, 3],
    [19, 17, 0, 12, 9],
    [1 << 32, 1, 19, 13, 3],
    [2 << 32, 22, 17, 14, 9],
];

// A unit of `a` with 2 bytes, and a byte that begins no unit.
const FIRST_LOG: &[u8] = b"\x01\0\0\0\0\0\0\0\x02\0\0\0\0\0\0\0ahiA";

// A unit of `b` with no byte, and one of `a` with 5 bytes.
const SECOND_LOG: &[u8] =
    b"\x01\0\0\0\0\0\0\0\0\0\0\0\0\0\0\0b\x01\0\0\0\0\0\0\0\x05\0\0\0\0\0\0\0anewer";

fn index_of(alloc: Global, writer: u64) -> Result<Vec<u8>, NoMemory> {
    let mut all = Vec::new(alloc);
    for write in WRITES {
        if write[4] == writer {
            for number in write {
                all.extend_from_slice(&number.to_le_bytes())?;
            }
        }
    }
    Ok(all)
}

// The bytes of an index dropping or a log.
fn file(alloc: Global, name: &[u8]) -> Result<Vec<u8>, NoMemory> {
    match name {
        b"index.33.3" => index_of(alloc, 3),
        b"index.7.9" => index_of(alloc, 9),
        b"log.33.3" => Ok(Vec::from_slice(alloc, FIRST_LOG)?),
        b"log.7.9" => Ok(Vec::from_slice(alloc, SECOND_LOG)?),
        _ => Ok(Vec::new(alloc)),
    }
}

// So many of the bytes from this place on, as far as they are there.
fn part(all: &[u8], at: u64, len: u64) -> &[u8] {
    let end = at.saturating_add(len).min(all.len() as u64);
    all.get(at as usize..end as usize).unwrap_or(&[])
}

fn names(alloc: Global, words: &str) -> Result<Answer, NoMemory> {
    let mut names = NameList::new(alloc);
    for word in words.split_whitespace() {
        names.push(Name::from_bytes(word.as_bytes()).unwrap_or(Name::empty()))?;
    }
    Ok(Answer::Names(names))
}

fn listed(folder: &[u8]) -> &'static str {
    match folder {
        b"hostdir.1" => "index.33.3",
        b"hostdir.7" => "index.7.9",
        _ => "",
    }
}

fn answer_to(alloc: Global, look: &Look) -> Result<Answer, NoMemory> {
    match look {
        Look::Length { path } => {
            let all = file(alloc, path.file.bytes())?;
            let value = all.len() as u64;
            Ok(Answer::Number { value })
        }
        Look::Read { path, at, len } => {
            let all = file(alloc, path.file.bytes())?;
            Ok(Answer::Bytes(Bytes::copy(alloc, part(all.as_slice(), *at, *len))?))
        }
        Look::Top => names(alloc, "access flats hostdir.1 hostdir.7 metadata truncs"),
        Look::List { folder } => names(alloc, listed(folder.bytes())),
    }
}

fn show_write(writer: u64, at: u64, block: &Block, shown: &mut Line) {
    shown.say("writer ", writer);
    shown.say(" at ", at);
    for byte in block.as_slice() {
        shown.say(" ", u64::from(*byte));
    }
    shown.push("\n");
}

/// What a call is told, of want of memory where that was met. A write is shown.
pub(crate) fn reply_to(alloc: Global, call: &Call, shown: &mut Line) -> Reply {
    match call {
        Call::Find { .. } => Reply::Room { room: 1 },
        Call::Look { look, .. } => match answer_to(alloc, look) {
            Ok(answer) => Reply::Looked(answer),
            Err(NoMemory) => Reply::NoMemory,
        },
        Call::Write { writer, at, block } => {
            show_write(*writer, *at, block, shown);
            Reply::Wrote { stamp: 15 }
        }
        _ => Reply::Fault,
    }
}
