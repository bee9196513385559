//! A container with what three writers wrote, as a reader's calls see it; and what its file is, asked byte by byte.
use crate::replies::names;
use mount_model::{Call, Look, Reply};
use plfs_types::{Bytes, Name, NameList, NoMemory};
use std::alloc::Global;
use store_api::Answer;
use test_lines::Line;

/// A write of the writer at this place among the writers, with where its bytes begin in the file and in the log.
#[derive(Clone, Copy)]
pub(crate) struct Write {
    pub(crate) writer: usize,
    pub(crate) at: u64,
    pub(crate) len: u64,
    pub(crate) place: u64,
    pub(crate) stamp: u64,
}

/// What was written, each writer's in the order of its log; the truncates, each a stamp and a size; and where reads of
/// the file begin.
#[derive(Drop)]
pub(crate) struct Set {
    pub(crate) writes: Vec<Write>,
    pub(crate) truncs: Vec<(u64, u64)>,
    pub(crate) from: u64,
}

// Of each writer the index dropping, the log, and the id.
const FILES: [(&str, &str, u64); 3] = [
    ("index.33.3", "log.33.3", 3),
    ("index.7.9", "log.7.9", 9),
    ("index.0.20", "log.0.20", 20),
];

/// The length of the writer's log.
pub(crate) fn logged(set: &Set, writer: usize) -> u64 {
    let mut len = 0u64;
    for write in set.writes.as_slice() {
        if write.writer == writer {
            len = write.place.saturating_add(write.len);
        }
    }
    len
}

// The byte at a place of the writer's log. Below place 80 no two are the same.
fn byte_at(writer: usize, place: u64) -> u8 {
    let number = (writer as u64).wrapping_mul(80).wrapping_add(place);
    u8::try_from(number % 240).unwrap_or(0).wrapping_add(1)
}

// ---- what the calls see

fn index_of(alloc: Global, set: &Set, writer: usize, id: u64) -> Result<Vec<u8>, NoMemory> {
    let mut all = Vec::new(alloc);
    for write in set.writes.as_slice() {
        if write.writer == writer {
            for number in [write.at, write.len, write.place, write.stamp, id] {
                all.extend_from_slice(&number.to_le_bytes())?;
            }
        }
    }
    Ok(all)
}

fn log_of(alloc: Global, set: &Set, writer: usize) -> Result<Vec<u8>, NoMemory> {
    let mut all = Vec::new(alloc);
    for place in 0..logged(set, writer) {
        all.push(byte_at(writer, place))?;
    }
    Ok(all)
}

// The bytes of an index dropping or a log.
fn file(alloc: Global, set: &Set, file: &[u8]) -> Result<Vec<u8>, NoMemory> {
    for writer in 0..3 {
        let (index, log, id) = FILES[writer];
        if file == index.as_bytes() {
            return index_of(alloc, set, writer, id);
        }
        if file == log.as_bytes() {
            return log_of(alloc, set, writer);
        }
    }
    Ok(Vec::new(alloc))
}

// So many of the bytes from this place on, as far as they are there.
fn part(all: &[u8], at: u64, len: u64) -> &[u8] {
    let end = at.saturating_add(len).min(all.len() as u64);
    all.get(at as usize..end as usize).unwrap_or(&[])
}

// The folders of droppings, each with the index dropping in it.
const FOLDERS: [(&str, &str); 3] = [
    ("hostdir.0", "index.0.20"),
    ("hostdir.1", "index.33.3"),
    ("hostdir.7", "index.7.9"),
];

// What the container's folder holds.
const TOP: &str = "access flats hostdir.0 hostdir.1 hostdir.7 metadata truncs";

// The names of the truncates, in byte order.
fn marks(alloc: Global, set: &Set) -> Result<NameList, NoMemory> {
    let mut names = Vec::new(alloc);
    for (stamp, size) in set.truncs.as_slice() {
        let mut line = Line::new(alloc);
        line.say("", *stamp);
        line.say(".", *size);
        let name = Name::from_bytes(line.as_str().as_bytes());
        drop(line);
        names.push(name.unwrap_or(Name::empty()))?;
    }
    names.sort_unstable();
    Ok(NameList::from_vec(names))
}

// The index in a folder of droppings, or the truncates.
fn list(alloc: Global, set: &Set, folder: &[u8]) -> Result<Answer, NoMemory> {
    for (name, index) in FOLDERS {
        if folder == name.as_bytes() {
            return names(alloc, index);
        }
    }
    Ok(Answer::Names(marks(alloc, set)?))
}

fn answer_to(alloc: Global, set: &Set, look: &Look) -> Result<Answer, NoMemory> {
    match look {
        Look::Length { path } => {
            let all = file(alloc, set, path.file.bytes())?;
            let value = all.len() as u64;
            Ok(Answer::Number { value })
        }
        Look::Read { path, at, len } => {
            let all = file(alloc, set, path.file.bytes())?;
            Ok(Answer::Bytes(Bytes::copy(alloc, part(all.as_slice(), *at, *len))?))
        }
        Look::Top => names(alloc, TOP),
        Look::List { folder } => list(alloc, set, folder.bytes()),
    }
}

/// What a call of a reader is told, of want of memory where that was met.
pub(crate) fn reply_to(alloc: Global, set: &Set, call: &Call) -> Reply {
    let Call::Look { look, .. } = call else {
        return Reply::Fault;
    };
    match answer_to(alloc, set, look) {
        Ok(answer) => Reply::Looked(answer),
        Err(NoMemory) => Reply::NoMemory,
    }
}

// ---- what the file is

// Whether no truncate took what was written there at this stamp.
fn is_left(set: &Set, x: u64, stamp: u64) -> bool {
    set.truncs
        .as_slice()
        .iter()
        .all(|(cut, size)| x < *size || *cut < stamp)
}

/// The byte of the newest write there, of the greater writer at one stamp, or 0 where none is left.
pub(crate) fn newest(set: &Set, x: u64) -> u8 {
    let mut last = (0, 0);
    let mut byte = 0;
    for write in set.writes.as_slice() {
        let is_there = write.at <= x && x - write.at < write.len && is_left(set, x, write.stamp);
        if is_there && (write.stamp, write.writer) >= last {
            last = (write.stamp, write.writer);
            byte = byte_at(write.writer, write.place.saturating_add(x - write.at));
        }
    }
    byte
}

/// The size of the file: that of the last truncate, and then the greatest end of what was written after it.
pub(crate) fn size(set: &Set) -> u64 {
    let mut last = 0;
    let mut size = 0;
    for (stamp, cut) in set.truncs.as_slice() {
        if *stamp > last || (*stamp == last && *cut > size) {
            last = *stamp;
            size = *cut;
        }
    }
    for write in set.writes.as_slice() {
        if write.stamp > last {
            size = size.max(write.at.saturating_add(write.len));
        }
    }
    size
}
