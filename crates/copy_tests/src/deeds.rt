//! Deeds that are told as text. Behind `$ ` begins a deed, and below some stand the bytes of the source:
//!
//! - `$ put f 3, fails 1: 5 put 2 4294967297` runs the words `put f 3`, where the second read of the source fails. They end with
//!   the status 5, and print what stands behind that. Behind `..` more may be printed.
//! - `$ import f g: 0 g put 2 ..` puts the lines below into the files of these names, the last one first; `$ import over f` also over one
//!   that is there.
//! - `$ front f: hello` asks for a front of these bytes in the file, or for no file.
//! - `$ off 12 3` begins anew, over a store whose power goes off in the act 12, of which 3 bytes are left. `$ loss` brings it back.
use copy_program::{Named, copy, import};
use edge_io::{CallList, ClockList, ListClock, MemorySink, MemorySource};
use plfs_types::{Bytes, LogicalName, Word};
use program_ends::Ended;
use std::alloc::Global;
use std::process::Abort;
use std::{mem, str};
use store_memory::{FailList, KeepList, MemoryStore};
use test_lines::Line;

/// The store, and what came otherwise than it was to.
#[derive(Drop)]
struct Stage {
    alloc: Global,
    store: Option<MemoryStore>,
    wrong: Line,
}

fn parts<'a>(text: &'a str, sign: &str) -> (&'a str, &'a str) {
    text.split_once(sign).unwrap_or((text, ""))
}

fn number(text: &str) -> u64 {
    text.parse::<u64>().unwrap_or(0)
}

/// The words of a text.
pub(crate) fn words_of(alloc: Global, text: &str) -> Vec<Word> {
    let mut words = Vec::new(alloc);
    for word in text.split_whitespace() {
        if let Ok(word) = Word::copy(alloc, word) {
            let _ = words.push(word);
        }
    }
    words
}

// One number, or none where there is no text.
fn one(alloc: Global, text: &str) -> CallList {
    let mut all = CallList::new(alloc);
    if !text.is_empty() {
        let _ = all.push(number(text));
    }
    all
}

// A source of these bytes, of which it gives three at a read.
fn source(alloc: Global, bytes: &str, fails: &str) -> MemorySource {
    let bytes = Bytes::copy(alloc, bytes.trim_end().as_bytes()).unwrap_or(Bytes::new(alloc));
    MemorySource::new(bytes, 3, one(alloc, fails))
}

// The status and what was printed, its lines with `; ` between them.
fn told_of(alloc: Global, status: u8, out: &MemorySink) -> Line {
    let mut told = Line::new(alloc);
    told.say("", u64::from(status));
    let text = str::from_utf8(out.taken()).unwrap_or("no text").trim_end();
    let mut is_first = true;
    for line in text.split('\n') {
        if !line.is_empty() {
            if is_first {
                told.push(" ");
            } else {
                told.push("; ");
            }
            told.push(line);
        }
        is_first = false;
    }
    told
}

// A source of each line, with its name.
fn sources(alloc: Global, names: &str, bytes: &str) -> Vec<Named<MemorySource>> {
    let mut files = Vec::new(alloc);
    let mut lines = bytes.split('\n');
    for name in names.split_whitespace() {
        let line = lines.next().unwrap_or("");
        if let Some(name) = LogicalName::read(name.as_bytes()) {
            let input = source(alloc, line, "");
            let _ = files.push(Named { name, input });
        }
    }
    files
}

// Puts the lines into the files of these names, and gives the status and what was printed.
fn put_all(stage: &mut Stage, names: &str, bytes: &str) -> Line {
    let alloc = stage.alloc;
    let Some(store) = stage.store.take() else {
        return Line::new(alloc);
    };
    let (over, names) = match names.strip_prefix("over ") {
        Some(names) => (true, names),
        None => (false, names),
    };
    let files = sources(alloc, names, bytes);
    let mut out = MemorySink::new(alloc, 1 << 20, CallList::new(alloc));
    let clock = ListClock::new(one(alloc, "10"));
    let Ended { status, store } = import(alloc, 0, over, files, &mut out, store, clock);
    drop(mem::replace(&mut stage.store, store));
    let told = told_of(alloc, status, &out);
    drop(out);
    told
}

// Runs the words, and gives the status and what was printed.
fn run(stage: &mut Stage, head: &str, bytes: &str) -> Line {
    let alloc = stage.alloc;
    let Some(store) = stage.store.take() else {
        return Line::new(alloc);
    };
    let (text, fails) = parts(head, ", fails ");
    let words = words_of(alloc, text);
    let mut input = source(alloc, bytes, fails);
    let mut out = MemorySink::new(alloc, 1 << 20, CallList::new(alloc));
    let clock = ListClock::new(one(alloc, "10"));
    let Ended { status, store } = copy(alloc, &words, &mut input, &mut out, store, clock);
    drop(mem::replace(&mut stage.store, store));
    let told = told_of(alloc, status, &out);
    drop((words, input, out));
    told
}

// Says what was told otherwise.
fn judge(stage: &mut Stage, deed: &str, told: Line, holds: bool) {
    if !holds {
        stage.wrong.push(deed);
        stage.wrong.push(": ");
        stage.wrong.push(told.as_str());
        stage.wrong.push("\n");
    }
    drop(told);
}

fn is_wanted(told: &str, want: &str) -> bool {
    match want.strip_suffix("..") {
        Some(front) => told.starts_with(front),
        None => told == want,
    }
}

// Whether a front of these bytes was written out, or there was no file.
fn is_front(told: &str, bytes: &str) -> bool {
    match told.strip_prefix("0 ") {
        Some(front) => bytes.starts_with(front),
        None => told == "0" || told == "1 0 refused no-file",
    }
}

// Says where a file has no front of these bytes.
fn look(stage: &mut Stage, name: &str, bytes: &str) {
    let mut get = Line::new(stage.alloc);
    get.push("get ");
    get.push(name);
    let told = run(stage, get.as_str(), "");
    let holds = is_front(told.as_str(), bytes);
    judge(stage, get.as_str(), told, holds);
    drop(get);
}

// The store is an empty one whose power goes off in this act, which leaves so many bytes.
fn begin(stage: &mut Stage, text: &str) {
    let (act, part) = parts(text, " ");
    let store = MemoryStore::off(stage.alloc, number(act), number(part));
    drop(mem::replace(&mut stage.store, store.ok()));
}

// The power comes back, and what was kept is left.
fn lose(stage: &mut Stage) {
    if let Some(store) = stage.store.take() {
        let left = store.lose(KeepList::new(stage.alloc));
        drop(mem::replace(&mut stage.store, Some(left)));
    }
}

// Runs the words of a deed, or puts several.
fn told_by(stage: &mut Stage, head: &str, bytes: &str) -> Line {
    match head.strip_prefix("import") {
        Some(names) => put_all(stage, names.trim_start(), bytes),
        None => run(stage, head, bytes),
    }
}

fn play(stage: &mut Stage, deed: &str) {
    let (first, bytes) = parts(deed, "\n");
    let (head, want) = parts(first, ": ");
    let (verb, rest) = parts(head, " ");
    match verb {
        "front" => look(stage, rest, want),
        "off" => begin(stage, rest),
        "loss" => lose(stage),
        _ => {
            let told = told_by(stage, head, bytes);
            let holds = is_wanted(told.as_str(), want);
            judge(stage, head, told, holds);
        }
    }
}

/// Plays sessions, each of which begins over an empty store behind `## ` and what it shows, and asks that all comes as it is told.
pub(crate) fn all_hold<R: Abort>(rt: &R, alloc: Global, sessions: &str) {
    let mut wrong = Line::new(alloc);
    for session in sessions.split("## ") {
        let (shows, deeds) = parts(session, "\n");
        let mut stage = Stage {
            alloc,
            store: MemoryStore::new(alloc, FailList::new(alloc)).ok(),
            wrong: Line::new(alloc),
        };
        for deed in deeds.split("$ ") {
            if !deed.is_empty() {
                play(&mut stage, deed);
            }
        }
        if !stage.wrong.as_str().is_empty() {
            wrong.push(shows);
            wrong.push("\n");
            wrong.push(stage.wrong.as_str());
        }
        drop(stage);
    }
    assert!(rt; wrong.as_str().is_empty(), "{}", wrong.as_str());
    drop(wrong);
}
