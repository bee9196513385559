//! Rows are played on a mount.
//!
//! In a row `1 hold 1: held` the caller 1 makes the call `hold 1`, which is answered `held`; by `1/41 hold 1: stopped` it
//! breaks it off after 41 bytes. `after 4` stands for the first four rows of a life.
use crate::calls::{FIRST, call_of, name};
use crate::spelling::{parts, spell};
use edge_io::{ClockList, ListClock};
use mount_core::{Mount, MountTrouble};
use mount_model::Ask;
use plfs_types::NoMemory;
use std::alloc::Global;
use std::process::Abort;
use store_api::{Step, Store};
use store_memory::{Fail, FailList, MemoryStore};
use test_lines::Line;

pub(crate) type Tried = Mount<MemoryStore, ListClock>;

/// What the rows of a table are about, and where memory is from.
#[derive(Clone, Copy)]
pub(crate) struct Cast {
    pub(crate) alloc: Global,
    /// The rows of which `after` and a number stand for the first so many.
    pub(crate) life: &'static str,
    /// The id for which a `$` stands.
    pub(crate) writer: u64,
    /// Whether a call is made once more where the store failed.
    pub(crate) is_again: bool,
}

impl Cast {
    /// The first writer, with this life.
    pub(crate) fn new(alloc: Global, life: &'static str) -> Self {
        Cast {
            alloc,
            life,
            writer: FIRST,
            is_again: false,
        }
    }
}

/// How a mount begins.
#[derive(Clone, Copy)]
pub(crate) struct Beginning {
    /// The act in which the store fails, and how many bytes of a write that leaves.
    pub(crate) fails: Option<(u64, u64)>,
    /// The times that the clock tells, the last one for ever.
    pub(crate) times: &'static [u64],
    /// So many serials were drawn before.
    pub(crate) drawn: u32,
}

/// Where the store never fails.
pub(crate) const SOUND: Beginning = Beginning {
    fails: None,
    times: &[10],
    drawn: 0,
};

/// Who makes a call, and after how many bytes it is broken off.
#[derive(Clone, Copy)]
pub(crate) struct By {
    pub(crate) caller: u64,
    pub(crate) stop: Option<u64>,
}

/// The caller 1 makes a whole call.
pub(crate) const ONE: By = By {
    caller: 1,
    stop: None,
};

/// A store without rooms which fails in this act, and leaves so many bytes of a write.
pub(crate) fn store(alloc: Global, fails: Option<(u64, u64)>) -> Result<MemoryStore, NoMemory> {
    let mut all = FailList::new(alloc);
    if let Some((act, part)) = fails {
        all.push(Fail { act, part })?;
    }
    MemoryStore::new(alloc, all)
}

/// A clock that tells these times.
pub(crate) fn clock(alloc: Global, times: &[u64]) -> Result<ListClock, NoMemory> {
    Ok(ListClock::new(ClockList::from_vec(Vec::from_slice(alloc, times)?)))
}

/// Makes empty files of these names in the folder.
pub(crate) fn fill(store: &mut MemoryStore, room: u64, folder: &str, names: &str) {
    for word in names.split_whitespace() {
        drop(store.act(&Step::Create {
            room,
            folder: name(folder),
            file: name(word),
        }));
    }
}

// The store, mounted so. Where it failed it is given back.
fn opened(
    alloc: Global,
    store: MemoryStore,
    beginning: &Beginning,
) -> Result<Tried, Option<MemoryStore>> {
    let Ok(clock) = clock(alloc, beginning.times) else {
        drop(store);
        return Err(None);
    };
    match Mount::open_at(alloc, store, clock, beginning.drawn) {
        Ok(mount) => Ok(mount),
        Err((store, MountTrouble::Fault)) => Err(Some(store)),
        Err(other) => {
            drop(other);
            Err(None)
        }
    }
}

/// The store, mounted so; it is tried once more where the store failed.
pub(crate) fn mounted(alloc: Global, store: MemoryStore, beginning: &Beginning) -> Option<Tried> {
    match opened(alloc, store, beginning) {
        Ok(mount) => Some(mount),
        Err(Some(store)) => opened(alloc, store, beginning).ok(),
        Err(None) => None,
    }
}

/// A store without rooms, mounted so.
pub(crate) fn begun(alloc: Global, beginning: &Beginning) -> Option<Tried> {
    let store = store(alloc, beginning.fails).ok()?;
    mounted(alloc, store, beginning)
}

/// Makes the call, and puts what it is answered behind the line.
pub(crate) fn make(alloc: Global, mount: &mut Tried, by: By, call: &str, line: &mut Line) {
    if !line.as_str().is_empty() {
        line.push(", ");
    }
    match call_of(alloc, call) {
        Some(call) => {
            let ask = Ask {
                call,
                stop: by.stop,
            };
            let reply = mount.apply(by.caller, &ask);
            drop(ask);
            spell(line, &reply);
            drop(reply);
        }
        None => line.push("no call"),
    }
}

// The row with the writer's id in the place of its `$`.
fn filled(cast: &Cast, row: &str) -> Line {
    let mut line = Line::new(cast.alloc);
    match row.split_once('$') {
        Some((begin, end)) => {
            line.say(begin, cast.writer);
            line.push(end);
        }
        None => line.push(row),
    }
    line
}

// Who makes the call of a row, and after how many bytes it is broken off where a number behind a slash says so.
fn by_of(word: &str) -> By {
    let (caller, bytes) = parts(word, '/');
    By {
        caller: caller.parse::<u64>().unwrap_or(0),
        stop: bytes.parse::<u64>().ok(),
    }
}

// Plays the row, and says behind `wrong` what comes of it otherwise.
fn play(cast: &Cast, mount: &mut Tried, row: &str, wrong: &mut Line) {
    let row = filled(cast, row);
    let (deed, want) = parts(row.as_str(), ':');
    let (word, call) = parts(deed, ' ');
    let mut line = Line::new(cast.alloc);
    make(cast.alloc, mount, by_of(word), call, &mut line);
    if cast.is_again && line.as_str() == "fault" {
        drop(line);
        line = Line::new(cast.alloc);
        make(cast.alloc, mount, by_of(word), call, &mut line);
    }
    wrong.expect(deed, &line, want);
}

/// Plays the first so many rows of the life.
pub(crate) fn live(cast: &Cast, mount: &mut Tried, count: usize, wrong: &mut Line) {
    for row in cast.life.lines().take(count) {
        play(cast, mount, row, wrong);
    }
}

/// Plays the rows.
pub(crate) fn hold(cast: &Cast, mount: &mut Tried, rows: &str, wrong: &mut Line) {
    for row in rows.lines() {
        let (word, count) = parts(row, ' ');
        if word == "after" {
            live(cast, mount, count.parse::<usize>().unwrap_or(0), wrong);
        } else {
            play(cast, mount, row, wrong);
        }
    }
}

/// Nothing came otherwise than the tables say.
pub(crate) fn ends<R: Abort>(rt: &R, wrong: Line) {
    assert!(rt; wrong.as_str().is_empty(), "{}", wrong.as_str());
    drop(wrong);
}

/// The rows of each session are answered as they say, each on a mount that begins so.
pub(crate) fn all_hold<R: Abort>(rt: &R, cast: &Cast, beginning: &Beginning, sessions: &[&str]) {
    let mut wrong = Line::new(cast.alloc);
    for rows in sessions {
        match begun(cast.alloc, beginning) {
            Some(mut mount) => {
                hold(cast, &mut mount, rows, &mut wrong);
                drop(mount);
            }
            None => wrong.push("not mounted"),
        }
    }
    ends(rt, wrong);
}
