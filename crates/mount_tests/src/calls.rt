//! The calls, as the tables spell them: a verb, and then numbers or a name.
ghost use Rattle.std.specs.Prelude.{IfSome};
ghost use Rattle.mount_model.specs.Step.{OwedBy};

use crate::spelling::parts;
use mount_model::{Call, Look};
use plfs_types::{Block, Bytes, Cover, LogicalName, Name, Path};
use std::alloc::Global;

/// The id that a first mount draws first.
pub(crate) const FIRST: u64 = 4294967297;

pub(crate) fn name(text: &str) -> Name {
    Name::from_bytes(text.as_bytes()).unwrap_or(Name::empty())
}

/// A folder and a file, with a slash between them.
pub(crate) fn path(text: &str) -> Path {
    let (folder, file) = parts(text, '/');
    Path {
        folder: name(folder),
        file: name(file),
    }
}

/// Up to three numbers; 0 stands for each that is missing.
pub(crate) fn numbers(text: &str) -> Option<[u64; 3]> {
    let mut all = [0; 3];
    let mut words = text.split_whitespace();
    for place in 0..3 {
        if let Some(word) = words.next() {
            all[place] = word.parse::<u64>().ok()?;
        }
    }
    Some(all)
}

/// A look at the container of room 1. `read` reads the first ten bytes.
fn look(verb: &str, at: &str) -> Look {
    match verb {
        "list" => Look::List { folder: name(at) },
        "length" => Look::Length { path: path(at) },
        _ => Look::Read {
            path: path(at),
            at: 0,
            len: 10,
        },
    }
}

/// The calls with a name. Behind that a `move` has the holder.
fn of_name(verb: &str, words: &str) -> Option<Call>
    ensures { IfSome result (λ call. OwedBy call) }
{
    let (text, holder) = parts(words, ' ');
    let holder = holder.parse::<u64>().unwrap_or(0);
    let name = LogicalName::read(text.as_bytes())?;
    match verb {
        "find" => Some(Call::Find { name }),
        "make" => Some(Call::MakeContainer { name }),
        _ => Some(Call::Move { holder, to: name }),
    }
}

fn block(alloc: Global) -> Option<Block> {
    Block::new(Bytes::copy(alloc, b"ABCD").ok()?).ok()
}

fn flattened(alloc: Global) -> Option<Bytes> {
    Bytes::copy(alloc, b"0123456789abcdef0123456789abcdef0123456789abcdef").ok()
}

/// A writer's own calls, each by its id. It writes `ABCD` at 0.
fn of_writer(alloc: Global, verb: &str, writer: u64) -> Option<Call>
    ensures { IfSome result (λ call. OwedBy call) }
{
    match verb {
        "floor" => Some(Call::Floor { writer }),
        "hostdir" => Some(Call::MakeHostdir { writer }),
        "index" => Some(Call::MakeIndex { writer }),
        "log" => Some(Call::MakeLog { writer }),
        "write" => Some(Call::Write {
            writer,
            at: 0,
            block: block(alloc)?,
        }),
        "flush" => Some(Call::Flush { writer }),
        "sync-log" => Some(Call::SyncLog { writer }),
        "sync-index" => Some(Call::SyncIndex { writer }),
        "meta" => Some(Call::PutMeta { writer }),
        "exit" => Some(Call::Exit { writer }),
        "inspect" => Some(Call::Inspect { writer }),
        _ => None,
    }
}

/// The calls on a room or a flattening. `pack` packs the first writer of host 39, and `put` writes 48 bytes.
fn of_room(alloc: Global, verb: &str, number: u64) -> Option<Call>
    ensures { IfSome result (λ call. OwedBy call) }
{
    match verb {
        "top" => Some(Call::Look {
            room: number,
            look: Look::Top,
        }),
        "hold" => Some(Call::Hold { room: number }),
        "mend-hold" => Some(Call::MendHold { room: number }),
        "release" => Some(Call::Release { holder: number }),
        "flatten" => Some(Call::StartFlat { room: number }),
        "pack" => Some(Call::StartPack {
            room: number,
            host: 39,
            writer: FIRST,
        }),
        "put" => Some(Call::PutFlat {
            flat: number,
            bytes: flattened(alloc)?,
        }),
        "sync-flat" => Some(Call::SyncFlat { flat: number }),
        "install" => Some(Call::InstallFlat { flat: number }),
        _ => of_writer(alloc, verb, number),
    }
}

/// The calls on what the first writer left in a room, of one entry of 4 bytes with the stamp 10; and those of several
/// numbers.
fn of_numbers(alloc: Global, verb: &str, numbers: [u64; 3]) -> Option<Call>
    ensures { IfSome result (λ call. OwedBy call) }
{
    let [first, second, third] = numbers;
    let room = first;
    let host = u32::try_from(second).unwrap_or(u32::MAX);
    let writer = FIRST;
    match verb {
        "enter" => Some(Call::Enter {
            room,
            host,
            cap: 64,
        }),
        "mark" => Some(Call::Mark {
            holder: first,
            size: second,
            top: third,
        }),
        "left-log" => Some(Call::SyncDropping {
            room,
            host,
            writer,
            log: true,
        }),
        "left-index" => Some(Call::SyncDropping {
            room,
            host,
            writer,
            log: false,
        }),
        "mend" => Some(Call::Mend {
            room,
            host: 0,
            writer,
            whole: second.min(255),
        }),
        "mend-meta" => Some(Call::MendMeta {
            room,
            host: 0,
            cover: Cover {
                writer,
                count: 1,
                bytes: 4,
                stamp: 10,
            },
            last: 4,
        }),
        "bury" => Some(Call::Bury {
            room,
            host: 0,
            writer,
        }),
        _ => of_room(alloc, verb, first),
    }
}

/// The call of this text.
pub(crate) fn call_of(alloc: Global, text: &str) -> Option<Call>
    ensures { IfSome result (λ call. OwedBy call) }
{
    let (verb, words) = parts(text, ' ');
    match verb {
        "greet" => Some(Call::Greet),
        "rooms" => Some(Call::Rooms),
        "find" | "make" | "move" => of_name(verb, words),
        "list" | "length" | "read" => Some(Call::Look {
            room: 1,
            look: look(verb, words),
        }),
        _ => of_numbers(alloc, verb, numbers(words)?),
    }
}
