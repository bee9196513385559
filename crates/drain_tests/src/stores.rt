//! A source and a target in memory.
use mount_model::{Call, Look, Refusal, Reply};
use plfs_types::{Name, NoMemory, Path};
use std::alloc::Global;
use store_api::{Answer, Step, Store, Trouble};
use store_memory::{FailList, MemoryStore};
use test_lines::Line;

pub(crate) fn name(text: &str) -> Name {
    Name::from_bytes(text.as_bytes()).unwrap_or(Name::empty())
}

/// Makes a step of which no answer is looked at.
pub(crate) fn act(store: &mut MemoryStore, step: &Step<'_>) {
    drop(store.act(step));
}

pub(crate) fn empty_store(alloc: Global) -> Result<MemoryStore, NoMemory> {
    MemoryStore::new(alloc, FailList::new(alloc))
}

/// Makes the container `f` in a store without rooms.
pub(crate) fn make_container(store: &mut MemoryStore) {
    act(
        store,
        &Step::MakeRoom {
            name: name("f"),
            folders: &[
                name("openhosts"),
                name("metadata"),
                name("truncs"),
                name("flats"),
            ],
            files: &[name("access")],
        },
    );
}

/// Writes bytes into a file of the container, which is made where it is missing, as is its folder.
pub(crate) fn put(store: &mut MemoryStore, folder: &str, file: &str, at: u64, bytes: &[u8]) {
    let folder = name(folder);
    let file = name(file);
    act(store, &Step::MakeFolder { room: 0, folder });
    act(
        store,
        &Step::Create {
            room: 0,
            folder,
            file,
        },
    );
    act(
        store,
        &Step::WriteAt {
            room: 0,
            folder,
            file,
            at,
            bytes,
        },
    );
}

/// Writes entries into an index dropping. Each is five numbers: where in the file, how many bytes, where in the log, the stamp and the writer.
pub(crate) fn put_entries(
    alloc: Global,
    store: &mut MemoryStore,
    index: &str,
    at: u64,
    numbers: &[u64],
) {
    let mut bytes = Vec::new(alloc);
    for number in numbers {
        let _ = bytes.extend_from_slice(&number.to_le_bytes());
    }
    put(store, "hostdir.1", index, at, bytes.as_slice());
}

fn looked(store: &mut MemoryStore, room: u64, look: &Look) -> Result<Answer, Trouble> {
    match look {
        Look::Top => store.act(&Step::List {
            room,
            folder: Name::empty(),
        }),
        Look::List { folder } => store.act(&Step::List {
            room,
            folder: *folder,
        }),
        Look::Length { path } => store.act(&Step::Length {
            room,
            folder: path.folder,
            file: path.file,
        }),
        Look::Read { path, at, len } => store.act(&Step::ReadAt {
            room,
            folder: path.folder,
            file: path.file,
            at: *at,
            len: *len,
        }),
    }
}

fn told(answer: Result<Answer, Trouble>) -> Reply {
    match answer {
        Ok(answer) => Reply::Looked(answer),
        Err(Trouble::Fault) => Reply::Fault,
        Err(Trouble::NoMemory) => Reply::NoMemory,
    }
}

fn found(answer: Result<Answer, Trouble>) -> Reply {
    match answer {
        Ok(Answer::Number { value }) => Reply::Room { room: value },
        Ok(other) => {
            drop(other);
            Reply::Refused(Refusal::NoRoom)
        }
        Err(Trouble::Fault) => Reply::Fault,
        Err(Trouble::NoMemory) => Reply::NoMemory,
    }
}

fn done(answer: Result<Answer, Trouble>) -> Reply {
    match answer {
        Ok(answer) => {
            drop(answer);
            Reply::Done
        }
        Err(Trouble::Fault) => Reply::Fault,
        Err(Trouble::NoMemory) => Reply::NoMemory,
    }
}

fn dropping(host: u32, writer: u64, log: bool) -> Path {
    let item = if log {
        container_layout::Item::Log { host, writer }
    } else {
        container_layout::Item::Index { host, writer }
    };
    container_layout::print(&item)
}

/// What the source replies to a call. Reads of logs, and syncs, are shown.
pub(crate) fn reply_to(source: &mut MemoryStore, call: &Call, shown: &mut Line) -> Reply {
    match call {
        Call::Find { name } => found(source.act(&Step::FindRoom { name: name.name() })),
        Call::Look { room, look } => {
            if let Look::Read { path, at, len } = look {
                shown.letters("read ", path.file.bytes());
                shown.say(" ", *at);
                shown.say(" ", *len);
                shown.push("\n");
            }
            told(looked(source, *room, look))
        }
        Call::SyncDropping {
            room,
            host,
            writer,
            log,
        } => {
            let path = dropping(*host, *writer, *log);
            shown.letters("sync here ", path.file.bytes());
            shown.push("\n");
            done(source.act(&Step::Sync {
                room: *room,
                folder: path.folder,
                file: path.file,
            }))
        }
        _ => Reply::Fault,
    }
}
