//! A command, and its run over the folders, the standard streams and the system's clock.
ghost use Rattle.std.specs.Prelude.{◌≡◌, ◌≤◌, ◌⊎◌, true, false};
ghost use Rattle.plfs.specs.Tasks.{copies_as_it_goes, has_lines, starts_threads, writes_whole_files};

use crate::entries::Entries;
use crate::exporting::export_files;
use crate::progress::Progress;
use crate::reading::{copies_the_input, writes_a_file};
use crate::serving::{serve_processes, serve_requests};
use check_program::check;
use command_line::Command;
use copy_program::{CopyCommand, ImportCommand, copy, import};
use drain_program::{DrainEnded, drain};
use edge_io::{NoGate, Sink, StdSink, StdSource, SystemClock};
use export_program::ExportCommand;
use plfs_program::{HeldInput, plfs};
use plfs_types::Word;
use program_ends::Ended;
use shared_door::Board;
use spread_store::Backing;
use std::cell::RefCell;
use std::fs::File;
use std::io::{self, Read};
use std::mem;
use std::sync::Wait;
use std::thread::Threads;
use store_folder::{Cause, FolderStore};
use system_edge::{Amount, Files, Input, Said, Saying, files_length, input_length};

/// The folders that a command is run over. All runs are over this one type, so that the program is compiled once.
pub type Folders = Backing<FolderStore<HostRuntime>>;

/// A command.
#[derive(Clone, Copy)]
pub enum Task<'a> {
    /// Of `plfs`: its words, which are of this kind, and the input that was read for it.
    Plfs {
        words: &'a [Word],
        command: Command,
        input: &'a RefCell<HeldInput>,
    },
    /// Of `plfs_copy`: its words, which are of this kind. It reads its input as it goes: standard input, or these files, which are open
    /// where there are any, the last one first.
    Copy {
        words: &'a [Word],
        command: CopyCommand,
        files: &'a [Word],
        opened: &'a RefCell<Vec<File>>,
    },
    /// Of `plfs_copy`: what is put of a folder, and how.
    Import {
        command: ImportCommand,
        folder: &'a Word,
        entries: &'a Entries,
    },
    /// Of `plfs_copy`: how all files are written out, and the folder of those, which is locked.
    Export {
        command: ExportCommand,
        folder: &'a Word,
    },
    /// Of `plfs_check`: its words.
    Check {
        words: &'a [Word],
    },
    /// Of `plfs`: a drain's words, and the folder of its target, which is locked.
    Drain {
        words: &'a [Word],
        folder: &'a Word,
    },
    /// Of `plfs_serve`: the host of the writers, and who is served: the processes of this board, or standard input where there is none.
    Serve {
        host: u32,
        board: Option<&'a Board>,
    },
}

/// What a run leaves: the store, the status, what was written to standard output, and why the reading of standard input failed last.
#[derive(Drop)]
pub struct Ran {
    pub ended: Ended<Folders>,
    pub said: Said,
    pub unread: Option<io::Error>,
    /// How many files in the place of standard input were read to their ends.
    pub read: usize,
    /// Why the target of a drain failed.
    pub target: Option<Cause>,
}

/// A reader, beside which stands why it failed last. It shows how much it read.
#[derive(Drop)]
struct Hearing<'a, 'b, R> {
    reader: R,
    error: &'a RefCell<Option<io::Error>>,
    amount: &'b RefCell<Amount>,
}

impl<'a, 'b, R: Read> Read for Hearing<'a, 'b, R> {
    ghost remaining = { λ hearing. R.remaining hearing.reader };

    fn read(&mut self, buf: &mut [u8]) -> io::Result<usize> {
        let end = self.reader.read(buf);
        match &end {
            Ok(count) => {
                if let Ok(mut amount) = self.amount.try_borrow_mut() {
                    amount.add(*count);
                }
            }
            Err(error) => {
                if let Ok(mut last) = self.error.try_borrow_mut() {
                    *last = Some(*error);
                }
            }
        }
        end
    }
}

// What stands there, in whose place this comes.
fn taken<T: Drop>(cell: &RefCell<T>, instead: T) -> T {
    match cell.try_borrow_mut() {
        Ok(mut it) => mem::replace(&mut *it, instead),
        Err(_) => instead,
    }
}

// Whether what the command writes has lines that begin with a number. Those of an import begin with a name.
fn has_lines(task: &Task<'_>) -> bool
    ensures { result ≡ has_lines task.now }
{
    match task {
        Task::Plfs { command, .. } => !writes_a_file(command),
        Task::Copy { command, .. } => copies_the_input(command),
        Task::Import { .. } => false,
        Task::Check { .. } | Task::Export { .. } => true,
        Task::Drain { .. } => true,
        Task::Serve { .. } => false,
    }
}

/// Whether the command writes out whole files of a container.
pub fn writes_whole_files(task: &Task<'_>) -> bool
    ensures { result ≡ writes_whole_files task.now }
{
    match task {
        Task::Plfs { command, .. } => matches!(command, Command::Cat { .. }),
        Task::Copy { command, .. } => !copies_the_input(command),
        Task::Export { .. } => true,
        Task::Import { .. } | Task::Check { .. } | Task::Drain { .. } | Task::Serve { .. } => false,
    }
}

/// Whether threads may be at work beside the one that runs the command.
pub fn starts_threads(task: &Task<'_>) -> bool
    ensures { result ≡ starts_threads task.now }
{
    match task {
        Task::Plfs { command, .. } => matches!(command, Command::Run | Command::Cat { .. }),
        Task::Serve { .. } => true,
        Task::Copy { .. } | Task::Export { .. } => writes_whole_files(task),
        Task::Import { .. } | Task::Check { .. } | Task::Drain { .. } => false,
    }
}

// How many bytes standard input has, or the files in its place.
fn copied_length(rt: &HostRuntime, files: &[Word], opened: &RefCell<Vec<File>>) -> u64 {
    if files.is_empty() {
        return input_length(rt);
    }
    match opened.try_borrow() {
        Ok(opened) => files_length(opened.as_slice()),
        Err(_) => 0,
    }
}

// How many bytes are copied, where that is known, and else 0.
fn length_of(rt: &HostRuntime, task: &Task<'_>) -> u64
    ensures { copies_as_it_goes task.now ≡ false → result ≡ 0 }
{
    match task {
        Task::Copy {
            command,
            files,
            opened,
            ..
        } => {
            if copies_the_input(command) {
                copied_length(rt, files, opened)
            } else {
                0
            }
        }
        _ => 0,
    }
}

// Puts the files of a folder, and ends with the greatest status.
#[inline(never)]
fn put_files<O: Sink>(
    rt: &HostRuntime,
    command: ImportCommand,
    folder: &Word,
    entries: &Entries,
    sink: &mut O,
    store: Folders,
) -> Ended<Folders>
    ensures closed { entries.now.has_closed ≡ true → (5 ≤ result.status) ⊎ (result.status ≡ 3) }
    ensures others { entries.now.has_others ≡ true → 1 ≤ result.status }
{
    let Ok(files) = entries.sources(*rt, folder) else {
        return Ended {
            store: Some(store),
            status: 3,
        };
    };
    let Ended { store, status } = import(
        rt.alloc(),
        command.host,
        command.over,
        files,
        sink,
        store,
        SystemClock::new(*rt),
    );
    let least = if entries.has_closed {
        5
    } else {
        u8::from(entries.has_others)
    };
    Ended {
        store,
        status: status.max(least),
    }
}

// Drains from the store to this folder: what is left of the store, the status, and why the target failed.
#[inline(never)]
fn drain_to<O: Sink>(
    rt: &HostRuntime,
    words: &[Word],
    folder: &Word,
    sink: &mut O,
    store: Folders,
) -> (Ended<Folders>, Option<Cause>) {
    let Ok(target) = FolderStore::open(*rt, rt.alloc(), folder) else {
        let ended = Ended {
            store: Some(store),
            status: 3,
        };
        return (ended, None);
    };
    let DrainEnded {
        store,
        target,
        status,
    } = drain(
        rt.alloc(),
        words,
        sink,
        store,
        target,
        SystemClock::new(*rt),
    );
    let cause = target.cause();
    drop(target);
    (Ended { store, status }, cause)
}

// Copies what is read there.
#[inline(never)]
fn copy_heard<R: Read + Drop, O: Sink>(
    rt: &HostRuntime,
    words: &[Word],
    heard: Hearing<'_, '_, R>,
    sink: &mut O,
    store: Folders,
) -> Ended<Folders> {
    copy(
        rt.alloc(),
        words,
        &mut StdSource::new(heard),
        sink,
        store,
        SystemClock::new(*rt),
    )
}

/// Runs the command over the store, its input, standard output and the system's clock.
pub fn run<H: Threads + Wait + Sync + Copy + Send + 'static>(
    handle: &H,
    rt: &HostRuntime,
    task: &Task<'_>,
    store: Folders,
) -> Ran {
    let said = RefCell::new(Said::new(rt.alloc(), has_lines(task)));
    let error = RefCell::new(None);
    let read = RefCell::new(0);
    let amount = RefCell::new(Amount::new(*rt, length_of(rt, task)));
    let mut sink = StdSink::new(Saying {
        writer: io::writer(rt),
        said: &said,
        amount: &amount,
    });
    let mut target = None;
    let ended = match task {
        Task::Plfs { words, input, .. } => plfs(
            handle,
            rt.alloc(),
            words,
            &mut taken(input, HeldInput::new(Vec::new(rt.alloc()))),
            &mut sink,
            store,
            SystemClock::new(*rt),
            &NoGate,
        ),
        Task::Copy {
            words,
            files,
            opened,
            ..
        } => {
            let reader = if files.is_empty() {
                Input::Standard(rt.stdin())
            } else {
                Input::Files(Files::new(taken(opened, Vec::new(rt.alloc())), &read))
            };
            let (error, amount) = (&error, &amount);
            copy_heard(
                rt,
                words,
                Hearing {
                    reader,
                    error,
                    amount,
                },
                &mut sink,
                store,
            )
        }
        Task::Import {
            command,
            folder,
            entries,
        } => put_files(rt, *command, folder, entries, &mut sink, store),
        Task::Export { command, folder } => {
            export_files(rt, *command, folder, &said, &amount, store)
        }
        Task::Check { words } => check(rt.alloc(), words, &mut sink, &mut Progress::new(rt), store),
        Task::Drain { words, folder } => {
            let (ended, left) = drain_to(rt, words, folder, &mut sink, store);
            target = left;
            ended
        }
        Task::Serve { host, board: None } => {
            serve_requests(handle, rt, *host, &error, &mut sink, store)
        }
        Task::Serve {
            host,
            board: Some(board),
        } => serve_processes(handle, rt, *host, board, &error, store),
    };
    drop(sink);
    Ran {
        ended,
        said: said.into_inner(),
        unread: error.into_inner(),
        read: read.into_inner(),
        target,
    }
}
