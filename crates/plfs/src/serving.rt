//! Requests of other programs: they come on standard input, and their answers go to standard output; or both go by named pipes.
ghost use Rattle.std.specs.Prelude.{◌≡◌, ◌≢◌, ◌≤◌, ◌↔◌, ℕ, List, Option, None, IsTrue, false, length, true};
ghost use Rattle.std.specs.Process.{exit_status};
ghost use Rattle.serve_program.specs.Words.{IsServeCommand};

use crate::serve;
use crate::task::{Folders, Task};
use crate::telling::{starved, tell_denied, usage};
use edge_io::{Sink, StdSink, StdSource, SystemClock};
use frame_streams::SourceFrames;
use plfs_types::Word;
use program_ends::Ended;
use serve_program::{ServeCommand, serve_all};
use shared_door::{Answers, Board, Hearing, Requests, input_frames, open_door};
use shared_frames::Exchange;
use std::cell::RefCell;
use std::io;
use std::process::ExitCode;
use std::sync::Wait;
use std::thread::Threads;
use system_edge::{MOST_FOLDERS, Program, Spelled, Standard, lock_folders};

/// Answers the requests of standard input over the store, whose writers are of this host.
#[inline(never)]
pub fn serve_requests<H: Threads + Wait + Copy + Send + 'static, O: Sink>(
    handle: &H,
    rt: &HostRuntime,
    host: u32,
    error: &RefCell<Option<io::Error>>,
    sink: &mut O,
    store: Folders,
) -> Ended<Folders> {
    let mut frames = input_frames(*handle, *rt, error);
    let ended = serve_all(
        rt.alloc(),
        host,
        &mut frames,
        sink,
        store,
        SystemClock::new(*rt),
    );
    frames.end();
    ended
}

/// Answers the requests of the processes of this board over the store, whose writers are of this host.
#[inline(never)]
pub fn serve_processes<H: Wait>(
    handle: &H,
    rt: &HostRuntime,
    host: u32,
    board: &Board,
    error: &RefCell<Option<io::Error>>,
    store: Folders,
) -> Ended<Folders> {
    let alloc = rt.alloc();
    let exchange = RefCell::new(Exchange::new(alloc));
    let exchange = &exchange;
    let reader = Requests {
        rt: handle,
        alloc,
        board,
        exchange,
    };
    let mut sink = StdSink::new(Answers {
        rt: handle,
        alloc,
        board,
        exchange,
    });
    let mut frames = SourceFrames {
        source: StdSource::new(Hearing { reader, error }),
    };
    let ended = serve_all(
        alloc,
        host,
        &mut frames,
        &mut sink,
        store,
        SystemClock::new(*rt),
    );
    board.end(handle);
    ended
}

/// Answers requests, where the words are those of `plfs_serve`: of standard input, or of the processes that come by the folder behind `--at`.
#[inline(never)]
pub fn obey_serve<H: Threads + Wait + Sync + Copy + Send + 'static>(
    handle: &H,
    rt: HostRuntime,
    root: &Word,
    folders: &[&str],
    words: &[Word],
    standard: &Standard,
) -> ExitCode
    requires few { length folders.now ≤ MOST_FOLDERS }
    ensures usage { ((folder : Option (List ℕ)) (host : ℕ) → ¬ IsServeCommand words.now folder host) → exit_status result ≡ 2 }
{
    let Some(ServeCommand { folder, host }) = ServeCommand::read(words) else {
        return usage(&rt, Program::Serve);
    };
    match folder {
        Some(folder) => obey_door(handle, rt, root, folders, host, folder, standard),
        None => {
            let task = Task::Serve { host, board: None };
            serve(handle, rt, root, folders, &task, standard)
        }
    }
}

// Lets processes in by the folder, which is locked, and serves them.
#[inline(never)]
fn obey_door<H: Threads + Wait + Sync + Copy + Send + 'static>(
    handle: &H,
    rt: HostRuntime,
    root: &Word,
    folders: &[&str],
    host: u32,
    folder: &Word,
    standard: &Standard,
) -> ExitCode
    requires few { length folders.now ≤ MOST_FOLDERS }
{
    let names = [folder.as_str()];
    let locks = match lock_folders(&rt, &names) {
        Ok(locks) => locks,
        Err(denied) => return tell_denied(&rt, &names, denied, standard),
    };
    let door = match open_door(&rt, folder.as_str()) {
        Ok(door) => door,
        Err(error) => {
            let folder = Spelled(folder.as_str());
            let _ = eprintln!(rt; "plfs: {folder}/join: open: {error}");
            return ExitCode::from(5);
        }
    };
    let Ok(board) = door.begin(*handle, rt) else {
        return starved(&rt);
    };
    let task = Task::Serve {
        host,
        board: Some(&board),
    };
    let code = serve(handle, rt, root, folders, &task, standard);
    drop(locks);
    code
}

/// Says what no stream and no folder tells: that the input was cut off or a request too long, or that no mount is left. Whether it was said.
pub fn tells_requests(rt: &HostRuntime, root: &str, status: u8, unread: &Option<io::Error>) -> bool
    ensures unmounted { status ≡ 1 → result ≡ true }
    ensures cut_off { status ≡ 5 → IsTrue result ↔ (unread.now ≡ None) }
    ensures others { status ≢ 1 → status ≢ 5 → result ≡ false }
{
    match (status, unread) {
        (1, _) => {
            let root = Spelled(root);
            let _ = eprintln!(rt; "plfs: {root}: it can't be mounted once more");
            true
        }
        (5, None) => {
            let _ = eprintln!(rt;
                "plfs: standard input: it ends within a request, or a request is too long"
            );
            true
        }
        _ => false,
    }
}
