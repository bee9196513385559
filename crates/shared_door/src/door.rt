//! The folder by which processes come.
ghost use Rattle.std.specs.Prelude.{◌≡◌, ◌↔◌, IfOk, IsTrue, string_bytes};
ghost use Rattle.shared_door.specs.Doors.{IsProcessName, path_in};

use crate::board::Board;
use crate::process::{Left, serve_process};
use plfs_types::NoMemory;
use std::alloc::{AllocError, Global};
use std::fs::{File, OpenOptions};
use std::io::{self, Read};
use std::sync::{Arc, Wait};
use std::thread::Threads;
use std::{str, thread};

/// The most bytes of a process's name.
const MOST_NAME: usize = 40;

/// The line that lets no further process in.
const LAST: &[u8] = b"end";

/// The named pipe of a folder on which processes announce themselves, and the folder's path.
#[derive(Drop)]
pub struct Door {
    folder: String,
    join: File,
}

// A path below the folder.
fn path_of(alloc: Global, folder: &str, name: &str, ending: &str) -> Result<String, AllocError>
    ensures { IfOk result (λ path. string_bytes path ≡ path_in folder.now name.now ending.now) }
{
    let mut path = String::from_str(alloc, folder)?;
    path.push_str("/")?;
    path.push_str(name)?;
    path.push_str(ending)?;
    Ok(path)
}

// Opens a named pipe for both, which waits for nobody.
fn open_both(rt: &HostRuntime, path: &str) -> io::Result<File> {
    OpenOptions::new().read(true).write(true).open(rt, path)
}

/// Opens the named pipe `join` of the folder.
#[inline(never)]
pub fn open_door(rt: &HostRuntime, folder: &str) -> io::Result<Door>
    ensures folder { IfOk result (λ door. string_bytes door.folder ≡ folder.now) }
{
    let path = path_of(rt.alloc(), folder, "join", "")?;
    let join = open_both(rt, path.as_str())?;
    let folder = String::from_str(rt.alloc(), folder)?;
    Ok(Door { folder, join })
}

// The two pipes of a process: its requests and its answers. While one is open for both, the opening of its other end waits for nobody.
fn open_pair(rt: &HostRuntime, folder: &str, name: &str) -> io::Result<(File, File)> {
    let requests = path_of(rt.alloc(), folder, name, ".in")?;
    let answers = path_of(rt.alloc(), folder, name, ".out")?;
    let both = open_both(rt, requests.as_str())?;
    let input = File::open(rt, requests.as_str())?;
    drop(both);
    let both = open_both(rt, answers.as_str())?;
    let output = OpenOptions::new().write(true).open(rt, answers.as_str())?;
    drop(both);
    Ok((input, output))
}

// Whether it may be the name of a process: digits and dashes.
fn is_name(name: &[u8]) -> bool
    ensures { IsTrue result ↔ IsProcessName name.now }
{
    !name.is_empty()
        && name.len() <= MOST_NAME
        && name
            .iter()
            .all(|byte| byte.is_ascii_digit() || *byte == b'-')
}

// Says how a process left, where it didn't leave well.
fn say(rt: &HostRuntime, left: Left, is_closed: bool) {
    if let Left::Broken = left {
        let _ = eprintln!(rt;
            "plfs: a process: its requests end within one, or one is too long, or it took no answer"
        );
    }
    if !is_closed {
        let _ = eprintln!(rt; "plfs: a process: what it left open couldn't be closed");
    }
}

// Lets a process in, and serves it on a thread of its own.
fn let_in<H: Threads + Wait + Copy + Send + 'static>(
    handle: H,
    rt: HostRuntime,
    board: &Arc<Board>,
    folder: &str,
    name: &str,
) {
    let Ok((input, output)) = open_pair(&rt, folder, name) else {
        return;
    };
    let Ok(board_there) = Arc::try_clone(board) else {
        return;
    };
    let Some(place) = board.enter(&handle) else {
        return;
    };
    let alloc = rt.alloc();
    let started = thread::spawn(&handle, move || {
        let (left, is_closed) = serve_process(&handle, alloc, &board_there, place, input, output);
        say(&rt, left, is_closed);
    });
    if started.is_err() {
        board.leave(&handle, place, true);
    }
}

// A byte of the pipe, or None where it can't be read.
fn next_byte(join: &mut File) -> Option<u8> {
    let mut bytes = [0; 1];
    match join.read(&mut bytes) {
        Ok(1) => Some(bytes[0]),
        _ => None,
    }
}

// Takes up a line: another process, or that there is none any more. Whether further ones are taken up.
fn take_up<H: Threads + Wait + Copy + Send + 'static>(
    handle: H,
    rt: HostRuntime,
    board: &Arc<Board>,
    folder: &str,
    line: &[u8],
) -> bool {
    if line == LAST {
        board.close(&handle);
        return false;
    }
    if is_name(line) {
        let_in(
            handle,
            rt,
            board,
            folder,
            str::from_utf8(line).unwrap_or(""),
        );
    }
    true
}

// Takes up the lines of the pipe until the last.
fn take_all_up<H: Threads + Wait + Copy + Send + 'static>(
    handle: H,
    rt: HostRuntime,
    board: &Arc<Board>,
    door: Door,
) {
    let Door { folder, mut join } = door;
    let mut line = Vec::new(rt.alloc());
    for _ in handle.forever() {
        let Some(byte) = next_byte(&mut join) else {
            board.close(&handle);
            return;
        };
        if byte != b'\n' {
            if line.len() <= MOST_NAME {
                let _ = line.push(byte);
            }
        } else if take_up(handle, rt, board, folder.as_str(), line.as_slice()) {
            line.clear();
        } else {
            return;
        }
    }
}

impl Door {
    /// Lets processes in from now on, each with a thread of its own, until the line `end` comes.
    pub fn begin<H: Threads + Wait + Copy + Send + 'static>(
        self,
        handle: H,
        rt: HostRuntime,
    ) -> Result<Arc<Board>, NoMemory> {
        let board = Arc::new(rt.alloc(), Board::new(rt.alloc())?)?;
        let theirs = Arc::try_clone(&board)?;
        let door = self;
        match thread::spawn(&handle, move || take_all_up(handle, rt, &theirs, door)) {
            Ok(_) => Ok(board),
            Err(_) => Err(NoMemory),
        }
    }
}
