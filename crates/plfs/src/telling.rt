//! What is said of how a run ended: the usage line, the line of folders that can't be had, and one line on standard error.
ghost use Rattle.std.specs.Prelude.{◌≡◌, ◌≢◌, ◌⊎◌};
ghost use Rattle.std.specs.IoError.{error_kind};
ghost use Rattle.std.specs.Process.{exit_status};
ghost use Rattle.plfs.specs.Telling.{names_a_file, unopened_status};

use crate::entries::Unlisted;
use crate::exporting::tells_each;
use crate::serving::tells_requests;
use crate::task::{Ran, Task};
use plfs_types::Word;
use program_ends::{Ended, USAGE};
use spread_store::SpreadTrouble;
use std::io::{self, ErrorKind, Write};
use std::process::ExitCode;
use std::str;
use store_folder::{Cause, FolderStore, Place};
use system_edge::{
    Denial, Denied, INPUT, OUTPUT, Program, Said, Spelled, Standard, Stores, Unopened, failed,
};

/// What helps where something is damaged.
pub const CURE: &str = "restore it from a copy";

/// What helps where a place of a file breaks a rule of small files. It may hold other bytes rightly.
const CURE_OF_VIEW: &str = "restore it from a copy, unless more than small files was written to it";

// Says on standard error why the run ended so, where its status is one of 3 to 7: of this folder, and its store.
fn tell(
    rt: &HostRuntime,
    status: u8,
    root: &str,
    store: Option<&FolderStore<HostRuntime>>,
    said: &Said,
    unread: Option<io::Error>,
    standard: &Standard,
) {
    match status {
        3 => say_starved(rt),
        4 => tell_fault(rt, root, store),
        5 => tell_stream(rt, "input: read", standard.has(INPUT), unread),
        6 => tell_stream(rt, "output: write", standard.has(OUTPUT), said.error),
        7 => tell_damage(rt, root, store, said),
        _ => {}
    }
}

/// Says why a run ended so: of the one folder, or of that of several where it did.
#[inline(never)]
pub fn tell_ran(
    rt: &HostRuntime,
    root: &Word,
    folders: &[&str],
    task: &Task<'_>,
    ran: Ran,
    standard: &Standard,
) -> ExitCode
    ensures { exit_status result ≡ ran.ended.status }
{
    let Ran {
        ended,
        said,
        unread,
        read,
        target,
    } = ran;
    let Ended { store, status } = ended;
    if is_told(rt, root, task, target, status, &said) {
        return ExitCode::from(status);
    }
    if let Task::Serve { .. } = task {
        if tells_requests(rt, root.as_str(), status, &unread) {
            return ExitCode::from(status);
        }
    }
    if status == 5 && tells_file(rt, task, read, &unread) {
        return ExitCode::from(status);
    }
    let Some(store) = store else {
        tell(rt, status, root.as_str(), None, &said, unread, standard);
        return ExitCode::from(status);
    };
    match store.apart() {
        Ok(store) => tell(
            rt,
            status,
            root.as_str(),
            Some(&store),
            &said,
            unread,
            standard,
        ),
        Err(spread) => {
            let last = spread.last();
            let stores = spread.close();
            let place = if status == 4 {
                failed(&stores, last)
            } else {
                last
            };
            let store = stores.as_slice().get(place);
            match folders.get(place) {
                Some(folder) if status == 4 || !is_of_script(&said) => {
                    tell(rt, status, folder, store, &said, unread, standard);
                }
                _ => tell(rt, status, root.as_str(), None, &said, unread, standard),
            }
        }
    }
    ExitCode::from(status)
}

// Whether what is damaged was told at a line of a script. Else the last step was made where it is.
fn is_of_script(said: &Said) -> bool {
    match said.damage().split_once(' ') {
        Some((line, _)) => line != "0",
        None => false,
    }
}

// Says of a check that the folder isn't sound, and of a drain why its target failed and which item is damaged: whether something was
// said.
fn is_told(
    rt: &HostRuntime,
    root: &Word,
    task: &Task<'_>,
    cause: Option<Cause>,
    status: u8,
    said: &Said,
) -> bool {
    if let Task::Check { .. } = task {
        if status != 7 {
            return false;
        }
        let root = Spelled(root.as_str());
        let _ = eprintln!(rt; "plfs: {root}: it isn't sound");
        return true;
    }
    if let Task::Export { .. } = task {
        return tells_each(status, said);
    }
    let Task::Drain { folder, .. } = task else {
        return false;
    };
    let folder = Spelled(folder.as_str());
    match (status, cause) {
        (4, Some(cause)) => {
            let _ = eprintln!(rt; "plfs: {folder}{cause}");
            true
        }
        (7, _) => {
            let what = match said.damage().split_once(' ') {
                Some((_, what)) => what,
                None => "damaged",
            };
            let _ = eprintln!(rt; "plfs: {folder}, or where it is drained from: {what}: {CURE}");
            true
        }
        _ => false,
    }
}

// Says which of the files in the place of standard input failed: whether there were any. Of a folder's files each that failed was told
// as it did.
fn tells_file(rt: &HostRuntime, task: &Task<'_>, read: usize, unread: &Option<io::Error>) -> bool
    ensures { result ≡ names_a_file task.now read }
{
    if let Task::Import { .. } = task {
        return true;
    }
    let Task::Copy { files, .. } = task else {
        return false;
    };
    let Some(file) = files.get(read) else {
        return false;
    };
    let file = Spelled(file.as_str());
    let _ = match unread {
        Some(error) => eprintln!(rt; "plfs: {file}: read: {error}"),
        None => eprintln!(rt; "plfs: {file}: nothing was read"),
    };
    true
}

/// Says which file in the place of standard input can't be opened, and why. Nothing was done.
#[inline(never)]
pub fn tell_unread(rt: &HostRuntime, unopened: Unopened<'_>) -> ExitCode
    ensures starved { error_kind unopened.entry.error ≡ ErrorKind.OutOfMemory → exit_status result ≡ 3 }
    ensures failed { error_kind unopened.entry.error ≢ ErrorKind.OutOfMemory → exit_status result ≡ 5 }
{
    let Unopened { file, error } = unopened;
    if error.kind() == ErrorKind::OutOfMemory {
        return starved(rt);
    }
    let file = Spelled(file.as_str());
    let _ = eprintln!(rt; "plfs: {file}: open: {error}");
    ExitCode::from(5)
}

/// Says why a folder whose files are to be put can't be listed, or which of its entries can't be looked at. Nothing was done.
#[inline(never)]
pub fn tell_unlisted(rt: &HostRuntime, folder: &Word, unlisted: Unlisted) -> ExitCode
    ensures starved { error_kind unlisted.error ≡ ErrorKind.OutOfMemory → exit_status result ≡ 3 }
    ensures failed { error_kind unlisted.error ≢ ErrorKind.OutOfMemory → exit_status result ≡ 5 }
{
    let Unlisted { entry, error } = unlisted;
    if error.kind() == ErrorKind::OutOfMemory {
        return starved(rt);
    }
    let folder = Spelled(folder.as_str());
    let _ = match entry {
        Some(entry) => {
            let entry = Spelled(str::from_utf8(entry.bytes()).unwrap_or(""));
            eprintln!(rt; "plfs: {folder}/{entry}: look: {error}")
        }
        None => eprintln!(rt; "plfs: {folder}: list: {error}"),
    };
    ExitCode::from(5)
}

// Says where the store failed, and why.
fn tell_fault(rt: &HostRuntime, root: &str, store: Option<&FolderStore<HostRuntime>>) {
    let cause = match store {
        Some(store) => store.cause(),
        None => None,
    };
    let root = Spelled(root);
    let _ = match cause {
        Some(cause) => eprintln!(rt; "plfs: {root}{cause}"),
        None => eprintln!(rt; "plfs: {root}: the store failed"),
    };
}

/// Prints the line of several folders that can't be opened as one, and says why they can't.
#[inline(never)]
pub fn tell_unopened(
    rt: &HostRuntime,
    root: &Word,
    folders: &[&str],
    stores: &Stores,
    trouble: SpreadTrouble,
    standard: &Standard,
) -> ExitCode
    ensures starved { trouble ≡ SpreadTrouble.NoMemory → exit_status result ≡ 3 }
    ensures told { (exit_status result ≡ unopened_status trouble) ⊎ (exit_status result ≡ 6) }
{
    match trouble {
        SpreadTrouble::NoMemory => starved(rt),
        SpreadTrouble::Fault => match println!(rt; "0 fault") {
            Ok(()) => {
                let place = failed(stores, 0);
                let store = stores.as_slice().get(place);
                match folders.get(place) {
                    Some(folder) => tell_fault(rt, folder, store),
                    None => tell_fault(rt, root.as_str(), store),
                }
                ExitCode::from(4)
            }
            Err(error) => unprinted(rt, error, standard),
        },
        SpreadTrouble::Doubled { name } => {
            let root = Spelled(root.as_str());
            let name = str::from_utf8(name.bytes()).unwrap_or("");
            match println!(rt; "0 damaged {name} 0") {
                Ok(()) => {
                    let _ = eprintln!(rt; "plfs: {root}: {name} stands in two of these folders");
                    ExitCode::from(7)
                }
                Err(error) => unprinted(rt, error, standard),
            }
        }
    }
}

/// Prints the line of folders of which one can't be had, and says why it can't.
#[inline(never)]
pub fn tell_denied(
    rt: &HostRuntime,
    folders: &[&str],
    denied: Denied,
    standard: &Standard,
) -> ExitCode
    ensures starved { denied.why ≡ Denial.NoMemory → exit_status result ≡ 3 }
    ensures denied { denied.why ≢ Denial.NoMemory → (exit_status result ≡ 4) ⊎ (exit_status result ≡ 6) }
{
    if let Denial::NoMemory = denied.why {
        return starved(rt);
    }
    if let Err(error) = println!(rt; "0 fault") {
        return unprinted(rt, error, standard);
    }
    let folder = Spelled(folders.get(denied.place).copied().unwrap_or(""));
    let why = denied.why;
    let _ = eprintln!(rt; "plfs: {folder}: {why}");
    ExitCode::from(4)
}

/// Says why there is no input.
#[inline(never)]
pub fn unread(rt: &HostRuntime, error: io::Error, standard: &Standard) -> ExitCode
    ensures starved { error_kind error ≡ ErrorKind.OutOfMemory → exit_status result ≡ 3 }
    ensures failed { error_kind error ≢ ErrorKind.OutOfMemory → exit_status result ≡ 5 }
{
    if error.kind() == ErrorKind::OutOfMemory {
        return starved(rt);
    }
    tell_stream(rt, "input: read", standard.has(INPUT), Some(error));
    ExitCode::from(5)
}

fn unprinted(rt: &HostRuntime, error: io::Error, standard: &Standard) -> ExitCode
    ensures { exit_status result ≡ 6 }
{
    tell_stream(rt, "output: write", standard.has(OUTPUT), Some(error));
    ExitCode::from(6)
}

// Says why a standard stream failed. One that was closed at the start is named so, whatever the system said of the
// folder in its place.
fn tell_stream(rt: &HostRuntime, stream: &str, is_closed: bool, error: Option<io::Error>) {
    let _ = match error {
        _ if is_closed => eprintln!(rt; "plfs: standard {stream}: it is closed"),
        Some(error) => eprintln!(rt; "plfs: standard {stream}: {error}"),
        None => eprintln!(rt; "plfs: standard {stream}: nothing was taken"),
    };
}

// Says what is damaged, and at which line of the script that showed. Where it was found by a command's one statement, or while a file
// was written out, the store's last step was made there; a summary tells no place.
fn tell_damage(
    rt: &HostRuntime,
    root: &str,
    store: Option<&FolderStore<HostRuntime>>,
    said: &Said,
) {
    let place = match store {
        Some(store) => store.place(),
        None => Place::root(),
    };
    let room = Place::of_room(place.room);
    let root = Spelled(root);
    let _ = match said.damage().split_once(' ') {
        Some(("0", what)) => {
            let cure = cure(what);
            eprintln!(rt; "plfs: {root}{room}: {what}: {cure}")
        }
        Some((line, what)) => eprintln!(rt; "plfs: {root}: line {line}: {what}: {CURE}"),
        None if said.has_lines => eprintln!(rt; "plfs: {root}: damaged: {CURE}"),
        None => eprintln!(rt; "plfs: {root}{place}: damaged: {CURE}"),
    };
}

// What helps where this is damaged.
fn cure(what: &str) -> &'static str {
    if what.starts_with("damaged view ") {
        CURE_OF_VIEW
    } else {
        CURE
    }
}

/// Prints the usage line of the program.
pub fn usage(rt: &HostRuntime, program: Program) -> ExitCode
    ensures { exit_status result ≡ 2 }
{
    let line = match program {
        Program::Plfs => {
            let _ = io::writer(rt).write_all(USAGE.strip_suffix(b"\n").unwrap_or(USAGE));
            b"|drain NAME FOLDER\n"
        }
        Program::Copy => copy_program::USAGE,
        Program::Check => check_program::USAGE,
        Program::Serve => serve_program::USAGE,
    };
    let _ = io::writer(rt).write_all(line);
    ExitCode::from(2)
}

/// Says that memory was refused.
pub fn starved(rt: &HostRuntime) -> ExitCode
    ensures { exit_status result ≡ 3 }
{
    say_starved(rt);
    ExitCode::from(3)
}

fn say_starved(rt: &HostRuntime) {
    let _ = eprintln!(rt; "plfs: memory was refused");
}
