//! Files are written out into a folder. What goes wrong with one is said on standard error as it does.
//!
//! Each is filled under a name that none of them has, and gets its own where it has all its bytes. So what stands under a name is whole,
//! also after a kill.
ghost use Rattle.std.specs.Prelude.{◌≡◌, ◌≢◌, ◌≤◌, ◌↔◌, IsErr, IfErr, IfOk, IsTrue, None, Ok, [], codes, false, length, string_bytes, true};
ghost use Rattle.std.specs.IoError.{error_kind};
ghost use Rattle.std.specs.Str.{IsUtf8};
ghost use Rattle.std.specs.Process.{exit_status};
ghost use Rattle.edge_io.specs.Sink.{Takes, taking_over};
ghost use Rattle.export_program.specs.Words.{IsExportCommand};
ghost use Rattle.export_program.specs.declared.words.ExportCommand.{ExportCommand as Asked};
ghost use Rattle.plfs.specs.Entries.{path_of};
ghost use Rattle.system_edge.specs.Telling.{tells_damage};

use crate::serve;
use crate::task::{Folders, Task};
use crate::telling::{CURE, starved, usage};
use edge_io::{Failed, Sink, StdSink, SystemClock};
use export_program::{ExportCommand, Shelf, Unmade, export};
use plfs_types::{LogicalName, NoMemory, Word};
use program_ends::Ended;
use std::alloc::{AllocError, Global};
use std::cell::RefCell;
use std::fs::{self, File};
use std::io::{self, ErrorKind, Write};
use std::process::ExitCode;
use std::str;
use std::sync::Wait;
use std::thread::Threads;
use system_edge::{
    Amount, Denial, MOST_FOLDERS, Program, Said, Saying, Spelled, Standard, lock_folders,
};

/// The name of the file that is filled. It begins with a dot, so it is none of a file of ROOT.
const FILLED: &str = ".plfs_export";

/// The most bytes of a line that are remembered.
const MOST_REMEMBERED: usize = 1024;

/// A file that is filled. It tells no bytes.
#[derive(Drop)]
struct NewFile {
    rt: HostRuntime,
    // Where it is to stand.
    path: String,
    file: File,
    faults: u64,
    stalls: u64,
}

// Says what went wrong with a file.
fn tell(rt: &HostRuntime, path: &str, what: &str, error: io::Error) {
    let path = Spelled(path);
    let _ = eprintln!(rt; "plfs: {path}: {what}: {error}");
}

// Why a file isn't made, of which the system said this. Where memory was had, it is said.
fn unmade(rt: &HostRuntime, path: &str, error: io::Error) -> Unmade
    ensures starved { error_kind error ≡ ErrorKind.OutOfMemory → result ≡ Unmade.NoMemory }
    ensures failed { error_kind error ≢ ErrorKind.OutOfMemory → result ≡ Unmade.Failed }
    ensures new { result ≢ Unmade.Exists }
{
    if error.kind() == ErrorKind::OutOfMemory {
        return Unmade::NoMemory;
    }
    tell(rt, path, "open", error);
    Unmade::Failed
}

// What comes of a file or its name that isn't kept, since the system said this. Where memory was had, it is said.
fn unkept(rt: &HostRuntime, path: &str, what: &str, error: io::Error) -> Result<bool, NoMemory>
    ensures starved { error_kind error ≡ ErrorKind.OutOfMemory → IsErr result }
    ensures failed { error_kind error ≢ ErrorKind.OutOfMemory → result ≡ Ok false }
{
    if error.kind() == ErrorKind::OutOfMemory {
        return Err(NoMemory);
    }
    tell(rt, path, what, error);
    Ok(false)
}

impl Sink for NewFile {
    ghost taking = { λ file. taking_over file.faults file.stalls };

    fn write(&mut self, piece: &[u8]) -> Result<usize, Failed>
        ensures { Takes piece.now (taking_over self.old.faults self.old.stalls) (taking_over self.new.faults self.new.stalls) result }
    {
        match self.file.write(piece) {
            Ok(count) => {
                if count == 0 && !piece.is_empty() {
                    self.stalls = self.stalls.saturating_add(1);
                }
                Ok(count)
            }
            Err(error) => {
                tell(&self.rt, self.path.as_str(), "write", error);
                self.faults = self.faults.saturating_add(1);
                Err(Failed)
            }
        }
    }
}

/// A folder in which files are kept.
#[derive(Drop)]
struct FolderShelf<'a> {
    rt: HostRuntime,
    folder: &'a Word,
    over: bool,
    // The path of the file that is filled.
    filled: String,
}

// The path of an item of this name.
fn path_in(alloc: Global, folder: &Word, name: &str) -> Result<String, AllocError>
    ensures { IfOk result (λ path. string_bytes path ≡ path_of folder.now name.now) }
{
    let mut path = String::from_str(alloc, folder.as_str())?;
    path.push_str("/")?;
    path.push_str(name)?;
    Ok(path)
}

impl<'a> FolderShelf<'a> {
    // The folder, and whether files that stand there are written over.
    fn new(rt: HostRuntime, folder: &'a Word, over: bool) -> Result<FolderShelf<'a>, AllocError>
        ensures { IfOk result (λ shelf. (shelf.over ≡ over) × (shelf.folder.now ≡ folder.now) × (string_bytes shelf.filled ≡ path_of folder.now (codes ".plfs_export"))) }
    {
        let filled = path_in(rt.alloc(), folder, FILLED)?;
        Ok(FolderShelf {
            rt,
            folder,
            over,
            filled,
        })
    }

    // Whether a file can be kept at this path: something that stands there may be written over, and is no folder.
    fn is_free(&self, path: &str) -> Result<(), Unmade>
        ensures { self.now.over ≡ true → IfErr result (λ why. why ≢ Unmade.Exists) }
    {
        match fs::symlink_metadata(&self.rt, path) {
            Ok(_) if !self.over => Err(Unmade::Exists),
            Ok(found) if found.is_dir() => {
                tell(&self.rt, path, "open", io::Error::other("it is a folder"));
                Err(Unmade::Failed)
            }
            Ok(_) => Ok(()),
            Err(error) if error.kind() == ErrorKind::NotFound => Ok(()),
            Err(error) => Err(unmade(&self.rt, path, error)),
        }
    }

    // Removes what a run that was killed has left.
    fn clear(&self) -> io::Result<()> {
        match fs::remove_file(&self.rt, self.filled.as_str()) {
            Err(error) if error.kind() != ErrorKind::NotFound => Err(error),
            _ => Ok(()),
        }
    }

    // The file that is filled, anew and without bytes.
    fn open_new(&self) -> io::Result<File> {
        self.clear()?;
        File::create_new(&self.rt, self.filled.as_str())
    }

    // A file that is to stand at this path.
    fn make_at(&self, path: String) -> Result<NewFile, Unmade>
        ensures over { self.now.over ≡ true → IfErr result (λ why. why ≢ Unmade.Exists) }
        ensures path { IfOk result (λ new. new.path ≡ path) }
        ensures none { IfOk result (λ new. (new.faults ≡ 0) × (new.stalls ≡ 0)) }
    {
        self.is_free(path.as_str())?;
        match self.open_new() {
            Ok(file) => Ok(NewFile {
                rt: self.rt,
                path,
                file,
                faults: 0,
                stalls: 0,
            }),
            Err(error) => Err(unmade(&self.rt, path.as_str(), error)),
        }
    }

    // A file that is to have this name.
    fn make_named(&self, name: LogicalName) -> Result<NewFile, Unmade>
        ensures over { self.now.over ≡ true → IfErr result (λ why. why ≢ Unmade.Exists) }
        ensures path { IsUtf8 name → IfOk result (λ new. string_bytes new.path ≡ path_of self.now.folder.now name) }
        ensures none { IfOk result (λ new. (new.faults ≡ 0) × (new.stalls ≡ 0)) }
    {
        let name = name.name();
        let name = str::from_utf8(name.bytes()).unwrap_or("");
        match path_in(self.rt.alloc(), self.folder, name) {
            Ok(path) => self.make_at(path),
            Err(_) => Err(Unmade::NoMemory),
        }
    }

    // Gives the file its own name, where all of its bytes are there for good. Whether it could.
    fn keep_new(&self, new: &NewFile) -> Result<bool, NoMemory> {
        let path = new.path.as_str();
        if let Err(error) = new.file.sync_all() {
            return unkept(&self.rt, path, "sync", error);
        }
        match fs::rename(&self.rt, self.filled.as_str(), path) {
            Ok(()) => Ok(true),
            Err(error) => unkept(&self.rt, path, "rename", error),
        }
    }

    // Removes the file that is filled, whose own name this would have been.
    fn remove(&self, path: &str) {
        if let Err(error) = self.clear() {
            tell(&self.rt, path, "remove", error);
        }
    }

    // Makes the names of the files last. Whether it could.
    fn sync(&self) -> Result<bool, NoMemory> {
        let folder = self.folder.as_str();
        let end = match File::open(&self.rt, folder) {
            Ok(opened) => opened.sync_all(),
            Err(error) => Err(error),
        };
        match end {
            Ok(()) => Ok(true),
            Err(error) => unkept(&self.rt, folder, "sync", error),
        }
    }
}

impl<'a> Shelf<NewFile> for FolderShelf<'a> {
    ghost use Rattle.std.specs.Prelude.{None};

    ghost deeds = { λ _. None };

    fn make(&mut self, name: LogicalName) -> Result<NewFile, Unmade> {
        self.make_named(name)
    }

    fn keep(&mut self, _name: LogicalName, file: NewFile) -> Result<bool, NoMemory> {
        let end = self.keep_new(&file);
        if !matches!(end, Ok(true)) {
            self.remove(file.path.as_str());
        }
        end
    }

    fn discard(&mut self, file: NewFile) {
        self.remove(file.path.as_str());
    }
}

/// A writer of lines, each of which begins with a name. Behind each that tells of damage it is said what helps.
#[derive(Drop)]
struct Lines<W> {
    rt: HostRuntime,
    writer: W,
    line: Vec<u8>,
}

impl<W: Write> Lines<W> {
    fn hear(&mut self, bytes: &[u8]) {
        for byte in bytes {
            if *byte == b'\n' {
                self.tell();
                self.line.clear();
            } else if self.line.len() < MOST_REMEMBERED {
                let _ = self.line.push(*byte);
            }
        }
    }

    // Says what is damaged, where the line tells of that.
    fn tell(&self) {
        let rt = &self.rt;
        if let Some((name, what)) = str::from_utf8(self.line.as_slice())
            .unwrap_or("")
            .split_once(' ')
        {
            if let Some(what) = what.strip_prefix("0 damaged ") {
                let _ = eprintln!(rt; "plfs: {name}: damaged {what}: {CURE}");
            }
        }
    }
}

impl<W: Write> Write for Lines<W> {
    fn write(&mut self, buf: &[u8]) -> io::Result<usize> {
        let end = self.writer.write(buf);
        if let Ok(count) = &end {
            self.hear(&buf[..*count]);
        }
        end
    }

    fn flush(&mut self) -> io::Result<()> {
        self.writer.flush()
    }
}

/// Writes all files of the store out into the folder, and ends with the greatest status.
#[inline(never)]
pub fn export_files(
    rt: &HostRuntime,
    command: ExportCommand,
    folder: &Word,
    said: &RefCell<Said>,
    amount: &RefCell<Amount>,
    store: Folders,
) -> Ended<Folders> {
    let Ok(shelf) = FolderShelf::new(*rt, folder, command.over) else {
        return Ended {
            store: Some(store),
            status: 3,
        };
    };
    let mut shelf = shelf;
    let mut sink = StdSink::new(Saying {
        writer: Lines {
            rt: *rt,
            writer: io::writer(rt),
            line: Vec::new(rt.alloc()),
        },
        said,
        amount,
    });
    let Ended { store, status } = export(
        rt.alloc(),
        &mut shelf,
        &mut sink,
        store,
        SystemClock::new(*rt),
    );
    let least = match shelf.sync() {
        Ok(true) => 0,
        Ok(false) => 6,
        Err(NoMemory) => 3,
    };
    Ended {
        store,
        status: status.max(least),
    }
}

/// Whether it was said why an export ended so, as it did: of each file that failed or is damaged it was.
pub fn tells_each(status: u8, said: &Said) -> bool
    ensures unwritten { status ≡ 6 → IsTrue result ↔ (said.now.error ≡ None) }
    ensures undamaged { status ≡ 7 → tells_damage said.now ≡ false → result ≡ true }
    ensures damaged { status ≡ 7 → tells_damage said.now ≡ true → IsUtf8 said.now.line.items → said.now.line.items ≢ [] → result ≡ false }
    ensures others { status ≢ 6 → status ≢ 7 → result ≡ false }
{
    match status {
        6 => said.error.is_none(),
        7 => said.damage().is_empty(),
        _ => false,
    }
}

// Says why files can't be written into a folder. Nothing was done.
fn tell_unhad(rt: &HostRuntime, folder: &Word, why: Denial) -> ExitCode {
    if let Denial::NoMemory = why {
        return starved(rt);
    }
    let folder = Spelled(folder.as_str());
    let _ = eprintln!(rt; "plfs: {folder}: {why}");
    ExitCode::from(6)
}

/// Writes all files out into a folder, where the words of `plfs_copy` ask for that. The folder is locked before ROOT.
#[inline(never)]
pub fn obey_export<H: Threads + Wait + Sync + Copy + Send + 'static>(
    handle: &H,
    rt: HostRuntime,
    root: &Word,
    folders: &[&str],
    words: &[Word],
    standard: &Standard,
) -> ExitCode
    requires few { length folders.now ≤ MOST_FOLDERS }
    ensures usage { ((command : Asked) → ¬ IsExportCommand words.now command) → exit_status result ≡ 2 }
{
    let Some(command) = ExportCommand::read(words) else {
        return usage(&rt, Program::Copy);
    };
    let Some(folder) = words.get(1) else {
        return usage(&rt, Program::Copy);
    };
    let locks = match lock_folders(&rt, &[folder.as_str()]) {
        Ok(locks) => locks,
        Err(denied) => return tell_unhad(&rt, folder, denied.why),
    };
    let task = Task::Export { command, folder };
    let code = serve(handle, rt, root, folders, &task, standard);
    drop(locks);
    code
}
