//! The system itself.
ghost use Rattle.std.specs.Prelude.{◌≡◌, ◌∷◌, [], None, IfErr, IfOk, IfSome, IsSomeAnd, IsTrue};
ghost use Rattle.std.specs.Fs.{IsFile, file_type, metadata_len};
ghost use Rattle.folder_calls.specs.Ahead.{HoldsNone};
ghost use Rattle.folder_calls.specs.Calls.{Makes, removed_file, resized_file, wrote_bytes};
ghost use Rattle.folder_calls.specs.Kinds.{IsKindOf};
ghost use Rattle.folder_calls.specs.Noted.{noted, Tells, TellsFailedList, TellsOpening};
ghost use Rattle.folder_calls.specs.Syncs.{counting};

use crate::ahead::{LongReads, ReadAhead};
use crate::calls::{Calls, Removal};
use crate::failure::Failure;
use crate::reason::{Asked, Kind, Reason};
use plfs_types::{Name, NameList};
use std::alloc::Global;
use std::fs::{self, DirEntry, File, Metadata, OpenOptions, ReadDir};
use std::io::{self, ErrorKind};
use std::os::unix::fs::{FileExt, MetadataExt};
use std::rt::Files;
use std::sync::Arc;

/// What the store needs of the runtime that it keeps: the system's files, and memory for the names in a folder.
pub trait System: Files<File = File> + AllocGlobal + Clone + Drop {}

impl<R: Files<File = File> + AllocGlobal + Clone + Drop> System for R {}

/// The system by a runtime. It tells no calls, and keeps why the last one failed or what the last one found, and how
/// many syncs failed, up to 2^64 - 1.
#[derive(Drop)]
pub struct SystemCalls<R> {
    rt: R,
    last: Option<Reason>,
    unsynced: u64,
    // Long reads, where a thread makes them ahead.
    ahead: Option<LongReads>,
}

/// How often a look or a listing is made that a signal interrupts each time. Another one is made again by the library,
/// and a change of names may have been made.
const MOST_TRIES: u32 = 16;

// What an item of a folder is, by what the system says of it.
fn kind_of(found: &Metadata) -> Kind
    ensures { IsKindOf (file_type found.now) (metadata_len found.now) result }
{
    if found.is_file() {
        Kind::File { len: found.len() }
    } else if found.is_dir() {
        Kind::Folder
    } else {
        Kind::Other
    }
}

// Whether both are one plain file.
fn are_one_file(a: &Metadata, b: &Metadata) -> bool
    ensures plain { IsTrue result → IsFile (file_type a.now) × IsFile (file_type b.now) }
{
    a.is_file() && b.is_file() && a.dev() == b.dev() && a.ino() == b.ino()
}

// The name of a listed item. It fails where that is no text in UTF-8, or longer than 96 bytes.
fn name_of<R: System>(entry: &DirEntry<R, Global>) -> io::Result<Name> {
    match Name::from_bytes(entry.file_name().as_bytes()) {
        Some(name) => Ok(name),
        None => Err(io::Error::other("a name there is longer than 96 bytes")),
    }
}

fn names_of<R: System>(alloc: Global, listing: ReadDir<R, Global>) -> io::Result<NameList> {
    let mut names = Vec::new(alloc);
    for entry in listing {
        names.push(name_of(&entry?)?)?;
    }
    Ok(NameList::from_vec(names))
}

// The names in a folder. The listing has a buffer of 8 KiB on the stack, which is not to stand in the frames of callers.
#[inline(never)]
fn list_once<R: System>(rt: &R, alloc: Global, path: &str) -> io::Result<NameList> {
    match fs::read_dir(rt, path) {
        Ok(listing) => names_of(alloc, listing),
        Err(error) => Err(error),
    }
}

// The same, begun anew where a signal interrupts it.
fn names_in<R: System>(rt: &R, alloc: Global, path: &str) -> io::Result<NameList> {
    for _ in 1..MOST_TRIES {
        match list_once(rt, alloc, path) {
            Err(error) if error.kind() == ErrorKind::Interrupted => {}
            end => return end,
        }
    }
    list_once(rt, alloc, path)
}

// What stands at a path, looked for again where a signal interrupts that.
fn found_at<R: System>(rt: &R, path: &str) -> io::Result<Metadata> {
    for _ in 1..MOST_TRIES {
        match fs::symlink_metadata(rt, path) {
            Err(error) if error.kind() == ErrorKind::Interrupted => {}
            end => return end,
        }
    }
    fs::symlink_metadata(rt, path)
}

impl<R> SystemCalls<R> {
    /// The system by this runtime.
    pub fn new(rt: R) -> Self
        ensures { result ≡ record { rt = rt; last = None; unsynced = 0; ahead = None } }
    {
        SystemCalls {
            rt,
            last: None,
            unsynced: 0,
            ahead: None,
        }
    }

    /// From now on a thread may read ahead of long reads that follow each other.
    pub fn read_ahead_by(&mut self, alloc: Global, shared: Arc<ReadAhead>)
        ensures same { (self.new.last ≡ self.old.last) × (self.new.unsynced ≡ self.old.unsynced) }
        ensures begun { IsSomeAnd self.new.ahead HoldsNone }
    {
        self.ahead = Some(LongReads::new(alloc, shared));
    }

    // A file is changed: what was read ahead is not what stands there.
    fn forget_ahead(&mut self)
        ensures same { (self.new.last ≡ self.old.last) × (self.new.unsynced ≡ self.old.unsynced) }
        ensures forgotten { IfSome self.new.ahead HoldsNone }
    {
        if let Some(ahead) = &mut self.ahead {
            ahead.forget();
        }
    }

    // Keeps what a call told, unless one failed before: that is why the step fails.
    fn note(&mut self, reason: Reason)
        ensures noted { self.new.last ≡ noted self.old.last reason }
        ensures syncs { self.new.unsynced ≡ self.old.unsynced }
    {
        if !matches!(self.last, Some(Reason::System { .. })) {
            self.last = Some(reason);
        }
    }

    // Keeps why a call failed.
    fn fail(&mut self, asked: Asked, error: io::Error) -> Failure
        ensures failed { result ≡ Failure.Failed }
        ensures noted { self.new.last ≡ noted self.old.last (Reason.System asked error) }
        ensures syncs { self.new.unsynced ≡ self.old.unsynced }
    {
        self.note(Reason::System { asked, error });
        Failure::Failed
    }

    // A call's end, and why it failed.
    fn ended<T: Drop>(&mut self, asked: Asked, end: io::Result<T>) -> Result<T, Failure>
        ensures failed { IfErr result (λ failure. failure ≡ Failure.Failed) }
        ensures tells { Tells asked self.old.last self.new.last result }
        ensures syncs { self.new.unsynced ≡ self.old.unsynced }
    {
        match end {
            Ok(value) => Ok(value),
            Err(error) => Err(self.fail(asked, error)),
        }
    }

    // A sync's end, and why it failed. One that did is counted.
    fn synced(&mut self, end: io::Result<()>) -> Result<(), Failure>
        ensures failed { IfErr result (λ failure. failure ≡ Failure.Failed) }
        ensures tells { Tells Asked.Sync self.old.last self.new.last result }
        ensures syncs { self.new.unsynced ≡ counting result self.old.unsynced }
    {
        let end = self.ended(Asked::Sync, end);
        if end.is_err() {
            self.unsynced = self.unsynced.saturating_add(1);
        }
        end
    }

    // A call's end where this error is an answer, and not a failure.
    fn unless(
        &mut self,
        asked: Asked,
        answer: ErrorKind,
        end: io::Result<()>,
    ) -> Result<bool, Failure>
        ensures failed { IfErr result (λ failure. failure ≡ Failure.Failed) }
        ensures tells { Tells asked self.old.last self.new.last result }
        ensures syncs { self.new.unsynced ≡ self.old.unsynced }
    {
        match end {
            Ok(()) => Ok(true),
            Err(error) if error.kind() == answer => Ok(false),
            Err(error) => Err(self.fail(asked, error)),
        }
    }

    // Keeps why a listing failed. It changes nothing, so that want of memory in it may be answered as such.
    fn fail_listing(&mut self, error: io::Error) -> Failure
        ensures tells { TellsFailedList self.old.last self.new.last result }
        ensures syncs { self.new.unsynced ≡ self.old.unsynced }
    {
        if error.kind() == ErrorKind::OutOfMemory {
            Failure::NoMemory
        } else {
            self.fail(Asked::List, error)
        }
    }
}

impl<R: System> SystemCalls<R> {
    // Opens a plain file. Where a link or another file came to the path meanwhile it fails, before any byte of that
    // is read or written.
    fn open_same(&mut self, path: &str, there: &Metadata) -> Result<Option<File>, Failure>
        ensures failed { IfErr result (λ failure. failure ≡ Failure.Failed) }
        ensures tells { Tells Asked.Open self.old.last self.new.last result }
        ensures syncs { self.new.unsynced ≡ self.old.unsynced }
    {
        let opened = OpenOptions::new()
            .read(true)
            .write(true)
            .open(&self.rt, path);
        let file = self.ended(Asked::Open, opened)?;
        let found = file.metadata();
        let found = self.ended(Asked::Open, found)?;
        if are_one_file(there, &found) {
            Ok(Some(file))
        } else {
            Err(self.fail(Asked::Open, io::Error::other("it was replaced meanwhile")))
        }
    }
}

#[tactic(auto, unfolding(crate::specs::Calls::with_call))]
impl<R: System> Calls for SystemCalls<R> {
    type File = File;

    ghost log = { λ _. None };

    ghost told = { λ calls. calls.last };

    ghost unsynced = { λ calls. calls.unsynced };

    ghost counted = { λ _. tt };

    fn failed_syncs(&self) -> u64 {
        self.unsynced
    }

    fn forget(&mut self) {
        self.last = None;
    }

    fn tell(&mut self, reason: Reason) {
        self.note(reason);
    }

    fn reason(&self) -> Option<Reason> {
        self.last
    }

    fn look(&mut self, path: &str) -> Result<Kind, Failure> {
        let kind = match found_at(&self.rt, path) {
            Ok(found) => kind_of(&found),
            Err(error) if error.kind() == ErrorKind::NotFound => Kind::Absent,
            Err(error) => return Err(self.fail(Asked::Look, error)),
        };
        self.note(Reason::Found { kind });
        Ok(kind)
    }

    fn list(&mut self, alloc: Global, path: &str) -> Result<NameList, Failure> {
        match names_in(&self.rt, alloc, path) {
            Ok(names) => Ok(names),
            Err(error) => Err(self.fail_listing(error)),
        }
    }

    fn open(&mut self, path: &str) -> Result<Option<File>, Failure> {
        match found_at(&self.rt, path) {
            Ok(there) if there.is_file() => self.open_same(path, &there),
            Ok(there) => {
                let kind = kind_of(&there);
                self.note(Reason::Found { kind });
                Err(Failure::Failed)
            }
            Err(error) if error.kind() == ErrorKind::NotFound => Ok(None),
            Err(error) => Err(self.fail(Asked::Open, error)),
        }
    }

    fn create(&mut self, path: &str) -> Result<Option<File>, Failure> {
        match File::create_new(&self.rt, path) {
            Ok(file) => Ok(Some(file)),
            Err(error) if error.kind() == ErrorKind::AlreadyExists => Ok(None),
            Err(error) => Err(self.fail(Asked::Create, error)),
        }
    }

    fn length(&mut self, file: &File) -> Result<u64, Failure> {
        let found = file.metadata();
        Ok(self.ended(Asked::Open, found)?.len())
    }

    fn read_exact_at(&mut self, file: &File, into: &mut [u8], at: u64) -> Result<(), Failure> {
        let end = file.read_exact_at(into, at);
        self.ended(Asked::Read, end)
    }

    fn read_ahead(&mut self, file: &File, at: u64, len: u64, left: u64) -> Option<Vec<u8>> {
        match &mut self.ahead {
            Some(ahead) => ahead.next(file, at, len, left),
            None => None,
        }
    }

    fn write_all_at(&mut self, file: &File, bytes: &[u8], at: u64) -> Result<(), Failure>
        ensures failed { IfErr result (λ failure. failure ≡ Failure.Failed) }
        ensures syncs { self.new.unsynced ≡ self.old.unsynced }
        ensures call { Makes (wrote_bytes file.now at bytes.now result ∷ []) None None }
        ensures tells { Tells Asked.Write self.old.last self.new.last result }
        ensures forgotten { IfSome self.new.ahead HoldsNone }
    {
        let end = file.write_all_at(bytes, at);
        let end = self.ended(Asked::Write, end);
        self.forget_ahead();
        end
    }

    fn set_length(&mut self, file: &File, len: u64) -> Result<(), Failure>
        ensures failed { IfErr result (λ failure. failure ≡ Failure.Failed) }
        ensures syncs { self.new.unsynced ≡ self.old.unsynced }
        ensures call { Makes (resized_file file.now len result ∷ []) None None }
        ensures tells { Tells Asked.Cut self.old.last self.new.last result }
        ensures forgotten { IfSome self.new.ahead HoldsNone }
    {
        let end = file.set_len(len);
        let end = self.ended(Asked::Cut, end);
        self.forget_ahead();
        end
    }

    fn sync(&mut self, file: &File) -> Result<(), Failure> {
        let end = file.sync_all();
        self.synced(end)
    }

    fn make_folder(&mut self, path: &str) -> Result<bool, Failure> {
        let end = fs::create_dir(&self.rt, path);
        self.unless(Asked::MakeFolder, ErrorKind::AlreadyExists, end)
    }

    fn sync_folder(&mut self, path: &str) -> Result<(), Failure> {
        let synced = match File::open(&self.rt, path) {
            Ok(folder) => folder.sync_all(),
            Err(error) => Err(error),
        };
        self.synced(synced)
    }

    fn remove_file(&mut self, path: &str) -> Result<bool, Failure>
        ensures failed { IfErr result (λ failure. failure ≡ Failure.Failed) }
        ensures syncs { self.new.unsynced ≡ self.old.unsynced }
        ensures tells { Tells Asked.RemoveFile self.old.last self.new.last result }
        ensures forgotten { IfSome self.new.ahead HoldsNone }
    {
        let end = fs::remove_file(&self.rt, path);
        let end = self.unless(Asked::RemoveFile, ErrorKind::NotFound, end);
        self.forget_ahead();
        end
    }

    fn remove_folder(&mut self, path: &str) -> Result<Removal, Failure> {
        match fs::remove_dir(&self.rt, path) {
            Ok(()) => Ok(Removal::Removed),
            Err(error) => match error.kind() {
                ErrorKind::NotFound => Ok(Removal::Absent),
                ErrorKind::DirectoryNotEmpty | ErrorKind::AlreadyExists => Ok(Removal::NotEmpty),
                _ => Err(self.fail(Asked::RemoveFolder, error)),
            },
        }
    }

    fn rename(&mut self, from: &str, to: &str) -> Result<(), Failure> {
        let end = fs::rename(&self.rt, from, to);
        self.ended(Asked::Rename, end)
    }
}
