//! The files of a folder whose bytes are put: which they are, and how they are read.
ghost use Rattle.std.specs.Prelude.{◌≡◌, ◌⊎◌, ◌↔◌, [], None, IfOk, IsTrue, OnOk, false, filter_map, map, string_bytes};
ghost use Rattle.std.specs.Io.{ReadsAtMost};
ghost use Rattle.std.specs.Str.{IsUtf8};
ghost use Rattle.plfs.specs.Entries.{IsClosed, IsKept, IsLastFirst, IsLeft, IsMet, path_of};
ghost use Rattle.plfs_types.specs.Names.{name_of};

use copy_program::Named;
use edge_io::StdSource;
use plfs_types::{LogicalName, Name, Word, name_in};
use std::alloc::Global;
use std::fs::{self, DirEntry, File, ReadDir};
use std::io::{self, ErrorKind, Read};
use std::str;
use system_edge::{Amount, Spelled, file_length};

/// The plain files of a folder that have names of files.
#[derive(Drop)]
pub struct Entries {
    // In their order, but the last one first.
    names: Vec<Name>,
    /// Whether one of them can't be opened, and was left out.
    pub has_closed: bool,
    /// Whether something else is in the folder, and was left out.
    pub has_others: bool,
}

/// Why the files of a folder can't be told: this entry, or the folder where there is none, can't be looked at.
#[derive(Clone, Copy)]
pub struct Unlisted {
    pub entry: Option<Name>,
    pub error: io::Error,
}

impl From<io::Error> for Unlisted {
    fn from(error: io::Error) -> Unlisted
        ensures { result.error ≡ error }
    {
        Unlisted { entry: None, error }
    }
}

/// A file of a folder that is put.
pub type Putting = Named<StdSource<Entry>>;

impl Entries {
    fn new(alloc: Global) -> Entries
        ensures { (result.names.items ≡ []) × (result.has_closed ≡ false) × (result.has_others ≡ false) }
    {
        Entries {
            names: Vec::new(alloc),
            has_closed: false,
            has_others: false,
        }
    }

    // Something that is no such file is left out.
    fn leave(&mut self, rt: &HostRuntime, folder: &Word, name: &str, why: &str)
        ensures { IsLeft self.old self.new }
    {
        self.has_others = true;
        let folder = Spelled(folder.as_str());
        let name = Spelled(name);
        let _ = eprintln!(rt; "plfs: {folder}/{name}: left out: {why}");
    }

    // A plain file of this name. It is left out where it can't be opened.
    fn keep(
        &mut self,
        rt: &HostRuntime,
        entry: &DirEntry<HostRuntime, Global>,
        name: LogicalName,
    ) -> io::Result<()>
        ensures { OnOk result (IsKept self.old name self.new ⊎ IsClosed self.old self.new) }
    {
        match File::open(rt, entry.path()) {
            Ok(file) => {
                drop(file);
                self.names.push(name.name())?;
            }
            Err(error) => {
                self.has_closed = true;
                let path = Spelled(entry.path().as_str());
                let _ = eprintln!(rt; "plfs: {path}: open: {error}");
            }
        }
        Ok(())
    }

    // What stands in the folder under this name.
    fn meet(
        &mut self,
        rt: &HostRuntime,
        folder: &Word,
        entry: &DirEntry<HostRuntime, Global>,
    ) -> Result<(), Unlisted>
        ensures { OnOk result (IsMet self.old self.new) }
    {
        let text = entry.file_name();
        let Some(name) = LogicalName::read(text.as_bytes()) else {
            self.leave(rt, folder, text, "its name is none of a file");
            return Ok(());
        };
        match fs::metadata(rt, entry.path()) {
            Ok(found) if found.is_file() => self.keep(rt, entry, name)?,
            Ok(_) => self.leave(rt, folder, text, "it is no plain file"),
            Err(error)
                if error.kind() == ErrorKind::NotFound
                    || leads_nowhere(error.kind()) && is_link(entry) => {
                self.leave(rt, folder, text, "it leads nowhere");
            }
            Err(error) => {
                let entry = Some(name.name());
                return Err(Unlisted { entry, error });
            }
        }
        Ok(())
    }

    // All that stands in the folder.
    fn meet_all(
        &mut self,
        rt: &HostRuntime,
        folder: &Word,
        listing: ReadDir<HostRuntime, Global>,
    ) -> Result<(), Unlisted>
        ensures { OnOk result (IsLastFirst self.new.names.items) }
    {
        for entry in listing {
            match entry {
                Ok(entry) => self.meet(rt, folder, &entry)?,
                Err(error) if error.kind() == ErrorKind::InvalidFilename => {
                    self.leave(rt, folder, "?", "its name is no text");
                }
                Err(error) => return Err(Unlisted::from(error)),
            }
        }
        self.names.sort_unstable();
        self.names.reverse();
        Ok(())
    }

    /// The files, the last one first. Each is opened where it is read.
    pub fn sources(&self, rt: HostRuntime, folder: &Word) -> io::Result<Vec<Putting>>
        ensures names { IfOk result (λ sources. map (λ source. source.name) sources.items ≡ filter_map name_of self.now.names.items) }
    {
        let mut sources = Vec::new(rt.alloc());
        for name in self.names.iter() {
            if let Some(name) = name_in(name.bytes()) {
                sources.push(source_of(rt, folder, name)?)?;
            }
        }
        Ok(sources)
    }
}

/// The files of this folder that can be put. What else is there is said on standard error.
#[inline(never)]
pub fn list_files(rt: &HostRuntime, folder: &Word) -> Result<Entries, Unlisted>
    ensures { IfOk result (λ entries. IsLastFirst entries.names.items) }
{
    let mut entries = Entries::new(rt.alloc());
    match fs::read_dir(rt, folder.as_str()) {
        Ok(listing) => entries.meet_all(rt, folder, listing)?,
        Err(error) => return Err(Unlisted::from(error)),
    }
    Ok(entries)
}

/// A file of a folder, which is opened where its first byte is read. It shows how far it was read, and says at once why it can't be
/// opened or read.
#[derive(Drop)]
pub struct Entry {
    rt: HostRuntime,
    path: String,
    file: Option<File>,
    amount: Amount,
}

// Whether a link at which the system ends so leads to nothing.
fn leads_nowhere(kind: ErrorKind) -> bool
    ensures { IsTrue result ↔ ((kind ≡ ErrorKind.NotFound) ⊎ (kind ≡ ErrorKind.NotADirectory) ⊎ (kind ≡ ErrorKind.FilesystemLoop) ⊎ (kind ≡ ErrorKind.InvalidFilename) ⊎ (kind ≡ ErrorKind.PermissionDenied)) }
{
    matches!(
        kind,
        ErrorKind::NotFound
            | ErrorKind::NotADirectory
            | ErrorKind::FilesystemLoop
            | ErrorKind::InvalidFilename
            | ErrorKind::PermissionDenied
    )
}

// Whether the system says that it is a link.
fn is_link(entry: &DirEntry<HostRuntime, Global>) -> bool {
    match entry.file_type() {
        Ok(found) => found.is_symlink(),
        Err(_) => false,
    }
}

// The path of the file of this name.
fn path_of(alloc: Global, folder: &Word, name: &Name) -> io::Result<String>
    ensures { IsUtf8 name.now → IfOk result (λ path. string_bytes path ≡ path_of folder.now name.now) }
{
    let mut path = String::from_str(alloc, folder.as_str())?;
    path.push_str("/")?;
    path.push_str(str::from_utf8(name.bytes()).unwrap_or(""))?;
    Ok(path)
}

// The file of this name in the folder.
fn source_of(rt: HostRuntime, folder: &Word, name: LogicalName) -> io::Result<Putting>
    ensures name { IfOk result (λ source. source.name ≡ name) }
    ensures path { IsUtf8 name → IfOk result (λ source. string_bytes source.input.reader.path ≡ path_of folder.now name) }
{
    let path = path_of(rt.alloc(), folder, &name.name())?;
    let input = StdSource::new(Entry::new(rt, path));
    Ok(Named { name, input })
}

impl Entry {
    // The file at this path.
    fn new(rt: HostRuntime, path: String) -> Entry
        ensures { (result.path ≡ path) × (result.file ≡ None) }
    {
        Entry {
            rt,
            path,
            file: None,
            amount: Amount::new(rt, 0),
        }
    }

    // Reads from the file, which is opened where it isn't.
    fn read_more(&mut self, buf: &mut [u8]) -> io::Result<usize>
        ensures bound { ReadsAtMost result buf.new }
    {
        if let Some(file) = self.file.as_mut() {
            return file.read(buf);
        }
        let mut file = File::open(&self.rt, self.path.as_str())?;
        self.amount = Amount::new(self.rt, file_length(&file));
        let end = file.read(buf);
        self.file = Some(file);
        end
    }

    // Says why it can't be read.
    fn tell(&mut self, error: io::Error) {
        self.amount.clear();
        let rt = &self.rt;
        let path = Spelled(self.path.as_str());
        let _ = eprintln!(rt; "plfs: {path}: read: {error}");
    }
}

impl Read for Entry {
    fn read(&mut self, buf: &mut [u8]) -> io::Result<usize> {
        let end = self.read_more(buf);
        match &end {
            Ok(count) => self.amount.add(*count),
            Err(error) => self.tell(*error),
        }
        end
    }
}
