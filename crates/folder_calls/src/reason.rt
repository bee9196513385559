//! Why a step failed, and where.
ghost use Rattle.std.specs.Prelude.{◌≡◌, []};
ghost use Rattle.folder_calls.specs.Kinds.{is_folder};
ghost use Rattle.folder_calls.specs.Noted.{doubt_by};

use plfs_types::Name;
use std::fmt::{Display, Formatter};
use std::{fmt, io, str};

/// What the system was asked for.
#[derive(Clone, Copy)]
pub enum Asked {
    Look,
    List,
    Open,
    Create,
    Read,
    Write,
    Cut,
    Sync,
    MakeFolder,
    RemoveFile,
    RemoveFolder,
    Rename,
}

impl Display for Asked {
    fn fmt<W: fmt::Write>(&self, f: &mut Formatter<W>) -> fmt::Result {
        match self {
            Asked::Look => write!(f, "look"),
            Asked::List => write!(f, "list"),
            Asked::Open => write!(f, "open"),
            Asked::Create => write!(f, "create"),
            Asked::Read => write!(f, "read"),
            Asked::Write => write!(f, "write"),
            Asked::Cut => write!(f, "cut"),
            Asked::Sync => write!(f, "sync"),
            Asked::MakeFolder => write!(f, "make the folder"),
            Asked::RemoveFile => write!(f, "remove"),
            Asked::RemoveFolder => write!(f, "remove the folder"),
            Asked::Rename => write!(f, "rename"),
        }
    }
}

/// What stands at a path, where no link is followed.
#[derive(Clone, Copy)]
pub enum Kind {
    Absent,
    /// A plain file of this length, in bytes.
    File { len: u64 },
    Folder,
    /// Neither a plain file nor a folder, as a symbolic link.
    Other,
}

impl Kind {
    /// Whether a plain folder is there.
    pub fn is_folder(self) -> bool
        ensures { result ≡ is_folder self }
    {
        matches!(self, Kind::Folder)
    }
}

impl Display for Kind {
    fn fmt<W: fmt::Write>(&self, f: &mut Formatter<W>) -> fmt::Result {
        match self {
            Kind::Absent => write!(f, "it is not there"),
            Kind::File { .. } => write!(f, "a file stands there"),
            Kind::Folder => write!(f, "a folder stands there"),
            Kind::Other => write!(f, "it is neither a plain file nor a folder"),
        }
    }
}

/// Why a sync failed, where the system told it.
#[derive(Clone, Copy)]
pub struct Doubt {
    pub error: Option<io::Error>,
}

impl Display for Doubt {
    fn fmt<W: fmt::Write>(&self, f: &mut Formatter<W>) -> fmt::Result {
        match self.error {
            Some(error) => write!(f, ": {error}"),
            None => Ok(()),
        }
    }
}

/// Why a step failed.
#[derive(Clone, Copy)]
pub enum Reason {
    /// No item of a folder can have such a name, or no room.
    Unnameable,
    /// A sync of the item, or of the folder with its name, failed before.
    Unsynced { doubt: Doubt },
    /// The step would write other bytes over those of an earlier run.
    Overwrites,
    /// This stands where the step needs something else.
    Found { kind: Kind },
    /// The system failed what it was asked for.
    System { asked: Asked, error: io::Error },
}

/// Why a sync failed, of what was told in its step.
pub fn doubt_by(told: Option<Reason>) -> Doubt
    ensures { result ≡ doubt_by told }
{
    match told {
        Some(Reason::System { error, .. }) => Doubt { error: Some(error) },
        Some(Reason::Unsynced { doubt }) => doubt,
        _ => Doubt { error: None },
    }
}

impl Display for Reason {
    fn fmt<W: fmt::Write>(&self, f: &mut Formatter<W>) -> fmt::Result {
        match self {
            Reason::Unnameable => write!(f, "no such name can stand there"),
            Reason::Overwrites => write!(f, "would overwrite bytes of an earlier run"),
            Reason::Unsynced { doubt } => {
                write!(f, "a sync of it or of its folder failed before{doubt}")
            }
            Reason::Found { kind } => write!(f, "{kind}"),
            Reason::System { asked, error } => write!(f, "{asked}: {error}"),
        }
    }
}

/// A place below ROOT: a room, a folder of it, and a file or a further name in there. An empty name stands for
/// none, and with no room it is ROOT itself.
#[derive(Clone, Copy)]
pub struct Place {
    pub room: Name,
    pub folder: Name,
    pub file: Name,
}

impl Place {
    /// ROOT itself.
    pub fn root() -> Place
        ensures { result ≡ record { room = []; folder = []; file = [] } }
    {
        Place {
            room: Name::empty(),
            folder: Name::empty(),
            file: Name::empty(),
        }
    }

    /// The room.
    pub fn of_room(room: Name) -> Place
        ensures { result ≡ record { room = room; folder = []; file = [] } }
    {
        Place {
            room,
            folder: Name::empty(),
            file: Name::empty(),
        }
    }
}

/// Where a step failed, and why. It is shown as what follows ROOT in a path, and then the reason.
#[derive(Clone, Copy)]
pub struct Cause {
    pub place: Place,
    pub reason: Reason,
}

// The name as text. One that is no text in UTF-8 is no part of a path, and is shown as a question mark.
fn text_of(name: &Name) -> &str {
    str::from_utf8(name.bytes()).unwrap_or("?")
}

// A name with control characters is written with escapes, so that a cause stays one line.
fn write_part<W: fmt::Write>(name: &Name, f: &mut Formatter<W>) -> fmt::Result {
    if name.bytes().is_empty() {
        return Ok(());
    }
    let text = text_of(name);
    if text.chars().any(|c| c.is_control()) {
        write!(f, "/{}", text.escape_debug())
    } else {
        write!(f, "/{text}")
    }
}

impl Display for Place {
    fn fmt<W: fmt::Write>(&self, f: &mut Formatter<W>) -> fmt::Result {
        write_part(&self.room, f)?;
        write_part(&self.folder, f)?;
        write_part(&self.file, f)
    }
}

impl Display for Cause {
    fn fmt<W: fmt::Write>(&self, f: &mut Formatter<W>) -> fmt::Result {
        write!(f, "{}: {}", self.place, self.reason)
    }
}
