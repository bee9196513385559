//! Which items the names of a listing are.
ghost use Rattle.std.specs.Prelude.{◌≡◌};
ghost use Rattle.mount_model.specs.Names.{named, meta_in as meta_of, trunc_in as trunc_of, open_in as open_of};
ghost use Rattle.mount_model.specs.Paths as paths;

use container_layout::{Item, metadata, openhosts, read, truncs};
use plfs_types::{Name, Path, Sequence, Trunc};

/// What a writer that closed left: the greatest end of its entries in bytes, their summed length in bytes, and the last
/// stamp in nanoseconds. All three are 0 or none is.
#[derive(Clone, Copy, PartialEq, Eq)]
pub struct Metadata {
    pub last: u64,
    pub bytes: u64,
    pub stamp: u64,
    pub host: u32,
    pub writer: u64,
}

/// A list of what writers left.
pub type MetadataList = Sequence<Metadata>;

/// A writer that has the container open.
#[derive(Clone, Copy, PartialEq, Eq)]
pub struct OpenEntry {
    pub host: u32,
    pub writer: u64,
}

/// A list of such writers.
pub type OpenEntryList = Sequence<OpenEntry>;

/// What the writer left whose metadata dropping has this name, or None exactly where it is no such dropping's.
pub fn meta_in(name: Name) -> Option<Metadata>
    ensures { result ≡ meta_of name }
{
    let path = Path {
        folder: metadata(),
        file: name,
    };
    match read(&path)? {
        Item::Meta {
            last,
            bytes,
            stamp,
            host,
            writer,
        } => Some(Metadata {
            last,
            bytes,
            stamp,
            host,
            writer,
        }),
        _ => None,
    }
}

/// The truncate whose dropping has this name, or None exactly where it is no such dropping's.
pub fn trunc_in(name: Name) -> Option<Trunc>
    ensures { result ≡ trunc_of name }
{
    let path = Path {
        folder: truncs(),
        file: name,
    };
    match read(&path)? {
        Item::Trunc { stamp, size } => Some(Trunc { stamp, size }),
        _ => None,
    }
}

/// The writer whose entry among those that have the container open has this name, or None exactly where it is no such
/// entry's.
pub fn open_in(name: Name) -> Option<OpenEntry>
    ensures { result ≡ open_of name }
{
    let path = Path {
        folder: openhosts(),
        file: name,
    };
    match read(&path)? {
        Item::OpenHost { host, writer } => Some(OpenEntry { host, writer }),
        _ => None,
    }
}
