//! ROOT for one program at a time: a lock of the system on each of its folders, of which nothing is seen in them.
//!
//! The locks are those of flock(2). The system takes them away from a program that ends, however it ends. Where it gives
//! none, as on some file systems, the folder is served without.
ghost use Rattle.std.specs.Prelude.{◌≡◌, ◌<◌, ◌+◌, length, map, vec_len, IfOk, IfErr, OnOk, Err};
ghost use Rattle.system_edge.specs.Roots.{AreFreeBefore, AreMarkedOnce};

use crate::roots::{Looks, SystemLooks, first_marked_alone, first_unfit};
use std::alloc::{AllocError, Global};
use std::fmt::{Display, Formatter};
use std::fs::{File, TryLockError};
use std::io::ErrorKind;
use std::os::unix::fs::MetadataExt;
use std::{fmt, io};

/// The most bytes of a folder's path. Behind it come at most 158 of an item: a slash, a name of 64 bytes, and
/// `/metadata/SIZE.STORED.STAMP.HOST.ID` with numbers of 13, 17, 19, 10 and 20 digits. A path has at most 4095.
const MOST_PATH: usize = 3937;

/// Folders on which no other program works as long as this is kept.
#[derive(Drop)]
pub struct Locks {
    held: Vec<File>,
}

/// Why a program can't have a folder.
#[derive(Clone, Copy)]
pub enum Denial {
    /// Another program works on it.
    InUse,
    /// ROOT names it twice.
    Twice,
    /// A ROOT holds it.
    Container,
    /// A container holds it.
    InContainer,
    /// It has the marks of the ROOT that holds it.
    Marks,
    /// It has marks of its own, and a folder before it in ROOT has some too.
    UsedAlone,
    /// Its path leaves too little room for those of its items.
    TooLong,
    /// What makes it a container, or its marks, can't be looked at.
    Unseen { error: io::Error },
    /// It can't be opened to be listed.
    Unlisted { error: io::Error },
    /// Memory was refused.
    NoMemory,
}

impl Display for Denial {
    fn fmt<W: fmt::Write>(&self, f: &mut Formatter<W>) -> fmt::Result {
        match self {
            Denial::InUse => write!(f, "in use by another program"),
            Denial::Twice => write!(f, "it is named twice"),
            Denial::Container => { write!(f, "it is a container; give the folder that holds it") }
            Denial::InContainer => {
                write!(
                    f,
                    "it lies in a container; give the folder that holds that one"
                )
            }
            Denial::Marks => write!(
                f,
                "it has the marks of a ROOT; give the folder that holds it"
            ),
            Denial::UsedAlone => write!(
                f,
                "it has marks of its own, so it or a folder before it was used alone"
            ),
            Denial::TooLong => write!(f, "its path is longer than {MOST_PATH} bytes"),
            Denial::Unseen { error } => write!(f, "look: {error}"),
            Denial::Unlisted { error } => write!(f, "list: {error}"),
            Denial::NoMemory => write!(f, "memory was refused"),
        }
    }
}

/// A folder that can't be had, by its place in ROOT, and why.
#[derive(Clone, Copy)]
pub struct Denied {
    pub place: usize,
    pub why: Denial,
}

/// Locks these folders, in their order. It waits for nobody, and nothing in them is touched. None is locked where one is no folder of a ROOT.
#[inline(never)]
pub fn lock_folders(rt: &HostRuntime, folders: &[&str]) -> Result<Locks, Denied>
    ensures each { IfOk result (λ locks. vec_len locks.held ≡ length folders.now) }
    ensures place { IfErr result (λ denied. denied.place < length folders.now) }
{
    lock_seen(rt, &SystemLooks { rt: *rt }, folders)
}

// The same, by what is seen of the folders. All that are locked may be a ROOT together.
fn lock_seen<L: Looks>(rt: &HostRuntime, looks: &L, folders: &[&str]) -> Result<Locks, Denied>
    ensures each { IfOk result (λ locks. vec_len locks.held ≡ length folders.now) }
    ensures place { IfErr result (λ denied. denied.place < length folders.now) }
    ensures free { OnOk result (AreFreeBefore (L.named looks.now) (L.told looks.now) (map (λ folder. folder.now) folders.now) (length folders.now)) }
    ensures marked { OnOk result (AreMarkedOnce (L.told looks.now) (map (λ folder. folder.now) folders.now) (length folders.now)) }
{
    if let Some(denied) = first_unfit(rt.alloc(), looks, folders) {
        return Err(denied);
    }
    let held = lock_each(rt, folders)?;
    match first_marked_alone(rt.alloc(), looks, folders) {
        Some(denied) => Err(denied),
        None => Ok(Locks { held }),
    }
}

// Opens and locks each of the folders, in their order.
fn lock_each(rt: &HostRuntime, folders: &[&str]) -> Result<Vec<File>, Denied>
    ensures each { IfOk result (λ held. vec_len held ≡ length folders.now) }
    ensures place { IfErr result (λ denied. denied.place < length folders.now) }
{
    let mut held = Vec::new(rt.alloc());
    for place in 0..folders.len() {
        let end = match lock_folder(rt, &held, folders[place]) {
            Ok(folder) => keep(&mut held, folder),
            Err(why) => Err(why),
        };
        if let Err(why) = end {
            return Err(Denied { place, why });
        }
    }
    Ok(held)
}

fn keep(held: &mut Vec<File>, folder: File) -> Result<(), Denial>
    ensures kept { IfOk result (λ _. vec_len held.new ≡ vec_len held.old + 1) }
{
    match held.push(folder) {
        Ok(()) => Ok(()),
        Err(_) => Err(Denial::NoMemory),
    }
}

// Opens a folder and locks it. A lock that the system gives to nobody isn't waited for.
fn lock_folder(rt: &HostRuntime, held: &[File], folder: &str) -> Result<File, Denial>
    ensures long { MOST_PATH < length folder.now → result ≡ Err Denial.TooLong }
{
    if folder.len() > MOST_PATH {
        return Err(Denial::TooLong);
    }
    let file = open_folder(rt, folder)?;
    if is_among(held, &file) {
        return Err(Denial::Twice);
    }
    match file.try_lock() {
        Err(TryLockError::WouldBlock) => Err(Denial::InUse),
        Err(TryLockError::Error(_)) | Ok(()) => Ok(file),
    }
}

// Opens what stands at the path for reading, where it is a folder: nothing else has an item of its own name.
fn open_folder(rt: &HostRuntime, folder: &str) -> Result<File, Denial> {
    let Ok(path) = itself(rt.alloc(), folder) else {
        return Err(Denial::NoMemory);
    };
    match File::open(rt, path.as_str()) {
        Ok(file) => Ok(file),
        Err(error) if error.kind() == ErrorKind::OutOfMemory => Err(Denial::NoMemory),
        Err(error) => Err(Denial::Unlisted { error }),
    }
}

// The path of the folder as an item of itself.
fn itself(alloc: Global, folder: &str) -> Result<String, AllocError> {
    let mut path = String::from_str(alloc, folder)?;
    path.push_str("/.")?;
    Ok(path)
}

// Whether the folder is one of these.
fn is_among(held: &[File], folder: &File) -> bool {
    held.iter().any(|other| are_one(other, folder))
}

fn are_one(a: &File, b: &File) -> bool {
    match (a.metadata(), b.metadata()) {
        (Ok(a), Ok(b)) => a.dev() == b.dev() && a.ino() == b.ino(),
        _ => false,
    }
}
