//! The steps of folders.
ghost use Rattle.std.specs.Prelude.{◌≡◌, ◌⊎◌, ◌==◌, ◌≤◌, ◌<◌, ◌∷◌, [], List, ℕ, length, true, false, None, Ok, Err, IsSome, IfSome, Result, IfOk, IfErr, OnOk, OnErr, string_bytes};
ghost use Rattle.folder_calls.specs.Calls.{Makes, looked_at, listed_folder};
ghost use Rattle.folder_calls.specs.Parts.{IsPart};
ghost use Rattle.store_api.specs.Step.{make_folder, remove_folder, list_folder};
ghost use Rattle.store_folder.specs.Leaving.{EndsAmongRooms};
ghost use Rattle.store_folder.specs.Failing.{FailsUncalled, IsNamedFolder, FailsToMakeFolder, FailsToRemoveTop, FailsToRemoveItem, FailsToRemoveSpot, FailsToList};
ghost use Rattle.store_folder.specs.Folders.{IsNoFolder, IsNoEntry, IsInTheWay, EntersFolder, FindsNoFolder, FailsToEnter, MakesFolder, RemovesTop, RemovesItem, RemovesSpot, TellsFolder};
ghost use Rattle.store_folder.specs.Listings.{IsSortedListing, IsLeast};
ghost use Rattle.store_folder.specs.Paths.{IsNameable, IsNameableFolder, item_of, room_path, folder_path};
ghost use Rattle.store_folder.specs.StepPlaces.{room_name};
ghost use Rattle.store_folder.specs.Rooms.{IsStill, InRoom};

use crate::disk::Disk;
use folder_calls::{Calls, Failure, Kind, Removal, join, part};
use plfs_types::{Name, NameList};
use std::alloc::Global;
use store_api::Answer;

/// A folder of a room by its paths. At the top both are one.
#[derive(Drop)]
pub struct Spot {
    pub room: String,
    pub folder: String,
    pub is_top: bool,
}

/// The path of an item of a folder. It fails where the name can't stand in a path.
pub fn item_path(alloc: Global, folder: &str, name: &Name) -> Result<String, Failure>
    ensures path { IfOk result (λ path. string_bytes path ≡ item_of folder.now name.now) }
    ensures part { ¬ IsPart name.now → result ≡ Err Failure.Failed }
    ensures memory { IsNameable name.now → IfErr result (λ failure. failure ≡ Failure.NoMemory) }
{
    join(alloc, folder, part(name)?)
}

// The path of a folder in the room of this path.
fn folder_path(alloc: Global, room: &str, folder: &Name) -> Result<String, Failure>
    ensures path { IfOk result (λ path. string_bytes path ≡ folder_path room.now folder.now) }
    ensures memory { IsNameableFolder folder.now → IfErr result (λ failure. failure ≡ Failure.NoMemory) }
{
    match folder.bytes() {
        [] => Ok(String::from_str(alloc, room)?),
        [_, ..] => item_path(alloc, room, folder),
    }
}

impl<C, F> Disk<C, F> {
    /// The folder's paths, or None where there is no room of this number.
    pub fn spot(&self, room: u64, folder: &Name) -> Result<Option<Spot>, Failure>
        ensures absent { length self.now.rooms.items ≤ room → result ≡ Ok None }
        ensures there { IfOk result (λ spot. room < length self.now.rooms.items → IsSome spot) }
        ensures room { IfOk result (λ spot. IfSome spot (λ spot. string_bytes spot.room ≡ room_path self.now room)) }
        ensures folder { IfOk result (λ spot. IfSome spot (λ spot. string_bytes spot.folder ≡ folder_path (room_path self.now room) folder.now)) }
        ensures top { IfOk result (λ spot. IfSome spot (λ spot. spot.is_top ≡ (length folder.now == 0))) }
        ensures memory { IsNameable (room_name self.now room) → IsNameableFolder folder.now → IfErr result (λ failure. failure ≡ Failure.NoMemory) }
    {
        let Some(room) = self.room_path(room)? else {
            return Ok(None);
        };
        let is_top = folder.bytes().is_empty();
        let folder = folder_path(self.alloc, room.as_str(), folder)?;
        Ok(Some(Spot {
            room,
            folder,
            is_top,
        }))
    }
}

impl<C: Calls<File = F>, F: Drop> Disk<C, F> {
    /// Adds a folder, and syncs its name. The top is always there.
    pub fn make_folder(&mut self, room: u64, folder: &Name) -> Result<Answer, Failure>
        ensures ends { EndsAmongRooms C.log self.old self.new (make_folder room folder.now) result }
    {
        let Some(spot) = self.spot(room, folder)? else {
            return Ok(Answer::NoRoom);
        };
        let answer = add_folder(&mut self.calls, &spot);
        drop(spot);
        answer
    }

    /// Removes an empty folder, and syncs that its name is gone. The top stays where it is.
    pub fn remove_folder(&mut self, room: u64, folder: &Name) -> Result<Answer, Failure>
        ensures ends { EndsAmongRooms C.log self.old self.new (remove_folder room folder.now) result }
    {
        let Some(spot) = self.spot(room, folder)? else {
            return Ok(Answer::NoRoom);
        };
        let answer = remove_spot(&mut self.calls, self.alloc, &spot);
        drop(spot);
        answer
    }

    /// Names what is in a folder, in byte order.
    pub fn list(&mut self, room: u64, folder: &Name) -> Result<Answer, Failure>
        ensures ends { EndsAmongRooms C.log self.old self.new (list_folder room folder.now) result }
    {
        let Some(spot) = self.spot(room, folder)? else {
            return Ok(Answer::NoRoom);
        };
        let answer = list_in(&mut self.calls, self.alloc, &spot);
        drop(spot);
        answer
    }
}

// Whether a folder is there. It fails where a link or the like is.
fn is_folder<C: Calls<File = F>, F: Drop>(calls: &mut C, path: &str) -> Result<bool, Failure>
    ensures there { result ≡ Ok true → Makes (looked_at path.now (Ok Kind.Folder) ∷ []) (C.log calls.old) (C.log calls.new) }
    ensures failed { IfErr result (λ failure. failure ≡ Failure.Failed) }
    ensures fails { OnErr result ((end : Result Kind Failure) × IsInTheWay end × Makes (looked_at path.now end ∷ []) (C.log calls.old) (C.log calls.new)) }
    ensures lacking { result ≡ Ok false → (kind : Kind) × IsNoFolder kind × Makes (looked_at path.now (Ok kind) ∷ []) (C.log calls.old) (C.log calls.new) }
{
    match calls.look(path)? {
        Kind::Folder => Ok(true),
        Kind::Absent => Ok(false),
        Kind::File { .. } => Ok(false),
        Kind::Other => Err(Failure::Failed),
    }
}

// Fails where the room isn't there.
fn enter_room<C: Calls<File = F>, F: Drop>(calls: &mut C, spot: &Spot) -> Result<(), Failure>
    ensures there { OnOk result (Makes (looked_at (string_bytes spot.now.room) (Ok Kind.Folder) ∷ []) (C.log calls.old) (C.log calls.new)) }
    ensures failed { IfErr result (λ failure. failure ≡ Failure.Failed) }
    ensures fails { OnErr result ((end : Result Kind Failure) × IsNoEntry end × Makes (looked_at (string_bytes spot.now.room) end ∷ []) (C.log calls.old) (C.log calls.new)) }
{
    if is_folder(calls, spot.room.as_str())? {
        Ok(())
    } else {
        Err(Failure::Failed)
    }
}

/// Whether the folder is there, in a room that is: what comes after goes through no link.
pub fn enter<C: Calls<File = F>, F: Drop>(calls: &mut C, spot: &Spot) -> Result<bool, Failure>
    ensures there { result ≡ Ok true → EntersFolder (C.log calls.old) (C.log calls.new) (string_bytes spot.now.room) (string_bytes spot.now.folder) }
    ensures lacking { result ≡ Ok false → FindsNoFolder (C.log calls.old) (C.log calls.new) (string_bytes spot.now.room) (string_bytes spot.now.folder) }
    ensures failed { IfErr result (λ failure. failure ≡ Failure.Failed) }
    ensures fails { OnErr result (FailsToEnter (C.log calls.old) (C.log calls.new) (string_bytes spot.now.room) (string_bytes spot.now.folder)) }
{
    enter_room(calls, spot)?;
    is_folder(calls, spot.folder.as_str())
}

fn add_folder<C: Calls<File = F>, F: Drop>(calls: &mut C, spot: &Spot) -> Result<Answer, Failure>
    ensures makes { IfOk result (MakesFolder (C.log calls.old) (C.log calls.new) (string_bytes spot.now.room) (string_bytes spot.now.folder)) }
    ensures failed { IfErr result (λ failure. failure ≡ Failure.Failed) }
    ensures fails { OnErr result (FailsToMakeFolder (C.log calls.old) (C.log calls.new) (string_bytes spot.now.room) (string_bytes spot.now.folder)) }
{
    enter_room(calls, spot)?;
    if calls.make_folder(spot.folder.as_str())? {
        calls.sync_folder(spot.room.as_str())?;
        return Ok(Answer::Made);
    }
    if is_folder(calls, spot.folder.as_str())? {
        Ok(Answer::Old { room: 0 })
    } else {
        Err(Failure::Failed)
    }
}

// Removes this folder, unless it is the top.
fn remove_spot<C: Calls<File = F>, F: Drop>(
    calls: &mut C,
    alloc: Global,
    spot: &Spot,
) -> Result<Answer, Failure>
    ensures removes { IfOk result (RemovesSpot (C.log calls.old) (C.log calls.new) spot.now.is_top (string_bytes spot.now.room) (string_bytes spot.now.folder)) }
    ensures fails { IfErr result (FailsToRemoveSpot (C.log calls.old) (C.log calls.new) spot.now.is_top (string_bytes spot.now.room) (string_bytes spot.now.folder)) }
{
    if spot.is_top {
        remove_top(calls, alloc, spot)
    } else {
        remove_item(calls, alloc, spot)
    }
}

// The top is never removed: what is in it is told.
fn remove_top<C: Calls<File = F>, F: Drop>(
    calls: &mut C,
    alloc: Global,
    spot: &Spot,
) -> Result<Answer, Failure>
    ensures removes { IfOk result (RemovesTop (C.log calls.old) (C.log calls.new) (string_bytes spot.now.room)) }
    ensures fails { IfErr result (FailsToRemoveTop (C.log calls.old) (C.log calls.new) (string_bytes spot.now.room)) }
{
    enter_room(calls, spot)?;
    match least_name(calls, alloc, spot.room.as_str())? {
        Some(least) => Ok(Answer::NotEmpty { least }),
        None => Ok(Answer::Made),
    }
}

fn remove_item<C: Calls<File = F>, F: Drop>(
    calls: &mut C,
    alloc: Global,
    spot: &Spot,
) -> Result<Answer, Failure>
    ensures removes { IfOk result (RemovesItem (C.log calls.old) (C.log calls.new) (string_bytes spot.now.room) (string_bytes spot.now.folder)) }
    ensures fails { IfErr result (FailsToRemoveItem (C.log calls.old) (C.log calls.new) (string_bytes spot.now.room) (string_bytes spot.now.folder)) }
{
    enter_room(calls, spot)?;
    match calls.remove_folder(spot.folder.as_str())? {
        Removal::Removed => {
            calls.sync_folder(spot.room.as_str())?;
            Ok(Answer::Made)
        }
        Removal::Absent => Ok(Answer::NoFolder),
        Removal::NotEmpty => match least_name(calls, alloc, spot.folder.as_str())? {
            Some(least) => Ok(Answer::NotEmpty { least }),
            None => Err(Failure::Failed),
        },
    }
}

// The least name in a folder, or None where it is empty.
fn least_name<C: Calls<File = F>, F: Drop>(
    calls: &mut C,
    alloc: Global,
    path: &str,
) -> Result<Option<Name>, Failure>
    ensures empty { result ≡ Ok None → Makes (listed_folder path.now (Ok []) ∷ []) (C.log calls.old) (C.log calls.new) }
    ensures least { IfOk result (λ least. IfSome least (λ least. (names : List (List ℕ)) × Makes (listed_folder path.now (Ok names) ∷ []) (C.log calls.old) (C.log calls.new) × IsLeast names least)) }
    ensures fails { IfErr result (λ failure. Makes (listed_folder path.now (Err failure) ∷ []) (C.log calls.old) (C.log calls.new)) }
{
    let names = names_in(calls, alloc, path)?;
    let Some(least) = names.first() else {
        return Ok(None);
    };
    Ok(Some(*least))
}

/// The names in a folder, in byte order.
pub fn names_in<C: Calls<File = F>, F: Drop>(
    calls: &mut C,
    alloc: Global,
    path: &str,
) -> Result<Vec<Name>, Failure>
    ensures told { IfOk result (λ names. (listing : List (List ℕ)) × Makes (listed_folder path.now (Ok listing) ∷ []) (C.log calls.old) (C.log calls.new) × IsSortedListing listing names.items) }
    ensures fails { IfErr result (λ failure. Makes (listed_folder path.now (Err failure) ∷ []) (C.log calls.old) (C.log calls.new)) }
{
    let mut names = calls.list(alloc, path)?.into_vec();
    names.sort_unstable();
    Ok(names)
}

// Names what is in this folder.
fn list_in<C: Calls<File = F>, F: Drop>(
    calls: &mut C,
    alloc: Global,
    spot: &Spot,
) -> Result<Answer, Failure>
    ensures lists { IfOk result (TellsFolder (C.log calls.old) (C.log calls.new) (string_bytes spot.now.room) (string_bytes spot.now.folder)) }
    ensures fails { IfErr result (FailsToList (C.log calls.old) (C.log calls.new) (string_bytes spot.now.room) (string_bytes spot.now.folder)) }
{
    if !enter(calls, spot)? {
        return Ok(Answer::NoFolder);
    }
    let names = names_in(calls, alloc, spot.folder.as_str())?;
    Ok(Answer::Names(NameList::from_vec(names)))
}
