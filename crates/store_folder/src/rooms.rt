//! The rooms: which items of ROOT they are, and the steps that name, find and rename them.
ghost use Rattle.std.specs.Prelude.{◌≡◌, ◌≤◌, ◌<◌, ◌∷◌, [], ◌++◌, ◌⊎◌, length, position, true, false, None, Ok, Err, IsSome, IfSome, IfOk, IfErr, OnErr, OnOk, slice_set, string_bytes};
ghost use Rattle.store_folder.specs.FailedListing.{FailsToLookForRoom, FailsToFindRooms, FailsToListRooms};
ghost use Rattle.store_api.specs.Step.{rename_room};
ghost use Rattle.store_folder.specs.Leaving.{EndsAmongRooms};
ghost use Rattle.store_folder.specs.Paths.{IsNameable, item_of, room_path};
ghost use Rattle.store_folder.specs.StepPlaces.{room_name};
ghost use Rattle.store_folder.specs.Rooms.{if_room, LooksForRoom, FindsRooms, ListsRooms, IsStill, InRoom, MovesRoom, RenamesRoom};
ghost use Rattle.store_folder.specs.Listings.{TellsNames};
ghost use Rattle.folder_calls.specs.Calls.{Makes, renamed_item};
ghost use Rattle.store_api.specs.Names.{same_name};
ghost use Rattle.store_api.specs.Effect.{number_or_absent};

use crate::disk::Disk;
use crate::folders::item_path;
use folder_calls::{Calls, Failure, is_room_name};
use plfs_types::{Name, NameList};
use std::alloc::Global;
use store_api::Answer;

// The place of the room with this name.
fn place_of(rooms: &[Name], name: &Name) -> Option<usize>
    ensures { result ≡ position (λ room. same_name room name.now) rooms.now }
{
    rooms.iter().position(|room| *room == *name)
}

// Adds the name where it is a room's.
fn push_room(rooms: &mut Vec<Name>, is_room: bool, name: &Name) -> Result<(), Failure>
    ensures pushed { OnOk result (rooms.new.items ≡ rooms.old.items ++ if_room is_room name.now) }
    ensures memory { IfErr result (λ failure. failure ≡ Failure.NoMemory) }
{
    if is_room {
        rooms.push(*name)?;
    }
    Ok(())
}

// The names of the rooms in byte order. ROOT itself may be reached by a link, and no room is.
#[inline(never)]
fn list_rooms<C: Calls<File = F>, F: Drop>(
    calls: &mut C,
    alloc: Global,
    root: &str,
) -> Result<Vec<Name>, Failure>
    ensures listed { IfOk result (λ rooms. ListsRooms root.now rooms.items (C.log calls.old) (C.log calls.new)) }
    ensures fails { IfErr result (FailsToListRooms root.now (C.log calls.old) (C.log calls.new)) }
{
    let names = calls.list(alloc, root)?;
    let mut rooms = rooms_among(calls, alloc, root, names.as_slice())?;
    rooms.sort_unstable();
    Ok(rooms)
}

// Which of these names of items of ROOT are rooms'.
fn rooms_among<C: Calls<File = F>, F: Drop>(
    calls: &mut C,
    alloc: Global,
    root: &str,
    names: &[Name],
) -> Result<Vec<Name>, Failure>
    ensures found { IfOk result (λ rooms. FindsRooms root.now names.now rooms.items (C.log calls.old) (C.log calls.new)) }
    ensures fails { IfErr result (FailsToFindRooms root.now names.now (C.log calls.old) (C.log calls.new)) }
{
    let mut rooms = Vec::new(alloc);
    for name in names {
        let is_room = is_room(calls, alloc, root, name)?;
        push_room(&mut rooms, is_room, name)?;
    }
    Ok(rooms)
}

// Whether this item of ROOT is a room: a folder whose name a room can have.
fn is_room<C: Calls<File = F>, F: Drop>(
    calls: &mut C,
    alloc: Global,
    root: &str,
    name: &Name,
) -> Result<bool, Failure>
    ensures looked { IfOk result (λ is_room. LooksForRoom root.now name.now is_room (C.log calls.old) (C.log calls.new)) }
    ensures fails { IfErr result (FailsToLookForRoom root.now name.now (C.log calls.old) (C.log calls.new)) }
{
    if !is_room_name(name.bytes()) {
        return Ok(false);
    }
    let path = item_path(alloc, root, name)?;
    let kind = calls.look(path.as_str());
    drop(path);
    Ok(kind?.is_folder())
}

// Gives an item of ROOT another name.
fn move_to<C: Calls<File = F>, F: Drop>(
    calls: &mut C,
    alloc: Global,
    root: &str,
    old: &str,
    to: &Name,
) -> Result<(), Failure>
    ensures moved { OnOk result (Makes (renamed_item old.now (item_of root.now to.now) (Ok tt) ∷ []) (C.log calls.old) (C.log calls.new)) }
    ensures fails { IfErr result (λ failure. ((IsNameable to.now → failure ≡ Failure.NoMemory) × (C.log calls.new ≡ C.log calls.old)) ⊎ ((failure ≡ Failure.Failed) × Makes (renamed_item old.now (item_of root.now to.now) (Err failure) ∷ []) (C.log calls.old) (C.log calls.new))) }
{
    let new = item_path(alloc, root, to)?;
    let renamed = calls.rename(old, new.as_str());
    drop(new);
    renamed
}

// Gives a room its new name.
fn call_room(rooms: &mut Vec<Name>, room: u64, to: &Name)
    ensures { rooms.new.items ≡ slice_set rooms.old.items room to.now }
{
    let place = room as usize;
    if place < rooms.len() {
        rooms[place] = *to;
    }
}

impl<C: Calls<File = F>, F: Drop> Disk<C, F> {
    /// Numbers the rooms of ROOT in byte order of their names, unless that was done.
    pub fn number_rooms(&mut self) -> Result<(), Failure>
        ensures done { self.old.is_numbered ≡ true → (result ≡ Ok tt) × (self.new ≡ self.old) }
        ensures numbered { OnOk result (self.new.is_numbered ≡ true) }
        ensures listed { self.old.is_numbered ≡ false → OnOk result (ListsRooms (string_bytes self.old.root) self.new.rooms.items (C.log self.old.calls) (C.log self.new.calls)) }
        ensures root { self.new.root ≡ self.old.root }
        ensures open { self.new.open ≡ self.old.open }
        ensures own { self.new.own ≡ self.old.own }
        ensures failed { OnErr result (IsStill self.old self.new) }
        ensures fails { IfErr result (FailsToListRooms (string_bytes self.old.root) (C.log self.old.calls) (C.log self.new.calls)) }
    {
        if self.is_numbered {
            return Ok(());
        }
        self.rooms = list_rooms(&mut self.calls, self.alloc, self.root.as_str())?;
        self.is_numbered = true;
        Ok(())
    }

    /// Gives a room a name that no room has. Its open files stay open.
    pub fn rename_room(&mut self, room: u64, to: &Name) -> Result<Answer, Failure>
        ensures ends { EndsAmongRooms C.log self.old self.new (rename_room room to.now) result }
    {
        let Some(old) = self.room_path(room)? else {
            return Ok(Answer::NoRoom);
        };
        if self.number_of(to).is_some() {
            drop(old);
            return Ok(Answer::TargetThere);
        }
        if !is_room_name(to.bytes()) {
            drop(old);
            return Err(Failure::Failed);
        }
        let renamed = move_to(
            &mut self.calls,
            self.alloc,
            self.root.as_str(),
            old.as_str(),
            to,
        );
        drop(old);
        renamed?;
        call_room(&mut self.rooms, room, to);
        self.calls.sync_folder(self.root.as_str())?;
        Ok(Answer::Made)
    }
}

impl<C, F> Disk<C, F> {
    /// Names all rooms in byte order.
    pub fn room_names(&self) -> Result<Answer, Failure>
        ensures named { IfOk result (TellsNames self.now.rooms.items) }
        ensures memory { IfErr result (λ failure. failure ≡ Failure.NoMemory) }
    {
        let mut names = Vec::from_slice(self.alloc, self.rooms.as_slice())?;
        names.sort_unstable();
        Ok(Answer::Names(NameList::from_vec(names)))
    }

    /// The number of the room with this name, where there is one.
    pub fn number_of(&self, name: &Name) -> Option<u64>
        ensures { result ≡ position (λ room. same_name room name.now) self.now.rooms.items }
    {
        match place_of(self.rooms.as_slice(), name) {
            Some(place) => Some(place as u64),
            None => None,
        }
    }

    /// The number of the room with this name.
    pub fn find_room(&self, name: &Name) -> Answer
        ensures { result ≡ number_or_absent (position (λ room. same_name room name.now) self.now.rooms.items) }
    {
        match self.number_of(name) {
            Some(value) => Answer::Number { value },
            None => Answer::Absent,
        }
    }

    /// The path of a room, or None where there is no room of this number.
    pub fn room_path(&self, room: u64) -> Result<Option<String>, Failure>
        ensures absent { length self.now.rooms.items ≤ room → result ≡ Ok None }
        ensures there { IfOk result (λ path. room < length self.now.rooms.items → IsSome path) }
        ensures path { IfOk result (λ path. IfSome path (λ path. string_bytes path ≡ room_path self.now room)) }
        ensures memory { IsNameable (room_name self.now room) → IfErr result (λ failure. failure ≡ Failure.NoMemory) }
    {
        match self.rooms.get(room as usize) {
            Some(name) => Ok(Some(item_path(self.alloc, self.root.as_str(), name)?)),
            None => Ok(None),
        }
    }
}
