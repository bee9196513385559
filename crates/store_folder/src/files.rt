//! The steps of files.
ghost use Rattle.std.specs.Prelude.{◌≡◌, ◌⊎◌, ◌||◌, ◌≤◌, ◌<◌, ◌∷◌, [], ℕ, length, true, false, None, Some, Ok, IfOk, IfErr, IfSome, OnOk, OnErr, Result, if◌then◌else◌, string_bytes, ⊤};
ghost use Rattle.store_api.specs.Step.{step_of, create, remove, replace};
ghost use Rattle.std.specs.Map.{remove_entry};
ghost use Rattle.folder_calls.specs.Calls.{Makes, looked_at};
ghost use Rattle.store_folder.specs.Failing.{FailsUncalled, FailsToCreate, FailsToRemove, FailsToReplace};
ghost use Rattle.store_folder.specs.Files.{IsNoFile, CreatesFile, RemovesFile, ReplacesFile, FailsToOpen, OpensFile};
ghost use Rattle.folder_calls.specs.Keys.{same_file, with_name};
ghost use Rattle.store_folder.specs.Paths.{IsNameable, room_path, folder_path, item_of};
ghost use Rattle.folder_calls.specs.Opened.{held_at};
ghost use Rattle.folder_calls.specs.Own.{is_own};
ghost use Rattle.store_folder.specs.Leaving.{OpensMade, EndsAmongRooms};
ghost use Rattle.store_folder.specs.Places.{FindsFile, IsNamed, file_of};
ghost use Rattle.store_folder.specs.Rooms.{IsStill, HasRooms, InRoom};

use crate::disk::Disk;
use crate::folders::{Spot, enter, item_path};
use folder_calls::{Calls, Failure, FileKey, Held, Kind, OpenFiles};
use plfs_types::Name;
use std::alloc::Global;
use store_api::{Answer, Step};

/// A file that a step asks for: open, or what is answered where it isn't there.
#[derive(Drop)]
pub enum Found<F> {
    There(Held<F>),
    Not(Answer),
}

impl<C: Calls<File = F>, F: Drop> Disk<C, F> {
    /// Adds an empty file, and syncs its name. The file stays open.
    pub fn create(&mut self, key: &FileKey) -> Result<Answer, Failure>
        ensures ends { EndsAmongRooms C.log self.old self.new (create key.now.room key.now.folder key.now.file) result }
    {
        drop(self.open.take(key));
        let Some(spot) = self.spot(key.room, &key.folder)? else {
            return Ok(Answer::NoRoom);
        };
        let path = item_path(self.alloc, spot.folder.as_str(), &key.file)?;
        let answer = create_in(&mut self.calls, &mut self.open, &spot, key, path.as_str());
        drop((path, spot));
        answer
    }

    /// Removes a file, and syncs that its name is gone.
    pub fn remove(&mut self, key: &FileKey) -> Result<Answer, Failure>
        ensures ends { EndsAmongRooms C.log self.old self.new (remove key.now.room key.now.folder key.now.file) result }
    {
        drop(self.open.take(key));
        self.own.remove(key);
        let Some(spot) = self.spot(key.room, &key.folder)? else {
            return Ok(Answer::NoRoom);
        };
        let path = item_path(self.alloc, spot.folder.as_str(), &key.file)?;
        let answer = remove_in(&mut self.calls, &spot, &key.file, path.as_str());
        drop((path, spot));
        answer
    }

    /// Gives the file `from` the name `to`, whose old file is gone, and syncs the names. A file that has the name
    /// already is left as it is.
    pub fn replace(&mut self, from: &FileKey, to: &Name) -> Result<Answer, Failure>
        ensures ends { EndsAmongRooms C.log self.old self.new (replace from.now.room from.now.folder from.now.file to.now) result }
    {
        let target = FileKey {
            room: from.room,
            folder: from.folder,
            file: *to,
        };
        drop(self.open.take(from));
        drop(self.open.take(&target));
        self.own.remove(from);
        self.own.remove(&target);
        let Some(spot) = self.spot(from.room, &from.folder)? else {
            return Ok(Answer::NoRoom);
        };
        let answer = replace_in(&mut self.calls, self.alloc, &spot, &from.file, to);
        drop(spot);
        answer
    }

    // The file, from among the open ones where it is.
    fn find(&mut self, key: &FileKey) -> Result<Found<F>, Failure>
        ensures no_room { length self.old.rooms.items ≤ key.now.room → (result ≡ Ok (Found.Not Answer.NoRoom)) × (C.log self.new.calls ≡ C.log self.old.calls) }
        ensures finds { let room = room_path self.old key.now.room in key.now.room < length self.old.rooms.items → IfOk result (FindsFile (held_at self.old.open key.now) (is_own self.old.own key.now) (C.log self.old.calls) (C.log self.new.calls) room (folder_path room key.now.folder) key.now.file) }
        ensures open_file { key.now.room < length self.old.rooms.items → IfSome (held_at self.old.open key.now) (λ held. (result ≡ Ok (Found.There held)) × (C.log self.new.calls ≡ C.log self.old.calls)) }
        ensures rooms { HasRooms self.old self.new }
        ensures closed { self.new.open.files.entries ≡ remove_entry (same_file key.now) self.old.open.files.entries }
        ensures gone { held_at self.new.open key.now ≡ None }
        ensures others { (other : FileKey) → held_at self.new.open other ≡ (if same_file key.now other then None else held_at self.old.open other) }
        ensures own { self.new.own ≡ self.old.own }
        ensures fails { let room = room_path self.old key.now.room in IfErr result (FailsToOpen (C.log self.old.calls) (C.log self.new.calls) (IsNamed self.old key.now) room (folder_path room key.now.folder) key.now.file) }
    {
        let open = self.open.take(key);
        if key.room as usize >= self.rooms.len() {
            return Ok(Found::Not(Answer::NoRoom));
        }
        match open {
            Some(held) => Ok(Found::There(held)),
            None => self.open_file(key),
        }
    }

    // Opens the file by its path.
    fn open_file(&mut self, key: &FileKey) -> Result<Found<F>, Failure>
        ensures opens { let room = room_path self.old key.now.room in key.now.room < length self.old.rooms.items → IfOk result (OpensFile (C.log self.old.calls) (C.log self.new.calls) (is_own self.old.own key.now) room (folder_path room key.now.folder) key.now.file) }
        ensures still { IsStill self.old self.new }
        ensures fails { let room = room_path self.old key.now.room in IfErr result (FailsToOpen (C.log self.old.calls) (C.log self.new.calls) (IsNamed self.old key.now) room (folder_path room key.now.folder) key.now.file) }
    {
        let Some(spot) = self.spot(key.room, &key.folder)? else {
            return Ok(Found::Not(Answer::NoRoom));
        };
        let path = item_path(self.alloc, spot.folder.as_str(), &key.file)?;
        let is_own = self.own.has(key);
        let found = open_in(&mut self.calls, &spot, &key.file, path.as_str(), is_own);
        drop((path, spot));
        found
    }

    /// Makes a step on a file. It is then the one that was used last. After a failure the file is closed, so that its
    /// length is asked again.
    pub fn act_at(&mut self, key: &FileKey, step: &Step<'_>) -> Result<Answer, Failure>
        ensures ends { file_of (step_of step.now) ≡ Some key.now → EndsAmongRooms C.log self.old self.new (step_of step.now) result }
    {
        if key.room as usize >= self.rooms.len() {
            return self.find_and_act(key, step);
        }
        let acted = self
            .open
            .act(&mut self.own, &mut self.calls, self.alloc, key, step);
        match acted {
            Some(end) => end,
            None => self.find_and_act(key, step),
        }
    }

    // Finds the file, and makes the step on it.
    #[inline(never)]
    fn find_and_act(&mut self, key: &FileKey, step: &Step<'_>) -> Result<Answer, Failure>
        ensures ends { file_of (step_of step.now) ≡ Some key.now → EndsAmongRooms C.log self.old self.new (step_of step.now) result }
    {
        let found = match self.find(key) {
            Ok(found) => found,
            Err(failure) => return Err(failure),
        };
        match found {
            Found::Not(answer) => Ok(answer),
            Found::There(mut held) => {
                self.own.add_if_empty(key, &held);
                let answer = held.act(&mut self.calls, self.alloc, step)?;
                self.open.keep(*key, held);
                Ok(answer)
            }
        }
    }
}

// Adds the file to this folder, at this path.
fn create_in<C: Calls<File = F>, F: Drop>(
    calls: &mut C,
    open_files: &mut OpenFiles<F>,
    spot: &Spot,
    key: &FileKey,
    path: &str,
) -> Result<Answer, Failure>
    requires path { path.now ≡ item_of (string_bytes spot.now.folder) key.now.file }
    ensures creates { IfOk result (CreatesFile (C.log calls.old) (C.log calls.new) (string_bytes spot.now.room) (string_bytes spot.now.folder) key.now.file) }
    ensures failed { IfErr result (λ failure. failure ≡ Failure.Failed) }
    ensures fails { OnErr result (FailsToCreate (C.log calls.old) (C.log calls.new) (string_bytes spot.now.room) (string_bytes spot.now.folder) key.now.file) }
    ensures open { OnErr result (open_files.new ≡ open_files.old) }
    ensures opened { (other : FileKey) → (held : Held F) → held_at open_files.new other ≡ Some held → (held_at open_files.old other ≡ Some held) ⊎ ((same_file key.now other ≡ true) × OpensMade (C.log calls.old) (C.log calls.new) (string_bytes spot.now.room) (string_bytes spot.now.folder) key.now.file result held) }
{
    if !enter(calls, spot)? {
        return Ok(Answer::NoFolder);
    }
    match calls.create(path)? {
        Some(file) => match calls.sync_folder(spot.folder.as_str()) {
            Ok(()) => {
                open_files.keep(*key, Held::empty(file));
                Ok(Answer::Made)
            }
            Err(failure) => {
                drop(file);
                Err(failure)
            }
        },
        None => {
            old_file(calls, path)?;
            Ok(Answer::Old { room: 0 })
        }
    }
}

// Fails where what has the path of a new file is no plain file.
pub(crate) fn old_file<C: Calls<File = F>, F: Drop>(
    calls: &mut C,
    path: &str,
) -> Result<(), Failure>
    ensures looked { OnOk result ((len : ℕ) × Makes (looked_at path.now (Ok (Kind.File len)) ∷ []) (C.log calls.old) (C.log calls.new)) }
    ensures failed { IfErr result (λ failure. failure ≡ Failure.Failed) }
    ensures fails { OnErr result ((end : Result Kind Failure) × IsNoFile end × Makes (looked_at path.now end ∷ []) (C.log calls.old) (C.log calls.new)) }
{
    match calls.look(path)? {
        Kind::File { .. } => Ok(()),
        Kind::Absent | Kind::Folder | Kind::Other => Err(Failure::Failed),
    }
}

// Removes the file of this folder that has this path.
fn remove_in<C: Calls<File = F>, F: Drop>(
    calls: &mut C,
    spot: &Spot,
    file: &Name,
    path: &str,
) -> Result<Answer, Failure>
    requires path { path.now ≡ item_of (string_bytes spot.now.folder) file.now }
    ensures removes { IfOk result (RemovesFile (C.log calls.old) (C.log calls.new) (string_bytes spot.now.room) (string_bytes spot.now.folder) file.now) }
    ensures failed { IfErr result (λ failure. failure ≡ Failure.Failed) }
    ensures fails { OnErr result (FailsToRemove (C.log calls.old) (C.log calls.new) (string_bytes spot.now.room) (string_bytes spot.now.folder) file.now) }
{
    if !enter(calls, spot)? {
        return Ok(Answer::NoFolder);
    }
    if calls.remove_file(path)? {
        calls.sync_folder(spot.folder.as_str())?;
        Ok(Answer::Made)
    } else {
        Ok(Answer::Absent)
    }
}

// Gives a file of this folder another name.
fn replace_in<C: Calls<File = F>, F: Drop>(
    calls: &mut C,
    alloc: Global,
    spot: &Spot,
    from: &Name,
    to: &Name,
) -> Result<Answer, Failure>
    ensures replaces { IfOk result (ReplacesFile (C.log calls.old) (C.log calls.new) (string_bytes spot.now.room) (string_bytes spot.now.folder) from.now to.now) }
    ensures fails { IfErr result (λ failure. FailsUncalled (C.log calls.old) (C.log calls.new) (IsNameable from.now × IsNameable to.now) failure ⊎ ((failure ≡ Failure.Failed) × FailsToReplace (C.log calls.old) (C.log calls.new) (string_bytes spot.now.room) (string_bytes spot.now.folder) from.now to.now)) }
{
    let old = item_path(alloc, spot.folder.as_str(), from)?;
    let new = item_path(alloc, spot.folder.as_str(), to)?;
    let answer = rename_in(calls, spot, from, to, old.as_str(), new.as_str());
    drop((old, new));
    answer
}

// The same, by the paths of both names.
fn rename_in<C: Calls<File = F>, F: Drop>(
    calls: &mut C,
    spot: &Spot,
    from: &Name,
    to: &Name,
    old: &str,
    new: &str,
) -> Result<Answer, Failure>
    requires old { old.now ≡ item_of (string_bytes spot.now.folder) from.now }
    requires new { new.now ≡ item_of (string_bytes spot.now.folder) to.now }
    ensures replaces { IfOk result (ReplacesFile (C.log calls.old) (C.log calls.new) (string_bytes spot.now.room) (string_bytes spot.now.folder) from.now to.now) }
    ensures failed { IfErr result (λ failure. failure ≡ Failure.Failed) }
    ensures fails { OnErr result (FailsToReplace (C.log calls.old) (C.log calls.new) (string_bytes spot.now.room) (string_bytes spot.now.folder) from.now to.now) }
{
    if !enter(calls, spot)? {
        return Ok(Answer::NoFolder);
    }
    match calls.look(old)? {
        Kind::File { .. } => {}
        Kind::Absent => return Ok(Answer::Absent),
        Kind::Folder => return Err(Failure::Failed),
        Kind::Other => return Err(Failure::Failed),
    }
    if *from == *to {
        return Ok(Answer::Made);
    }
    calls.rename(old, new)?;
    calls.sync_folder(spot.folder.as_str())?;
    Ok(Answer::Made)
}

// Opens the file of this folder that has this path.
fn open_in<C: Calls<File = F>, F: Drop>(
    calls: &mut C,
    spot: &Spot,
    file: &Name,
    path: &str,
    is_own: bool,
) -> Result<Found<F>, Failure>
    requires path { path.now ≡ item_of (string_bytes spot.now.folder) file.now }
    ensures opens { IfOk result (OpensFile (C.log calls.old) (C.log calls.new) is_own (string_bytes spot.now.room) (string_bytes spot.now.folder) file.now) }
    ensures fails { IfErr result (FailsToOpen (C.log calls.old) (C.log calls.new) ⊤ (string_bytes spot.now.room) (string_bytes spot.now.folder) file.now) }
{
    if !enter(calls, spot)? {
        return Ok(Found::Not(Answer::NoFolder));
    }
    match calls.open(path)? {
        Some(file) => Ok(Found::There(Held::new(calls, file, is_own)?)),
        None => Ok(Found::Not(Answer::Absent)),
    }
}
