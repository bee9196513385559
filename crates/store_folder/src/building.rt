//! How a room is made: it is built in a folder of ROOT that is no room, and then that folder gets the room's name.
ghost use Rattle.std.specs.Prelude.{◌≡◌, All, Err, Option, IsOk, IfErr, OnOk, OnErr};
ghost use Rattle.store_api.specs.Step.{make_room};
ghost use Rattle.store_folder.specs.FailedBuilding.{FailsToBuildFolder, FailsToPutFile, FailsToBuildFile, FailsToFill, FailsToBuildRoom};
ghost use Rattle.store_folder.specs.ForEach.{ForEach, FailsAtOne};
ghost use Rattle.store_folder.specs.Leaving.{EndsAmongRooms};
ghost use Rattle.store_folder.specs.Paths.{IsNameable};
ghost use Rattle.store_folder.specs.NewRooms.{BuildsFolder, PutsFile, BuildsFile, Fills, BuildsRoom};

use crate::disk::Disk;
use crate::files::old_file;
use crate::folders::item_path;
use crate::leftovers::{clear, new_folder};
use folder_calls::{Calls, Failure, is_room_name, part};
use plfs_types::Name;
use std::alloc::Global;
use store_api::Answer;

impl<C: Calls<File = F>, F: Drop> Disk<C, F> {
    /// Adds a room with these folders and empty top files: they are built and synced in a folder that is no room,
    /// and then that folder gets the room's name. Where the building fails, what was built is cleared, as far as the
    /// system does that.
    pub fn make_room(
        &mut self,
        name: &Name,
        folders: &[Name],
        files: &[Name],
    ) -> Result<Answer, Failure>
        ensures ends { EndsAmongRooms C.log self.old self.new (make_room name.now folders.now files.now) result }
    {
        if let Some(room) = self.number_of(name) {
            return Ok(Answer::Old { room });
        }
        if !is_room_name(name.bytes()) {
            return Err(Failure::Failed);
        }
        let path = item_path(self.alloc, self.root.as_str(), name)?;
        let value = self.rooms.len() as u64;
        self.rooms.push(*name)?;
        let built = build_room(
            &mut self.calls,
            self.alloc,
            self.root.as_str(),
            path.as_str(),
            folders,
            files,
        );
        drop(path);
        if let Err(failure) = built {
            self.rooms.pop();
            return Err(failure);
        }
        // The room is there from now on, also where the system fails to sync ROOT.
        self.calls.sync_folder(self.root.as_str())?;
        Ok(Answer::Number { value })
    }
}

// Builds a room, and moves it to this path.
fn build_room<C: Calls<File = F>, F: Drop>(
    calls: &mut C,
    alloc: Global,
    root: &str,
    path: &str,
    folders: &[Name],
    files: &[Name],
) -> Result<(), Failure>
    ensures built { OnOk result (BuildsRoom root.now path.now folders.now files.now (C.log calls.old) (C.log calls.new)) }
    ensures fails { IfErr result (FailsToBuildRoom root.now path.now folders.now files.now (C.log calls.old) (C.log calls.new)) }
    ensures parts { ¬ (All IsNameable folders.now × All IsNameable files.now) → (result ≡ Err Failure.Failed) × (C.log calls.new ≡ C.log calls.old) }
{
    check_parts(folders)?;
    check_parts(files)?;
    let new = new_folder(calls, alloc, root)?;
    if let Err(failure) = build_at(calls, alloc, new.as_str(), path, folders, files) {
        let _ = clear(calls, alloc, new.as_str());
        return Err(failure);
    }
    Ok(())
}

// Fills the new folder, and moves it to this path.
fn build_at<C: Calls<File = F>, F: Drop>(
    calls: &mut C,
    alloc: Global,
    new: &str,
    path: &str,
    folders: &[Name],
    files: &[Name],
) -> Result<(), Failure>
    ensures built { OnOk result (Fills new.now path.now folders.now files.now (C.log calls.old) (C.log calls.new)) }
    ensures fails { All IsNameable folders.now → All IsNameable files.now → IfErr result (FailsToFill new.now path.now folders.now files.now (C.log calls.old) (C.log calls.new)) }
{
    build_folders(calls, alloc, new, folders)?;
    build_files(calls, alloc, new, files)?;
    calls.sync_folder(new)?;
    calls.rename(new, path)
}

fn build_folders<C: Calls<File = F>, F: Drop>(
    calls: &mut C,
    alloc: Global,
    new: &str,
    folders: &[Name],
) -> Result<(), Failure>
    ensures built { OnOk result (ForEach (BuildsFolder new.now) folders.now (C.log calls.old) (C.log calls.new)) }
    ensures fails { All IsNameable folders.now → IfErr result (λ failure. FailsAtOne (BuildsFolder new.now) (FailsToBuildFolder new.now failure) folders.now (C.log calls.old) (C.log calls.new)) }
{
    for folder in folders {
        build_folder(calls, alloc, new, folder)?;
    }
    Ok(())
}

// A name that the list has twice is one folder.
fn build_folder<C: Calls<File = F>, F: Drop>(
    calls: &mut C,
    alloc: Global,
    new: &str,
    folder: &Name,
) -> Result<(), Failure>
    ensures built { OnOk result (BuildsFolder new.now folder.now (C.log calls.old) (C.log calls.new)) }
    ensures fails { IsNameable folder.now → IfErr result (λ failure. FailsToBuildFolder new.now failure folder.now (C.log calls.old) (C.log calls.new)) }
{
    let path = item_path(alloc, new, folder)?;
    calls.make_folder(path.as_str())?;
    calls.sync_folder(path.as_str())
}

fn build_files<C: Calls<File = F>, F: Drop>(
    calls: &mut C,
    alloc: Global,
    new: &str,
    files: &[Name],
) -> Result<(), Failure>
    ensures built { OnOk result (ForEach (BuildsFile new.now) files.now (C.log calls.old) (C.log calls.new)) }
    ensures fails { All IsNameable files.now → IfErr result (λ failure. FailsAtOne (BuildsFile new.now) (FailsToBuildFile new.now failure) files.now (C.log calls.old) (C.log calls.new)) }
{
    for file in files {
        build_file(calls, alloc, new, file)?;
    }
    Ok(())
}

// A name that the list has twice is one file.
fn build_file<C: Calls<File = F>, F: Drop>(
    calls: &mut C,
    alloc: Global,
    new: &str,
    file: &Name,
) -> Result<(), Failure>
    ensures built { OnOk result (BuildsFile new.now file.now (C.log calls.old) (C.log calls.new)) }
    ensures fails { IsNameable file.now → IfErr result (λ failure. FailsToBuildFile new.now failure file.now (C.log calls.old) (C.log calls.new)) }
{
    let path = item_path(alloc, new, file)?;
    let put = put_file(calls, path.as_str());
    drop(path);
    put
}

fn put_file<C: Calls<File = F>, F: Drop>(calls: &mut C, path: &str) -> Result<(), Failure>
    ensures put { OnOk result ((made : Option F) × PutsFile path.now made (C.log calls.old) (C.log calls.new)) }
    ensures failed { IfErr result (λ failure. failure ≡ Failure.Failed) }
    ensures fails { OnErr result (FailsToPutFile path.now (C.log calls.old) (C.log calls.new)) }
{
    match calls.create(path)? {
        Some(file) => calls.sync(&file),
        None => old_file(calls, path),
    }
}

// Fails where one of the names can't stand in a path.
fn check_parts(names: &[Name]) -> Result<(), Failure>
    ensures parts { OnOk result (All IsNameable names.now) }
    ensures only { All IsNameable names.now → IsOk result }
    ensures failed { IfErr result (λ failure. failure ≡ Failure.Failed) }
{
    for name in names {
        check_part(name)?;
    }
    Ok(())
}

// Fails where the name can't stand in a path. The bytes of a text are UTF-8.
fn check_part(name: &Name) -> Result<(), Failure>
    ensures part { OnOk result (IsNameable name.now) }
    ensures only { IsNameable name.now → IsOk result }
    ensures failed { IfErr result (λ failure. failure ≡ Failure.Failed) }
{
    let _bytes = part(name)?.as_bytes();
    Ok(())
}
