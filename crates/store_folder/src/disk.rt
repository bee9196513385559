//! What a store keeps of its folder, and each step's way to the system.
ghost use Rattle.std.specs.Prelude.{◌≡◌, [], max, false, None, IfOk, IfErr, string_bytes};
ghost use Rattle.store_api.specs.Step.{step_of};
ghost use Rattle.folder_calls.specs.Own.{is_own};
ghost use Rattle.store_folder.specs.Leaving.{Attempts, EndsAmongRooms};
ghost use Rattle.store_folder.specs.Places.{file_of};
ghost use Rattle.store_folder.specs.StepPlaces.{room_name, place_of};

use folder_calls::{Calls, Failure, FileKey, OpenFiles, OwnFiles, Place};
use plfs_types::{Name, Word};
use std::alloc::Global;
use store_api::{Answer, Step};

/// A real folder with its rooms and the files that are open.
#[derive(Drop)]
pub struct Disk<C, F> {
    pub(crate) calls: C,
    pub(crate) alloc: Global,
    pub(crate) root: String,
    // The names of the rooms by their numbers, once ROOT was listed.
    pub(crate) rooms: Vec<Name>,
    pub(crate) is_numbered: bool,
    pub(crate) open: OpenFiles<F>,
    // Of which files all bytes are this run's.
    pub(crate) own: OwnFiles,
}

impl<C: Calls<File = F> + Drop, F: Drop> Disk<C, F> {
    /// The folder of this path, with place for so many open files, for one at least. It touches nothing.
    pub fn new(calls: C, alloc: Global, root: &Word, most: u64) -> Result<Self, Failure>
        ensures calls { IfOk result (λ disk. disk.calls ≡ calls) }
        ensures root { IfOk result (λ disk. string_bytes disk.root ≡ root.now) }
        ensures rooms { IfOk result (λ disk. (disk.rooms.items ≡ []) × (disk.is_numbered ≡ false)) }
        ensures closed { IfOk result (λ disk. disk.open.files.entries ≡ []) }
        ensures place { IfOk result (λ disk. disk.open.files.cap ≡ max most 1) }
        ensures none_own { IfOk result (λ disk. (key : FileKey) → is_own disk.own key ≡ false) }
        ensures memory { IfErr result (λ failure. failure ≡ Failure.NoMemory) }
    {
        let root = String::from_str(alloc, root.as_str())?;
        let open = OpenFiles::new(alloc, most)?;
        Ok(Disk {
            calls,
            alloc,
            root,
            rooms: Vec::new(alloc),
            is_numbered: false,
            open,
            own: OwnFiles::new(alloc),
        })
    }

    /// Makes one step, and numbers the rooms before the first.
    pub fn make(&mut self, step: &Step<'_>) -> Result<Answer, Failure>
        ensures attempted { Attempts C.log self.old self.new (step_of step.now) result }
    {
        self.number_rooms()?;
        self.perform(step)
    }

    // Makes one step among numbered rooms.
    fn perform(&mut self, step: &Step<'_>) -> Result<Answer, Failure>
        ensures ends { EndsAmongRooms C.log self.old self.new (step_of step.now) result }
    {
        match file_of(step) {
            Some(key) => self.act_at(&key, step),
            None => self.act_on_names(step),
        }
    }

    // Makes one step that is on no open file. Its locals are many, and aren't to stand in the frame of a step that is.
    #[inline(never)]
    fn act_on_names(&mut self, step: &Step<'_>) -> Result<Answer, Failure>
        requires { file_of (step_of step.now) ≡ None }
        ensures ends { EndsAmongRooms C.log self.old self.new (step_of step.now) result }
    {
        match *step {
            Step::Rooms => self.room_names(),
            Step::FindRoom { name } => Ok(self.find_room(&name)),
            Step::MakeRoom {
                name,
                folders,
                files,
            } => self.make_room(&name, folders, files),
            Step::RenameRoom { room, to } => self.rename_room(room, &to),
            Step::MakeFolder { room, folder } => self.make_folder(room, &folder),
            Step::RemoveFolder { room, folder } => self.remove_folder(room, &folder),
            Step::List { room, folder } => self.list(room, &folder),
            Step::Create { room, folder, file } => self.create(&FileKey { room, folder, file }),
            Step::Remove { room, folder, file } => self.remove(&FileKey { room, folder, file }),
            Step::Replace {
                room,
                folder,
                from,
                to,
            } => self.replace(
                &FileKey {
                    room,
                    folder,
                    file: from,
                },
                &to,
            ),
            Step::Length { .. }
            | Step::ReadAt { .. }
            | Step::WriteAt { .. }
            | Step::Cut { .. }
            | Step::Sync { .. } => unreachable!(),
        }
    }
}

// The file of a step that is made on an open one.
fn file_of(step: &Step<'_>) -> Option<FileKey>
    ensures { result ≡ file_of (step_of step.now) }
{
    match step {
        Step::Length { room, folder, file }
        | Step::ReadAt {
            room,
            folder,
            file,
            ..
        }
        | Step::WriteAt {
            room,
            folder,
            file,
            ..
        }
        | Step::Cut {
            room,
            folder,
            file,
            ..
        }
        | Step::Sync { room, folder, file } => Some(FileKey {
            room: *room,
            folder: *folder,
            file: *file,
        }),
        _ => None,
    }
}

impl<C, F> Disk<C, F> {
    // Lays down the name of a room, where it has one.
    fn put_room_name(&self, room: u64, into: &mut Name)
        ensures { into.new ≡ room_name self.now room }
    {
        match self.rooms.get(room as usize) {
            Some(name) => *into = *name,
            None => *into = Name::empty(),
        }
    }

    // Lays down where a step on a room is made. Each name is copied once.
    fn put_names(&self, room: u64, folder: &Name, file: &Name, into: &mut Place)
        ensures { into.new ≡ record { room = room_name self.now room; folder = folder.now; file = file.now } }
    {
        self.put_room_name(room, &mut into.room);
        into.folder = *folder;
        into.file = *file;
    }

    /// Lays down where a step is made, below ROOT. Before the rooms were numbered that is ROOT itself.
    pub fn put_place(&self, step: &Step<'_>, into: &mut Place)
        ensures { into.new ≡ place_of self.now (step_of step.now) }
    {
        if !self.is_numbered {
            *into = Place::root();
            return;
        }
        match step {
            Step::Rooms => *into = Place::root(),
            Step::FindRoom { name } | Step::MakeRoom { name, .. } => *into = Place::of_room(*name),
            Step::RenameRoom { room, .. } => {
                self.put_names(*room, &Name::empty(), &Name::empty(), into)
            }
            Step::MakeFolder { room, folder }
            | Step::RemoveFolder { room, folder }
            | Step::List { room, folder } => self.put_names(*room, folder, &Name::empty(), into),
            Step::Create { room, folder, file }
            | Step::Remove { room, folder, file }
            | Step::Replace {
                room,
                folder,
                from: file,
                ..
            }
            | Step::Length { room, folder, file }
            | Step::ReadAt {
                room,
                folder,
                file,
                ..
            }
            | Step::WriteAt {
                room,
                folder,
                file,
                ..
            }
            | Step::Cut {
                room,
                folder,
                file,
                ..
            }
            | Step::Sync { room, folder, file } => self.put_names(*room, folder, file, into),
        }
    }
}
