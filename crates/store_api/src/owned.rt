//! A step that owns its bytes and names.
ghost use Rattle.std.specs.Prelude.{◌≡◌};
ghost use Rattle.store_api.specs.Owned.{step_given};
ghost use Rattle.store_api.specs.Step.{step_of};

use crate::step::Step;
use plfs_types::{Bytes, Name, NameList};

/// A step of a store that owns what it is made of, so that it can be kept and handed on.
#[derive(Drop)]
pub enum OwnedStep {
    Rooms,
    FindRoom {
        name: Name,
    },
    MakeRoom {
        name: Name,
        folders: NameList,
        files: NameList,
    },
    RenameRoom {
        room: u64,
        to: Name,
    },
    MakeFolder {
        room: u64,
        folder: Name,
    },
    RemoveFolder {
        room: u64,
        folder: Name,
    },
    List {
        room: u64,
        folder: Name,
    },
    Create {
        room: u64,
        folder: Name,
        file: Name,
    },
    Remove {
        room: u64,
        folder: Name,
        file: Name,
    },
    Replace {
        room: u64,
        folder: Name,
        from: Name,
        to: Name,
    },
    Length {
        room: u64,
        folder: Name,
        file: Name,
    },
    ReadAt {
        room: u64,
        folder: Name,
        file: Name,
        at: u64,
        len: u64,
    },
    WriteAt {
        room: u64,
        folder: Name,
        file: Name,
        at: u64,
        bytes: Bytes,
    },
    Cut {
        room: u64,
        folder: Name,
        file: Name,
        len: u64,
    },
    Sync {
        room: u64,
        folder: Name,
        file: Name,
    },
}

impl OwnedStep {
    /// The same step, by reference.
    pub fn as_step(&self) -> Step<'_>
        ensures { step_of result ≡ step_given self.now }
    {
        match self {
            OwnedStep::Rooms => Step::Rooms,
            OwnedStep::FindRoom { name } => Step::FindRoom { name: *name },
            OwnedStep::MakeRoom {
                name,
                folders,
                files,
            } => Step::MakeRoom {
                name: *name,
                folders: folders.as_slice(),
                files: files.as_slice(),
            },
            OwnedStep::RenameRoom { room, to } => Step::RenameRoom {
                room: *room,
                to: *to,
            },
            OwnedStep::MakeFolder { room, folder } => Step::MakeFolder {
                room: *room,
                folder: *folder,
            },
            OwnedStep::RemoveFolder { room, folder } => Step::RemoveFolder {
                room: *room,
                folder: *folder,
            },
            OwnedStep::List { room, folder } => Step::List {
                room: *room,
                folder: *folder,
            },
            OwnedStep::Create { room, folder, file } => Step::Create {
                room: *room,
                folder: *folder,
                file: *file,
            },
            OwnedStep::Remove { room, folder, file } => Step::Remove {
                room: *room,
                folder: *folder,
                file: *file,
            },
            OwnedStep::Replace {
                room,
                folder,
                from,
                to,
            } => Step::Replace {
                room: *room,
                folder: *folder,
                from: *from,
                to: *to,
            },
            OwnedStep::Length { room, folder, file } => Step::Length {
                room: *room,
                folder: *folder,
                file: *file,
            },
            OwnedStep::ReadAt {
                room,
                folder,
                file,
                at,
                len,
            } => Step::ReadAt {
                room: *room,
                folder: *folder,
                file: *file,
                at: *at,
                len: *len,
            },
            OwnedStep::WriteAt {
                room,
                folder,
                file,
                at,
                bytes,
            } => Step::WriteAt {
                room: *room,
                folder: *folder,
                file: *file,
                at: *at,
                bytes: bytes.as_slice(),
            },
            OwnedStep::Cut {
                room,
                folder,
                file,
                len,
            } => Step::Cut {
                room: *room,
                folder: *folder,
                file: *file,
                len: *len,
            },
            OwnedStep::Sync { room, folder, file } => Step::Sync {
                room: *room,
                folder: *folder,
                file: *file,
            },
        }
    }
}
