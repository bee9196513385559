//! What a reply gives, and which trouble it is where it gives nothing.
ghost use Rattle.std.specs.Prelude.{◌≡◌};
ghost use Rattle.mount_model.specs.FlowListed.{file_in as path_in};
ghost use Rattle.mount_model.specs.FlowReplies.{room_in as room_of, length_in as length_of, bytes_in as bytes_of, names_in as names_of, is_no_folder as is_no_folder_of, damage as damage_of, trouble as trouble_of, failure as failure_of};

use crate::reply::Reply;
use crate::stuck::Stuck;
use plfs_types::{Bytes, Name, NameList, Path};
use store_api::Answer;

/// The room that was found.
pub fn room_in(reply: &Reply) -> Option<u64>
    ensures { result ≡ room_of reply.now }
{
    match reply {
        Reply::Room { room } => Some(*room),
        _ => None,
    }
}

/// The length of a dropping in bytes, which has none where it or its folder is missing.
pub fn length_in(reply: &Reply) -> Option<u64>
    ensures { result ≡ length_of reply.now }
{
    match reply {
        Reply::Looked(answer) => match answer {
            Answer::Number { value } => Some(*value),
            Answer::Absent => Some(0),
            Answer::NoFolder => Some(0),
            _ => None,
        },
        _ => None,
    }
}

/// The bytes that were read.
pub fn bytes_in(reply: Reply) -> Option<Bytes>
    ensures { result ≡ bytes_of reply }
{
    match reply {
        Reply::Looked(answer) => match answer {
            Answer::Bytes(bytes) => Some(bytes),
            _ => None,
        },
        _ => None,
    }
}

/// The names that were listed.
pub fn names_in(reply: Reply) -> Option<NameList>
    ensures { result ≡ names_of reply }
{
    match reply {
        Reply::Looked(answer) => match answer {
            Answer::Names(names) => Some(names),
            _ => None,
        },
        _ => None,
    }
}

/// Whether the folder that was looked at is not there.
pub fn is_no_folder(reply: &Reply) -> bool
    ensures { result ≡ is_no_folder_of reply.now }
{
    match reply {
        Reply::Looked(answer) => match answer {
            Answer::NoFolder => true,
            _ => false,
        },
        _ => false,
    }
}

/// What no sound container has at this byte of a file.
pub fn damage(path: &Path, place: u64) -> Stuck
    ensures { result ≡ damage_of path.now place }
{
    Stuck::Damaged {
        folder: path.folder,
        file: path.file,
        place,
    }
}

/// The trouble that a reply to a look at this file or folder is, where it doesn't give what was asked for.
pub fn trouble(path: &Path, reply: &Reply) -> Stuck
    ensures { result ≡ trouble_of path.now reply.now }
{
    match reply {
        Reply::Refused(why) => Stuck::Refused(*why),
        Reply::Damaged { folder, file } => Stuck::Damaged {
            folder: *folder,
            file: *file,
            place: 0,
        },
        Reply::Looked(answer) => match answer {
            Answer::NoFolder => Stuck::Damaged {
                folder: path.folder,
                file: Name::empty(),
                place: 0,
            },
            _ => damage(path, 0),
        },
        _ => Stuck::Fault,
    }
}

/// The trouble that a reply to a call that looks at nothing is, where it doesn't give what was asked for.
pub fn failure(reply: &Reply) -> Stuck
    ensures { result ≡ failure_of reply.now }
{
    match reply {
        Reply::Refused(why) => Stuck::Refused(*why),
        Reply::Damaged { folder, file } => Stuck::Damaged {
            folder: *folder,
            file: *file,
            place: 0,
        },
        _ => Stuck::Fault,
    }
}

/// The path of a file in a folder.
pub fn file_in(folder: Name, file: Name) -> Path
    ensures { result ≡ path_in folder file }
{
    Path { folder, file }
}
