//! What replies and answers tell a drain.
ghost use Rattle.std.specs.Prelude.{◌≡◌, ◌<◌, ◌+◌, ◌^◌, []};
ghost use Rattle.drain_copy.specs.Asking.{look_reply as look_reply_of, look_step as look_step_of, step_of_look as step_for_look};
ghost use Rattle.drain_copy.specs.Telling.{entry_made as entry_made_of, folder_alone as folder_only, found_room as found_room_of, kept as kept_of, made_now, made_or_old, roomed, sought, stuck_there as stuck_for, told_well};
ghost use Rattle.drain_copy.specs.Copying.{part_told as part_told_of};
ghost use Rattle.store_api.specs.Owned.{step_given};

use crate::outcome::DrainStuck;
use container_layout::openhosts;
use mount_model::{Call, Look, Reply, Stuck, bytes_in, damage, failure, room_in, trouble};
use plfs_types::{Bytes, Name, Path};
use store_api::{Answer, OwnedStep, Trouble};

fn step_of_look(room: u64, look: Look) -> OwnedStep
    ensures { step_given result ≡ step_for_look room look }
{
    match look {
        Look::Top => OwnedStep::List {
            room,
            folder: Name::empty(),
        },
        Look::List { folder } => OwnedStep::List { room, folder },
        Look::Length { path } => OwnedStep::Length {
            room,
            folder: path.folder,
            file: path.file,
        },
        Look::Read { path, at, len } => OwnedStep::ReadAt {
            room,
            folder: path.folder,
            file: path.file,
            at,
            len,
        },
    }
}

/// The step that a call is which only looks.
pub(crate) fn look_step(call: Call) -> OwnedStep
    ensures { step_given result ≡ look_step_of call }
{
    match call {
        Call::Look { room, look } => step_of_look(room, look),
        other => {
            drop(other);
            OwnedStep::Rooms
        }
    }
}

/// What an act told, as a mount would reply to a look.
pub(crate) fn look_reply(told: Result<Answer, Trouble>) -> Reply
    ensures { result ≡ look_reply_of told }
{
    match told {
        Ok(Answer::NoFolder) => Reply::Looked(Answer::Beyond),
        Ok(answer) => Reply::Looked(answer),
        Err(Trouble::Fault) => Reply::Fault,
        Err(Trouble::NoMemory) => Reply::NoMemory,
    }
}

/// The room that a Find found.
pub(crate) fn found_room(reply: &Reply) -> Result<u64, DrainStuck>
    ensures { result ≡ found_room_of reply.now }
{
    match room_in(reply) {
        Some(room) => Ok(room),
        None => Err(DrainStuck::Source(failure(reply))),
    }
}

/// Whether a dropping was synced.
pub(crate) fn kept(reply: &Reply) -> Result<(), DrainStuck>
    ensures { result ≡ kept_of reply.now }
{
    match reply {
        Reply::Done => Ok(()),
        other => Err(DrainStuck::Source(failure(other))),
    }
}

/// The bytes that a Read of a part of a log gave.
pub(crate) fn part_told(log: &Path, at: u64, len: u64, reply: Reply) -> Result<Bytes, DrainStuck>
    requires { at + len < 2 ^ 64 }
    ensures { result ≡ part_told_of log.now at len reply }
{
    let why = trouble(log, &reply);
    let Some(bytes) = bytes_in(reply) else {
        return Err(DrainStuck::Source(why));
    };
    let given = bytes.as_slice().len() as u64;
    if given < len {
        drop(bytes);
        return Err(DrainStuck::Source(damage(log, at + given)));
    }
    Ok(bytes)
}

/// The trouble that looks at the target met.
pub(crate) fn stuck_there(why: Stuck) -> DrainStuck
    ensures { result ≡ stuck_for why }
{
    match why {
        Stuck::Fault => DrainStuck::TargetFault,
        Stuck::Damaged {
            folder,
            file,
            place,
        } => DrainStuck::TargetDamaged {
            folder,
            file,
            place,
        },
        Stuck::Refused(_) => DrainStuck::TargetFault,
    }
}

pub(crate) fn folder_alone(folder: Name) -> Path
    ensures { result ≡ folder_only folder }
{
    Path {
        folder,
        file: Name::empty(),
    }
}

fn damaged(path: &Path) -> DrainStuck
    ensures { result ≡ DrainStuck.TargetDamaged path.now.folder path.now.file 0 }
{
    DrainStuck::TargetDamaged {
        folder: path.folder,
        file: path.file,
        place: 0,
    }
}

/// The number of the room that is sought, or that there is none.
pub(crate) fn room_sought(told: &Result<Answer, Trouble>) -> Result<Option<u64>, DrainStuck>
    ensures { result ≡ told_well (folder_only []) sought told.now }
{
    match told {
        Ok(answer) => match answer {
            Answer::Number { value } => Ok(Some(*value)),
            Answer::Absent => Ok(None),
            _ => Err(damaged(&folder_alone(Name::empty()))),
        },
        Err(_) => Err(DrainStuck::TargetFault),
    }
}

/// The number of the room that was made, or was there.
pub(crate) fn room_made(told: &Result<Answer, Trouble>) -> Result<u64, DrainStuck>
    ensures { result ≡ told_well (folder_only []) roomed told.now }
{
    match told {
        Ok(answer) => match answer {
            Answer::Number { value } => Ok(*value),
            Answer::Old { room } => Ok(*room),
            _ => Err(damaged(&folder_alone(Name::empty()))),
        },
        Err(_) => Err(DrainStuck::TargetFault),
    }
}

/// That this was made, or was there.
pub(crate) fn is_made(path: &Path, told: &Result<Answer, Trouble>) -> Result<(), DrainStuck>
    ensures { result ≡ told_well path.now made_or_old told.now }
{
    match told {
        Ok(answer) => match answer {
            Answer::Made => Ok(()),
            Answer::Old { .. } => Ok(()),
            _ => Err(damaged(path)),
        },
        Err(_) => Err(DrainStuck::TargetFault),
    }
}

/// That this was made.
pub(crate) fn is_made_now(path: &Path, told: &Result<Answer, Trouble>) -> Result<(), DrainStuck>
    ensures { result ≡ told_well path.now made_now told.now }
{
    match told {
        Ok(answer) => match answer {
            Answer::Made => Ok(()),
            _ => Err(damaged(path)),
        },
        Err(_) => Err(DrainStuck::TargetFault),
    }
}

/// That this entry among those that have the container open was made, or was there.
pub(crate) fn is_entry_made(path: &Path, told: &Result<Answer, Trouble>) -> Result<(), DrainStuck>
    ensures { result ≡ entry_made_of path.now told.now }
{
    match told {
        Ok(answer) => match answer {
            Answer::Made => Ok(()),
            Answer::Old { .. } => Ok(()),
            Answer::NoFolder => Err(damaged(&folder_alone(openhosts()))),
            _ => Err(damaged(path)),
        },
        Err(_) => Err(DrainStuck::TargetFault),
    }
}
