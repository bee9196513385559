//! Reading the packed index of one writer.
ghost use Rattle.std.specs.Prelude.{◌≡◌, ◌≤◌, ◌<◌, ◌+◌, ◌^◌, ℕ, Some, IfOk};
ghost use Rattle.index_pack.specs.declared.trouble.TheConstants.{HEAD_SIZE as HEAD};
ghost use Rattle.mount_model.specs.Program.{done, followed_by};
ghost use Rattle.mount_model.specs.Standing.{ready, next_of, rest_of, replied};
ghost use Rattle.mount_model.specs.FlowReplies.{on_ok};
ghost use Rattle.index_reader.specs.FileStages.{part_left, part_calls};
ghost use Rattle.index_reader.specs.PackRules.{pack_told};
ghost use Rattle.index_reader.specs.Packs.{packed_path as path_of_packed, pack_program, head_then, pack_rest, pack_tail};
ghost use Rattle.index_reader.specs.Stages.{pack_left, pack_step, after_left, pack_calls, after_calls, IsOfPieces};

use crate::bytes::{AfterPart, read_on};
use crate::entries::Tail;
use crate::packed::{Headed, judge, tail_of};
use crate::parts::FileRead;
use crate::replies::number_in;
use crate::steps::{DroppingRead, PackRead, PackStep};
use crate::tails::After;
use container_layout::{Item, print};
use index_pack::HEAD_SIZE;
use mount_model::{Call, Look, Reply, bytes_in, damage, trouble};
use plfs_types::{Bytes, Cover, EntryList, NoMemory, Path};
use std::alloc::Global;

pub(crate) fn packed_path(host: u32, writer: u64) -> Path
    ensures { result ≡ path_of_packed host writer }
{
    print(&Item::Packed { host, writer })
}

/// What comes of all bytes.
fn if_read(alloc: Global, path: Path, cover: Cover, part: AfterPart) -> Result<After, NoMemory>
    ensures goes_on { IfOk result (λ after. (room : ℕ) → after_left room after
        ≡ followed_by (part_left room part) (on_ok (λ bytes. done (pack_tail path cover bytes (pack_told bytes))))) }
    ensures fewer { IfOk result (λ after. after_calls after ≡ part_calls part) }
    ensures pieces { IfOk result IsOfPieces }
{
    match part {
        AfterPart::GoesOn(read) => Ok(After::GoesOn(DroppingRead::Packed(PackRead {
            path,
            cover,
            step: PackStep::Rest(read),
        }))),
        AfterPart::Is(Err(why)) => Ok(After::Is(Err(why))),
        AfterPart::Is(Ok(bytes)) => {
            let tail = tail_of(alloc, &path, &cover, bytes.as_slice())?;
            Ok(After::Is(tail))
        }
    }
}

impl PackRead {
    /// Nothing was asked yet.
    pub(crate) fn new(host: u32, writer: u64, cover: Cover) -> Self
        ensures starts { (room : ℕ) → pack_left room result ≡ pack_program room (path_of_packed host writer) cover }
        ensures calls { pack_calls result.step ≡ 2 ^ 64 + 1 }
    {
        PackRead {
            path: packed_path(host, writer),
            cover,
            step: PackStep::Length,
        }
    }

    /// The call that is to be made.
    pub(crate) fn call(&self, room: u64) -> Call
        ensures { Some result ≡ next_of (ready (pack_left room self.now)) }
    {
        match &self.step {
            PackStep::Length => Call::Look {
                room,
                look: Look::Length { path: self.path },
            },
            PackStep::Head { .. } => Call::Look {
                room,
                look: Look::Read {
                    path: self.path,
                    at: 0,
                    len: HEAD_SIZE as u64,
                },
            },
            PackStep::Rest(read) => read.call(room),
        }
    }

    /// What comes after the reply to that call.
    pub(crate) fn after(self, alloc: Global, reply: Reply) -> Result<After, NoMemory>
        ensures goes_on { IfOk result (λ after. (room : ℕ) → after_left room after ≡ replied (rest_of (ready (pack_left room self))) reply) }
        ensures fewer { IfOk result (λ after. after_calls after < pack_calls self.step) }
        ensures pieces { IfOk result IsOfPieces }
    {
        let path = self.path;
        let cover = self.cover;
        match self.step {
            PackStep::Length => Ok(after_length(path, cover, reply)),
            PackStep::Head { told } => after_head(alloc, path, cover, told, reply),
            PackStep::Rest(read) => after_part(alloc, path, cover, read, reply),
        }
    }
}

/// What comes after a Read of the rest.
fn after_part(
    alloc: Global,
    path: Path,
    cover: Cover,
    read: FileRead,
    reply: Reply,
) -> Result<After, NoMemory>
    ensures goes_on { IfOk result (λ after. (room : ℕ) → after_left room after ≡ replied (rest_of (ready (pack_step room path cover (PackStep.Rest read)))) reply) }
    ensures fewer { IfOk result (λ after. after_calls after < read.left) }
    ensures pieces { IfOk result IsOfPieces }
{
    let part = read.after(reply)?;
    let after = if_read(alloc, path, cover, part)?;
    Ok(after)
}

fn after_length(path: Path, cover: Cover, reply: Reply) -> After
    ensures goes_on { (room : ℕ) → after_left room result ≡ replied (rest_of (ready (pack_program room path cover))) reply }
    ensures fewer { after_calls result < 2 ^ 64 + 1 }
    ensures pieces { IsOfPieces result }
{
    let Some(told) = number_in(&reply) else {
        return After::Is(Err(trouble(&path, &reply)));
    };
    After::GoesOn(DroppingRead::Packed(PackRead {
        path,
        cover,
        step: PackStep::Head { told },
    }))
}

fn after_head(
    alloc: Global,
    path: Path,
    cover: Cover,
    told: u64,
    reply: Reply,
) -> Result<After, NoMemory>
    ensures goes_on { IfOk result (λ after. (room : ℕ) → after_left room after ≡ replied (rest_of (ready (head_then room path cover told))) reply) }
    ensures fewer { IfOk result (λ after. after_calls after < told + 1) }
    ensures pieces { IfOk result IsOfPieces }
{
    let why = trouble(&path, &reply);
    let Some(head) = bytes_in(reply) else {
        return Ok(After::Is(Err(why)));
    };
    match judge(told, &cover, &head) {
        Headed::Fault { place } => Ok(After::Is(Err(damage(&path, place)))),
        Headed::Covered => Ok(After::Is(Ok(Tail {
            cover,
            entries: EntryList::new(alloc),
        }))),
        Headed::More => {
            let after = read_rest(alloc, &path, &cover, told, head)?;
            Ok(after)
        }
    }
}

/// Reads the rest behind this head.
fn read_rest(
    alloc: Global,
    path: &Path,
    cover: &Cover,
    told: u64,
    head: Bytes,
) -> Result<After, NoMemory>
    requires { HEAD ≤ told }
    ensures goes_on { IfOk result (λ after. (room : ℕ) → after_left room after ≡ pack_rest room path.now cover.now told head) }
    ensures fewer { IfOk result (λ after. after_calls after ≤ told) }
    ensures pieces { IfOk result IsOfPieces }
{
    let part = read_on(*path, told, told - HEAD_SIZE as u64, head);
    let after = if_read(alloc, *path, *cover, part)?;
    Ok(after)
}
