//! Reading a file's bytes up to a length that was told.
ghost use Rattle.std.specs.Prelude.{◌≡◌, ◌≤◌, ◌<◌, ◌++◌, ℕ, Some, IfOk, OnOk};
ghost use Rattle.mount_model.specs.Standing.{ready, next_of, rest_of, replied};
ghost use Rattle.mount_model.specs.declared.call.Call.TheVariants as calls;
ghost use Rattle.mount_model.specs.declared.call.Look.TheVariants as look;
ghost use Rattle.index_reader.specs.FileReads.{next_part as part_next, bytes_left, first_rest};
ghost use Rattle.index_reader.specs.FileStages.{file_left, part_left, part_calls};

use crate::parts::FileRead;
use mount_model::{Call, Look, Reply, Stuck, bytes_in, trouble};
use plfs_types::{Bytes, MAX_PIECE, NoMemory, Path};
use std::alloc::Global;

/// What comes after a Read.
#[derive(Drop)]
pub(crate) enum AfterPart {
    GoesOn(FileRead),
    Is(Result<Bytes, Stuck>),
}

fn next_part(left: u64) -> u64
    ensures { result ≡ part_next left }
{
    left.min(MAX_PIECE)
}

/// Adds bytes at the end.
pub(crate) fn add(bytes: &mut Bytes, more: &[u8]) -> Result<(), NoMemory>
    ensures { OnOk result (bytes.new ≡ bytes.old ++ more.now) }
{
    let end = bytes.as_slice().len();
    bytes.overwrite(end, more)
}

/// So many of the bytes that were told are left.
#[tactic(auto, using(crate::proofs::Containers::FileLemmas::bytes_going_on))]
pub(crate) fn read_on(path: Path, told: u64, left: u64, sofar: Bytes) -> AfterPart
    requires { left ≤ told }
    ensures goes_on { (room : ℕ) → part_left room result ≡ bytes_left room path told left sofar }
    ensures fewer { part_calls result ≤ left }
{
    if left == 0 {
        return AfterPart::Is(Ok(sofar));
    }
    AfterPart::GoesOn(FileRead {
        path,
        told,
        left,
        sofar,
    })
}

/// The first Read of so many bytes.
pub(crate) fn read_first(room: u64, path: Path, told: u64) -> Call
    ensures { result ≡ calls.Look room (look.Read path 0 (part_next told)) }
{
    Call::Look {
        room,
        look: Look::Read {
            path,
            at: 0,
            len: next_part(told),
        },
    }
}

/// What is left behind the first bytes of so many.
#[tactic(auto, using(crate::proofs::Containers::FileLemmas::first_full, crate::proofs::Containers::FileLemmas::first_short))]
pub(crate) fn read_rest(
    alloc: Global,
    path: Path,
    told: u64,
    first: Bytes,
) -> Result<AfterPart, NoMemory>
    ensures goes_on { IfOk result (λ part. (room : ℕ) → part_left room part ≡ first_rest room path told first) }
    ensures fewer { IfOk result (λ part. part_calls part ≤ told) }
{
    let asked = next_part(told);
    if (first.as_slice().len() as u64) < asked {
        return Ok(AfterPart::Is(Ok(first)));
    }
    let mut sofar = Bytes::from_vec(Vec::with_capacity(alloc, told as usize)?);
    add(&mut sofar, first.as_slice())?;
    drop(first);
    Ok(read_on(path, told, told - asked, sofar))
}

impl FileRead {
    /// The call that is to be made.
    pub(crate) fn call(&self, room: u64) -> Call
        ensures { Some result ≡ next_of (ready (file_left room self.now)) }
    {
        Call::Look {
            room,
            look: Look::Read {
                path: self.path,
                at: self.told - self.left,
                len: next_part(self.left),
            },
        }
    }

    /// What comes after the reply to that call.
    pub(crate) fn after(self, reply: Reply) -> Result<AfterPart, NoMemory>
        ensures goes_on { IfOk result (λ after. (room : ℕ) → part_left room after ≡ replied (rest_of (ready (file_left room self))) reply) }
        ensures fewer { IfOk result (λ after. part_calls after < self.left) }
    {
        let why = trouble(&self.path, &reply);
        let Some(bytes) = bytes_in(reply) else {
            return Ok(AfterPart::Is(Err(why)));
        };
        let bytes = bytes.as_slice();
        let asked = next_part(self.left);
        let is_full = asked <= bytes.len() as u64;
        let left = self.left - asked;
        let mut sofar = self.sofar;
        add(&mut sofar, bytes)?;
        if is_full {
            Ok(read_on(self.path, self.told, left, sofar))
        } else {
            Ok(AfterPart::Is(Ok(sofar)))
        }
    }
}
