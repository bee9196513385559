//! Reading a flattened index.
ghost use Rattle.std.specs.Prelude.{◌≡◌, ◌<◌, ◌≤◌, ◌+◌, ◌^◌, ℕ, Some, IfOk};
ghost use Rattle.mount_model.specs.Program.{done, followed_by};
ghost use Rattle.mount_model.specs.Standing.{ready, next_of, rest_of, replied};
ghost use Rattle.mount_model.specs.FlowReplies.{on_ok};
ghost use Rattle.mount_model.specs.Paths.{flat_path as path_of_flat};
ghost use Rattle.index_reader.specs.FileStages.{part_left, part_calls};
ghost use Rattle.index_reader.specs.FlatRules.{flat_fault, flat_told, has_head as begins};
ghost use Rattle.index_reader.specs.Opening.{flat_first, flat_program, flat_or_damage, flat_rest, if_begun};
ghost use Rattle.index_reader.specs.OpenStages.{flat_left, flat_step, after_flat, flat_calls, after_flat_calls, IsOfFlat};

use crate::bytes::{AfterPart, read_first, read_rest};
use crate::flattened::Flattened;
use crate::parts::FileRead;
use crate::replies::number_in;
use container_layout::{Item, print};
use flat_format::{COVER_SIZE, FlatTrouble, HEAD_SIZE, decode};
use index_entry::number_at;
use mount_model::{Call, Look, Reply, Stuck, bytes_in, damage, trouble};
use plfs_types::{Bytes, ENTRY_SIZE, NoMemory, Path};
use std::alloc::Global;

/// How far the reading of the flattened index of this id has come.
#[derive(Drop)]
pub(crate) struct FlatRead {
    pub(crate) id: u64,
    pub(crate) step: FlatStep,
}

#[derive(Drop)]
pub(crate) enum FlatStep {
    /// Its length is asked.
    Length,
    /// The first of so many bytes are read.
    First { told: u64 },
    /// The others are read.
    Bytes(FileRead),
}

/// What comes after a reply.
#[derive(Drop)]
pub(crate) enum AfterFlat {
    GoesOn(FlatRead),
    Is(Result<Flattened, Stuck>),
}

pub(crate) fn flat_path(id: u64) -> Path
    ensures { result ≡ path_of_flat id }
{
    print(&Item::Flat { id })
}

/// The flattened index that the bytes are, or the place of the first fault.
#[tactic(auto, using(crate::proofs::Indices::CoverOrder::flat_rises))]
fn told(alloc: Global, bytes: &[u8]) -> Result<Result<Flattened, u64>, NoMemory>
    ensures { IfOk result (λ told. told ≡ flat_told bytes.now) }
{
    match decode(alloc, bytes) {
        Ok(flat) => Ok(Ok(Flattened::of(flat))),
        Err(FlatTrouble::Bad { place }) => Ok(Err(place)),
        Err(FlatTrouble::NoMemory) => Err(NoMemory),
    }
}

/// What comes of all bytes.
fn if_read(alloc: Global, id: u64, part: AfterPart) -> Result<AfterFlat, NoMemory>
    ensures goes_on { IfOk result (λ after. (room : ℕ) → after_flat room after
        ≡ followed_by (part_left room part) (on_ok (λ bytes. done (flat_or_damage id (flat_told bytes))))) }
    ensures fewer { IfOk result (λ after. after_flat_calls after ≡ part_calls part) }
    ensures same { IfOk result (IsOfFlat id) }
{
    match part {
        AfterPart::GoesOn(read) => Ok(AfterFlat::GoesOn(FlatRead {
            id,
            step: FlatStep::Bytes(read),
        })),
        AfterPart::Is(Err(why)) => Ok(AfterFlat::Is(Err(why))),
        AfterPart::Is(Ok(bytes)) => {
            let told = told(alloc, bytes.as_slice());
            drop(bytes);
            match told? {
                Ok(flat) => Ok(AfterFlat::Is(Ok(flat))),
                Err(place) => Ok(AfterFlat::Is(Err(damage(&flat_path(id), place)))),
            }
        }
    }
}

impl FlatRead {
    /// Nothing was asked yet.
    pub(crate) fn new(id: u64) -> Self
        ensures starts { (room : ℕ) → flat_left room result ≡ flat_program room id }
        ensures calls { flat_calls result.step ≡ 2 ^ 64 + 1 }
        ensures id { result.id ≡ id }
    {
        FlatRead {
            id,
            step: FlatStep::Length,
        }
    }

    /// The call that is to be made.
    pub(crate) fn call(&self, room: u64) -> Call
        ensures { Some result ≡ next_of (ready (flat_left room self.now)) }
    {
        match &self.step {
            FlatStep::Length => Call::Look {
                room,
                look: Look::Length {
                    path: flat_path(self.id),
                },
            },
            FlatStep::First { told } => read_first(room, flat_path(self.id), *told),
            FlatStep::Bytes(read) => read.call(room),
        }
    }

    /// What comes after the reply to that call.
    pub(crate) fn after(self, alloc: Global, reply: Reply) -> Result<AfterFlat, NoMemory>
        ensures goes_on { IfOk result (λ after. (room : ℕ) → after_flat room after ≡ replied (rest_of (ready (flat_left room self))) reply) }
        ensures fewer { IfOk result (λ after. after_flat_calls after < flat_calls self.step) }
        ensures same { IfOk result (IsOfFlat self.id) }
    {
        let id = self.id;
        match self.step {
            FlatStep::Length => Ok(after_length(id, reply)),
            FlatStep::First { told } => after_first(alloc, id, told, reply),
            FlatStep::Bytes(read) => after_part(alloc, id, read, reply),
        }
    }
}

/// What comes after a Read of its bytes.
fn after_part(alloc: Global, id: u64, read: FileRead, reply: Reply) -> Result<AfterFlat, NoMemory>
    ensures goes_on { IfOk result (λ after. (room : ℕ) → after_flat room after ≡ replied (rest_of (ready (flat_step room id (FlatStep.Bytes read)))) reply) }
    ensures fewer { IfOk result (λ after. after_flat_calls after < read.left) }
    ensures same { IfOk result (IsOfFlat id) }
{
    let part = read.after(reply)?;
    let after = if_read(alloc, id, part)?;
    Ok(after)
}

fn after_length(id: u64, reply: Reply) -> AfterFlat
    ensures goes_on { (room : ℕ) → after_flat room result ≡ replied (rest_of (ready (flat_program room id))) reply }
    ensures fewer { after_flat_calls result < 2 ^ 64 + 1 }
    ensures same { IsOfFlat id result }
{
    let path = flat_path(id);
    let Some(told) = number_in(&reply) else {
        let why = trouble(&path, &reply);
        drop(reply);
        return AfterFlat::Is(Err(why));
    };
    drop(reply);
    if told == 0 {
        return AfterFlat::Is(Err(damage(&path, 0)));
    }
    AfterFlat::GoesOn(FlatRead {
        id,
        step: FlatStep::First { told },
    })
}

/// What comes after the first Read.
fn after_first(alloc: Global, id: u64, told: u64, reply: Reply) -> Result<AfterFlat, NoMemory>
    ensures goes_on { IfOk result (λ after. (room : ℕ) → after_flat room after ≡ replied (rest_of (ready (flat_first room id told))) reply) }
    ensures fewer { IfOk result (λ after. after_flat_calls after < told + 1) }
    ensures same { IfOk result (IsOfFlat id) }
{
    let why = trouble(&flat_path(id), &reply);
    let Some(first) = bytes_in(reply) else {
        return Ok(AfterFlat::Is(Err(why)));
    };
    let after = begun(alloc, id, told, first)?;
    Ok(after)
}

/// What comes of the first bytes.
fn begun(alloc: Global, id: u64, told: u64, first: Bytes) -> Result<AfterFlat, NoMemory>
    ensures goes_on { IfOk result (λ after. (room : ℕ) → after_flat room after ≡ if_begun room id told first) }
    ensures fewer { IfOk result (λ after. after_flat_calls after ≤ told) }
    ensures same { IfOk result (IsOfFlat id) }
{
    match fault(told, first.as_slice()) {
        Some(place) => {
            drop(first);
            Ok(AfterFlat::Is(Err(damage(&flat_path(id), place))))
        }
        None => rest(alloc, id, told, first),
    }
}

/// Reads the bytes behind the first ones.
fn rest(alloc: Global, id: u64, told: u64, first: Bytes) -> Result<AfterFlat, NoMemory>
    ensures goes_on { IfOk result (λ after. (room : ℕ) → after_flat room after ≡ flat_rest room id told first) }
    ensures fewer { IfOk result (λ after. after_flat_calls after ≤ told) }
    ensures same { IfOk result (IsOfFlat id) }
{
    let part = read_rest(alloc, flat_path(id), told, first)?;
    let after = if_read(alloc, id, part)?;
    Ok(after)
}

/// Whether the bytes have a head, with the letters that a flattened index begins with.
fn has_head(bytes: &[u8]) -> bool
    ensures { result ≡ begins bytes.now }
{
    bytes.len() >= HEAD_SIZE && &bytes[..8] == b"PLFSFLT1".as_slice()
}

/// What is wrong with the first bytes, where so many were told.
fn fault(told: u64, first: &[u8]) -> Option<u64>
    ensures { result ≡ flat_fault told first.now }
{
    if !has_head(first) {
        return Some(0);
    }
    let covers = u128::from(number_at(first, 8));
    let pieces = u128::from(number_at(first, 16));
    if u128::from(told)
        != HEAD_SIZE as u128 + COVER_SIZE as u128 * covers + ENTRY_SIZE as u128 * pieces
    {
        return Some(8);
    }
    None
}
