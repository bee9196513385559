//! What a line says of a statement that came to its end.
ghost use Rattle.std.specs.Prelude.{◌≡◌, map, IfOk, Ok};
ghost use Rattle.outcomes.specs.Outcomes as of;

use crate::data::first_difference;
use attr_flow::Attr;
use mount_model::{Refusal, Stuck};
use plain_file::{Piece, Pieces};
use plfs_types::{Bytes, Entry, NameList, NoMemory};
use script_lang::{Data, MapText, Outcome, Why};
use std::alloc::{AllocError, Global};
use torn_tail::Recovered;

/// Why a line says that a call was refused. The last five come of no call that an actor makes.
pub fn why_of(refusal: Refusal) -> Why
    ensures { result ≡ of.why_of refusal }
{
    match refusal {
        Refusal::NoRoom => Why::NoFile,
        Refusal::Held => Why::Held,
        Refusal::Busy { host, id } => Why::Busy { host, writer: id },
        Refusal::Exists => Why::Exists,
        Refusal::TooFar => Why::TooFar,
        Refusal::StampsSpent => Why::StampsSpent,
        Refusal::IdsSpent => Why::IdsSpent,
        Refusal::NotOpen => Why::NotOpen,
        Refusal::Full
        | Refusal::NotFlushed
        | Refusal::NoMeta
        | Refusal::NotHolder
        | Refusal::Alive => Why::NotOpen,
    }
}

/// What a line says of the trouble that a machine ended in.
pub fn stuck_outcome(because: Stuck) -> Outcome
    ensures { result ≡ of.stuck_outcome because }
{
    match because {
        Stuck::Fault => Outcome::Fault,
        Stuck::Damaged {
            folder,
            file,
            place,
        } => Outcome::Damaged {
            folder,
            file,
            place,
        },
        Stuck::Refused(why) => Outcome::Refused { why: why_of(why) },
    }
}

/// What it says of a write of `len` bytes at this logical offset, which gave the write's stamp.
pub fn write_outcome(at: u64, len: u64, made: Result<u64, Stuck>) -> Outcome
    ensures { result ≡ of.write_outcome at len made }
{
    match made {
        Ok(stamp) => Outcome::Wrote {
            at,
            len,
            stamp: Some(stamp),
        },
        Err(because) => stuck_outcome(because),
    }
}

/// What it says of a sync, which gave how many entries have landed.
pub fn sync_outcome(made: Result<u64, Stuck>) -> Outcome
    ensures { result ≡ of.sync_outcome made }
{
    match made {
        Ok(landed) => Outcome::Synced { landed },
        Err(because) => stuck_outcome(because),
    }
}

/// What it says of a close, which gave how many entries have landed.
pub fn close_outcome(made: Result<u64, Stuck>) -> Outcome
    ensures { result ≡ of.close_outcome made }
{
    match made {
        Ok(landed) => Outcome::Closed { landed },
        Err(because) => stuck_outcome(because),
    }
}

/// What it says of a read at this logical offset.
pub fn read_outcome(at: u64, made: Result<Bytes, Stuck>) -> Outcome
    ensures { result ≡ of.read_outcome at made }
{
    match made {
        Ok(content) => Outcome::Read { at, content },
        Err(because) => stuck_outcome(because),
    }
}

fn difference(at: u64, found: Option<u64>) -> Outcome
    ensures { result ≡ of.difference at found }
{
    match found {
        Some(j) => Outcome::Differs {
            place: at.saturating_add(j),
        },
        None => Outcome::Same,
    }
}

/// What it says of a comparison with this data: the logical offset of the first byte that differs or has no place in the file.
pub fn verify_outcome(at: u64, content: &Data, made: Result<Bytes, Stuck>) -> Outcome
    ensures { result ≡ of.verify_outcome at content.now made }
{
    match made {
        Ok(found) => difference(at, first_difference(content, found.as_slice())),
        Err(because) => stuck_outcome(because),
    }
}

/// What is told of a file.
pub fn stat_outcome(attr: Attr) -> Outcome
    ensures { result ≡ of.stat_outcome (Ok attr) }
{
    Outcome::Stat {
        size: attr.size,
        stored: attr.stored,
        shares: attr.shares,
        truncs: attr.truncs,
    }
}

/// What it says of a truncate, which gave its stamp.
pub fn truncate_outcome(made: Result<u64, Stuck>) -> Outcome
    ensures { result ≡ of.truncate_outcome made }
{
    match made {
        Ok(stamp) => Outcome::Truncated { stamp },
        Err(because) => stuck_outcome(because),
    }
}

/// What it says of a rename.
pub fn rename_outcome(made: Result<(), Stuck>) -> Outcome
    ensures { result ≡ of.rename_outcome made }
{
    match made {
        Ok(()) => Outcome::Renamed,
        Err(because) => stuck_outcome(because),
    }
}

/// What it says of a recovery: the writers that were buried with their counts, those alive, and whether a hold was taken away.
pub fn recover_outcome(made: Result<Recovered, Stuck>) -> Outcome
    ensures { result ≡ of.recover_outcome made }
{
    match made {
        Ok(recovered) => Outcome::Recovered {
            buried: recovered.buried,
            alive: recovered.alive,
            hold: recovered.hold,
        },
        Err(because) => stuck_outcome(because),
    }
}

/// What it says of a listing of all files.
pub fn list_outcome(made: Result<NameList, Stuck>) -> Outcome
    ensures { result ≡ of.list_outcome made }
{
    match made {
        Ok(names) => Outcome::Listed { names },
        Err(because) => stuck_outcome(because),
    }
}

fn entry_of(piece: &Piece) -> Entry
    ensures { result ≡ of.entry_of piece.now }
{
    Entry {
        at: piece.at,
        len: piece.len,
        physical: piece.physical,
        stamp: piece.stamp,
        writer: piece.writer,
    }
}

fn entries_of(alloc: Global, pieces: &[Piece]) -> Result<Vec<Entry>, AllocError>
    ensures { IfOk result (λ entries. entries.items ≡ map of.entry_of pieces.now) }
{
    pieces.iter().map(|piece| entry_of(piece)).collect(alloc)
}

/// The pieces, each as an entry.
pub fn map_text(alloc: Global, pieces: &Pieces) -> Result<MapText, NoMemory>
    ensures { IfOk result (λ entries. entries ≡ of.map_text pieces.now) }
{
    Ok(MapText::from_vec(entries_of(alloc, pieces.as_slice())?))
}
