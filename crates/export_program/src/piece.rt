//! A piece of a file, read and written.
ghost use Rattle.std.specs.Prelude.{◌≡◌, ◌<◌, ◌*◌, ◌^◌, IfOk, OnErr};
ghost use Rattle.mount_sound.specs.Sound.{IsFine};
ghost use Rattle.lone_flow.specs.Driving.{BeginsToMake, Makes};
ghost use Rattle.export_program.specs.Pieces.{WritesPiece, piece_program};

use edge_io::{Clock, Sink};
use index_reader::{OpenReader, Reading};
use lone_flow::drive_freely;
use mount_core::Mount;
use mount_model::Stuck;
use plfs_types::{Bytes, NoMemory};
use program_ends::write_out;
use std::alloc::Global;
use store_api::Store;

/// The bytes of a piece.
pub(crate) const PIECE: u64 = 1 << 20;

/// Why a file isn't written out whole.
#[derive(Clone, Copy)]
pub(crate) enum Unwritten {
    /// A call did not do what it was made for.
    Stuck(Stuck),
    /// The sink failed, or took nothing of a piece that isn't empty.
    Broken,
}

/// Reads piece `k`. After `NoMemory` the calls are a front of those.
#[tactic(auto, using(lone_flow::proofs::SmallReads::Broken::begins_none))]
fn read_piece<S: Store + Drop, C: Clock + Drop>(
    alloc: Global,
    mount: &mut Mount<S, C>,
    reader: &OpenReader,
    k: u64,
) -> Result<Result<Bytes, Stuck>, NoMemory>
    requires small { k * 2 ^ 20 < 2 ^ 64 }
    requires fine { IsFine mount.old }
    ensures makes { IfOk result (λ read. Makes (piece_program reader.now k) mount.old read mount.new) }
    ensures broken_off { OnErr result (BeginsToMake (piece_program reader.now k) mount.old mount.new) }
    ensures fine { IsFine mount.new }
{
    let machine = Reading::new(alloc, reader, k * PIECE, PIECE)?;
    drive_freely(mount, machine)
}

/// Reads piece `k`, and writes its bytes.
pub(crate) fn write_piece<S: Store + Drop, C: Clock + Drop, O: Sink>(
    alloc: Global,
    mount: &mut Mount<S, C>,
    reader: &OpenReader,
    k: u64,
    out: &mut O,
) -> Result<Result<(), Unwritten>, NoMemory>
    requires small { k * 2 ^ 20 < 2 ^ 64 }
    requires fine { IsFine mount.old }
    ensures writes { IfOk result (λ told. WritesPiece reader.now k mount.old (O.taking out.old) told mount.new (O.taking out.new)) }
    ensures broken_off { OnErr result (BeginsToMake (piece_program reader.now k) mount.old mount.new) }
    ensures unwritten { OnErr result (O.taking out.new ≡ O.taking out.old) }
    ensures fine { IsFine mount.new }
{
    let read = read_piece(alloc, mount, reader, k)?;
    match read {
        Ok(bytes) => {
            let written = write_out(out, bytes.as_slice());
            drop(bytes);
            match written {
                Ok(()) => Ok(Ok(())),
                Err(_) => Ok(Err(Unwritten::Broken)),
            }
        }
        Err(why) => Ok(Err(Unwritten::Stuck(why))),
    }
}
