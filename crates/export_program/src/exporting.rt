//! A file, written out.
ghost use Rattle.std.specs.Prelude.{IfOk, OnErr};
ghost use Rattle.mount_sound.specs.Sound.{IsFine};
ghost use Rattle.export_program.specs.Exporting.{BeginsToWrite, BeginsToWriteOut, WritesFile, WritesOut};

use crate::piece::{PIECE, Unwritten, write_piece};
use edge_io::{Clock, Sink};
use index_reader::OpenReader;
use lone_flow::open_reader;
use mount_core::Mount;
use plfs_types::{LogicalName, NoMemory};
use std::alloc::Global;
use store_api::Store;

/// Writes the reader's file piece by piece, and tells its size.
fn write_pieces<S: Store + Drop, C: Clock + Drop, O: Sink>(
    alloc: Global,
    mount: &mut Mount<S, C>,
    reader: &OpenReader,
    out: &mut O,
) -> Result<Result<u64, Unwritten>, NoMemory>
    requires { IsFine mount.old }
    ensures writes { IfOk result (λ told. WritesOut reader.now mount.old (O.taking out.old) told mount.new (O.taking out.new)) }
    ensures broken_off { OnErr result (BeginsToWriteOut reader.now mount.old (O.taking out.old) mount.new (O.taking out.new)) }
    ensures fine { IsFine mount.new }
{
    let size = reader.size();
    for k in 0..size.div_ceil(PIECE) {
        if let Err(why) = write_piece(alloc, mount, reader, k, out)? {
            return Ok(Err(why));
        }
    }
    Ok(Ok(size))
}

/// Writes the file of this name out, as caller 0 by itself: it opens a reader, and writes the bytes of each piece before it reads the next
/// one. It tells how many bytes were written, which are all of the file.
///
/// It ends with the first trouble. What was written until then is a front of the file. After `NoMemory` the calls are a front of
/// those, of which the last one may have been refused memory.
pub(crate) fn write_file<S: Store + Drop, C: Clock + Drop, O: Sink>(
    alloc: Global,
    mount: &mut Mount<S, C>,
    name: LogicalName,
    out: &mut O,
) -> Result<Result<u64, Unwritten>, NoMemory>
    requires { IsFine mount.old }
    ensures writes { IfOk result (λ told. WritesFile name mount.old (O.taking out.old) told mount.new (O.taking out.new)) }
    ensures broken_off { OnErr result (BeginsToWrite name mount.old (O.taking out.old) mount.new (O.taking out.new)) }
    ensures fine { IsFine mount.new }
{
    match open_reader(alloc, mount, name)? {
        Ok(reader) => {
            let told = write_pieces(alloc, mount, &reader, out);
            drop(reader);
            told
        }
        Err(why) => Ok(Err(Unwritten::Stuck(why))),
    }
}
