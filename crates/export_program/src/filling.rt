//! A file is made and filled.
ghost use Rattle.std.specs.Prelude.{IfOk, OnErr};
ghost use Rattle.mount_sound.specs.Sound.{IsFine};
ghost use Rattle.export_program.specs.Filling.{BeginsToFill, BeginsToFillMade, Fills, FillsMade, KeepsWhole};
ghost use Rattle.export_program.specs.Shelf.{Adds, starved};

use crate::exporting::write_file;
use crate::piece::Unwritten;
use crate::shelf::{Shelf, Unmade};
use edge_io::{Clock, Sink};
use mount_core::Mount;
use mount_model::Stuck;
use plfs_types::{LogicalName, NoMemory};
use std::alloc::Global;
use store_api::Store;

/// What became of a file that was to be made.
#[derive(Clone, Copy)]
pub(crate) enum Filled {
    /// It was kept with all bytes, which are so many.
    Whole { size: u64 },
    /// One of its name is there, and stays.
    Exists,
    /// What it was to have can't be read.
    Stuck(Stuck),
    /// It can't be made, written or kept.
    Failed,
}

/// Keeps the file that has all of its bytes, which are so many.
fn keep_whole<F: Sink, H: Shelf<F>>(
    name: LogicalName,
    size: u64,
    file: F,
    shelf: &mut H,
) -> Result<Filled, NoMemory>
    ensures keeps { IfOk result (λ told. KeepsWhole name size (F.taking file) (H.deeds shelf.old) told (H.deeds shelf.new)) }
    ensures refused { OnErr result (Adds (starved name) (H.deeds shelf.old) (H.deeds shelf.new)) }
{
    if shelf.keep(name, file)? {
        Ok(Filled::Whole { size })
    } else {
        Ok(Filled::Failed)
    }
}

/// Writes the file of this name into the one that was made, which is kept where it has all bytes.
fn fill_made<S: Store + Drop, C: Clock + Drop, F: Sink, H: Shelf<F>>(
    alloc: Global,
    mount: &mut Mount<S, C>,
    name: LogicalName,
    file: F,
    shelf: &mut H,
) -> Result<Filled, NoMemory>
    requires { IsFine mount.old }
    ensures fills { IfOk result (λ told. FillsMade name (F.taking file) mount.old (H.deeds shelf.old) told mount.new (H.deeds shelf.new)) }
    ensures broken_off { OnErr result (BeginsToFillMade name (F.taking file) mount.old (H.deeds shelf.old) mount.new (H.deeds shelf.new)) }
    ensures fine { IsFine mount.new }
{
    let mut file = file;
    match write_file(alloc, mount, name, &mut file) {
        Ok(Ok(size)) => keep_whole(name, size, file, shelf),
        Ok(Err(Unwritten::Stuck(why))) => {
            shelf.discard(file);
            Ok(Filled::Stuck(why))
        }
        Ok(Err(Unwritten::Broken)) => {
            shelf.discard(file);
            Ok(Filled::Failed)
        }
        Err(refused) => {
            shelf.discard(file);
            Err(refused)
        }
    }
}

/// Makes a file, and writes the one of this name into it. It is kept where all was written. Want of memory is told as nothing else.
pub(crate) fn fill<S: Store + Drop, C: Clock + Drop, F: Sink, H: Shelf<F>>(
    alloc: Global,
    mount: &mut Mount<S, C>,
    name: LogicalName,
    shelf: &mut H,
) -> Result<Filled, NoMemory>
    requires { IsFine mount.old }
    ensures fills { IfOk result (λ told. Fills name mount.old (H.deeds shelf.old) told mount.new (H.deeds shelf.new)) }
    ensures broken_off { OnErr result (BeginsToFill name mount.old (H.deeds shelf.old) mount.new (H.deeds shelf.new)) }
    ensures fine { IsFine mount.new }
{
    match shelf.make(name) {
        Ok(file) => fill_made(alloc, mount, name, file, shelf),
        Err(Unmade::Exists) => Ok(Filled::Exists),
        Err(Unmade::Failed) => Ok(Filled::Failed),
        Err(Unmade::NoMemory) => Err(NoMemory),
    }
}
