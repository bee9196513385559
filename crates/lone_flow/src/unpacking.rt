//! One small file, read.
ghost use Rattle.std.specs.Prelude.{◌≡◌, ◌≤◌, IfOk, OnErr, Ok, Err};
ghost use Rattle.mount_sound.specs.Sound.{IsFine};
ghost use Rattle.lone_flow.specs.Driving.{BeginsToMake, Makes};
ghost use Rattle.opening_flow.specs.Opening.{opening_program};
ghost use Rattle.lone_flow.specs.Looking.{HasLooked};
ghost use Rattle.lone_flow.specs.Unpacking.{BeginsToReadFound, BeginsToReadIn, BeginsToUnpack, ReadsFound, ReadsIn, ReadsUnit, Unpacks, unit_program};

use crate::pack_core_driving::drive_freely;
use crate::scanning::scan_all;
use edge_io::Clock;
use index_reader::{OpenReader, Reading};
use mount_core::Mount;
use mount_model::Stuck;
use opening_flow::Opening;
use pack_files::ScanStuck;
use plfs_types::{Bytes, LogicalName, NoMemory};
use std::alloc::Global;
use store_api::Store;
use unit_format::{MAX_CONTENT, Unit, find};

/// Opens a reader of this container. It only looks, also where it lacks memory: the calls are then a front of those.
pub fn open_reader<S: Store + Drop, C: Clock + Drop>(
    alloc: Global,
    mount: &mut Mount<S, C>,
    name: LogicalName,
) -> Result<Result<OpenReader, Stuck>, NoMemory>
    requires { IsFine mount.old }
    ensures makes { IfOk result (λ opened. Makes (opening_program name 1) mount.old opened mount.new) }
    ensures broken_off { OnErr result (BeginsToMake (opening_program name 1) mount.old mount.new) }
    ensures looks { HasLooked mount.old mount.new }
    ensures fine { IsFine mount.new }
{
    drive_freely(mount, Opening::new(alloc, name, 1))
}

/// Reads the content of a unit. After `NoMemory` the calls are a front of those.
#[tactic(auto, using(crate::proofs::SmallReads::Looked::looked_none, crate::proofs::SmallReads::Broken::begins_none))]
fn read_unit<S: Store + Drop, C: Clock + Drop>(
    alloc: Global,
    mount: &mut Mount<S, C>,
    reader: &OpenReader,
    unit: &Unit,
) -> Result<Result<Bytes, Stuck>, NoMemory>
    requires { IsFine mount.old }
    ensures reads { IfOk result (λ read. ReadsUnit reader.now unit.now mount.old read mount.new) }
    ensures broken_off { OnErr result (BeginsToMake (unit_program reader.now unit.now) mount.old mount.new) }
    ensures looks { HasLooked mount.old mount.new }
{
    let machine = Reading::new(alloc, reader, unit.at, unit.len.min(MAX_CONTENT))?;
    drive_freely(mount, machine)
}

/// Reads the unit that was found, where there is one.
#[tactic(auto, using(crate::proofs::SmallReads::Looked::looked_none))]
fn read_found<S: Store + Drop, C: Clock + Drop>(
    alloc: Global,
    mount: &mut Mount<S, C>,
    reader: &OpenReader,
    found: Option<Unit>,
) -> Result<Result<Option<Bytes>, ScanStuck>, NoMemory>
    requires { IsFine mount.old }
    ensures reads { IfOk result (λ told. ReadsFound reader.now found mount.old told mount.new) }
    ensures broken_off { OnErr result (BeginsToReadFound reader.now found mount.old mount.new) }
    ensures looks { HasLooked mount.old mount.new }
{
    let Some(unit) = found else {
        return Ok(Ok(None));
    };
    match read_unit(alloc, mount, reader, &unit)? {
        Ok(content) => Ok(Ok(Some(content))),
        Err(why) => Ok(Err(ScanStuck::Stuck(why))),
    }
}

/// Scans all regions of the reader's file, and reads the small file of this name.
fn read_file<S: Store + Drop, C: Clock + Drop>(
    alloc: Global,
    mount: &mut Mount<S, C>,
    reader: &OpenReader,
    file: &LogicalName,
) -> Result<Result<Option<Bytes>, ScanStuck>, NoMemory>
    requires { IsFine mount.old }
    ensures reads { IfOk result (λ told. ReadsIn reader.now file.now mount.old told mount.new) }
    ensures broken_off { OnErr result (BeginsToReadIn reader.now file.now mount.old mount.new) }
    ensures looks { HasLooked mount.old mount.new }
{
    match scan_all(alloc, mount, reader)? {
        Ok(regions) => {
            let found = find(&regions, file);
            drop(regions);
            read_found(alloc, mount, reader, found)
        }
        Err(why) => Ok(Err(why)),
    }
}

/// Reads the small file of this name from the container, as caller 0 by itself: it opens the container, scans all its regions in
/// order, and reads the content of the unit that counts. It answers None where no unit has the name.
///
/// It ends with the first trouble. Where the container isn't there, that is the refusal of the opening. It only looks, also
/// where it lacks memory: the calls are then a front of those, of which the last one may have been refused memory.
pub fn unpack<S: Store + Drop, C: Clock + Drop>(
    alloc: Global,
    mount: &mut Mount<S, C>,
    name: LogicalName,
    file: &LogicalName,
) -> Result<Result<Option<Bytes>, ScanStuck>, NoMemory>
    requires { IsFine mount.old }
    ensures unpacks { IfOk result (λ told. Unpacks name file.now mount.old told mount.new) }
    ensures broken_off { OnErr result (BeginsToUnpack name file.now mount.old mount.new) }
    ensures looks { HasLooked mount.old mount.new }
{
    match open_reader(alloc, mount, name)? {
        Ok(reader) => {
            let told = read_file(alloc, mount, &reader, file);
            drop(reader);
            told
        }
        Err(why) => Ok(Err(ScanStuck::Stuck(why))),
    }
}
