//! Small files, packed.
ghost use Rattle.std.specs.Prelude.{◌≡◌, ◌≤◌, ◌<◌, ◌+◌, ◌*◌, length, IfOk, OnErr};
ghost use Rattle.std.specs.List.{All};
ghost use Rattle.mount_sound.specs.Sound.{IsFine};
ghost use Rattle.lone_flow.specs.Driving.{BeginsToMake, Makes};
ghost use Rattle.unit_format.specs.declared.units.TheConstants.{MAX_CONTENT, REGION_SIZE, REGIONS};
ghost use Rattle.writer_flow.specs.Opening.{open_program};
ghost use Rattle.pack_input.specs.declared.files.NamedFile.{NamedFile as Named};
ghost use Rattle.lone_flow.specs.Packing.{BeginsToPack, BeginsToPackFrom, EndsAfter, Packs, PacksFrom};
ghost use Rattle.lone_flow.specs.Settling.{BeginsToSettle};

use crate::beginning::begin;
use crate::pack_core_driving::drive_freely;
use crate::putting::{Put, put_all};
use crate::settling::settle;
use edge_io::Clock;
use mount_core::Mount;
use mount_model::Stuck;
use pack_files::ScanStuck;
use pack_input::FileList;
use plfs_types::{LogicalName, NoMemory};
use std::alloc::Global;
use store_api::Store;
use writer_flow::{OpenWrite, WriterHandle};

/// What a packing came to.
#[derive(Clone, Copy)]
pub enum Packed {
    /// All files were put, and the last unit ends here.
    All { end: u64 },
    /// A file would pass the end of the region. Those before it are kept.
    Full,
}

/// Opens a writer of host 0 in this container, whose buffer has 64 entries.
fn open_writer<S: Store + Drop, C: Clock + Drop>(
    mount: &mut Mount<S, C>,
    name: LogicalName,
) -> Result<Result<WriterHandle, Stuck>, NoMemory>
    requires { IsFine mount.old }
    ensures makes { IfOk result (λ opened. Makes (open_program name 0 64) mount.old opened mount.new) }
    ensures broken_off { OnErr result (BeginsToMake (open_program name 0 64) mount.old mount.new) }
    ensures fine { IsFine mount.new }
{
    drive_freely(mount, OpenWrite::new(name, 0, 64))
}

/// Syncs and closes the writer, and tells this where both end well.
fn settled_as<S: Store + Drop, C: Clock + Drop>(
    mount: &mut Mount<S, C>,
    handle: WriterHandle,
    packed: Packed,
) -> Result<Result<Packed, ScanStuck>, NoMemory>
    requires { IsFine mount.old }
    ensures ends { IfOk result (λ told. EndsAfter handle packed mount.old told mount.new) }
    ensures broken_off { OnErr result (BeginsToSettle handle mount.old mount.new) }
    ensures fine { IsFine mount.new }
{
    match settle(mount, handle)? {
        Ok(()) => Ok(Ok(packed)),
        Err(why) => Ok(Err(ScanStuck::Stuck(why))),
    }
}

/// Puts the files from this place on, by a writer of its own.
fn pack_from<S: Store + Drop, C: Clock + Drop>(
    alloc: Global,
    mount: &mut Mount<S, C>,
    name: LogicalName,
    region: u64,
    at: u64,
    files: &FileList<'_>,
) -> Result<Result<Packed, ScanStuck>, NoMemory>
    requires small { All (λ (f : Named). length f.content ≤ MAX_CONTENT) files.now }
    requires known { region < REGIONS }
    requires from { region * REGION_SIZE ≤ at }
    requires until { at ≤ (region + 1) * REGION_SIZE }
    requires fine { IsFine mount.old }
    ensures packs { IfOk result (λ told. PacksFrom name region files.now at mount.old told mount.new) }
    ensures broken_off { OnErr result (BeginsToPackFrom name region files.now at mount.old mount.new) }
    ensures fine { IsFine mount.new }
{
    match open_writer(mount, name)? {
        Ok(handle) => match put_all(alloc, mount, handle, region, at, files.as_slice())? {
            Put::Made { handle, next } => settled_as(mount, handle, Packed::All { end: next }),
            Put::Full { handle } => settled_as(mount, handle, Packed::Full),
            Put::Stopped(why) => Ok(Err(ScanStuck::Stuck(why))),
        },
        Err(why) => Ok(Err(ScanStuck::Stuck(why))),
    }
}

/// Puts these files into a region of the container, as caller 0 by itself: it scans the region where the container is there, opens
/// a writer of host 0, puts the files one behind the other, each by one write, and syncs and closes the writer.
///
/// It ends with the first trouble, and then neither syncs nor closes. Where a file would pass the end of the region it puts no
/// further one, and syncs and closes all the same. After `NoMemory` the calls are a front of those of a packing, of which the last
/// one may have been refused memory, and what was put until then stands.
pub fn pack<S: Store + Drop, C: Clock + Drop>(
    alloc: Global,
    mount: &mut Mount<S, C>,
    name: LogicalName,
    region: u64,
    files: &FileList<'_>,
) -> Result<Result<Packed, ScanStuck>, NoMemory>
    requires small { All (λ (f : Named). length f.content ≤ MAX_CONTENT) files.now }
    requires known { region < REGIONS }
    requires fine { IsFine mount.old }
    ensures packs { IfOk result (λ told. Packs name region files.now mount.old told mount.new) }
    ensures broken_off { OnErr result (BeginsToPack name region files.now mount.old mount.new) }
    ensures fine { IsFine mount.new }
{
    match begin(alloc, mount, name, region)? {
        Ok(at) => pack_from(alloc, mount, name, region, at, files),
        Err(why) => Ok(Err(why)),
    }
}
