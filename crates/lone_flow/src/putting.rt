//! Files put one behind the other.
ghost use Rattle.std.specs.Prelude.{◌≡◌, ◌≤◌, ◌<◌, ◌+◌, ◌*◌, ◌↔◌, length, Err, IfOk, IfErr, OnErr};
ghost use Rattle.std.specs.List.{All};
ghost use Rattle.mount_model.specs.Standing.{ready};
ghost use Rattle.mount_sound.specs.Sound.{IsFine};
ghost use Rattle.unit_format.specs.declared.units.TheConstants.{MAX_CONTENT, REGION_SIZE, REGIONS};
ghost use Rattle.unit_format.specs.Units.{unit_size as unit_size_of};
ghost use Rattle.pack_files.specs.Putting.{IsPutTrouble, put_program};
ghost use Rattle.pack_files.specs.Puts.{put_standing};
ghost use Rattle.pack_files.specs.declared.put.PutTrouble.TheVariants.{RegionFull as IsFull};
ghost use Rattle.pack_input.specs.declared.files.NamedFile.{NamedFile as Named};
ghost use Rattle.lone_flow.specs.Putting.{BeginsToPut, BeginsToPutFile, IsWithin, Puts, PutsAll, put_of as put_of_out, small_file};

use crate::pack_core_driving::drive_freely;
use edge_io::Clock;
use mount_core::Mount;
use mount_model::Stuck;
use pack_files::{PackPut, PutTrouble};
use pack_input::NamedFile;
use plfs_types::NoMemory;
use std::alloc::Global;
use store_api::Store;
use unit_format::REGION_SIZE;
use writer_flow::{WriterHandle, WriterOut};

/// What a put came to.
#[derive(Clone, Copy)]
pub enum Put {
    /// It was made, and the next file goes to this place.
    Made { handle: WriterHandle, next: u64 },
    /// The file would pass the end of the region.
    Full { handle: WriterHandle },
    /// It did not do what it was made for.
    Stopped(Stuck),
}

/// How many bytes the file's unit has.
fn unit_size(file: &NamedFile<'_>) -> u64
    requires { length file.now.content ≤ MAX_CONTENT }
    ensures { result ≡ unit_size_of (small_file file.now) }
{
    16 + file.name.name().bytes().len() as u64 + file.content.len() as u64
}

/// What the end of a put's machine comes to.
fn put_of(next: u64, out: WriterOut) -> Put
    ensures { result ≡ put_of_out next out.handle out.result }
{
    match out.result {
        Ok(_) => match out.handle {
            Some(handle) => Put::Made { handle, next },
            None => Put::Stopped(Stuck::Fault),
        },
        Err(why) => Put::Stopped(why),
    }
}

/// The machine that puts the file at this place of the region. Its bytes are read off the input's digits here.
fn put_of_file(
    alloc: Global,
    handle: WriterHandle,
    region: u64,
    at: u64,
    file: &NamedFile<'_>,
) -> Result<PackPut, PutTrouble>
    requires small { length file.now.content ≤ MAX_CONTENT }
    requires known { region < REGIONS }
    requires from { region * REGION_SIZE ≤ at }
    requires until { at ≤ (region + 1) * REGION_SIZE }
    ensures standing { IfOk result (λ put. put_standing put ≡ ready (put_program handle at (small_file file.now))) }
    ensures fits { IfOk result (λ put. at + unit_size_of (small_file file.now) ≤ (region + 1) * REGION_SIZE) }
    ensures full { (result ≡ Err (IsFull handle)) ↔ ((region + 1) * REGION_SIZE < at + unit_size_of (small_file file.now)) }
    ensures trouble { IfErr result (IsPutTrouble handle) }
{
    if (region + 1) * REGION_SIZE - at < unit_size(file) {
        return Err(PutTrouble::RegionFull { handle });
    }
    match file.content.bytes(alloc) {
        Ok(content) => PackPut::new(alloc, handle, region, at, &file.name, &content),
        Err(NoMemory) => Err(PutTrouble::NoMemory { handle }),
    }
}

/// Puts a file at this place of the region.
fn put_file<S: Store + Drop, C: Clock + Drop>(
    alloc: Global,
    mount: &mut Mount<S, C>,
    handle: WriterHandle,
    region: u64,
    at: u64,
    file: &NamedFile<'_>,
) -> Result<Put, NoMemory>
    requires small { length file.now.content ≤ MAX_CONTENT }
    requires known { region < REGIONS }
    requires from { region * REGION_SIZE ≤ at }
    requires until { at ≤ (region + 1) * REGION_SIZE }
    requires fine { IsFine mount.old }
    ensures puts { IfOk result (λ put. Puts handle region at (small_file file.now) mount.old put mount.new) }
    ensures broken_off { OnErr result (BeginsToPutFile handle region at (small_file file.now) mount.old mount.new) }
    ensures within { IfOk result (IsWithin region) }
    ensures fine { IsFine mount.new }
{
    match put_of_file(alloc, handle, region, at, file) {
        Ok(machine) => {
            let next = at + unit_size(file);
            let out = drive_freely(mount, machine)?;
            Ok(put_of(next, out))
        }
        Err(PutTrouble::RegionFull { handle }) => Ok(Put::Full { handle }),
        Err(PutTrouble::NoMemory { .. }) => Err(NoMemory),
    }
}

/// A writer, and where its next file goes.
#[derive(Clone, Copy)]
struct Placing {
    handle: WriterHandle,
    place: u64,
}

/// Puts the files one behind the other, from this place on, up to the first that isn't put.
pub(crate) fn put_all<S: Store + Drop, C: Clock + Drop>(
    alloc: Global,
    mount: &mut Mount<S, C>,
    handle: WriterHandle,
    region: u64,
    at: u64,
    files: &[NamedFile<'_>],
) -> Result<Put, NoMemory>
    requires small { All (λ (f : Named). length f.content ≤ MAX_CONTENT) files.now }
    requires known { region < REGIONS }
    requires from { region * REGION_SIZE ≤ at }
    requires until { at ≤ (region + 1) * REGION_SIZE }
    requires fine { IsFine mount.old }
    ensures puts { IfOk result (λ put. PutsAll region files.now handle at mount.old put mount.new) }
    ensures broken_off { OnErr result (BeginsToPut region files.now handle at mount.old mount.new) }
    ensures fine { IsFine mount.new }
{
    let mut placing = Placing { handle, place: at };
    for file in files {
        match put_file(alloc, mount, placing.handle, region, placing.place, file)? {
            Put::Made { handle, next } => {
                placing = Placing {
                    handle,
                    place: next,
                }
            }
            Put::Full { handle } => return Ok(Put::Full { handle }),
            Put::Stopped(why) => return Ok(Put::Stopped(why)),
        }
    }
    Ok(Put::Made {
        handle: placing.handle,
        next: placing.place,
    })
}
