//! The place of the first file.
ghost use Rattle.std.specs.Prelude.{◌≡◌, ◌≤◌, ◌<◌, ◌+◌, ◌*◌, IfOk, OnErr};
ghost use Rattle.mount_sound.specs.Sound.{IsFine};
ghost use Rattle.lone_flow.specs.Driving.{BeginsToMake};
ghost use Rattle.unit_format.specs.declared.units.TheConstants.{REGION_SIZE, REGIONS};
ghost use Rattle.pack_files.specs.Scanning.{scan_program};
ghost use Rattle.lone_flow.specs.Beginning.{BeginsAt, BeginsToFindPlace, BeginsWithout, ScansFor, within_region};

use crate::scanning::scan;
use crate::unpacking::open_reader;
use edge_io::Clock;
use index_reader::OpenReader;
use mount_core::Mount;
use mount_model::{Refusal, Stuck};
use pack_files::ScanStuck;
use plfs_types::{LogicalName, NoMemory};
use std::alloc::Global;
use store_api::Store;
use unit_format::REGION_SIZE;

/// The place, or the nearer end of the region.
fn within_region(region: u64, place: u64) -> u64
    requires { region < REGIONS }
    ensures value { result ≡ within_region region place }
    ensures from { region * REGION_SIZE ≤ result }
    ensures until { result ≤ (region + 1) * REGION_SIZE }
{
    let start = region * REGION_SIZE;
    place.max(start).min(start + REGION_SIZE)
}

/// Where the units of the region end. After `NoMemory` the calls are a front of those of the scan.
fn scanned<S: Store + Drop, C: Clock + Drop>(
    alloc: Global,
    mount: &mut Mount<S, C>,
    reader: &OpenReader,
    region: u64,
) -> Result<Result<u64, ScanStuck>, NoMemory>
    requires known { region < REGIONS }
    requires fine { IsFine mount.old }
    ensures scans { IfOk result (λ told. ScansFor reader.now region mount.old told mount.new) }
    ensures broken_off { OnErr result (BeginsToMake (scan_program reader.now region) mount.old mount.new) }
    ensures from { IfOk result (λ told. IfOk told (λ place. region * REGION_SIZE ≤ place)) }
    ensures until { IfOk result (λ told. IfOk told (λ place. place ≤ (region + 1) * REGION_SIZE)) }
    ensures fine { IsFine mount.new }
{
    match scan(alloc, mount, reader, region)? {
        Ok(found) => {
            let end = found.end;
            drop(found);
            Ok(Ok(within_region(region, end)))
        }
        Err(why) => Ok(Err(why)),
    }
}

/// Where the first file goes where no reader could be opened.
fn without(region: u64, why: Stuck) -> Result<u64, ScanStuck>
    requires { region < REGIONS }
    ensures begins { BeginsWithout region why result }
    ensures from { IfOk result (λ place. region * REGION_SIZE ≤ place) }
    ensures until { IfOk result (λ place. place ≤ (region + 1) * REGION_SIZE) }
{
    if why == Stuck::Refused(Refusal::NoRoom) {
        return Ok(region * REGION_SIZE);
    }
    Err(ScanStuck::Stuck(why))
}

/// Where the next file of the region goes: behind its units, or at its start where the container isn't there.
pub(crate) fn begin<S: Store + Drop, C: Clock + Drop>(
    alloc: Global,
    mount: &mut Mount<S, C>,
    name: LogicalName,
    region: u64,
) -> Result<Result<u64, ScanStuck>, NoMemory>
    requires known { region < REGIONS }
    requires fine { IsFine mount.old }
    ensures begins { IfOk result (λ told. BeginsAt name region mount.old told mount.new) }
    ensures broken_off { OnErr result (BeginsToFindPlace name region mount.old mount.new) }
    ensures from { IfOk result (λ told. IfOk told (λ place. region * REGION_SIZE ≤ place)) }
    ensures until { IfOk result (λ told. IfOk told (λ place. place ≤ (region + 1) * REGION_SIZE)) }
    ensures fine { IsFine mount.new }
{
    match open_reader(alloc, mount, name)? {
        Ok(reader) => {
            let told = scanned(alloc, mount, &reader, region);
            drop(reader);
            told
        }
        Err(why) => Ok(without(region, why)),
    }
}
