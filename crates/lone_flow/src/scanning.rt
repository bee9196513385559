//! The regions of a container, scanned one after the other.
ghost use Rattle.std.specs.Prelude.{◌<◌, IfOk, OnErr};
ghost use Rattle.mount_sound.specs.Sound.{IsFine};
ghost use Rattle.lone_flow.specs.Driving.{BeginsToMake, Makes};
ghost use Rattle.unit_format.specs.declared.units.TheConstants.{REGIONS};
ghost use Rattle.pack_files.specs.Scanning.{scan_program};
ghost use Rattle.lone_flow.specs.Looking.{HasLooked};
ghost use Rattle.lone_flow.specs.Scans.{AddsScan, BeginsToAddScan, BeginsToScan, ScansAll};

use crate::pack_core_driving::drive_freely;
use edge_io::Clock;
use index_reader::OpenReader;
use mount_core::Mount;
use pack_files::{ScanRegion, ScanStuck};
use plfs_types::NoMemory;
use std::alloc::Global;
use store_api::Store;
use unit_format::{REGIONS, Region, RegionList};

/// Scans this region of the reader's file. It only looks, also where it lacks memory: the calls are then a front of those.
#[tactic(auto, using(crate::proofs::SmallReads::Looked::looked_none, crate::proofs::SmallReads::Broken::begins_none))]
pub fn scan<S: Store + Drop, C: Clock + Drop>(
    alloc: Global,
    mount: &mut Mount<S, C>,
    reader: &OpenReader,
    region: u64,
) -> Result<Result<Region, ScanStuck>, NoMemory>
    requires known { region < REGIONS }
    requires fine { IsFine mount.old }
    ensures makes { IfOk result (λ told. Makes (scan_program reader.now region) mount.old told mount.new) }
    ensures broken_off { OnErr result (BeginsToMake (scan_program reader.now region) mount.old mount.new) }
    ensures looks { HasLooked mount.old mount.new }
    ensures fine { IsFine mount.new }
{
    let machine = ScanRegion::new(alloc, reader, region)?;
    drive_freely(mount, machine)
}

/// Adds what a scan of this region tells, or says what ends it. After `NoMemory` the calls are a front of those of the scan.
fn add_scan<S: Store + Drop, C: Clock + Drop>(
    alloc: Global,
    mount: &mut Mount<S, C>,
    reader: &OpenReader,
    region: u64,
    regions: &mut RegionList,
) -> Result<Option<ScanStuck>, NoMemory>
    requires known { region < REGIONS }
    requires fine { IsFine mount.old }
    ensures adds { IfOk result (λ stuck. AddsScan reader.now region regions.old regions.new mount.old stuck mount.new) }
    ensures broken_off { OnErr result (BeginsToAddScan reader.now region mount.old mount.new) }
    ensures looks { HasLooked mount.old mount.new }
    ensures fine { IsFine mount.new }
{
    match scan(alloc, mount, reader, region)? {
        Ok(found) => {
            regions.push(found)?;
            Ok(None)
        }
        Err(why) => Ok(Some(why)),
    }
}

/// Scans all regions of the reader's file, up to the first trouble. After `NoMemory` the calls are a front of those.
#[tactic(auto, using(crate::proofs::SmallReads::Looked::looked_none, crate::proofs::SmallReads::Looked::looked_both))]
pub(crate) fn scan_all<S: Store + Drop, C: Clock + Drop>(
    alloc: Global,
    mount: &mut Mount<S, C>,
    reader: &OpenReader,
) -> Result<Result<RegionList, ScanStuck>, NoMemory>
    requires { IsFine mount.old }
    ensures scans { IfOk result (λ told. ScansAll reader.now mount.old told mount.new) }
    ensures broken_off { OnErr result (BeginsToScan reader.now mount.old mount.new) }
    ensures looks { HasLooked mount.old mount.new }
    ensures fine { IsFine mount.new }
{
    let mut regions = RegionList::new(alloc);
    for region in 0..REGIONS {
        if let Some(why) = add_scan(alloc, mount, reader, region, &mut regions)? {
            drop(regions);
            return Ok(Err(why));
        }
    }
    Ok(Ok(regions))
}
