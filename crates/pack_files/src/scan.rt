//! The machine that scans a region.
ghost use Rattle.std.specs.Prelude.{◌≡◌, ◌<◌, true, IfOk};
ghost use Rattle.mount_model.specs.Standing.{ready};
ghost use Rattle.pack_files.specs.Scanning.{scan_program, region_end};
ghost use Rattle.pack_files.specs.Stages.{is_underway};

use crate::reading::{CHUNK, Stage, begin};
use index_reader::OpenReader;
use mount_model::{Call, Flow, Reply, Stuck};
use plfs_types::NoMemory;
use std::alloc::Global;
use std::mem;
use unit_format::{REGION_SIZE, REGIONS, Region, Scanner};

/// What ends a scan.
#[derive(Clone, Copy)]
pub enum ScanStuck {
    /// A read did not do what it was made for.
    Stuck(Stuck),
    /// A unit that begins at this place of the file breaks a rule, or passes the end of the region or of the file.
    Bad { place: u64 },
}

/// Scans a region of a reader's file, and ends with its units, or with the first trouble. It reads 2^20 bytes at a time.
#[derive(Drop)]
pub struct ScanRegion<'a> {
    alloc: Global,
    reader: &'a OpenReader,
    stage: Stage,
    ghost underway: { is_underway stage ≡ true },
}

/// Where the bytes of the region end that the file has.
fn end_of(size: u64, start: u64, stop: u64) -> u64
    ensures { result ≡ region_end size start stop }
{
    stop.min(size).max(start)
}

impl<'a> ScanRegion<'a> {
    ghost use Rattle.pack_files.specs.Standings.{scan_standing};

    /// Scans region `region` of the file.
    pub fn new(
        alloc: Global,
        reader: &'a OpenReader,
        region: u64,
    ) -> Result<ScanRegion<'a>, NoMemory>
        requires { region < REGIONS }
        ensures { IfOk result (λ flow. scan_standing flow ≡ ready (scan_program reader.now region)) }
    {
        let start = region * REGION_SIZE;
        let stop = start + REGION_SIZE;
        let end = end_of(reader.size(), start, stop);
        let scanner = Scanner::new(alloc, start, end, stop);
        let stage = begin(alloc, reader, (end - start).div_ceil(CHUNK), start, scanner)?;
        let stage = stage.settled(alloc, reader)?;
        Ok(ScanRegion {
            alloc,
            reader,
            stage,
        })
    }
}

impl<'a> Flow for ScanRegion<'a> {
    ghost use Rattle.pack_files.specs.Standings.{scan_standing, scan_left};

    type Out = Result<Region, ScanStuck>;

    ghost standing = { scan_standing };

    ghost left = { scan_left };

    fn next(&mut self) -> Result<Option<Call>, NoMemory> {
        let stage = mem::replace(&mut self.stage, nothing());
        let (stage, call) = stage.asked()?;
        self.stage = stage;
        Ok(call)
    }

    fn take(&mut self, reply: Reply) -> Result<(), NoMemory> {
        if let Reply::NoMemory = reply {
            return Err(NoMemory);
        }
        let stage = mem::replace(&mut self.stage, nothing());
        self.stage = stage.after(self.alloc, self.reader, reply)?;
        Ok(())
    }

    fn out(self) -> Result<Region, ScanStuck> {
        let ScanRegion { stage, .. } = self;
        match stage {
            Stage::Ended(result) => result,
            Stage::Reading { .. } => unreachable!(),
        }
    }
}

/// What stands in the place of a stage that is taken apart.
fn nothing() -> Stage
    ensures { is_underway result ≡ true }
{
    Stage::Ended(Err(ScanStuck::Bad { place: 0 }))
}
