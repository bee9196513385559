//! Small files of a container are scanned and found, and one is put.
ghost use Rattle.std.specs.Prelude.{◌≤◌, ◌<◌, length};
ghost use Rattle.mount_model.specs.Standing.{IsFresh};

use crate::world::reply_to;
use index_reader::{OpenReader, Reading};
use mount_model::{Flow, Stuck};
use opening_flow::Opening;
use pack_files::{PackPut, PutTrouble, ScanRegion, ScanStuck};
use plfs_types::{Bytes, LogicalName, NoMemory, name_in};
use std::alloc::Global;
use std::test::Fail;
use test_lines::Line;
use unit_format::{Region, RegionList, Unit, find};
use writer_flow::{WriterHandle, WriterOut};

// What the machine comes to.
fn ended<F: Flow + Drop>(alloc: Global, mut flow: F, shown: &mut Line) -> Result<F::Out, NoMemory>
    requires { IsFresh (F.standing flow) }
{
    while let Some(call) = flow.next()? {
        let reply = reply_to(alloc, &call, shown);
        drop(call);
        flow.take(reply)?;
    }
    Ok(flow.out())
}

fn name(text: &str) -> Result<LogicalName, NoMemory> {
    name_in(text.as_bytes()).ok_or(NoMemory)
}

fn opened(alloc: Global, shown: &mut Line) -> Result<Result<OpenReader, Stuck>, NoMemory> {
    let flow = Opening::new(alloc, name("p")?, 2);
    ended(alloc, flow, shown)
}

fn show_unit(unit: &Unit, shown: &mut Line) {
    let name = unit.name.name();
    if let Ok(text) = std::str::from_utf8(name.bytes()) {
        shown.push(text);
    }
    shown.say(" ", unit.at);
    shown.say(" ", unit.len);
    shown.say(" ", unit.key.stamp);
    shown.say(" ", unit.key.writer);
    shown.push("\n");
}

fn show_region(region: &Region, shown: &mut Line) {
    for unit in region.units.as_slice() {
        show_unit(unit, shown);
    }
    shown.say("end ", region.end);
    shown.push("\n");
}

fn scanned(
    alloc: Global,
    reader: &OpenReader,
    region: u64,
    shown: &mut Line,
) -> Result<Result<Region, ScanStuck>, NoMemory>
    requires { region < 256 }
{
    let flow = ScanRegion::new(alloc, reader, region)?;
    ended(alloc, flow, shown)
}

fn scan_region(
    alloc: Global,
    reader: &OpenReader,
    region: u64,
    regions: &mut RegionList,
    shown: &mut Line,
) -> Result<(), NoMemory>
    requires { region < 256 }
{
    match scanned(alloc, reader, region, shown)? {
        Ok(region) => {
            show_region(&region, shown);
            regions.push(region)?;
        }
        Err(ScanStuck::Bad { place }) => {
            shown.say("bad ", place);
            shown.push("\n");
        }
        Err(ScanStuck::Stuck(_)) => shown.push("stuck\n"),
    }
    Ok(())
}

fn scan_regions(
    alloc: Global,
    reader: &OpenReader,
    regions: &mut RegionList,
    shown: &mut Line,
) -> Result<(), NoMemory> {
    scan_region(alloc, reader, 0, regions, shown)?;
    scan_region(alloc, reader, 1, regions, shown)?;
    scan_region(alloc, reader, 2, regions, shown)?;
    scan_region(alloc, reader, 3, regions, shown)
}

fn show_file(regions: &RegionList, file: &str, shown: &mut Line) {
    let Some(name) = name_in(file.as_bytes()) else {
        shown.push("no name\n");
        return;
    };
    match find(regions, &name) {
        Some(unit) => show_unit(&unit, shown),
        None => shown.push("missing\n"),
    }
}

fn show_content(
    alloc: Global,
    reader: &OpenReader,
    at: u64,
    len: u64,
    shown: &mut Line,
) -> Result<(), NoMemory> {
    let flow = Reading::new(alloc, reader, at, len.min(64))?;
    match ended(alloc, flow, shown)? {
        Ok(bytes) => {
            if let Ok(text) = std::str::from_utf8(bytes.as_slice()) {
                shown.push(text);
            }
            shown.push("\n");
        }
        Err(_) => shown.push("stuck\n"),
    }
    Ok(())
}

fn show_files(
    alloc: Global,
    reader: &OpenReader,
    regions: &RegionList,
    shown: &mut Line,
) -> Result<(), NoMemory> {
    show_file(regions, "a", shown);
    show_file(regions, "b", shown);
    show_file(regions, "z", shown);
    show_file(regions, "-b", shown);
    show_content(alloc, reader, 8589934609, 5, shown)
}

fn show_reader(alloc: Global, reader: &OpenReader, shown: &mut Line) -> Result<(), NoMemory> {
    shown.say("size ", reader.size());
    shown.push("\n");
    let mut regions = RegionList::new(alloc);
    scan_regions(alloc, reader, &mut regions, shown)?;
    show_files(alloc, reader, &regions, shown)
}

fn show_container(alloc: Global, shown: &mut Line) -> Result<(), NoMemory> {
    match opened(alloc, shown)? {
        Ok(reader) => show_reader(alloc, &reader, shown),
        Err(_) => {
            shown.push("stuck\n");
            Ok(())
        }
    }
}

#[test]
fn small_files_are_found(rt: HostRuntime) -> Result<(), Fail> {
    let mut shown = Line::new(rt.alloc());
    show_container(rt.alloc(), &mut shown)?;
    assert_eq!(rt;
        shown.as_str(),
        "size 8589934614\na 17 2 11 3\nb 36 0 12 9\nend 36\nbad 4294967296\na 8589934609 5 14 9\nend 8589934614\nend 12884901888\na 8589934609 5 14 9\nb 36 0 12 9\nmissing\nno name\nnewer\n"
    );
    Ok(())
}

// Puts `c` so many bytes before the end of region 1.
fn put(alloc: Global, room: u64, content: &Bytes, shown: &mut Line) -> Result<(), NoMemory>
    requires room { room ≤ 100 }
    requires content { length content.now ≤ 10 }
{
    let handle = WriterHandle {
        writer: 3,
        cap: 64,
        pending: 0,
        closing: false,
        landed: 0,
    };
    match PackPut::new(alloc, handle, 1, 8589934592 - room, &name("c")?, content) {
        Ok(flow) => {
            let out = ended(alloc, flow, shown)?;
            show_put(&out, shown);
            Ok(())
        }
        Err(PutTrouble::RegionFull { .. }) => {
            shown.push("full\n");
            Ok(())
        }
        Err(PutTrouble::NoMemory { .. }) => Err(NoMemory),
    }
}

fn show_put(out: &WriterOut, shown: &mut Line) {
    if let Ok(stamp) = out.result {
        shown.say("put ", stamp);
    }
    if let Some(handle) = out.handle {
        shown.say(" pending ", handle.pending);
    }
    shown.push("\n");
}

fn put_each(alloc: Global, shown: &mut Line) -> Result<(), NoMemory> {
    let some = Bytes::copy(alloc, b"x")?;
    let none = Bytes::new(alloc);
    put(alloc, 18, &some, shown)?;
    put(alloc, 17, &some, shown)?;
    put(alloc, 17, &none, shown)
}

#[test]
fn a_small_file_is_one_write(rt: HostRuntime) -> Result<(), Fail> {
    let mut shown = Line::new(rt.alloc());
    put_each(rt.alloc(), &mut shown)?;
    assert_eq!(rt;
        shown.as_str(),
        "writer 3 at 8589934574 1 0 0 0 0 0 0 0 1 0 0 0 0 0 0 0 99 120\nput 15 pending 1\nfull\nwriter 3 at 8589934575 1 0 0 0 0 0 0 0 0 0 0 0 0 0 0 0 99\nput 15 pending 1\n"
    );
    Ok(())
}
