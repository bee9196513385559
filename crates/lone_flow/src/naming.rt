//! The names of all small files.
ghost use Rattle.std.specs.Prelude.{◌≡◌, ◌++◌, IfOk, OnErr, OnOk};
ghost use Rattle.store_api.specs.Names.{in_byte_order as byte_order};
ghost use Rattle.mount_sound.specs.Sound.{IsFine};
ghost use Rattle.lone_flow.specs.Looking.{HasLooked};
ghost use Rattle.lone_flow.specs.Naming.{BeginsToName, Names, NamesIn, names_in, names_of};
ghost use Rattle.lone_flow.specs.Scans.{BeginsToScan};

use crate::scanning::scan_all;
use crate::unpacking::open_reader;
use edge_io::Clock;
use index_reader::OpenReader;
use mount_core::Mount;
use pack_files::ScanStuck;
use plfs_types::{LogicalName, Name, NameList, NoMemory};
use std::alloc::Global;
use store_api::{Store, in_byte_order};
use unit_format::{Region, RegionList, Unit};

/// Adds the names of these units.
fn add_names(names: &mut Vec<Name>, units: &[Unit]) -> Result<(), NoMemory>
    ensures { OnOk result (names.new.items ≡ names.old.items ++ names_of units.now) }
{
    for unit in units {
        names.push(unit.name.name())?;
    }
    Ok(())
}

/// The names of all units, in their order.
fn all_names(alloc: Global, regions: &[Region]) -> Result<Vec<Name>, NoMemory>
    ensures { IfOk result (λ names. names.items ≡ names_in regions.now) }
{
    let mut names = Vec::new(alloc);
    for region in regions {
        add_names(&mut names, region.units.as_slice())?;
    }
    Ok(names)
}

/// The names of all units, in byte order, each once.
fn ordered_names(alloc: Global, regions: &RegionList) -> Result<NameList, NoMemory>
    ensures { IfOk result (λ names. names ≡ byte_order (names_in regions.now)) }
{
    let names = all_names(alloc, regions.as_slice())?;
    in_byte_order(alloc, names.as_slice())
}

/// Scans all regions of the reader's file, and names their units.
fn names_in_file<S: Store + Drop, C: Clock + Drop>(
    alloc: Global,
    mount: &mut Mount<S, C>,
    reader: &OpenReader,
) -> Result<Result<NameList, ScanStuck>, NoMemory>
    requires { IsFine mount.old }
    ensures names { IfOk result (λ told. NamesIn reader.now mount.old told mount.new) }
    ensures broken_off { OnErr result (BeginsToScan reader.now mount.old mount.new) }
    ensures looks { HasLooked mount.old mount.new }
{
    match scan_all(alloc, mount, reader)? {
        Ok(regions) => {
            let names = ordered_names(alloc, &regions);
            drop(regions);
            Ok(Ok(names?))
        }
        Err(why) => Ok(Err(why)),
    }
}

/// Names the small files of the container, as caller 0 by itself: it opens the container, scans all its regions in order, and
/// answers the names of all units in byte order, each once.
///
/// It ends with the first trouble. Where the container isn't there, that is the refusal of the opening. It only looks, also
/// where it lacks memory: the calls are then a front of those, of which the last one may have been refused memory.
pub fn names<S: Store + Drop, C: Clock + Drop>(
    alloc: Global,
    mount: &mut Mount<S, C>,
    name: LogicalName,
) -> Result<Result<NameList, ScanStuck>, NoMemory>
    requires { IsFine mount.old }
    ensures names { IfOk result (λ told. Names name mount.old told mount.new) }
    ensures broken_off { OnErr result (BeginsToName name mount.old mount.new) }
    ensures looks { HasLooked mount.old mount.new }
{
    match open_reader(alloc, mount, name)? {
        Ok(reader) => {
            let told = names_in_file(alloc, mount, &reader);
            drop(reader);
            told
        }
        Err(why) => Ok(Err(ScanStuck::Stuck(why))),
    }
}
