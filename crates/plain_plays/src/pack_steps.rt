//! The law of small files that are packed.
ghost use Rattle.std.specs.Prelude.{◌<◌, ℕ, [], List, Option, Result};
ghost use Rattle.store_api.specs.Acts.{Stored};
ghost use Rattle.mount_model.specs.Mounting.{IsMounted};
ghost use Rattle.mount_model.specs.Paths.{Name};
ghost use Rattle.mount_model.specs.State.{State};
ghost use Rattle.unit_format.specs.declared.units.TheConstants.{REGIONS};
ghost use Rattle.pack_files.specs.declared.scan.ScanStuck.{ScanStuck};
ghost use Rattle.pack_input.specs.declared.files.NamedFile.{NamedFile};
ghost use Rattle.lone_flow.specs.Packing.{Packs};
ghost use Rattle.lone_flow.specs.declared.packing.Packed.{Packed};
ghost use Rattle.plain_machine.specs.Machine.{Plain};
ghost use Rattle.plain_plays.specs.OverStores.{BeginsOver};
ghost use Rattle.plain_plays.specs.Packings.{HasByteFile, PacksPlainly, packer_script};
ghost use Rattle.plain_plays.specs.Saying.{BeginsPlainly, MetNoFault};

use pack_laws::a_scan_tells_the_units_of_its_region;

/// A law: a packing is what the statements of one actor do on the plain machine. It opens a writer, writes each unit behind the units that the machine's file has
/// in the region, syncs and closes. Where a unit would pass the region's end, the writes end before it. Where a statement is refused, none follows. Where the region
/// breaks a rule, none is made, and the place is told. The machine has at the end what the mount has. It had so before, or began over the store. Its file has bytes,
/// no call met a fault, and none was refused memory.
pub fn packings_are_plain()
    ensures on_a_mount { (name : Name) (region : ℕ) (files : List NamedFile) (p : Plain) (start : State) (told : Result Packed ScanStuck) (end : State)
        → region < REGIONS
        → BeginsPlainly (packer_script []) start p
        → HasByteFile p name
        → Packs name region files start told end
        → MetNoFault start end
        → PacksPlainly name region files p told end.store }
    ensures over_a_store { (name : Name) (region : ℕ) (files : List NamedFile) (p : Plain) (times : Option (List ℕ)) (opened : Stored) (start : State) (told : Result Packed ScanStuck) (end : State)
        → region < REGIONS
        → IsMounted 0 times opened start
        → BeginsOver (packer_script []) times opened p
        → HasByteFile p name
        → Packs name region files start told end
        → MetNoFault start end
        → PacksPlainly name region files p told end.store }
{
    a_scan_tells_the_units_of_its_region();
}
