//! The laws of containers that have only units.
ghost use Rattle.std.specs.Prelude.{◌≡◌, ◌<◌, ◌++◌, ℕ, List, Option, Some, Result, Err};
ghost use Rattle.index_entry.specs.Records.{IsBytes};
ghost use Rattle.plfs_types.specs.declared.entries.Trunc.{Trunc};
ghost use Rattle.store_api.specs.Acts.{Stored};
ghost use Rattle.store_api.specs.declared.tree.Tree.{Tree};
ghost use Rattle.mount_model.specs.History.{Event, state_after};
ghost use Rattle.mount_model.specs.Mounting.{IsMounted};
ghost use Rattle.mount_model.specs.Paths.{Name};
ghost use Rattle.store_api.specs.Names.{marks_name};
ghost use Rattle.mount_model.specs.State.{State};
ghost use Rattle.mount_sound.specs.Owed.{IsLawful};
ghost use Rattle.mount_sound.specs.Sound.{IsSoundTree};
ghost use Rattle.mount_model.specs.Running.{Runs};
ghost use Rattle.index_reader.specs.declared.opened.OpenReader.{OpenReader};
ghost use Rattle.reader_laws.specs.Gathering.{Gathered};
ghost use Rattle.reader_laws.specs.Moments.{IsSoundAt, Moment};
ghost use Rattle.reader_laws.specs.GatheringOpening.{HasView};
ghost use Rattle.reader_laws.specs.View.{changes_in, view};
ghost use Rattle.reader_laws.specs.Opened.{HasOpenReader};
ghost use Rattle.unit_format.specs.declared.finding.Region.{Region};
ghost use Rattle.unit_format.specs.declared.units.TheConstants.{REGIONS};
ghost use Rattle.pack_files.specs.declared.scan.ScanStuck.{ScanStuck};
ghost use Rattle.pack_files.specs.declared.scan.ScanStuck.TheVariants.{Bad};
ghost use Rattle.pack_files.specs.Scanning.{scan_program};
ghost use Rattle.pack_laws.specs.Scanned.{IsScanOf};
ghost use Rattle.pack_input.specs.declared.files.NamedFile.{NamedFile};
ghost use Rattle.lone_flow.specs.Naming.{Names};
ghost use Rattle.lone_flow.specs.Unpacking.{Unpacks};
ghost use Rattle.lone_flow.specs.declared.packing.Packed.{Packed};
ghost use Rattle.lone_flow.specs.Packing.{Packs};
ghost use Rattle.packing_laws.specs.HasOnly.{HasFirstUnits, HasOnlyUnits, IsOfUnits, TreeIsOfUnits};
ghost use Rattle.packing_laws.specs.OnlyUnits.{Filing};
ghost use Rattle.packing_laws.specs.Troubles.{TellsNoDamage};

use opening_laws::an_opening_opens_a_reader;
use pack_laws::a_scan_tells_the_units_of_its_region;
use reader_laws::an_open_reader_reads_its_file;
use trouble_laws::a_statement_shows_no_damage;

/// A law: where a container has only units, each file that a reader may see there has bytes, and of each region just the first
/// units: those of the cut up to the first that isn't in it.
pub fn a_file_of_units_has_first_units()
    ensures bytes { (filing : Filing) (start end : Moment) (room : ℕ) (cut : List Gathered) (truncs : List Trunc)
        → IsSoundAt end → HasView start end room cut truncs → HasOnlyUnits filing end room → IsBytes (view end cut truncs) }
    ensures units { (filing : Filing) (start end : Moment) (room : ℕ) (cut : List Gathered) (truncs : List Trunc) (region : ℕ)
        → IsSoundAt end → HasView start end room cut truncs → HasOnlyUnits filing end room → HasFirstUnits filing (changes_in end cut truncs) region }
{}

/// A law: who scans a region of an open reader's file, where the container had only units, is told the units that the region has
/// there, or the store failed: no place is bad. Nothing is asked of the file's bytes.
pub fn a_scan_of_units_finds_none_bad()
    ensures scan { (filing : Filing) (caller region : ℕ) (start end : Moment) (reader : OpenReader) (cut : List Gathered) (between scanning : List Event) (told : Result Region ScanStuck)
        → region < REGIONS → IsLawful end.state (between ++ scanning) → IsSoundAt end → HasOpenReader start end reader cut → HasOnlyUnits filing end reader.room
        → Runs caller (scan_program reader region) scanning told → IsScanOf caller (state_after end.state between) reader.pieces region (view end cut reader.truncs) scanning told }
    ensures good { (filing : Filing) (caller region : ℕ) (start end : Moment) (reader : OpenReader) (cut : List Gathered) (between scanning : List Event) (told : Result Region ScanStuck)
        → region < REGIONS → IsLawful end.state (between ++ scanning) → IsSoundAt end → HasOpenReader start end reader cut → HasOnlyUnits filing end reader.room
        → Runs caller (scan_program reader region) scanning told → (place : ℕ) → told ≡ Err (Bad place) → ⊥ }
{
    a_scan_tells_the_units_of_its_region();
}

/// A law: where the container of the name has only units as a caller by itself begins, its unpacking, its naming and its packing
/// end well, in a fault or in a refusal. Nothing is told to be damaged, and no place to be bad.
pub fn a_container_of_units_shows_no_damage()
    ensures unpack { (filing : Filing) (name file : Name) (start : Moment) (told : Result (Option (List ℕ)) ScanStuck) (end : State) → IsSoundAt start → IsOfUnits filing start name
        → Unpacks name file start.state told end → TellsNoDamage told }
    ensures names { (filing : Filing) (name : Name) (start : Moment) (told : Result (List Name) ScanStuck) (end : State) → IsSoundAt start → IsOfUnits filing start name
        → Names name start.state told end → TellsNoDamage told }
    ensures pack { (filing : Filing) (name : Name) (region : ℕ) (files : List NamedFile) (start : Moment) (told : Result Packed ScanStuck) (end : State) → region < REGIONS → IsSoundAt start → IsOfUnits filing start name
        → Packs name region files start.state told end → TellsNoDamage told }
{
    an_opening_opens_a_reader();
    a_scan_tells_the_units_of_its_region();
    an_open_reader_reads_its_file();
    a_statement_shows_no_damage();
}

/// A law: a mounting over a sound tree leaves the container of a name so, where it has only units in that tree. So the law above
/// holds of what a run does there.
pub fn a_mounting_leaves_units_alone()
    ensures { (serial : ℕ) (times : Option (List ℕ)) (opened : Stored) (start : State) (tree : Tree) (sound : IsSoundTree tree) (filing : Filing) (name : Name) → IsMounted serial times opened start → opened.tree ≡ Some tree
        → (name ≡ marks_name → ⊥) → TreeIsOfUnits filing tree sound name → IsOfUnits filing (record { state = start; issued = sound.issued }) name }
{}
