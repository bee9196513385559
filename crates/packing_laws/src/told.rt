//! The laws of units that a region tells.
ghost use Rattle.std.specs.Prelude.{◌≡◌, ◌≤◌, ◌<◌, ◌⊎◌, ◌++◌, ℕ, List, Option, Some, Ok};
ghost use Rattle.std.specs.List.{All};
ghost use Rattle.plfs_types.specs.declared.entries.Trunc.{Trunc};
ghost use Rattle.plain_file.specs.declared.changes.Change.{Change};
ghost use Rattle.plain_file.specs.declared.pieces.Piece.{Piece};
ghost use Rattle.mount_model.specs.Paths.{Name};
ghost use Rattle.mount_model.specs.State.{State};
ghost use Rattle.mount_sound.specs.Ledger.{Written};
ghost use Rattle.reader_laws.specs.Gathering.{Gathered};
ghost use Rattle.reader_laws.specs.Moments.{Dropping, Moment};
ghost use Rattle.reader_laws.specs.GatheringOpening.{HasView};
ghost use Rattle.reader_laws.specs.View.{changes_in};
ghost use Rattle.pack_input.specs.declared.files.NamedFile.{NamedFile};
ghost use Rattle.unit_format.specs.declared.finding.Unit.{Unit as Found};
ghost use Rattle.unit_format.specs.declared.units.TheConstants.{REGIONS};
ghost use Rattle.unit_format.specs.Units.{SmallFile};
ghost use Rattle.pack_laws.specs.Scanned.{region_start, region_stop};
ghost use Rattle.packing_laws.specs.Told.{IsContent};
ghost use Rattle.packing_laws.specs.Answered.{IsOutranked};
ghost use Rattle.packing_laws.specs.HasOnly.{HasFirstUnits, HasOnlyUnits, IsWrittenAt};
ghost use Rattle.packing_laws.specs.Isolated.{HasUnit};
ghost use Rattle.packing_laws.specs.Lasting.{HoldsWrites};
ghost use Rattle.packing_laws.specs.Later.{IsBehindWritten, PutsUnitOf};
ghost use Rattle.packing_laws.specs.OnlyUnits.{Filing, HasUnitAt};
ghost use Rattle.packing_laws.specs.Packed.{ArePuts};

/// A law: where a front of a region's units was written, one behind the other from its start on, the region has all of them.
pub fn a_written_front_is_told()
    ensures { (filing : Filing) (changes : List Change) (region : ℕ) (h : HasFirstUnits filing changes region) (front rest : List SmallFile) → filing region ≡ front ++ rest
        → ((place : ℕ) (f : SmallFile) → HasUnitAt (region_start region) front place f → IsWrittenAt changes place f) → (more : List SmallFile) × (h.files ≡ front ++ more) }
{}

/// A law: where a region of a file has a unit of a name, the answer for the name is that unit's content, or another unit of the name
/// that isn't older stands in the file.
pub fn a_unit_is_answered_or_outranked()
    ensures { (pieces : List Piece) (file : List ℕ) (name : Name) (from end : State) (told : Option (List ℕ)) (region : ℕ) (u : Found) (f : SmallFile) → region < REGIONS
        → IsContent pieces file name from end (Ok told) → HasUnit pieces file region u f → u.name ≡ name → (told ≡ Some f.content) ⊎ IsOutranked pieces file name u }
{}

/// A law: where a reader's cut holds what was packed, and each unit of the region with a place below, its region has all the units
/// that were packed. The container has only units then.
pub fn packed_units_are_told()
    ensures { (filing : Filing) (start end : Moment) (room : ℕ) (cut : List Gathered) (truncs : List Trunc) (region : ℕ) (files : List NamedFile) (at until : ℕ) (d : Dropping) (writes : List Written)
        → HasView start end room cut truncs → HasOnlyUnits filing end room → HoldsWrites end cut d writes → ArePuts at until files writes → region_start region ≤ at → until ≤ region_stop region
        → IsBehindWritten filing (changes_in end cut truncs) region at → (h : HasFirstUnits filing (changes_in end cut truncs) region) → All (PutsUnitOf region h.files) writes }
{}
