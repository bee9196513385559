//! The laws of scans.
ghost use Rattle.std.specs.Prelude.{◌<◌, ◌++◌, ℕ, List, Result};
ghost use Rattle.index_entry.specs.Records.{IsBytes};
ghost use Rattle.mount_model.specs.History.{Event, state_after};
ghost use Rattle.mount_sound.specs.Owed.{IsLawful};
ghost use Rattle.mount_model.specs.Running.{Runs};
ghost use Rattle.index_reader.specs.declared.opened.OpenReader.{OpenReader};
ghost use Rattle.reader_laws.specs.Moments.{Moment, IsSoundAt};
ghost use Rattle.reader_laws.specs.Gathering.{Gathered};
ghost use Rattle.reader_laws.specs.View.{view};
ghost use Rattle.reader_laws.specs.Opened.{HasOpenReader};
ghost use Rattle.unit_format.specs.declared.finding.Region.{Region};
ghost use Rattle.unit_format.specs.declared.units.TheConstants.{REGIONS};
ghost use Rattle.pack_files.specs.declared.scan.ScanStuck.{ScanStuck};
ghost use Rattle.pack_files.specs.Scanning.{scan_program};
ghost use Rattle.plain_file.specs.declared.pieces.Piece.{Piece};
ghost use Rattle.unit_format.specs.Alike.{StandApart};
ghost use Rattle.pack_laws.specs.Scanned.{IsScanOf, TellsUnits};

use reader_laws::an_open_reader_reads_its_file;

/// A law: who scans a region of an open reader's file, whenever it does and whatever others call, is told just the units
/// that the region has in that file, with the keys of the writes that show their first bytes, or the first place that
/// breaks a rule there; or it ends with a fault where the store's count of faults rose.
pub fn a_scan_tells_the_units_of_its_region()
    ensures { (caller region : ℕ) (start end : Moment) (reader : OpenReader) (cut : List Gathered) (between scanning : List Event) (told : Result Region ScanStuck)
        → region < REGIONS → IsLawful end.state (between ++ scanning) → IsSoundAt end → HasOpenReader start end reader cut
        → IsBytes (view end cut reader.truncs) → Runs caller (scan_program reader region) scanning told
        → IsScanOf caller (state_after end.state between) reader.pieces region (view end cut reader.truncs) scanning told }
{
    an_open_reader_reads_its_file();
}

/// A law: the units that a scan tells stand one behind the other. So no two of a region have one place.
pub fn the_units_of_a_region_stand_apart()
    ensures { (pieces : List Piece) (region : ℕ) (file : List ℕ) (r : Region) → TellsUnits pieces region file r → StandApart r.units }
{}
