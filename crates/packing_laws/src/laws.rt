//! The laws of small files that are read.
ghost use Rattle.std.specs.Prelude.{◌≤◌, ℕ, List, Option, Result};
ghost use Rattle.std.specs.List.{Contains};
ghost use Rattle.plain_file.specs.declared.changes.Change.{Change};
ghost use Rattle.plain_file.specs.declared.pieces.Piece.{Piece};
ghost use Rattle.plain_file.specs.Runs.{ArePiecesOf};
ghost use Rattle.plain_file.specs.Shows.{ShowsNewest};
ghost use Rattle.mount_model.specs.Paths.{Name};
ghost use Rattle.mount_model.specs.State.{State};
ghost use Rattle.reader_laws.specs.Moments.{Moment, IsSoundAt};
ghost use Rattle.unit_format.specs.declared.finding.Region.{Region};
ghost use Rattle.unit_format.specs.declared.finding.Unit.{Unit as Found};
ghost use Rattle.pack_files.specs.declared.scan.ScanStuck.{ScanStuck};
ghost use Rattle.pack_laws.specs.Scanned.{TellsUnits, region_start, region_stop};
ghost use Rattle.lone_flow.specs.Unpacking.{Unpacks};
ghost use Rattle.lone_flow.specs.Naming.{Names};
ghost use Rattle.packing_laws.specs.Keys.{HasKeyOfWrite};
ghost use Rattle.packing_laws.specs.Seen.{Sees};
ghost use Rattle.packing_laws.specs.Told.{AreNames, IsContent};

use opening_laws::an_opening_opens_a_reader;
use pack_laws::a_scan_tells_the_units_of_its_region;
use reader_laws::an_open_reader_reads_its_file;

/// A law: who unpacks a small file by itself saw one file of the container: that of a cut between its first call and its listing of
/// truncates. It is told the content of the unit that counts among the units of that file, or that no unit has the name. Else it is told
/// the first place that breaks a rule there, or the store failed, or no container has that name. What is said of the file has one
/// premise: it has bytes, numbers below 256.
pub fn who_unpacks_sees_one_file()
    ensures { (name file : Name) (start : Moment) (told : Result (Option (List ℕ)) ScanStuck) (end : State) → IsSoundAt start → Unpacks name file start.state told end
        → Sees start told (λ pieces bytes from. IsContent pieces bytes file from end told) }
{
    an_opening_opens_a_reader();
    a_scan_tells_the_units_of_its_region();
    an_open_reader_reads_its_file();
}

/// A law: who names the small files by itself saw one file of the container, and is told the names of all units of that file, in
/// byte order, each once. Else it is told the first place that breaks a rule there, or the store failed, or no container has that
/// name. What is said of the file has the same premise.
pub fn who_names_sees_one_file()
    ensures { (name : Name) (start : Moment) (told : Result (List Name) ScanStuck) (end : State) → IsSoundAt start → Names name start.state told end
        → Sees start told (λ pieces bytes from. AreNames pieces bytes from end told) }
{
    an_opening_opens_a_reader();
    a_scan_tells_the_units_of_its_region();
}

/// A law: a unit's first byte is never 0. So among the changes that made a file some write shows it, and that write's key is the
/// unit's.
pub fn a_unit_has_the_key_of_its_write()
    ensures { (changes : List Change) (pieces : List Piece) (file : List ℕ) (region : ℕ) (r : Region) (u : Found)
        → ShowsNewest changes file → ArePiecesOf changes pieces → TellsUnits pieces region file r → Contains r.units u → HasKeyOfWrite changes u }
{}

/// A law: the units that a scan tells end in their region.
pub fn the_units_of_a_region_end_in_it()
    ensures from { (pieces : List Piece) (region : ℕ) (file : List ℕ) (r : Region) → TellsUnits pieces region file r → region_start region ≤ r.end }
    ensures until { (pieces : List Piece) (region : ℕ) (file : List ℕ) (r : Region) → TellsUnits pieces region file r → r.end ≤ region_stop region }
{}
