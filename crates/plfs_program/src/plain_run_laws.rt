//! The law of commands beside a plain machine that play no script.
ghost use Rattle.std.specs.Prelude.{◌≢◌, ℕ, List};
ghost use Rattle.edge_io.specs.Source.{Given};
ghost use Rattle.plfs_program.specs.Complete.{HadNoTrouble};
ghost use Rattle.plfs_program.specs.Migrating.{MigrateCourse};
ghost use Rattle.plfs_program.specs.PlainMigrate.{IsMigratedPlainly};
ghost use Rattle.plfs_program.specs.PlainSmall.{AreNamedPlainly, IsUnpackedPlainly};
ghost use Rattle.plfs_program.specs.SmallFiles.{NamesCourse, UnpackCourse};
ghost use Rattle.program_ends.specs.Ends.{Ends};

use pack_laws::a_scan_tells_the_units_of_its_region;
use plain_plays::migrations_change_no_file;
use reader_laws::an_open_reader_reads_its_file;

/// A law of commands that read small files or migrate, where no count of the source, the sink or the store has risen and memory sufficed. A small file that was
/// read is told of as each plain machine has it that begins over the store, and so are all names. A migration leaves each such machine its files. Over a told
/// sound tree there is such a machine, unless no mark is left.
pub fn small_files_are_the_machines()
    ensures unpacks { (name file : List ℕ) (given after : Given) (e : Ends) (status : ℕ) → HadNoTrouble given after e → status ≢ 3 → UnpackCourse name file e status → IsUnpackedPlainly name file e status }
    ensures names { (name : List ℕ) (given after : Given) (e : Ends) (status : ℕ) → HadNoTrouble given after e → status ≢ 3 → NamesCourse name e status → AreNamedPlainly name e status }
    ensures migrates { (name : List ℕ) (given after : Given) (e : Ends) (status : ℕ) → HadNoTrouble given after e → status ≢ 3 → MigrateCourse name e status → IsMigratedPlainly name e status }
{
    a_scan_tells_the_units_of_its_region();
    an_open_reader_reads_its_file();
    migrations_change_no_file();
}
