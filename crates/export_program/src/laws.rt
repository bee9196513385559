//! The law of a file that is written out.
ghost use Rattle.std.specs.Prelude.{ℕ, Ok};
ghost use Rattle.edge_io.specs.Sink.{Taking};
ghost use Rattle.mount_model.specs.Paths.{Name};
ghost use Rattle.mount_model.specs.State.{State};
ghost use Rattle.reader_laws.specs.Moments.{Moment, IsSoundAt};
ghost use Rattle.export_program.specs.Exporting.{WritesFile};
ghost use Rattle.export_program.specs.Seen.{IsSeenWhole};

use opening_laws::an_opening_opens_a_reader;
use reader_laws::an_open_reader_reads_its_file;

/// A law: who writes a file out by itself, and ends well, saw one file of the container: that of a cut between its first call and its
/// listing of truncates. All bytes of that file were written, and its size was told.
pub fn who_writes_a_file_out_sees_it()
    ensures { (name : Name) (start : Moment) (taking : Taking) (size : ℕ) (end : State) (taking_after : Taking) → IsSoundAt start → WritesFile name start.state taking (Ok size) end taking_after → IsSeenWhole name start taking size taking_after }
{
    an_opening_opens_a_reader();
    an_open_reader_reads_its_file();
}
