//! The end of a run: its store and its status.
ghost use Rattle.std.specs.Prelude.{◌≡◌, ◌⊎◌, Some};
ghost use Rattle.program_ends.specs.Output.{IsPrinted, IsCutOff};

use crate::output::write_out;
use edge_io::Sink;

/// The usage line, which words outside the grammar print, with its line feed.
pub const USAGE: &[u8] =
    b"usage: plfs ROOT run|play|gen N|cat NAME|stat NAME|map NAME|flatten NAME|trunc NAME SIZE|rename OLD NEW|recover NAME|ls|migrate NAME|pack NAME REGION|unpack NAME FILE|names NAME\n";

/// What a run leaves: the store, and the status with which the program ends.
#[derive(Drop)]
pub struct Ended<S> {
    /// The store as the run left it.
    pub store: Option<S>,
    /// 0: each statement was made. 1: one was refused. 2: the words or the script are none that are played.
    /// 3: memory was refused. 4: the store failed. 5: the source failed. 6: the sink failed, or took nothing.
    /// 7: an item is damaged.
    pub status: u8,
}

/// The end of a run with this status.
pub fn ends<S>(store: S, status: u8) -> Ended<S>
    ensures store { result.store ≡ Some store }
    ensures status { result.status ≡ status }
{
    Ended {
        store: Some(store),
        status,
    }
}

/// Prints one line.
pub fn say<O: Sink>(out: &mut O, line: &[u8])
    ensures { IsPrinted line.now (O.taking out.old) (O.taking out.new) ⊎ IsCutOff line.now (O.taking out.old) (O.taking out.new) }
{
    let _ = write_out(out, line);
}
