//! The contract of a place where files are kept.
ghost use Rattle.std.specs.Prelude.{◌≡◌, List, Option};
ghost use Rattle.export_program.specs.Shelf.{Deed, Keeps, Makes};

use edge_io::Sink;
use plfs_types::{LogicalName, NoMemory};

/// Why a file isn't made.
#[derive(Clone, Copy)]
pub enum Unmade {
    /// One of this name is there, and may not be written over.
    Exists,
    /// It can't be made, though memory was had.
    Failed,
    /// Memory was refused.
    NoMemory,
}

/// A place where files are kept under names. Nothing that is there is touched before a file is kept.
pub trait Shelf<F: Sink> {
    /// What was done with files, the last deed first, where it tells that.
    ghost deeds: { Self → Option (List Deed) };

    /// Makes a file without bytes, which is to have this name.
    fn make(&mut self, name: LogicalName) -> Result<F, Unmade>
        ensures { Makes (F.taking) name (deeds self.old) (deeds self.new) result };

    /// Keeps the file under this name, and answers whether it could. After `NoMemory` it is not kept.
    fn keep(&mut self, name: LogicalName, file: F) -> Result<bool, NoMemory>
        ensures { Keeps name (F.taking file) (deeds self.old) (deeds self.new) result };

    /// Lets a file go that is not to be kept.
    fn discard(&mut self, file: F)
        ensures { deeds self.new ≡ deeds self.old };
}
