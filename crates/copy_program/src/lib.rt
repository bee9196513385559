//! The commands of `plfs_copy` over any store: a source is put into a file, several sources are, each into a file of its own, or a file
//! is written out.
//!
//! The crate owns these words. It stands on `put_program`, which puts sources into files, and on `plfs_program`, whose `cat` writes a
//! file out.
#![tactic(auto)]

mod top;
mod words;

pub use put_program::{Named, import};
pub use top::{USAGE, copy};
pub use words::{CopyCommand, ImportCommand};
