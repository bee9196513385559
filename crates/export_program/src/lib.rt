//! All files of a store, each written out into a file of its own, over any store and any place where files are kept.
//!
//! The crate owns the words of `export`, the line of each file, and the status. It stands on the machines of `opening_flow` and
//! `index_reader`, which `lone_flow` drives, on the laws of readers, and on `program_ends`.
#![tactic(auto)]

mod export_run;
mod exporting;
mod filling;
mod laws;
mod naming;
mod passing;
mod piece;
mod shelf;
mod telling;
mod words;

pub use export_run::export;
pub use laws::who_writes_a_file_out_sees_it;
pub use shelf::{Shelf, Unmade};
pub use words::ExportCommand;
