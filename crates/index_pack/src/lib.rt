//! Packed indices: all entries of one writer as runs that rise by one stride and one step, so that the index of a
//! strided writer shrinks to a few runs.
//!
//! The crate owns what a run is, which runs are as long as they can be, the one spelling of a packed index, and the
//! place at which other bytes break its rules. It stands on `index_entry`, which owns what a valid entry is and the
//! rules of a writer's entries, and on `plfs_types`.
#![tactic(auto)]

mod laws;
mod packing;
mod runs;
mod trouble;
mod unpacking;

pub use laws::{entries_have_a_packing, packings_are_one, packs_one_list};
pub use packing::pack;
pub use runs::Run;
pub use trouble::{HEAD_SIZE, PackTrouble, RUN_SIZE};
pub use unpacking::unpack;
