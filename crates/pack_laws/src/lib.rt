//! What a scan of a region makes of a container, in any lawful history of the mount from a sound state, whatever others
//! call in between.
//!
//! The crate owns the laws that join the machines of `pack_files` to the file that a reader sees. There is no code in it.
#![tactic(auto)]

mod laws;

pub use laws::{a_scan_tells_the_units_of_its_region, the_units_of_a_region_stand_apart};
