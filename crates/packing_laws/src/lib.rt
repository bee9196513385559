//! What stays of small files that were packed, and what a container of small files alone shows, in any lawful history of the mount
//! from a sound state; what a caller by itself is told of small files; and that a fault is the store's.
//!
//! The crate owns the laws that join the calls of `lone_flow` to what readers see, to what a scan tells and to what an opening comes to. There is
//! no code in it.
#![tactic(auto)]

mod isolation;
mod laws;
mod packed;
mod told;
mod troubles;
mod units;

pub use isolation::{other_units_change_no_answer, other_units_change_no_run};
pub use laws::{
    a_unit_has_the_key_of_its_write, the_units_of_a_region_end_in_it, who_names_sees_one_file,
    who_unpacks_sees_one_file,
};
pub use packed::{
    kept_writes_stay, later_readers_hold_kept_writes, later_readers_hold_packed_files,
    packed_files_are_kept,
};
pub use told::{a_unit_is_answered_or_outranked, a_written_front_is_told, packed_units_are_told};
pub use troubles::a_fault_is_the_stores;
pub use units::{
    a_container_of_units_shows_no_damage, a_file_of_units_has_first_units,
    a_mounting_leaves_units_alone, a_scan_of_units_finds_none_bad,
};
