//! What `plfs_copy` puts into a store: a source into a file, or several sources, each into a file of its own.
//!
//! The crate owns the lines that tell what was put, and the status. It stands on `copy_core`, which copies.
//!
//! It owns the laws of what a copied source leaves, and what later readers see of it, in any lawful history of the mount from a sound
//! state. They join the calls of `copy_core` to what readers see, and to their troubles.
#![tactic(auto)]

mod copied;
mod import_run;
mod importing;
mod put_run;
mod putting;
mod troubles;

pub use copied::{
    a_copied_source_is_kept, a_copying_leaves_other_containers_still,
    a_reader_of_the_copy_alone_sees_the_source, later_readers_hold_a_copied_source,
    later_readers_see_a_copied_source, looks_leave_a_container_still,
};
pub use import_run::import;
pub use importing::Named;
pub use put_run::put;
pub use troubles::{a_copying_shows_no_damage, a_fault_of_a_copying_is_the_stores};
