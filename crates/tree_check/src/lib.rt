//! Whether the tree of a store is sound, by asking the store.
//!
//! It owns the check that `tree_laws` has as a list: each thing of the list is asked for, room by room, and what isn't so is
//! told. It changes nothing, and holds at most the names and complaints of one container, the entries of one writer and what
//! one index has. It stands on the store alone, and not on the mount.
#![tactic(auto)]

mod alone;
mod checking;
mod droppings;
mod entries;
mod gathered;
mod halting;
mod indices;
mod owners;
mod truncates;
mod whole;
mod writers;

pub use checking::{check_room, check_tree};
pub use gathered::ComplaintList;
pub use halting::{Halt, room_names, room_number};
pub use shape_check::{Complaint, Finding};
