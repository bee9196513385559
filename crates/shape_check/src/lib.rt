//! Whether the rooms of a store have the shape of those of a sound tree, by asking the store.
//!
//! It owns what a check finds, the looks at a store that is not changed, and the shape of rooms: which folders, files and
//! ids a room of marks or a container may have. It stands on the store alone, and not on the mount.
#![tactic(auto)]

mod files;
mod finding;
mod folders;
mod looks;
mod marks;
mod shape;

pub use files::Place;
pub use finding::{Complaint, Finding};
pub use looks::{find_room, length, read, rooms};
pub use marks::check_marks;
pub use shape::{PathList, check_shape};
