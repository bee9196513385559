//! The names of what a container holds: each item has one path, and a path that is an item's is read as that item.
//! It owns the table of items with their folders, file names and ranges, and stands on the shared names alone.
#![tactic(auto)]

mod folders;
mod items;
mod laws;
mod numbers;
mod printing;
mod reading;
mod text;

pub use folders::{flats, hostdir, metadata, openhosts, truncs};
pub use items::Item;
pub use laws::{one_path, short_names};
pub use numbers::{print_number, read_number};
pub use printing::print;
pub use reading::read;
