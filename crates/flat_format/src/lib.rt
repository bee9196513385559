//! Flattened indices: how many entries of each writer they cover, and the merged pieces of these entries, as bytes.
//!
//! The crate owns the one spelling of a flattened index, its rules, and the place at which other bytes break them. It
//! stands on `index_entry`, in whose form the pieces lie, on `plain_file`, which owns what pieces are, and on
//! `plfs_types`.
#![tactic(auto)]

mod flat;
mod reading;
mod rules;
mod writing;

pub use flat::{COVER_SIZE, Flat, FlatTrouble, HEAD_SIZE};
pub use reading::decode;
pub use writing::encode;
