//! What is told of a file without reading its index: its size, the bytes that are stored, whose they are, and its
//! truncates.
//!
//! The crate owns the machine that tells this from the names that closed writers left, where nobody has the file open,
//! and the same of a gathered index. It stands on `mount_model`, on `interval_merge`, which owns the size, and on
//! `flat_format` for what was gathered.
#![tactic(auto)]

mod attr;
mod attr_flow;
mod listings;
mod sizes;

pub use attr::{Attr, attr_of};
pub use attr_flow::{AttrFlow, AttrOut};
