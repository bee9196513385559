//! The opening of a reader as one machine: a container is listed, its shares are read one after the other, its truncates are
//! listed, and what was gathered becomes an open reader.
//!
//! The crate owns how the machines of an opening follow each other, for whoever opens a reader between other calls of its
//! own. It stands on the listing of `index_reader` and on the gathering of `gather_flow`, and needs no mount.
#![tactic(auto)]

mod giving;
mod opening;
mod parts;
mod underway;

pub use opening::Opening;
