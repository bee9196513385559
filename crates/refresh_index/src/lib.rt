//! The refresh of an open reader: it is brought to what a new opening would see, and tails alone are read.
//!
//! The crate owns how a reader goes on: the droppings of its container are listed, of each one the entries past those that the
//! reader has are read, and then the truncates are listed. The pieces of what came are merged into those that were held, and
//! all truncates clip them; where nothing came, the held pieces stay, uncopied. It stands on the machines of `index_reader`
//! and on `gather_flow`.
#![tactic(auto)]

mod copying;
mod giving;
mod held;
mod hosts;
mod joined;
mod parts;
mod refreshing;
mod underway;

pub use refreshing::{Refresh, RefreshOut};
