//! Index entries as 40 bytes: what an index dropping is made of, and the pieces of a flattened index too.
//! It owns the one spelling of an entry and the rules of a valid one, and stands on the shared values alone.
#![tactic(auto)]

mod messages;
mod numbers;
mod reading;
mod writing;

pub use numbers::{number_at, push_number};
pub use reading::{BadEntry, decode};
pub use writing::encode;
