//! A plain machine, which takes each statement of a script in one step.
#![tactic(auto)]

mod laws;

pub use laws::{examples, more_examples};
