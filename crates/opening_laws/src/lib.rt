//! What the opening of a reader comes to as one program, in any lawful history of the mount from a sound state, whatever others
//! call in between.
//!
//! The crate owns the law that joins the program of `opening_flow` to what `reader_laws` says of a reader that is opened. There
//! is no code in it.
#![tactic(auto)]

mod laws;

pub use laws::an_opening_opens_a_reader;
