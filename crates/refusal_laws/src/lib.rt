//! Why calls of a sound mount are refused, and that each other call does its work.
//!
//! It owns the reasons of refusals, in words of the table and the tree. There is no code in it.
#![tactic(auto)]

mod laws;

pub use laws::{calls_do_their_work, refusals_have_reasons};
