//! Lines of text that tests compare. A line for which there was no memory is like no text and gives nothing back, so
//! that a driver needs no way out at each piece of text. It owns the text in the making, and stands on `itoa` for the
//! digits of numbers.
#![tactic(auto)]

mod line;

pub use line::Line;
