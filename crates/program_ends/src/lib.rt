//! How a program over a store ends: what its mounting says, what it prints, with which status, and what it leaves.
//!
//! The crate owns the status of lines, the line 0 of a mounting that broke off, and text that is written whole or cut off. The programs of all
//! commands stand on it.
#![tactic(auto)]

mod ended;
mod laws;
mod lines;
mod mounting;
mod output;
mod texts;
mod words;

pub use ended::{Ended, USAGE, ends, say};
pub use laws::{marks_are_why, marks_decide};
pub use lines::{report_lines, say_line, status_of};
pub use mounting::{mounting_line, say_unmounted};
pub use output::{Broken, write_out};
pub use texts::{push_number, say_text};
pub use words::{greater, host_of, is_over};
