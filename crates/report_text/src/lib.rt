//! Lines as text: what became of each statement, printed a line each, and read back exactly.
//! It owns the table of texts: `print` writes by it and `read` accepts nothing else. It stands on the types of lines
//! and on the crates that spell numbers and bytes as digits.
#![tactic(auto)]

mod fields;
mod items;
mod laws;
mod outcomes;
mod printing;
mod reading;
mod reading_items;
mod reading_names;
mod reading_outcomes;
mod tail;
mod trouble;
mod words;

pub use laws::{lines_break_nowhere, one_break};
pub use outcomes::escape;
pub use printing::print;
pub use reading::read;
pub use trouble::ReportTrouble;
