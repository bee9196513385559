//! The input that small files are packed from: a line for each file, with its name and its bytes in hexadecimal digits.
//!
//! The crate owns this grammar and the order of its faults, and says which files bytes are, or which fault they have first. It
//! stands on the shared values, and on `hex` for the digits.
#![tactic(auto)]

mod content;
mod files;
mod laws;
mod reading;
mod trouble;
mod words;

pub use content::Content;
pub use files::{FileList, NamedFile};
pub use laws::inputs_are_told_apart;
pub use reading::read;
pub use trouble::{InputTrouble, Kind};
