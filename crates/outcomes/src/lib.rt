//! What a line says of a statement that came to its end.
//!
//! The crate owns how a result, a refusal or a trouble of a machine becomes the outcome on the statement's line, and the
//! bytes of data that a script writes or compares. It stands on the results of the machines and on the script's lines.
#![tactic(auto)]

mod comparing;
mod counts;
mod data;
mod lines;

pub use counts::{flatten_outcome, reader_outcome};
pub use data::{block, length};
pub use lines::{
    close_outcome, list_outcome, map_text, read_outcome, recover_outcome, rename_outcome,
    stat_outcome, stuck_outcome, sync_outcome, truncate_outcome, verify_outcome, why_of,
    write_outcome,
};
