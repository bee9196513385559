//! What a refresh makes of an open reader, in any lawful history of the mount from a sound state, whatever others call in
//! between.
//!
//! The crate owns the law that joins the programs of a refresh to what `reader_laws` says of a reader that is opened. There is
//! no code in it.
#![tactic(auto)]

mod laws;

pub use laws::{
    a_reader_refreshes, a_refresh_fails_by_store, a_refresh_is_an_opening, a_refresh_reads_tails,
    a_refreshed_reader_is_an_opened_one,
};
