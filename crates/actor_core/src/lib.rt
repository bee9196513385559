//! An actor of a script: its statements become calls of the mount, and the replies become their lines.
//!
//! The crate owns what each statement does: which machines make its calls, when it is refused, within which call an armed
//! stop ends it, and with which outcome. An actor keeps at most one writer and one reader between its statements. It stands
//! on the machines of each statement and on `outcomes`, which says what its line tells of their results, and needs no
//! mount: who drives an actor makes its calls wherever it likes.
#![tactic(auto)]

mod actor;
mod doing;
mod handing;
mod kept;
mod laws;
mod machines;
mod names;
mod opening;
mod purpose;
mod starting;
mod stepping;
mod stopping;
mod taking;
mod telling;

pub use actor::Actor;
pub use kept::{Kept, Stop};
pub use laws::{
    listed_names_are_logical, statements_owe_nothing,
    truncates_flattenings_and_recoveries_ask_along,
};
pub use names::NamesRead;
