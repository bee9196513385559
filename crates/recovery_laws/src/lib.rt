//! What a recovery, a truncate, a rename and a look may do, and what a recovery counts.
//!
//! Each of their calls is allowed, whatever others do meanwhile. What a truncate owes for its stamp is met by what it listed: while its caller
//! holds the container no writer of it lives and nobody else truncates it, so that no stamp in it is above those of the metadata and of the
//! truncates.
//!
//! Of the entries that an index dropping's bytes tell, a recovery counts those whose bytes the log has: their number, the greatest end, the bytes
//! and the last stamp, as a metadata dropping tells them. A writer that was found not to be live never is again, so that its droppings stay as they
//! were measured, but for an index dropping that another recovery cuts to the very entries that count. There is no code in it: it stands on the
//! programs of `torn_tail`, `trunc_rename` and `attr_flow`, on the form of entries, and on soundness.
#![tactic(auto)]

mod holding_laws;
mod laws;

pub use holding_laws::{
    a_rename_is_always_allowed, a_truncate_is_always_allowed, telling_of_a_file_is_always_allowed,
};
pub use laws::{a_recovery_counts_what_the_log_has, a_recovery_is_always_allowed};
