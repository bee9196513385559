//! What a migration may do: each of its calls is allowed, whatever others do meanwhile. And what it shows at its end: that it left no writer out, and counts what it made.
//!
//! A writer with a metadata dropping never gets a further entry, and its index dropping stays byte for byte what it was,
//! so what was read of it is all of its entries when their packed index is put. There is no code in it: it stands on the
//! programs of `migrate_core`, on the form of a packed index, and on soundness.
#![tactic(auto)]

mod laws;

pub use laws::{a_migration_is_always_allowed, a_migration_leaves_no_writer_out};
