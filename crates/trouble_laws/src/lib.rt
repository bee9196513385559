//! How the statements' machines end in trouble, in any lawful history from a sound state.
//!
//! The crate owns the law that a machine on a writer, a truncate, a rename, a recovery, a flattening, a migration or a look at a file never ends with damage there, whatever others call
//! meanwhile and whatever fault the store answers. It stands on the laws of the mount's steps, of a reader's machines, of a flattening and of a migration, and there is no code in it.
#![tactic(auto)]

mod laws;

pub use laws::a_statement_shows_no_damage;
