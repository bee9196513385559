//! What a flattening may do: each of its calls is allowed from every fine state, whatever others do meanwhile.
//!
//! What it gathered are the first entries of writers, which have landed and stay their first. Each dropping that the second
//! listing has of them is synced before the index is put, so that no loss of power takes what that tells of, and the
//! temporary file is empty until then. There is no code in it: it stands on the programs of `flatten_core`, on what who
//! gathers sees, and on soundness.
#![tactic(auto)]

mod laws;

pub use laws::a_flattening_is_always_allowed;
