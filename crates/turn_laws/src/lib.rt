//! Written turns leave one history, where each call is answered in one way.
//!
//! It owns the law that two histories in the order of one script's written turns are one history with one list of lines,
//! where they go alike: as long as they are the same, the same question of the same caller is answered the same in both.
//! There is no code in it: it stands on the stories alone.
#![tactic(auto)]

mod laws;

pub use laws::turns_are_one;
