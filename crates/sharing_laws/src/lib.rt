//! Who opens a reader by workers has what one alone has: each listed dropping is dealt to one worker, and the shares that are read
//! make one reader.
//!
//! The crate owns the law that each dropping is dealt once, and lemmas on shares that are read one after the other or by workers.
//! `opening_laws` and `headline_laws` cite them. There is no code in it.
#![tactic(auto)]

mod laws;

pub use laws::each_dropping_is_dealt_once;
