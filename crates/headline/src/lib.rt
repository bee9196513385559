//! What the printed lines of a run say, in the words of who uses it: of script, trees, lines and the clock's times alone.
//!
//! It owns the page `Headline`, one field a promise. There is no code in it, and no history, mount or machine.
//! It stands on the types of scripts and lines, on what a plain file is, and on where a container keeps its items.
#![tactic(auto)]
