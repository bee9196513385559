//! What a drain reads, over a store in memory: a container from behind what is known of it, and what a target has.
#![tactic(auto)]

#[cfg(test)]
mod drains;
#[cfg(test)]
mod reading;
#[cfg(test)]
mod stores;
