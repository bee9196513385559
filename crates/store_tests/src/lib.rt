//! Tests of the stores: the store in memory with its planned faults, what its steps keep and a loss of power
//! leaves, the store over a folder of the system, and several stores as one. They stand apart, so that no crate is
//! proved twice for them.
//!
//! A test is a table of rows. Each says what is done to a store and what it tells of that, as text. One function plays
//! a table on a store of any kind, and compares.
#![tactic(auto)]

#[cfg(test)]
mod acts;
#[cfg(test)]
mod ahead;
#[cfg(test)]
mod causes;
#[cfg(test)]
mod earlier;
#[cfg(test)]
mod failing;
#[cfg(test)]
mod folder;
#[cfg(test)]
mod limits;
#[cfg(test)]
mod links;
#[cfg(test)]
mod losing;
#[cfg(test)]
mod memory;
#[cfg(test)]
mod on_folder;
#[cfg(test)]
mod opening;
#[cfg(test)]
mod playing;
#[cfg(test)]
mod several;
#[cfg(test)]
mod syncs;
#[cfg(test)]
mod telling;
