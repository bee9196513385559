//! Tests of what all crates stand on: the shared values, the edge to the world and the turn. They stand apart, so that
//! no crate is proved twice for them.
#![tactic(auto)]

#[cfg(test)]
mod counter;
#[cfg(test)]
mod edges;
#[cfg(test)]
mod kept;
#[cfg(test)]
mod turns;
#[cfg(test)]
mod values;
