//! Tests of runs on threads, over a store in memory. They stand apart, so that the run is not proved twice for them.
#![tactic(auto)]

#[cfg(test)]
mod meeting;
#[cfg(test)]
mod orders;
#[cfg(test)]
mod runs;
#[cfg(test)]
mod stamps;
