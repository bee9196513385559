//! Small files: inputs that are read, and files that machines scan, find and put in a told container.
#![tactic(auto)]

#[cfg(test)]
mod inputs;
#[cfg(test)]
mod runs;
#[cfg(test)]
mod world;
