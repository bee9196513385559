//! Tests of frames on streams: worked rows, and what is no frame.
#![tactic(auto)]

#[cfg(test)]
mod frames;
