//! Tests of drains by one thread of a mount while another one writes and syncs there. They stand apart, so that neither the mount nor
//! the machine of a drain is proved twice for them.
#![tactic(auto)]

#[cfg(test)]
mod asking;
#[cfg(test)]
mod beside;
#[cfg(test)]
mod trees;
