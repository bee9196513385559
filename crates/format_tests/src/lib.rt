//! Tests of the formats: the names in a container, index entries, the buffer of a writer, flattened and packed indices.
//! Their texts and bytes stand here as they are on disk. They stand apart, so that no crate is proved twice for them.
#![tactic(auto)]

#[cfg(test)]
mod buffers;
#[cfg(test)]
mod entries;
#[cfg(test)]
mod flat;
#[cfg(test)]
mod items;
#[cfg(test)]
mod packed;
