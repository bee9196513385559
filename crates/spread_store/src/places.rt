//! Where the rooms lie.
use plfs_types::{Name, Sequence};

/// A room's place: the store that has it, and its number there.
#[derive(Clone, Copy)]
pub struct Place {
    pub store: usize,
    pub room: u64,
}

/// The places of the rooms. A room's number is the place of its place in the list.
pub type PlaceList = Sequence<Place>;

/// A room that was to be made in this store, and may be there.
#[derive(Clone, Copy)]
pub struct Doubt {
    pub store: usize,
    pub name: Name,
}
