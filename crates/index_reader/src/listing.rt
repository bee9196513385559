//! What the listing of a container shows.
use flat_format::Flat;
use plfs_types::Sequence;

/// The index dropping of a writer.
#[derive(Clone, Copy)]
pub struct Dropping {
    /// The writer's host.
    pub host: u32,
    /// The writer's id.
    pub writer: u64,
    /// Whether it has a packed index, which is read in its place.
    pub packed: bool,
}

/// A list of index droppings.
pub type DroppingList = Sequence<Dropping>;

/// A container as it was listed.
#[derive(Drop)]
pub struct Listing {
    /// The container's room.
    pub room: u64,
    /// The index droppings, by ascending writer.
    pub droppings: DroppingList,
    /// The newest flattened index, or one of nothing where there is none.
    pub flat: Flat,
}
