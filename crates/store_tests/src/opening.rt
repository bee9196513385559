//! Several stores in memory are opened as one.
ghost use Rattle.std.specs.Prelude.{◌≡◌, map, true};
ghost use Rattle.store_api.specs.Effect.{number_of};
ghost use Rattle.store_laws.specs.Differ.{RoomsDiffer};
ghost use Rattle.store_memory.specs.MemoryStore.{stored_in};
ghost use Rattle.spread_store.specs.Joined.{held_by};
ghost use Rattle.spread_store.specs.Opening.{RoomsDifferInEach};

use plfs_types::Name;
use spread_store::{Spread, SpreadTrouble, StoreList};
use std::alloc::Global;
use std::process::Abort;
use store_memory::{MemoryStore, Tree};

// The number of the first room of this name.
fn number_of(tree: &Tree, name: &Name) -> Option<usize>
    ensures { result ≡ number_of tree.now name.now }
{
    tree.rooms
        .as_slice()
        .iter()
        .position(|room| room.name == *name)
}

// Whether no two rooms have one name.
fn rooms_differ(tree: &Tree) -> bool
    ensures { result ≡ true → RoomsDiffer tree.now }
{
    for number in 0..tree.rooms.as_slice().len() {
        let name = tree.rooms.as_slice()[number].name;
        let Some(first) = number_of(tree, &name) else {
            return false;
        };
        if first != number {
            return false;
        }
    }
    true
}

// Whether in each store no two rooms have one name.
fn rooms_differ_in_each(stores: &StoreList<MemoryStore>) -> bool
    ensures { result ≡ true → RoomsDifferInEach (held_by (map stored_in stores.now)) }
{
    for number in 0..stores.as_slice().len() {
        if !rooms_differ(stores.as_slice()[number].tree()) {
            return false;
        }
    }
    true
}

/// Opens 1 to 8 stores as one. It aborts where there are fewer or more, or a store has two rooms of one name.
pub(crate) fn open(
    rt: &impl Abort,
    alloc: Global,
    stores: StoreList<MemoryStore>,
) -> Result<Spread<MemoryStore>, (StoreList<MemoryStore>, SpreadTrouble)> {
    let count = stores.as_slice().len();
    assert!(rt; count >= 1);
    assert!(rt; count <= 8);
    assert!(rt; rooms_differ_in_each(&stores));
    Spread::open(alloc, stores)
}
