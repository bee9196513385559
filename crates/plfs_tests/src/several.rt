//! Three stores in memory as one.
ghost use Rattle.std.specs.Prelude.{◌≡◌, All, IfOk, length};
ghost use Rattle.plfs_tests.specs.Fresh.{IsFresh};

use crate::stages::Under;
use plfs_types::NoMemory;
use spread_store::{Backing, Spread, StoreList};
use std::alloc::Global;
use store_memory::{FailList, MemoryStore};

// Three stores without a room.
fn fresh(alloc: Global) -> Result<StoreList<MemoryStore>, NoMemory>
    ensures three { IfOk result (λ stores. length stores ≡ 3) }
    ensures fresh { IfOk result (λ stores. All IsFresh stores) }
{
    let first = MemoryStore::new(alloc, FailList::new(alloc))?;
    let second = MemoryStore::new(alloc, FailList::new(alloc))?;
    let third = MemoryStore::new(alloc, FailList::new(alloc))?;
    let mut stores = StoreList::new(alloc);
    stores.push(first)?;
    stores.push(second)?;
    stores.push(third)?;
    Ok(stores)
}

fn three(alloc: Global) -> Result<Spread<MemoryStore>, NoMemory> {
    let stores = fresh(alloc)?;
    match Spread::open(alloc, stores) {
        Ok(spread) => Ok(spread),
        Err(_) => Err(NoMemory),
    }
}

/// Three stores in memory as one.
pub(crate) fn as_one(alloc: Global) -> Result<Under, NoMemory> {
    let spread = three(alloc)?;
    Ok(Backing::Several(spread))
}
