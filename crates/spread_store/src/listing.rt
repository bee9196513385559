//! The names of the rooms.
ghost use Rattle.spread_store.specs.Carrying.{CarriesSurely};
ghost use Rattle.std.specs.Prelude.{◌≡◌, ◌++◌, map, None, OnOk};
ghost use Rattle.store_api.specs.Step.{rooms};
ghost use Rattle.spread_store.specs.Joined.{spreading};
ghost use Rattle.spread_store.specs.Fits.{IsFit};
ghost use Rattle.spread_store.specs.Listing.{AsksRooms, AsksAllRooms, Gathers, GathersIn, names_told};
ghost use Rattle.spread_store.specs.Performs.{Performs};

use crate::asking::{StoreList, ask};
use crate::sites::Sites;
use plfs_types::{Name, NameList, NoMemory};
use std::alloc::Global;
use store_api::{Answer, Step, Store, Trouble, in_byte_order};

// The names in an answer.
fn names_told(alloc: Global, answer: Answer) -> NameList
    ensures { result ≡ names_told answer }
{
    match answer {
        Answer::Names(names) => names,
        Answer::Made
        | Answer::Old { .. }
        | Answer::Absent
        | Answer::NoRoom
        | Answer::NoFolder
        | Answer::NotEmpty { .. }
        | Answer::TargetThere
        | Answer::Number { .. }
        | Answer::Bytes(_)
        | Answer::Beyond => NameList::new(alloc),
    }
}

// Adds all names.
fn add_all(names: &mut NameList, more: &[Name]) -> Result<(), NoMemory>
    ensures { OnOk result (names.new ≡ names.old ++ more.now) }
{
    for name in more {
        names.push(*name)?;
    }
    Ok(())
}

// The names of this store's rooms.
pub(crate) fn names_in<S: Store>(
    alloc: Global,
    stores: &mut StoreList<S>,
    store: usize,
) -> Result<NameList, Trouble>
    ensures gathers { GathersIn store (map S.stored stores.old) (map S.stored stores.new) result }
    ensures asks { AsksRooms store (map S.stored stores.old) (map S.stored stores.new) result }
{
    match ask(stores, store, &Step::Rooms) {
        Ok(answer) => Ok(names_told(alloc, answer)),
        Err(Trouble::Fault) => Err(Trouble::Fault),
        Err(Trouble::NoMemory) => Err(Trouble::NoMemory),
    }
}

// The names of all stores' rooms.
fn all_names<S: Store>(alloc: Global, stores: &mut StoreList<S>) -> Result<NameList, Trouble>
    ensures gathers { Gathers (map S.stored stores.old) (map S.stored stores.new) result }
    ensures asks { AsksAllRooms (map S.stored stores.old) (map S.stored stores.new) result }
{
    let mut names = NameList::new(alloc);
    for store in 0..stores.as_slice().len() {
        match names_in(alloc, stores, store) {
            Ok(more) => {
                let Ok(()) = add_all(&mut names, more.as_slice()) else {
                    return Err(Trouble::NoMemory);
                };
            }
            Err(Trouble::Fault) => return Err(Trouble::Fault),
            Err(Trouble::NoMemory) => return Err(Trouble::NoMemory),
        }
    }
    Ok(names)
}

/// Names all rooms.
pub(crate) fn list_rooms<S: Store + Drop>(
    alloc: Global,
    sites: &mut Sites<S>,
) -> Result<Answer, Trouble>
    requires fit { IsFit (spreading (map S.stored sites.old.stores) sites.old.places sites.old.doubt) }
    requires sure { sites.old.doubt ≡ None }
    ensures performs { Performs rooms (spreading (map S.stored sites.old.stores) sites.old.places sites.old.doubt) (spreading (map S.stored sites.new.stores) sites.new.places sites.new.doubt) result }
    ensures carries { CarriesSurely rooms (spreading (map S.stored sites.old.stores) sites.old.places sites.old.doubt) (spreading (map S.stored sites.new.stores) sites.new.places sites.new.doubt) result }
{
    match all_names(alloc, &mut sites.stores) {
        Ok(names) => match in_byte_order(alloc, names.as_slice()) {
            Ok(ordered) => Ok(Answer::Names(ordered)),
            Err(_) => Err(Trouble::NoMemory),
        },
        Err(Trouble::Fault) => Err(Trouble::Fault),
        Err(Trouble::NoMemory) => Err(Trouble::NoMemory),
    }
}
