//! Several stores are opened as one.
ghost use Rattle.std.specs.Prelude.{◌≡◌, ◌≤◌, length, map, true, IfOk, IfErr, Err};
ghost use Rattle.spread_store.specs.Joined.{held_by, all_tell};
ghost use Rattle.spread_store.specs.Numbered.{NumbersOne, NumbersStore, least_of};
ghost use Rattle.spread_store.specs.Opening.{Numbers, Opens, RoomsDifferInEach};

use crate::asking::StoreList;
use crate::finding::find;
use crate::listing::names_in;
use crate::places::PlaceList;
use crate::sites::Sites;
use crate::spread::Spread;
use plfs_types::Name;
use std::alloc::Global;
use std::fmt;
use store_api::{Store, Trouble};

/// Why several stores can't be opened as one.
#[derive(Clone, Copy)]
pub enum SpreadTrouble {
    /// Two stores have a room of this name, the least such.
    Doubled { name: Name },
    /// A store failed.
    Fault,
    /// Memory was refused.
    NoMemory,
}

impl fmt::Display for SpreadTrouble {
    ghost use Rattle.std.specs.Prelude.{Some};
    ghost use Rattle.spread_store.specs.Messages.{trouble_text};

    ghost output = { λ trouble. Some (trouble_text trouble) };

    fn fmt<W: fmt::Write>(&self, f: &mut fmt::Formatter<W>) -> fmt::Result {
        f.write_str(match self {
            SpreadTrouble::Doubled { .. } => "two stores have a room of one name",
            SpreadTrouble::Fault => "a store failed",
            SpreadTrouble::NoMemory => "memory was refused",
        })
    }
}

// The lesser of a name and one that was kept.
fn least(kept: Option<Name>, name: Name) -> Option<Name>
    ensures { result ≡ least_of kept name }
{
    match kept {
        None => Some(name),
        Some(other) => {
            if name < other {
                Some(name)
            } else {
                Some(other)
            }
        }
    }
}

// Gives the room of this name in this store its number, where no store before has one of the name.
fn number_one<S: Store>(
    stores: &mut StoreList<S>,
    store: usize,
    name: &Name,
    places: &mut PlaceList,
    doubled: Option<Name>,
) -> Result<Option<Name>, Trouble>
    ensures { NumbersOne store name.now (map S.stored stores.old) (map S.stored stores.new) places.old places.new doubled result }
{
    match find(stores, name) {
        Ok(None) => Ok(doubled),
        Ok(Some(place)) => {
            if place.store != store {
                return Ok(least(doubled, *name));
            }
            match places.push(place) {
                Ok(()) => Ok(doubled),
                Err(_) => Err(Trouble::NoMemory),
            }
        }
        Err(Trouble::Fault) => Err(Trouble::Fault),
        Err(Trouble::NoMemory) => Err(Trouble::NoMemory),
    }
}

// Gives the rooms of these names in this store their numbers.
fn number_store<S: Store>(
    stores: &mut StoreList<S>,
    store: usize,
    names: &[Name],
    places: &mut PlaceList,
    doubled: Option<Name>,
) -> Result<Option<Name>, Trouble>
    ensures { NumbersStore store names.now (map S.stored stores.old) (map S.stored stores.new) places.old places.new doubled result }
{
    let mut doubled = doubled;
    for name in names {
        doubled = match number_one(stores, store, name, places, doubled) {
            Ok(doubled) => doubled,
            Err(Trouble::Fault) => return Err(Trouble::Fault),
            Err(Trouble::NoMemory) => return Err(Trouble::NoMemory),
        };
    }
    Ok(doubled)
}

// The places of the rooms: the stores in order, and in each the names in byte order.
fn number_rooms<S: Store>(
    alloc: Global,
    stores: &mut StoreList<S>,
) -> Result<PlaceList, SpreadTrouble>
    ensures { Numbers (map S.stored stores.old) (map S.stored stores.new) result }
{
    let mut places = PlaceList::new(alloc);
    let mut doubled = None;
    for store in 0..stores.as_slice().len() {
        let names = match names_in(alloc, stores, store) {
            Ok(names) => names,
            Err(Trouble::Fault) => return Err(SpreadTrouble::Fault),
            Err(Trouble::NoMemory) => return Err(SpreadTrouble::NoMemory),
        };
        doubled = match number_store(stores, store, names.as_slice(), &mut places, doubled) {
            Ok(doubled) => doubled,
            Err(Trouble::Fault) => return Err(SpreadTrouble::Fault),
            Err(Trouble::NoMemory) => return Err(SpreadTrouble::NoMemory),
        };
    }
    match doubled {
        None => Ok(places),
        Some(name) => Err(SpreadTrouble::Doubled { name }),
    }
}

impl<S: Store + Drop> Spread<S> {
    /// One store of 1 to 8 stores, in each of which, where it tells, no two rooms have one name.
    ///
    /// `Doubled` comes where two stores have a room of one name, and tells the least such. `Fault` comes only where a
    /// store's count of faults rose.
    pub fn open(
        alloc: Global,
        stores: StoreList<S>,
    ) -> Result<Spread<S>, (StoreList<S>, SpreadTrouble)>
        requires some { 1 ≤ length stores }
        requires few { length stores ≤ 8 }
        requires apart { all_tell (held_by (map S.stored stores)) ≡ true → RoomsDifferInEach (held_by (map S.stored stores)) }
        ensures ok { IfOk result (λ spread. Opens (map S.stored stores) spread) }
        ensures err { IfErr result (λ e. Numbers (map S.stored stores) (map S.stored e.0) (Err e.1)) }
    {
        let mut stores = stores;
        match number_rooms(alloc, &mut stores) {
            Ok(places) => Ok(Spread {
                alloc,
                sites: Sites {
                    stores,
                    places,
                    doubt: None,
                },
                acts: 0,
                last: 0,
            }),
            Err(trouble) => Err((stores, trouble)),
        }
    }
}
