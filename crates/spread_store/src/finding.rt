//! Which store has the room of a name.
ghost use Rattle.spread_store.specs.Searches.{AsksOne, AsksInOrder};
ghost use Rattle.std.specs.Prelude.{◌≡◌, map};
ghost use Rattle.spread_store.specs.Finding.{number_told, FindsIn, Finds};

use crate::asking::{StoreList, ask};
use crate::places::Place;
use plfs_types::Name;
use store_api::{Answer, Step, Store, Trouble};

// The number in an answer.
pub(crate) fn number_told(answer: Answer) -> Option<u64>
    ensures { result ≡ number_told answer }
{
    match answer {
        Answer::Number { value } => Some(value),
        Answer::Made
        | Answer::Old { .. }
        | Answer::Absent
        | Answer::NoRoom
        | Answer::NoFolder
        | Answer::NotEmpty { .. }
        | Answer::TargetThere
        | Answer::Names(_)
        | Answer::Bytes(_)
        | Answer::Beyond => None,
    }
}

/// The number of the room of this name in this store, where it has one.
pub(crate) fn find_in<S: Store>(
    stores: &mut StoreList<S>,
    store: usize,
    name: &Name,
) -> Result<Option<u64>, Trouble>
    ensures finds { FindsIn store name.now (map S.stored stores.old) (map S.stored stores.new) result }
    ensures asks { AsksOne store name.now (map S.stored stores.old) (map S.stored stores.new) result }
{
    match ask(stores, store, &Step::FindRoom { name: *name }) {
        Ok(answer) => Ok(number_told(answer)),
        Err(Trouble::Fault) => Err(Trouble::Fault),
        Err(Trouble::NoMemory) => Err(Trouble::NoMemory),
    }
}

/// The place of the room of this name. The stores are asked in order, until one has it.
pub(crate) fn find<S: Store>(
    stores: &mut StoreList<S>,
    name: &Name,
) -> Result<Option<Place>, Trouble>
    ensures finds { Finds name.now (map S.stored stores.old) (map S.stored stores.new) result }
    ensures asks { AsksInOrder name.now (map S.stored stores.old) (map S.stored stores.new) result }
{
    for store in 0..stores.as_slice().len() {
        match find_in(stores, store, name) {
            Ok(None) => {}
            Ok(Some(room)) => return Ok(Some(Place { store, room })),
            Err(Trouble::Fault) => return Err(Trouble::Fault),
            Err(Trouble::NoMemory) => return Err(Trouble::NoMemory),
        }
    }
    Ok(None)
}
