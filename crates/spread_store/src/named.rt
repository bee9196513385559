//! The steps that name a room by its name.
ghost use Rattle.spread_store.specs.Carrying.{CarriesSurely};
ghost use Rattle.std.specs.Prelude.{◌≡◌, map, None};
ghost use Rattle.store_api.specs.Step.{find_room, rename_room};
ghost use Rattle.spread_store.specs.Joined.{spreading};
ghost use Rattle.spread_store.specs.Fits.{IsFit};
ghost use Rattle.spread_store.specs.Performs.{Performs};

use crate::asking::ask;
use crate::finding::find;
use crate::numbering::{number_of, number_or_absent};
use crate::sites::{Sites, place_at};
use plfs_types::Name;
use store_api::{Answer, Step, Store, Trouble};

/// Asks for the number of a room.
pub(crate) fn find_room<S: Store + Drop>(
    sites: &mut Sites<S>,
    name: &Name,
) -> Result<Answer, Trouble>
    requires fit { IsFit (spreading (map S.stored sites.old.stores) sites.old.places sites.old.doubt) }
    requires sure { sites.old.doubt ≡ None }
    ensures performs { Performs (find_room name.now) (spreading (map S.stored sites.old.stores) sites.old.places sites.old.doubt) (spreading (map S.stored sites.new.stores) sites.new.places sites.new.doubt) result }
    ensures carries { CarriesSurely (find_room name.now) (spreading (map S.stored sites.old.stores) sites.old.places sites.old.doubt) (spreading (map S.stored sites.new.stores) sites.new.places sites.new.doubt) result }
{
    match find(&mut sites.stores, name) {
        Ok(None) => Ok(Answer::Absent),
        Ok(Some(place)) => Ok(number_or_absent(number_of(&sites.places, place))),
        Err(Trouble::Fault) => Err(Trouble::Fault),
        Err(Trouble::NoMemory) => Err(Trouble::NoMemory),
    }
}

/// Gives a room a name that no room has.
pub(crate) fn rename_room<S: Store + Drop>(
    sites: &mut Sites<S>,
    number: u64,
    to: &Name,
) -> Result<Answer, Trouble>
    requires fit { IsFit (spreading (map S.stored sites.old.stores) sites.old.places sites.old.doubt) }
    requires sure { sites.old.doubt ≡ None }
    ensures performs { Performs (rename_room number to.now) (spreading (map S.stored sites.old.stores) sites.old.places sites.old.doubt) (spreading (map S.stored sites.new.stores) sites.new.places sites.new.doubt) result }
    ensures carries { CarriesSurely (rename_room number to.now) (spreading (map S.stored sites.old.stores) sites.old.places sites.old.doubt) (spreading (map S.stored sites.new.stores) sites.new.places sites.new.doubt) result }
{
    let Some(place) = place_at(&sites.places, number) else {
        return Ok(Answer::NoRoom);
    };
    match find(&mut sites.stores, to) {
        Ok(None) => ask(
            &mut sites.stores,
            place.store,
            &Step::RenameRoom {
                room: place.room,
                to: *to,
            },
        ),
        Ok(Some(_)) => Ok(Answer::TargetThere),
        Err(Trouble::Fault) => Err(Trouble::Fault),
        Err(Trouble::NoMemory) => Err(Trouble::NoMemory),
    }
}
