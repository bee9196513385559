//! The room that may have been made.
ghost use Rattle.spread_store.specs.Doubting.{AsksDoubted};
ghost use Rattle.std.specs.Prelude.{◌≡◌, map, None};
ghost use Rattle.spread_store.specs.Joined.{spreading};
ghost use Rattle.spread_store.specs.Fits.{IsFit};
ghost use Rattle.spread_store.specs.Settling.{Settles};

use crate::finding::find_in;
use crate::places::Place;
use crate::sites::Sites;
use store_api::{Store, Trouble};

/// Asks whether the room in doubt was made, where there is one. The tree stays.
pub(crate) fn settle<S: Store + Drop>(sites: &mut Sites<S>) -> Result<(), Trouble>
    requires { IsFit (spreading (map S.stored sites.old.stores) sites.old.places sites.old.doubt) }
    ensures settles { Settles (spreading (map S.stored sites.old.stores) sites.old.places sites.old.doubt) (spreading (map S.stored sites.new.stores) sites.new.places sites.new.doubt) result }
    ensures asks { AsksDoubted (spreading (map S.stored sites.old.stores) sites.old.places sites.old.doubt) (spreading (map S.stored sites.new.stores) sites.new.places sites.new.doubt) result }
{
    let Some(doubt) = sites.doubt else {
        return Ok(());
    };
    match find_in(&mut sites.stores, doubt.store, &doubt.name) {
        Ok(None) => {
            sites.doubt = None;
            Ok(())
        }
        Ok(Some(room)) => {
            let place = Place {
                store: doubt.store,
                room,
            };
            let Ok(()) = sites.places.push(place) else {
                return Err(Trouble::NoMemory);
            };
            sites.doubt = None;
            Ok(())
        }
        Err(Trouble::Fault) => Err(Trouble::Fault),
        Err(Trouble::NoMemory) => Err(Trouble::NoMemory),
    }
}
