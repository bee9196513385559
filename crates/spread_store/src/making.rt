//! A new room.
ghost use Rattle.spread_store.specs.Carrying.{CarriesSurely};
ghost use Rattle.spread_store.specs.Making.{MakesIn};
ghost use Rattle.std.specs.Prelude.{◌≡◌, map, None, true};
ghost use Rattle.store_api.specs.Step.{make_room};
ghost use Rattle.spread_store.specs.Joined.{spreading, held_by, all_tell};
ghost use Rattle.spread_store.specs.Fits.{IsFit};
ghost use Rattle.spread_store.specs.Finding.{IsFreeIn};
ghost use Rattle.spread_store.specs.Performs.{Performs};

use crate::asking::ask;
use crate::finding::{find, number_told};
use crate::homes::home_of;
use crate::numbering::{number_of, or_zero};
use crate::places::{Doubt, Place};
use crate::sites::Sites;
use plfs_types::Name;
use store_api::{Answer, Step, Store, Trouble};

// Adds a room whose name is free in this store. Where its place can't be kept, it stays in doubt.
fn make_in<S: Store + Drop>(
    sites: &mut Sites<S>,
    home: usize,
    name: &Name,
    folders: &[Name],
    files: &[Name],
) -> Result<Answer, Trouble>
    requires fit { IsFit (spreading (map S.stored sites.old.stores) sites.old.places sites.old.doubt) }
    requires sure { sites.old.doubt ≡ None }
    requires free { all_tell (held_by (map S.stored sites.old.stores)) ≡ true → IsFreeIn (held_by (map S.stored sites.old.stores)) name.now }
    ensures performs { Performs (make_room name.now folders.now files.now) (spreading (map S.stored sites.old.stores) sites.old.places sites.old.doubt) (spreading (map S.stored sites.new.stores) sites.new.places sites.new.doubt) result }
    ensures makes { MakesIn home name.now folders.now files.now (map S.stored sites.old.stores) (spreading (map S.stored sites.old.stores) sites.old.places sites.old.doubt) (spreading (map S.stored sites.new.stores) sites.new.places sites.new.doubt) result }
{
    let step = Step::MakeRoom {
        name: *name,
        folders,
        files,
    };
    let number = sites.places.as_slice().len() as u64;
    match ask(&mut sites.stores, home, &step) {
        Ok(answer) => match number_told(answer) {
            None => Ok(Answer::Absent),
            Some(room) => match sites.places.push(Place { store: home, room }) {
                Ok(()) => Ok(Answer::Number { value: number }),
                Err(_) => {
                    sites.doubt = Some(Doubt {
                        store: home,
                        name: *name,
                    });
                    Ok(Answer::Number { value: number })
                }
            },
        },
        Err(Trouble::Fault) => {
            sites.doubt = Some(Doubt {
                store: home,
                name: *name,
            });
            Err(Trouble::Fault)
        }
        Err(Trouble::NoMemory) => Err(Trouble::NoMemory),
    }
}

/// Adds a room, if no store has one of this name.
pub(crate) fn make_room<S: Store + Drop>(
    sites: &mut Sites<S>,
    name: &Name,
    folders: &[Name],
    files: &[Name],
) -> Result<Answer, Trouble>
    requires fit { IsFit (spreading (map S.stored sites.old.stores) sites.old.places sites.old.doubt) }
    requires sure { sites.old.doubt ≡ None }
    ensures performs { Performs (make_room name.now folders.now files.now) (spreading (map S.stored sites.old.stores) sites.old.places sites.old.doubt) (spreading (map S.stored sites.new.stores) sites.new.places sites.new.doubt) result }
    ensures carries { CarriesSurely (make_room name.now folders.now files.now) (spreading (map S.stored sites.old.stores) sites.old.places sites.old.doubt) (spreading (map S.stored sites.new.stores) sites.new.places sites.new.doubt) result }
{
    match find(&mut sites.stores, name) {
        Ok(None) => {
            let home = home_of(name, sites.stores.as_slice().len());
            make_in(sites, home, name, folders, files)
        }
        Ok(Some(place)) => Ok(Answer::Old {
            room: or_zero(number_of(&sites.places, place)),
        }),
        Err(Trouble::Fault) => Err(Trouble::Fault),
        Err(Trouble::NoMemory) => Err(Trouble::NoMemory),
    }
}
