//! Several stores, and where their rooms lie.
ghost use Rattle.spread_store.specs.Carrying.{CarriesSurely, last_after};
ghost use Rattle.std.specs.Prelude.{◌≡◌, map, slice_get, Some, None};
ghost use Rattle.store_api.specs.Step.{step_of};
ghost use Rattle.spread_store.specs.Asking.{ActsAt};
ghost use Rattle.spread_store.specs.Joined.{spreading};
ghost use Rattle.spread_store.specs.Fits.{IsFit};
ghost use Rattle.spread_store.specs.InRoom.{number_in, at_room};
ghost use Rattle.spread_store.specs.Performs.{Performs};

use crate::asking::{StoreList, ask};
use crate::places::{Doubt, Place, PlaceList};
use store_api::{Answer, Step, Store, Trouble};

/// Several stores, the places of their rooms, and the room that may have been made.
#[derive(Drop)]
pub(crate) struct Sites<S: Store + Drop> {
    pub(crate) stores: StoreList<S>,
    pub(crate) places: PlaceList,
    pub(crate) doubt: Option<Doubt>,
}

/// The number of the room within which the step is made.
pub(crate) fn number_in(step: &Step<'_>) -> Option<u64>
    ensures { result ≡ number_in (step_of step.now) }
{
    match step {
        Step::Rooms | Step::FindRoom { .. } | Step::MakeRoom { .. } | Step::RenameRoom { .. } =>
            None,
        Step::MakeFolder { room, .. }
        | Step::RemoveFolder { room, .. }
        | Step::List { room, .. }
        | Step::Create { room, .. }
        | Step::Remove { room, .. }
        | Step::Replace { room, .. }
        | Step::Length { room, .. }
        | Step::ReadAt { room, .. }
        | Step::WriteAt { room, .. }
        | Step::Cut { room, .. }
        | Step::Sync { room, .. } => Some(*room),
    }
}

/// Makes the step in the room of this number there, which is another room's number here.
pub(crate) fn ask_in<S: Store>(
    stores: &mut StoreList<S>,
    place: Place,
    step: &Step<'_>,
) -> Result<Answer, Trouble>
    ensures { ActsAt place.store (at_room place.room (step_of step.now)) (map S.stored stores.old) (map S.stored stores.new) result }
{
    let room = place.room;
    let moved = match *step {
        Step::Rooms => Step::Rooms,
        Step::FindRoom { name } => Step::FindRoom { name },
        Step::MakeRoom {
            name,
            folders,
            files,
        } => Step::MakeRoom {
            name,
            folders,
            files,
        },
        Step::RenameRoom { to, .. } => Step::RenameRoom { room, to },
        Step::MakeFolder { folder, .. } => Step::MakeFolder { room, folder },
        Step::RemoveFolder { folder, .. } => Step::RemoveFolder { room, folder },
        Step::List { folder, .. } => Step::List { room, folder },
        Step::Create { folder, file, .. } => Step::Create { room, folder, file },
        Step::Remove { folder, file, .. } => Step::Remove { room, folder, file },
        Step::Replace {
            folder,
            from,
            to,
            ..
        } => Step::Replace {
            room,
            folder,
            from,
            to,
        },
        Step::Length { folder, file, .. } => Step::Length { room, folder, file },
        Step::ReadAt {
            folder,
            file,
            at,
            len,
            ..
        } => Step::ReadAt {
            room,
            folder,
            file,
            at,
            len,
        },
        Step::WriteAt {
            folder,
            file,
            at,
            bytes,
            ..
        } => Step::WriteAt {
            room,
            folder,
            file,
            at,
            bytes,
        },
        Step::Cut {
            folder,
            file,
            len,
            ..
        } => Step::Cut {
            room,
            folder,
            file,
            len,
        },
        Step::Sync { folder, file, .. } => Step::Sync { room, folder, file },
    };
    ask(stores, place.store, &moved)
}

/// Makes a step within the room of this number.
pub(crate) fn within<S: Store + Drop>(
    sites: &mut Sites<S>,
    number: u64,
    step: &Step<'_>,
) -> Result<Answer, Trouble>
    requires fit { IsFit (spreading (map S.stored sites.old.stores) sites.old.places sites.old.doubt) }
    requires sure { sites.old.doubt ≡ None }
    requires number { number_in (step_of step.now) ≡ Some number }
    ensures performs { Performs (step_of step.now) (spreading (map S.stored sites.old.stores) sites.old.places sites.old.doubt) (spreading (map S.stored sites.new.stores) sites.new.places sites.new.doubt) result }
    ensures carries { CarriesSurely (step_of step.now) (spreading (map S.stored sites.old.stores) sites.old.places sites.old.doubt) (spreading (map S.stored sites.new.stores) sites.new.places sites.new.doubt) result }
{
    let Some(place) = place_at(&sites.places, number) else {
        return Ok(Answer::NoRoom);
    };
    ask_in(&mut sites.stores, place, step)
}

// The place of the room of this number.
pub(crate) fn place_at(places: &PlaceList, number: u64) -> Option<Place>
    ensures { result ≡ slice_get places.now number }
{
    places.as_slice().get(number as usize).copied()
}

/// The store that has the room within which the step is made, or else the one before.
pub(crate) fn last_after(places: &PlaceList, step: &Step<'_>, last: usize) -> usize
    ensures { result ≡ last_after places.now (step_of step.now) last }
{
    let Some(number) = number_in(step) else {
        return last;
    };
    match place_at(places, number) {
        None => last,
        Some(place) => place.store,
    }
}
