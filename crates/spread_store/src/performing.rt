//! Any step.
ghost use Rattle.spread_store.specs.Carrying.{Carries, CarriesSurely};
ghost use Rattle.std.specs.Prelude.{◌≡◌, map, None};
ghost use Rattle.store_api.specs.Step.{step_of};
ghost use Rattle.spread_store.specs.Joined.{spreading};
ghost use Rattle.spread_store.specs.Fits.{IsFit};
ghost use Rattle.spread_store.specs.Performs.{Performs};

use crate::listing::list_rooms;
use crate::making::make_room;
use crate::named::{find_room, rename_room};
use crate::settling::settle;
use crate::sites::{Sites, within};
use std::alloc::Global;
use store_api::{Answer, Step, Store, Trouble};

// Makes a step where no room is in doubt.
fn perform_surely<S: Store + Drop>(
    alloc: Global,
    sites: &mut Sites<S>,
    step: &Step<'_>,
) -> Result<Answer, Trouble>
    requires fit { IsFit (spreading (map S.stored sites.old.stores) sites.old.places sites.old.doubt) }
    requires sure { sites.old.doubt ≡ None }
    ensures performs { Performs (step_of step.now) (spreading (map S.stored sites.old.stores) sites.old.places sites.old.doubt) (spreading (map S.stored sites.new.stores) sites.new.places sites.new.doubt) result }
    ensures carries { CarriesSurely (step_of step.now) (spreading (map S.stored sites.old.stores) sites.old.places sites.old.doubt) (spreading (map S.stored sites.new.stores) sites.new.places sites.new.doubt) result }
{
    match step {
        Step::Rooms => list_rooms(alloc, sites),
        Step::FindRoom { name } => find_room(sites, name),
        Step::MakeRoom {
            name,
            folders,
            files,
        } => make_room(sites, name, folders, files),
        Step::RenameRoom { room, to } => rename_room(sites, *room, to),
        Step::MakeFolder { room, .. }
        | Step::RemoveFolder { room, .. }
        | Step::List { room, .. }
        | Step::Create { room, .. }
        | Step::Remove { room, .. }
        | Step::Replace { room, .. }
        | Step::Length { room, .. }
        | Step::ReadAt { room, .. }
        | Step::WriteAt { room, .. }
        | Step::Cut { room, .. }
        | Step::Sync { room, .. } => within(sites, *room, step),
    }
}

/// Makes a step. Where a room is in doubt, it is asked for first.
pub(crate) fn perform<S: Store + Drop>(
    alloc: Global,
    sites: &mut Sites<S>,
    step: &Step<'_>,
) -> Result<Answer, Trouble>
    requires { IsFit (spreading (map S.stored sites.old.stores) sites.old.places sites.old.doubt) }
    ensures performs { Performs (step_of step.now) (spreading (map S.stored sites.old.stores) sites.old.places sites.old.doubt) (spreading (map S.stored sites.new.stores) sites.new.places sites.new.doubt) result }
    ensures carries { Carries (step_of step.now) (spreading (map S.stored sites.old.stores) sites.old.places sites.old.doubt) (spreading (map S.stored sites.new.stores) sites.new.places sites.new.doubt) result }
{
    match settle(sites) {
        Ok(()) => perform_surely(alloc, sites, step),
        Err(Trouble::Fault) => Err(Trouble::Fault),
        Err(Trouble::NoMemory) => Err(Trouble::NoMemory),
    }
}
