//! What the target has.
ghost use Rattle.std.specs.Prelude.{◌≡◌, ◌≤◌, ◌<◌, ◌+◌, IfOk};
ghost use Rattle.drain_copy.specs.Bounds.{source_bound, turn_left};
ghost use Rattle.drain_read.specs.Stages.{held_bound, held_left, held_turn, held_turn_left};
ghost use Rattle.drain_copy.specs.Asking.{at_target};
ghost use Rattle.drain_copy.specs.Draining.{drain_program, if_held, reads_target};
ghost use Rattle.drain_copy.specs.Stages.{target_rest, turn_program, IsOwedTurn};

use crate::gathering::find_source;
use crate::plan::nothing_held;
use crate::stages::{TargetStage, Turn};
use crate::telling::{look_reply, look_step, room_sought, stuck_there};
use drain_read::{Held, HeldRead, HeldTurn};
use mount_model::Stuck;
use plfs_types::{LogicalName, NoMemory};
use std::alloc::Global;
use store_api::{Answer, OwnedStep, Trouble};

/// Goes on with what the target has.
fn held_so(name: LogicalName, held: Result<Held, Stuck>) -> Turn
    ensures goes_on { turn_program result ≡ if_held name held }
    ensures fewer { turn_left result ≤ source_bound }
    ensures owed { IsOwedTurn result }
{
    match held {
        Ok(held) => find_source(name, held),
        Err(why) => Turn::Over(Err(stuck_there(why))),
    }
}

/// Goes on with the looks at the target, or with what it has.
fn hold_on(name: LogicalName, turn: HeldTurn) -> Turn
    ensures goes_on { turn_program result ≡ at_target (held_turn turn) (if_held name) }
    ensures fewer { turn_left result ≤ held_turn_left turn + source_bound }
    ensures owed { IsOwedTurn result }
{
    match turn {
        HeldTurn::Asks(call, read) => {
            Turn::Acts(look_step(call), TargetStage::Holding { name, read })
        }
        HeldTurn::Over(held) => held_so(name, held),
    }
}

/// What comes after a look at the target.
pub(crate) fn after_look(
    name: LogicalName,
    read: HeldRead,
    told: Result<Answer, Trouble>,
) -> Result<Turn, NoMemory>
    ensures goes_on { IfOk result (λ turn. turn_program turn ≡ target_rest (TargetStage.Holding name read) told) }
    ensures fewer { IfOk result (λ made. turn_left made < held_left read + source_bound) }
    ensures owed { IfOk result IsOwedTurn }
{
    let turn = read.take(look_reply(told))?;
    Ok(hold_on(name, turn))
}

/// Begins to look at the room of the target that was found, where it was.
fn look_at(alloc: Global, name: LogicalName, found: Option<u64>) -> Result<Turn, NoMemory>
    ensures goes_on { IfOk result (λ turn. turn_program turn ≡ reads_target name found) }
    ensures fewer { IfOk result (λ made. turn_left made ≤ held_bound + source_bound) }
    ensures owed { IfOk result IsOwedTurn }
{
    match found {
        Some(room) => {
            let turn = HeldRead::begin(alloc, room)?;
            Ok(hold_on(name, turn))
        }
        None => Ok(find_source(name, nothing_held(alloc))),
    }
}

/// What comes after the search for the target's container.
pub(crate) fn after_search(
    alloc: Global,
    name: LogicalName,
    told: Result<Answer, Trouble>,
) -> Result<Turn, NoMemory>
    ensures goes_on { IfOk result (λ turn. turn_program turn ≡ target_rest (TargetStage.Finding name) told) }
    ensures fewer { IfOk result (λ made. turn_left made < 1 + (held_bound + source_bound)) }
    ensures owed { IfOk result IsOwedTurn }
{
    let found = room_sought(&told);
    drop(told);
    match found {
        Ok(found) => look_at(alloc, name, found),
        Err(why) => Ok(Turn::Over(Err(why))),
    }
}

/// Begins a drain: the target's container is searched for.
pub(crate) fn begin(name: LogicalName) -> Turn
    ensures goes_on { turn_program result ≡ drain_program name }
    ensures fewer { turn_left result ≡ 1 + (held_bound + source_bound) }
    ensures owed { IsOwedTurn result }
{
    let step = OwnedStep::FindRoom { name: name.name() };
    Turn::Acts(step, TargetStage::Finding { name })
}
