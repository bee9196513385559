//! Rooms are checked, and what is complained of each is said before the next one is looked at.
ghost use Rattle.std.specs.Prelude.{◌≡◌, ◌||◌, IfErr, IfOk};
ghost use Rattle.shape_check.specs.Seeing.{IsLookedAt};
ghost use Rattle.tree_check.specs.Rooms.{HasRooms, IsNamed};
ghost use Rattle.check_program.specs.Course.{AreThere, BreaksOff, BreaksOffBehind, ChecksRooms, SaysRoom, SaysRooms};
ghost use Rattle.check_program.specs.Lines.{are_some as is_any};

use crate::saying::{say_complaints, say_halt};
use crate::watching::Watcher;
use edge_io::Sink;
use plfs_types::Name;
use program_ends::say_text;
use std::alloc::Global;
use store_api::{Store, marks_name};
use tree_check::{Complaint, check_room, room_number};

// Checks the room of this name, and says what is complained of it: whether anything is. Where it can't, it answers the status.
fn say_room<S: Store, O: Sink>(
    alloc: Global,
    out: &mut O,
    store: &mut S,
    marks: Option<u64>,
    name: Name,
) -> Result<bool, u8>
    ensures looked { IsLookedAt (S.stored store.old) (S.stored store.new) }
    ensures ok { IfOk result (SaysRoom (IsNamed marks name) name (S.stored store.old) (O.taking out.old) (O.taking out.new)) }
    ensures err { IfErr result (BreaksOff (IsNamed marks name) name (S.stored store.old) (S.stored store.new) (O.taking out.old) (O.taking out.new)) }
{
    let found = match check_room(alloc, store, marks, name) {
        Ok(found) => found,
        Err(halt) => return Err(say_halt(alloc, out, name, halt)),
    };
    let status = say_complaints(alloc, out, found.as_slice());
    if status != 0 {
        return Err(status);
    }
    Ok(are_some(found.as_slice()))
}

// Whether there is any.
fn are_some(found: &[Complaint]) -> bool
    ensures { result ≡ is_any found.now }
{
    match found.first() {
        Some(_complaint) => true,
        None => false,
    }
}

fn either(any: bool, broken: bool) -> bool
    ensures { result ≡ (any || broken) }
{
    any || broken
}

// Checks the rooms of these names, and says what is complained of them: whether anything is. Where it can't, it answers the status.
fn say_rooms<S: Store, O: Sink, W: Watcher>(
    alloc: Global,
    out: &mut O,
    watcher: &mut W,
    store: &mut S,
    marks: Option<u64>,
    names: &[Name],
) -> Result<bool, u8>
    ensures looked { IsLookedAt (S.stored store.old) (S.stored store.new) }
    ensures ok { IfOk result (SaysRooms (HasRooms marks names.now) names.now (S.stored store.old) (O.taking out.old) (O.taking out.new)) }
    ensures err { IfErr result (BreaksOffBehind (HasRooms marks names.now) names.now (S.stored store.old) (S.stored store.new) (O.taking out.old) (O.taking out.new)) }
{
    let all = names.len() as u64;
    let mut done = 0u64;
    let mut any = false;
    for name in names {
        watcher.checked(done, all);
        let broken = say_room(alloc, out, store, marks, *name)?;
        any = either(any, broken);
        done = done.saturating_add(1);
    }
    watcher.checked(all, all);
    Ok(any)
}

/// Checks the rooms of these names, says what is complained of them or that nothing is, and answers the status.
pub(crate) fn check_names<S: Store, O: Sink, W: Watcher>(
    alloc: Global,
    out: &mut O,
    watcher: &mut W,
    store: &mut S,
    names: &[Name],
) -> u8
    ensures looked { IsLookedAt (S.stored store.old) (S.stored store.new) }
    ensures course { ChecksRooms (AreThere names.now) names.now (S.stored store.old) (S.stored store.new) (O.taking out.old) (O.taking out.new) result }
{
    let marks = match room_number(store, marks_name()) {
        Ok(marks) => marks,
        Err(halt) => return say_halt(alloc, out, marks_name(), halt),
    };
    let broken = match say_rooms(alloc, out, watcher, store, marks, names) {
        Ok(broken) => broken,
        Err(status) => return status,
    };
    if broken {
        return 7;
    }
    say_text(out, b"sound\n", 0)
}
