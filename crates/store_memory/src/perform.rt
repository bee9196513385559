//! One step on a tree.
ghost use Rattle.std.specs.Prelude.{◌≡◌, [], map, IfOk, OnOk, OnErr};
ghost use Rattle.store_api.specs.Step.{step_of, rename_room};
ghost use Rattle.store_api.specs.Effect.{effect, in_room, number_of, new_room, room_made, renamed};
ghost use Rattle.store_api.specs.Kept.{empty_file};
ghost use Rattle.store_api.specs.InRoom.{room_outcome};

use crate::room;
use plfs_types::{Name, NameList, NoMemory};
use std::alloc::{AllocError, Global};
use store_api::{Answer, FileList, Room, Step, Tree, in_byte_order};

// The number of the room with this name.
fn number_of(tree: &Tree, name: &Name) -> Option<usize>
    ensures { result ≡ number_of tree.now name.now }
{
    tree.rooms
        .as_slice()
        .iter()
        .position(|room| room.name == *name)
}

// The names of all rooms.
fn room_names(alloc: Global, rooms: &[Room]) -> Result<Vec<Name>, AllocError>
    ensures { IfOk result (λ names. names.items ≡ map (λ r. r.name) rooms.now) }
{
    rooms.iter().map(|room| room.name).collect(alloc)
}

// Empty files of these names at the top.
fn empty_files(alloc: Global, names: &[Name]) -> Result<FileList, NoMemory>
    ensures { IfOk result (λ files. files ≡ map (empty_file []) names.now) }
{
    let mut files = FileList::new(alloc);
    for name in names {
        files.push(room::empty_file(alloc, &Name::empty(), name))?;
    }
    Ok(files)
}

// A room of this name with these folders and empty top files.
fn new_room(alloc: Global, name: &Name, folders: &[Name], files: &[Name]) -> Result<Room, NoMemory>
    ensures { IfOk result (λ room. room ≡ new_room name.now folders.now files.now) }
{
    Ok(Room {
        name: *name,
        folders: NameList::from_vec(Vec::from_slice(alloc, folders)?),
        files: empty_files(alloc, files)?,
    })
}

// Adds a room, if its name is free.
fn make_room(
    alloc: Global,
    tree: &mut Tree,
    name: &Name,
    folders: &[Name],
    files: &[Name],
) -> Result<Answer, NoMemory>
    ensures ok { IfOk result (λ answer. room_made tree.old (new_room name.now folders.now files.now) (number_of tree.old name.now) ≡ record { tree = tree.new; answer = answer }) }
    ensures err { OnErr result (tree.new ≡ tree.old) }
{
    if let Some(number) = number_of(tree, name) {
        return Ok(Answer::Old {
            room: number as u64,
        });
    }
    let number = tree.rooms.as_slice().len() as u64;
    tree.rooms.push(new_room(alloc, name, folders, files)?)?;
    Ok(Answer::Number { value: number })
}

// Gives the room another name, if it is free.
fn rename_room(room: &mut Room, to: &Name, taken: Option<usize>) -> Answer
    ensures { renamed room.old to.now taken ≡ record { room = room.new; answer = result } }
{
    if taken.is_some() {
        return Answer::TargetThere;
    }
    room.name = *to;
    Answer::Made
}

// Makes the step in the room of this number, if there is one.
#[tactic(auto, using(crate::proofs::Places::set_found))]
fn in_room(alloc: Global, tree: &mut Tree, number: u64, step: &Step<'_>) -> Result<Answer, NoMemory>
    ensures ok { IfOk result (λ answer. in_room tree.old number (room_outcome (step_of step.now)) ≡ record { tree = tree.new; answer = answer }) }
    ensures err { OnErr result (tree.new ≡ tree.old) }
{
    match tree.rooms.get_mut(number as usize) {
        None => Ok(Answer::NoRoom),
        Some(room) => room::perform(alloc, room, step),
    }
}

// Renames the room of this number, if there is one.
#[tactic(auto, using(crate::proofs::Places::set_found))]
fn rename(tree: &mut Tree, number: u64, to: &Name) -> Answer
    ensures { effect tree.old (rename_room number to.now) ≡ record { tree = tree.new; answer = result } }
{
    let taken = number_of(tree, to);
    match tree.rooms.get_mut(number as usize) {
        None => Answer::NoRoom,
        Some(room) => rename_room(room, to, taken),
    }
}

/// Makes the step. After `NoMemory` the tree is as it was.
pub(crate) fn perform(alloc: Global, tree: &mut Tree, step: &Step<'_>) -> Result<Answer, NoMemory>
    ensures ok { IfOk result (λ answer. effect tree.old (step_of step.now) ≡ record { tree = tree.new; answer = answer }) }
    ensures err { OnErr result (tree.new ≡ tree.old) }
{
    match step {
        Step::Rooms => {
            let names = room_names(alloc, tree.rooms.as_slice())?;
            Ok(Answer::Names(in_byte_order(alloc, &names)?))
        }
        Step::FindRoom { name } => match number_of(tree, name) {
            None => Ok(Answer::Absent),
            Some(number) => Ok(Answer::Number {
                value: number as u64,
            }),
        },
        Step::MakeRoom {
            name,
            folders,
            files,
        } => make_room(alloc, tree, name, folders, files),
        Step::RenameRoom { room, to } => Ok(rename(tree, *room, to)),
        Step::MakeFolder { room, .. }
        | Step::RemoveFolder { room, .. }
        | Step::List { room, .. }
        | Step::Create { room, .. }
        | Step::Remove { room, .. }
        | Step::Replace { room, .. }
        | Step::Length { room, .. }
        | Step::ReadAt { room, .. }
        | Step::WriteAt { room, .. }
        | Step::Cut { room, .. }
        | Step::Sync { room, .. } => in_room(alloc, tree, *room, step),
    }
}
