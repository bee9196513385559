//! What each step does in its room. After `NoMemory` the room is as it was.
ghost use Rattle.std.specs.Prelude.{◌≡◌, ◌≤◌, length, take, drop, filter, not, IfOk, OnErr};
ghost use Rattle.std.specs.List.{list_any};
ghost use Rattle.store_api.specs.Names.{same_name};
ghost use Rattle.store_api.specs.Step.{step_of};
ghost use Rattle.plfs_types.specs.Bytes.{overwritten};
ghost use Rattle.store_api.specs.InRoom.{room_outcome};
ghost use Rattle.store_api.specs.Kept.{common, kept_after, empty_file};
ghost use Rattle.store_api.specs.Room.{is_top, has_folder, place_of, folder_made, folder_removed, folder_listed, file_created, file_removed, file_named, file_renamed, without_file, length_told, bytes_read, bytes_written, file_cut, file_synced};

use crate::listing::listing;
use plfs_types::{Bytes, Name, NameList, NoMemory, Path};
use std::alloc::Global;
use std::mem;
use store_api::{Answer, File, Room, Step};

// Whether the name is the top's, which is empty.
pub(crate) fn is_top(folder: &Name) -> bool
    ensures { result ≡ is_top folder.now }
{
    folder.bytes().is_empty()
}

// Whether a name stands in a list.
fn contains(names: &[Name], name: &Name) -> bool
    ensures { result ≡ list_any (λ other. same_name other name.now) names.now }
{
    names.iter().any(|other| *other == *name)
}

fn has_folder(room: &Room, folder: &Name) -> bool
    ensures { result ≡ has_folder room.now folder.now }
{
    is_top(folder) || contains(room.folders.as_slice(), folder)
}

// The place of a file in the list.
fn place_of(room: &Room, folder: &Name, file: &Name) -> Option<usize>
    ensures { result ≡ place_of room.now folder.now file.now }
{
    room.files.as_slice().iter().position(|other| other.path.folder == *folder
        && other.path.file == *file)
}

// An empty file of this name.
pub(crate) fn empty_file(alloc: Global, folder: &Name, file: &Name) -> File
    ensures { result ≡ empty_file folder.now file.now }
{
    File {
        path: Path {
            folder: *folder,
            file: *file,
        },
        bytes: Bytes::new(alloc),
        kept: 0,
    }
}

fn make_folder(room: &mut Room, folder: &Name) -> Result<Answer, NoMemory>
    ensures ok { IfOk result (λ answer. folder_made room.old folder.now ≡ record { room = room.new; answer = answer }) }
    ensures err { OnErr result (room.new ≡ room.old) }
{
    if has_folder(room, folder) {
        return Ok(Answer::Old { room: 0 });
    }
    room.folders.push(*folder)?;
    Ok(Answer::Made)
}

// Takes a name out of a list.
fn remove_name(alloc: Global, names: &mut NameList, name: &Name)
    ensures { names.new ≡ filter (λ other. not (same_name other name.now)) names.old }
{
    let mut kept = mem::replace(names, NameList::new(alloc)).into_vec();
    kept.retain(|other| *other != *name);
    *names = NameList::from_vec(kept);
}

fn remove_folder(alloc: Global, room: &mut Room, folder: &Name) -> Result<Answer, NoMemory>
    ensures ok { IfOk result (λ answer. folder_removed room.old folder.now ≡ record { room = room.new; answer = answer }) }
    ensures err { OnErr result (room.new ≡ room.old) }
{
    if !has_folder(room, folder) {
        return Ok(Answer::NoFolder);
    }
    let names = listing(alloc, room, folder)?;
    if let Some(least) = names.as_slice().first() {
        return Ok(Answer::NotEmpty { least: *least });
    }
    remove_name(alloc, &mut room.folders, folder);
    Ok(Answer::Made)
}

// Takes a file out, if it is there.
fn remove_file(room: &mut Room, folder: &Name, file: &Name)
    ensures { room.new ≡ without_file room.old (place_of room.old folder.now file.now) }
{
    if let Some(place) = place_of(room, folder, file) {
        let _ = room.files.remove(place);
    }
}

// Gives a file another name.
#[tactic(auto, using(crate::proofs::Places::set_found))]
fn name_file(room: &mut Room, folder: &Name, from: &Name, to: &Name) -> Answer
    ensures { file_named room.old folder.now from.now to.now ≡ record { room = room.new; answer = result } }
{
    if !has_folder(room, folder) {
        return Answer::NoFolder;
    }
    let Some(place) = place_of(room, folder, from) else {
        return Answer::Absent;
    };
    let Some(found) = room.files.get_mut(place) else {
        return Answer::Absent;
    };
    found.path = Path {
        folder: *folder,
        file: *to,
    };
    Answer::Made
}

fn replace(room: &mut Room, folder: &Name, from: &Name, to: &Name) -> Answer
    ensures { file_renamed room.old folder.now from.now to.now ≡ record { room = room.new; answer = result } }
{
    if !has_folder(room, folder) {
        return Answer::NoFolder;
    }
    if place_of(room, folder, from).is_none() {
        return Answer::Absent;
    }
    if *from == *to {
        return Answer::Made;
    }
    remove_file(room, folder, to);
    name_file(room, folder, from, to)
}

fn list_folder(alloc: Global, room: &Room, folder: &Name) -> Result<Answer, NoMemory>
    ensures { IfOk result (λ answer. folder_listed room.now folder.now ≡ record { room = room.now; answer = answer }) }
{
    if !has_folder(room, folder) {
        return Ok(Answer::NoFolder);
    }
    Ok(Answer::Names(listing(alloc, room, folder)?))
}

fn create(alloc: Global, room: &mut Room, folder: &Name, file: &Name) -> Result<Answer, NoMemory>
    ensures ok { IfOk result (λ answer. file_created room.old folder.now file.now ≡ record { room = room.new; answer = answer }) }
    ensures err { OnErr result (room.new ≡ room.old) }
{
    if !has_folder(room, folder) {
        return Ok(Answer::NoFolder);
    }
    if place_of(room, folder, file).is_some() {
        return Ok(Answer::Old { room: 0 });
    }
    room.files.push(empty_file(alloc, folder, file))?;
    Ok(Answer::Made)
}

fn remove(room: &mut Room, folder: &Name, file: &Name) -> Answer
    ensures { file_removed room.old folder.now file.now ≡ record { room = room.new; answer = result } }
{
    if !has_folder(room, folder) {
        return Answer::NoFolder;
    }
    let Some(place) = place_of(room, folder, file) else {
        return Answer::Absent;
    };
    let _ = room.files.remove(place);
    Answer::Made
}

fn length(room: &Room, folder: &Name, file: &Name) -> Answer
    ensures { length_told room.now folder.now file.now ≡ record { room = room.now; answer = result } }
{
    if !has_folder(room, folder) {
        return Answer::NoFolder;
    }
    let Some(place) = place_of(room, folder, file) else {
        return Answer::Absent;
    };
    let found = &room.files.as_slice()[place];
    Answer::Number {
        value: found.bytes.as_slice().len() as u64,
    }
}

#[tactic(auto, using(crate::proofs::Places::set_found))]
fn sync(room: &mut Room, folder: &Name, file: &Name) -> Answer
    ensures { file_synced room.old folder.now file.now ≡ record { room = room.new; answer = result } }
{
    if !has_folder(room, folder) {
        return Answer::NoFolder;
    }
    let Some(place) = place_of(room, folder, file) else {
        return Answer::Absent;
    };
    let Some(found) = room.files.get_mut(place) else {
        return Answer::Absent;
    };
    found.kept = found.bytes.as_slice().len() as u64;
    Answer::Made
}

// How many first bytes these have in common.
fn common(a: &[u8], b: &[u8]) -> usize
    ensures { result ≡ common a.now b.now }
{
    let most = a.len().min(b.len());
    for i in 0..most {
        if a[i] != b[i] {
            return i;
        }
    }
    most
}

// How many bytes stay kept where the piece is laid over the old ones from byte `at` on: of those that were, the
// ones before the first that changes.
fn kept_over(kept: u64, old: &[u8], at: usize, piece: &[u8]) -> u64
    requires { at ≤ length old.now }
    ensures { result ≡ kept_after kept old.now (overwritten old.now at piece.now) }
{
    let rest = &old[at..];
    let same = common(rest, piece);
    if same == rest.len().min(piece.len()) {
        kept.min(old.len() as u64)
    } else {
        kept.min((at + same) as u64)
    }
}

#[tactic(auto, using(crate::proofs::Places::set_found))]
fn write_at(
    room: &mut Room,
    folder: &Name,
    file: &Name,
    at: u64,
    bytes: &[u8],
) -> Result<Answer, NoMemory>
    ensures ok { IfOk result (λ answer. bytes_written room.old folder.now file.now at bytes.now ≡ record { room = room.new; answer = answer }) }
    ensures err { OnErr result (room.new ≡ room.old) }
{
    if !has_folder(room, folder) {
        return Ok(Answer::NoFolder);
    }
    let Some(place) = place_of(room, folder, file) else {
        return Ok(Answer::Absent);
    };
    let Some(found) = room.files.get_mut(place) else {
        return Ok(Answer::Absent);
    };
    if at > found.bytes.as_slice().len() as u64 {
        return Ok(Answer::Beyond);
    }
    let kept = kept_over(found.kept, found.bytes.as_slice(), at as usize, bytes);
    found.bytes.overwrite(at as usize, bytes)?;
    found.kept = kept;
    Ok(Answer::Made)
}

#[tactic(auto, using(crate::proofs::Places::set_found))]
fn cut(room: &mut Room, folder: &Name, file: &Name, len: u64) -> Answer
    ensures { file_cut room.old folder.now file.now len ≡ record { room = room.new; answer = result } }
{
    if !has_folder(room, folder) {
        return Answer::NoFolder;
    }
    let Some(place) = place_of(room, folder, file) else {
        return Answer::Absent;
    };
    let Some(found) = room.files.get_mut(place) else {
        return Answer::Absent;
    };
    if len > found.bytes.as_slice().len() as u64 {
        return Answer::Beyond;
    }
    found.bytes.truncate(len as usize);
    found.kept = found.kept.min(len);
    Answer::Made
}

fn read_at(
    alloc: Global,
    room: &Room,
    folder: &Name,
    file: &Name,
    at: u64,
    len: u64,
) -> Result<Answer, NoMemory>
    ensures { IfOk result (λ answer. bytes_read room.now folder.now file.now at len ≡ record { room = room.now; answer = answer }) }
{
    if !has_folder(room, folder) {
        return Ok(Answer::NoFolder);
    }
    let Some(place) = place_of(room, folder, file) else {
        return Ok(Answer::Absent);
    };
    let all = room.files.as_slice()[place].bytes.as_slice();
    Ok(Answer::Bytes(Bytes::copy(alloc, range_of(all, at, len))?))
}

// The bytes from `at` on, at most `len`, none past the end.
fn range_of(all: &[u8], at: u64, len: u64) -> &[u8]
    ensures { result.now ≡ take len (drop at all.now) }
{
    if at >= all.len() as u64 {
        return &[];
    }
    let rest = &all[at as usize..];
    if len >= rest.len() as u64 {
        rest
    } else {
        &rest[..len as usize]
    }
}

// Makes a step in the room that it names. Other steps are answered NoRoom.
pub(crate) fn perform(alloc: Global, room: &mut Room, step: &Step<'_>) -> Result<Answer, NoMemory>
    ensures ok { IfOk result (λ answer. room_outcome (step_of step.now) room.old ≡ record { room = room.new; answer = answer }) }
    ensures err { OnErr result (room.new ≡ room.old) }
{
    match step {
        Step::MakeFolder { folder, .. } => make_folder(room, folder),
        Step::RemoveFolder { folder, .. } => remove_folder(alloc, room, folder),
        Step::List { folder, .. } => list_folder(alloc, room, folder),
        Step::Create { folder, file, .. } => create(alloc, room, folder, file),
        Step::Remove { folder, file, .. } => Ok(remove(room, folder, file)),
        Step::Replace {
            folder,
            from,
            to,
            ..
        } => Ok(replace(room, folder, from, to)),
        Step::Length { folder, file, .. } => Ok(length(room, folder, file)),
        Step::ReadAt {
            folder,
            file,
            at,
            len,
            ..
        } => read_at(alloc, room, folder, file, *at, *len),
        Step::WriteAt {
            folder,
            file,
            at,
            bytes,
            ..
        } => write_at(room, folder, file, *at, bytes),
        Step::Cut {
            folder,
            file,
            len,
            ..
        } => Ok(cut(room, folder, file, *len)),
        Step::Sync { folder, file, .. } => Ok(sync(room, folder, file)),
        Step::Rooms | Step::FindRoom { .. } | Step::MakeRoom { .. } | Step::RenameRoom { .. } => Ok(
            Answer::NoRoom,
        ),
    }
}
