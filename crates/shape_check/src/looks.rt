//! What the store is asked.
ghost use Rattle.std.specs.Prelude.{◌≡◌, Some, Ok, IfOk, IfErr, slice_get};
ghost use Rattle.store_api.specs.declared.tree.Room.{Room};
ghost use Rattle.store_api.specs.declared.tree.Tree.{Tree};
ghost use Rattle.store_api.specs.Acts.{Acts};
ghost use Rattle.store_api.specs.Step.{step_of};
ghost use Rattle.store_laws.specs.Outcomes.{IsLook};
ghost use Rattle.store_laws.specs.Says.{AreRoomNames};
ghost use Rattle.shape_check.specs.Rightness.{Fails, IsNoComplaint, NoAnswer};
ghost use Rattle.shape_check.specs.Seeing.{IsSeen, IsLookedAt, HasRoom, IsOrderlyFile, IsAny};
ghost use Rattle.shape_check.specs.Told.{TellsFolder, TellsLength, TellsBytes, TellsRoom, names_of as names_told, length_in as length_told, bytes_in as bytes_told, rooms_in as rooms_told, number_in as number_told};

use crate::finding::{Finding, of_trouble};
use plfs_types::{Bytes, Name, NameList, Path};
use store_api::{Answer, Step, Store};

/// Asks the store.
#[tactic(auto, using(crate::proofs::LookLemmas::looked))]
fn ask<S: Store>(store: &mut S, step: &Step<'_>) -> Result<Answer, Finding>
    requires { IsLook (step_of step.now) }
    ensures looked { IsLookedAt (S.stored store.old) (S.stored store.new) }
    ensures ok { IfOk result (λ answer. Acts (step_of step.now) (S.stored store.old) (S.stored store.new) (Ok answer)) }
    ensures err { IfErr result (NoAnswer (S.stored store.old) (S.stored store.new)) }
{
    match store.act(step) {
        Ok(answer) => Ok(answer),
        Err(trouble) => Err(of_trouble(trouble)),
    }
}

fn rooms_in(answer: Answer) -> Result<NameList, Finding>
    ensures { result ≡ rooms_told answer }
{
    match answer {
        Answer::Names(names) => Ok(names),
        _ => Err(Finding::Untold),
    }
}

/// The names of the rooms.
#[tactic(auto, using(crate::proofs::LookLemmas::no_answer, crate::proofs::LookLemmas::rooms_ok, crate::proofs::LookLemmas::rooms_err, crate::proofs::Unbroken::unanswered, crate::proofs::Unbroken::no_rooms))]
pub fn rooms<S: Store>(store: &mut S) -> Result<NameList, Finding>
    ensures looked { IsLookedAt (S.stored store.old) (S.stored store.new) }
    ensures ok { IfOk result (λ names. (tree : Tree) → IsSeen (S.stored store.old) tree → AreRoomNames tree names) }
    ensures err { IfErr result (Fails IsAny (S.stored store.old) (S.stored store.new)) }
    ensures unbroken { IfErr result IsNoComplaint }
{
    let answer = ask(store, &Step::Rooms)?;
    rooms_in(answer)
}

fn number_in(answer: &Answer) -> Result<Option<u64>, Finding>
    ensures { result ≡ number_told answer.now }
{
    match *answer {
        Answer::Number { value } => Ok(Some(value)),
        Answer::Absent => Ok(None),
        _ => Err(Finding::Untold),
    }
}

/// The number of the room of this name, if one has it.
#[tactic(auto, using(crate::proofs::LookLemmas::no_answer, crate::proofs::LookLemmas::number_ok, crate::proofs::LookLemmas::number_err, crate::proofs::Unbroken::unanswered, crate::proofs::Unbroken::no_number))]
pub fn find_room<S: Store>(store: &mut S, name: Name) -> Result<Option<u64>, Finding>
    ensures looked { IsLookedAt (S.stored store.old) (S.stored store.new) }
    ensures ok { IfOk result (λ found. (tree : Tree) → IsSeen (S.stored store.old) tree → TellsRoom tree name found) }
    ensures err { IfErr result (Fails IsAny (S.stored store.old) (S.stored store.new)) }
    ensures unbroken { IfErr result IsNoComplaint }
{
    let answer = ask(store, &Step::FindRoom { name })?;
    number_in(&answer)
}

fn names_of(answer: Answer) -> Result<Option<NameList>, Finding>
    ensures { result ≡ names_told answer }
{
    match answer {
        Answer::Names(names) => Ok(Some(names)),
        Answer::NoFolder => Ok(None),
        _ => Err(Finding::Untold),
    }
}

/// The names of the folder's entries, if the folder is there.
#[tactic(auto, using(crate::proofs::LookLemmas::no_answer, crate::proofs::LookLemmas::folder_ok, crate::proofs::LookLemmas::folder_err, crate::proofs::Unbroken::unanswered, crate::proofs::Unbroken::no_names))]
pub fn list<S: Store>(store: &mut S, room: u64, folder: Name) -> Result<Option<NameList>, Finding>
    ensures looked { IsLookedAt (S.stored store.old) (S.stored store.new) }
    ensures ok { IfOk result (λ found. (tree : Tree) (held : Room) → IsSeen (S.stored store.old) tree → slice_get tree.rooms room ≡ Some held → TellsFolder held folder found) }
    ensures err { IfErr result (Fails (HasRoom room) (S.stored store.old) (S.stored store.new)) }
    ensures unbroken { IfErr result IsNoComplaint }
{
    let answer = ask(store, &Step::List { room, folder })?;
    names_of(answer)
}

fn length_in(answer: &Answer) -> Result<Option<u64>, Finding>
    ensures { result ≡ length_told answer.now }
{
    match *answer {
        Answer::Number { value } => Ok(Some(value)),
        Answer::NoFolder => Ok(None),
        Answer::Absent => Ok(None),
        _ => Err(Finding::Untold),
    }
}

/// The length of the file, if it is there.
#[tactic(auto, using(crate::proofs::LookLemmas::no_answer, crate::proofs::LookLemmas::length_ok, crate::proofs::LookLemmas::length_err, crate::proofs::Unbroken::unanswered, crate::proofs::Unbroken::no_length))]
pub fn length<S: Store>(store: &mut S, room: u64, path: &Path) -> Result<Option<u64>, Finding>
    ensures looked { IsLookedAt (S.stored store.old) (S.stored store.new) }
    ensures ok { IfOk result (λ found. (tree : Tree) (held : Room) → IsSeen (S.stored store.old) tree → slice_get tree.rooms room ≡ Some held → TellsLength held path.now found) }
    ensures err { IfErr result (Fails (HasRoom room) (S.stored store.old) (S.stored store.new)) }
    ensures unbroken { IfErr result IsNoComplaint }
{
    let answer = ask(
        store,
        &Step::Length {
            room,
            folder: path.folder,
            file: path.file,
        },
    )?;
    length_in(&answer)
}

fn bytes_in(answer: Answer) -> Result<Bytes, Finding>
    ensures { result ≡ bytes_told answer }
{
    match answer {
        Answer::Bytes(bytes) => Ok(bytes),
        _ => Err(Finding::Untold),
    }
}

/// So many bytes of the file from this place on, or all to its end.
#[tactic(auto, using(crate::proofs::LookLemmas::no_answer, crate::proofs::LookLemmas::bytes_ok, crate::proofs::LookLemmas::bytes_err, crate::proofs::Unbroken::unanswered, crate::proofs::Unbroken::no_bytes))]
pub fn read<S: Store>(
    store: &mut S,
    room: u64,
    path: &Path,
    at: u64,
    len: u64,
) -> Result<Bytes, Finding>
    ensures looked { IsLookedAt (S.stored store.old) (S.stored store.new) }
    ensures ok { IfOk result (λ bytes. (tree : Tree) (held : Room) → IsSeen (S.stored store.old) tree → slice_get tree.rooms room ≡ Some held → TellsBytes held path.now at len bytes) }
    ensures err { IfErr result (Fails (IsOrderlyFile room path.now) (S.stored store.old) (S.stored store.new)) }
    ensures unbroken { IfErr result IsNoComplaint }
{
    let answer = ask(
        store,
        &Step::ReadAt {
            room,
            folder: path.folder,
            file: path.file,
            at,
            len,
        },
    )?;
    bytes_in(answer)
}
