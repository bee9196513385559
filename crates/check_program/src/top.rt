//! The whole of a run: words, looks, output, status.
ghost use Rattle.std.specs.Prelude.{◌≡◌, ◌∷◌, [], List, ℕ, Option, None, Some, option_map};
ghost use Rattle.store_api.specs.declared.tree.Tree.{Tree};
ghost use Rattle.store_api.specs.AllKept.{all_kept};
ghost use Rattle.mount_sound.specs.Sound.{IsSoundTree};
ghost use Rattle.tree_laws.specs.Checked.{HoldsBytes};
ghost use Rattle.tree_laws.specs.Complaints.{InRoomOf};
ghost use Rattle.shape_check.specs.Seeing.{IsLookedAt};
ghost use Rattle.tree_check.specs.Rooms.{IsRightRoom};
ghost use Rattle.program_ends.specs.Ends.{ends_of};
ghost use Rattle.check_program.specs.declared.words.CheckCommand.{CheckCommand as Asked};
ghost use Rattle.check_program.specs.declared.words.CheckCommand.TheVariants.{All, One};
ghost use Rattle.check_program.specs.Course.{CheckCourse, ChecksOn};
ghost use Rattle.check_program.specs.Verdict.{HasFailed, IsUnchanged, IsVerdict, Tells, WorkedWell};
ghost use Rattle.check_program.specs.Words.{IsCheckCommand};

use crate::rooms::check_names;
use crate::saying::say_halt;
use crate::watching::Watcher;
use crate::words::CheckCommand;
use edge_io::Sink;
use plfs_types::{Name, Word};
use program_ends::{Ended, ends, say, say_text};
use std::alloc::Global;
use store_api::Store;
use tree_check::{room_names, room_number};
use tree_laws::{a_checked_tree_is_sound, a_complaint_denies_soundness};

/// The usage line, which words outside the grammar print, with its line feed.
pub const USAGE: &[u8] = b"usage: plfs_check ROOT [NAME]\n";

// Checks all rooms, and answers the status.
fn check_all<S: Store, O: Sink, W: Watcher>(
    alloc: Global,
    out: &mut O,
    watcher: &mut W,
    store: &mut S,
) -> u8
    ensures looked { IsLookedAt (S.stored store.old) (S.stored store.new) }
    ensures course { ChecksOn All (S.stored store.old) (S.stored store.new) (O.taking out.old) (O.taking out.new) result }
{
    let names = match room_names(store) {
        Ok(names) => names,
        Err(halt) => return say_halt(alloc, out, Name::empty(), halt),
    };
    check_names(alloc, out, watcher, store, names.as_slice())
}

// Checks the room of this name, and answers the status.
fn check_one<S: Store, O: Sink, W: Watcher>(
    alloc: Global,
    out: &mut O,
    watcher: &mut W,
    store: &mut S,
    name: Name,
) -> u8
    ensures looked { IsLookedAt (S.stored store.old) (S.stored store.new) }
    ensures course { ChecksOn (One name) (S.stored store.old) (S.stored store.new) (O.taking out.old) (O.taking out.new) result }
{
    let number = match room_number(store, name) {
        Ok(number) => number,
        Err(halt) => return say_halt(alloc, out, name, halt),
    };
    match number {
        Some(_number) => check_names(alloc, out, watcher, store, &[name]),
        None => say_text(out, b"0 refused no-file\n", 1),
    }
}

// Checks the rooms that are asked for, and answers the status.
fn obey<S: Store, O: Sink, W: Watcher>(
    alloc: Global,
    command: CheckCommand,
    out: &mut O,
    watcher: &mut W,
    store: &mut S,
) -> u8
    ensures looked { IsLookedAt (S.stored store.old) (S.stored store.new) }
    ensures course { ChecksOn command (S.stored store.old) (S.stored store.new) (O.taking out.old) (O.taking out.new) result }
{
    match command {
        CheckCommand::All => check_all(alloc, out, watcher, store),
        CheckCommand::One { name } => check_one(alloc, out, watcher, store, name.name()),
    }
}

// Checks the rooms that are asked for.
fn follow<S: Store, O: Sink, W: Watcher>(
    alloc: Global,
    command: CheckCommand,
    out: &mut O,
    watcher: &mut W,
    store: S,
) -> Ended<S>
    ensures { (words : List (List ℕ)) (times : Option (List ℕ)) → IsCheckCommand words command → CheckCourse words (ends_of times (O.taking out.old) (O.taking out.new) (S.stored store) (option_map S.stored result.store)) result.status }
{
    let mut store = store;
    let status = obey(alloc, command, out, watcher, &mut store);
    ends(store, status)
}

// Prints the usage line.
fn refuse<S: Store, O: Sink>(out: &mut O, store: S) -> Ended<S>
    ensures { (words : List (List ℕ)) (times : Option (List ℕ)) → ((command : Asked) → IsCheckCommand words command → ⊥)
        → CheckCourse words (ends_of times (O.taking out.old) (O.taking out.new) (S.stored store) (option_map S.stored result.store)) result.status }
{
    say(out, USAGE);
    ends(store, 2)
}

// Does what the words ask for.
fn run<S: Store, O: Sink, W: Watcher>(
    alloc: Global,
    words: &[Word],
    out: &mut O,
    watcher: &mut W,
    store: S,
) -> Ended<S>
    ensures { (times : Option (List ℕ)) → CheckCourse words.now (ends_of times (O.taking out.old) (O.taking out.new) (S.stored store) (option_map S.stored result.store)) result.status }
{
    let Some(command) = CheckCommand::read(words) else {
        return refuse(out, store);
    };
    follow(alloc, command, out, watcher, store)
}

/// Checks whether the tree of the store is sound, or the container of one name is as in a sound tree, where all bytes are kept.
///
/// It prints `sound`, with status 0, or a line for each complaint, with status 7: `broken`, the kind, the container, the item and
/// the place. They come room by room in the order of the rooms' names, each room's before the next one is looked at. A container with
/// another shape than that of a sound tree, with two hosts of a writer or two truncates of one stamp has one line; another one has a
/// line for each item that isn't as in a sound tree. Where the store fails, the last line is `0 fault`, with status 4. Where no room has
/// the name, the line is `0 refused no-file`, with status 1. Words outside the grammar print the usage line, with status 2. Where memory is
/// refused there is no further line, and the status is 3. Where the sink broke it is 6. A store that tells its tree is never `unreadable`.
///
/// It makes looks alone: no mount is made, and nothing changes.
pub fn check<S: Store, O: Sink, W: Watcher>(
    alloc: Global,
    words: &[Word],
    out: &mut O,
    watcher: &mut W,
    store: S,
) -> Ended<S>
    // What is printed is what is complained of the rooms, one behind the other, or why no more is.
    ensures course { CheckCourse words.now (ends_of None (O.taking out.old) (O.taking out.new) (S.stored store) (option_map S.stored result.store)) result.status }
    // Where all rooms were checked and nothing is complained of, the tree is sound, once all its bytes are kept.
    ensures sound { (tree : Tree) → Tells (S.stored store) tree → HoldsBytes tree → words.now ≡ [] → result.status ≡ 0 → IsSoundTree (all_kept tree) }
    // Where one room was, it is as in a sound tree.
    ensures fine { (tree : Tree) (name : List ℕ) → Tells (S.stored store) tree → words.now ≡ name ∷ [] → result.status ≡ 0 → InRoomOf (all_kept tree) name (IsRightRoom (all_kept tree)) }
    // Where anything is complained of, the tree isn't sound.
    ensures broken { (tree : Tree) → Tells (S.stored store) tree → result.status ≡ 7 → IsSoundTree (all_kept tree) → ⊥ }
    // The store failed where the status says so.
    ensures fault { result.status ≡ 4 → HasFailed (S.stored store) (option_map S.stored result.store) }
    // Where nothing failed there is a verdict, but for want of memory.
    ensures complete { WorkedWell (ends_of None (O.taking out.old) (O.taking out.new) (S.stored store) (option_map S.stored result.store)) → IsVerdict result.status }
    // Nothing changes.
    ensures unchanged { IsUnchanged (S.stored store) (option_map S.stored result.store) }
{
    a_checked_tree_is_sound();
    a_complaint_denies_soundness();
    run(alloc, words, out, watcher, store)
}
