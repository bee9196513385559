//! The whole of a run: words, mount, work, output, status.
ghost use Rattle.std.specs.Prelude.{◌≡◌, ◌≢◌, ◌∷◌, [], ℕ, List, Option, IfOk, codes, option_map};
ghost use Rattle.edge_io.specs.Source.{Given};
ghost use Rattle.program_ends.specs.Ends.{ends_of};
ghost use Rattle.program_ends.specs.SoundTrees.{LeavesSoundTree, TellsSoundTree};
ghost use Rattle.copy_program.specs.Course.{CopyCourse, GetCourse};
ghost use Rattle.copy_program.specs.Words.{IsCopyCommand};
ghost use Rattle.copy_program.specs.declared.words.CopyCommand.{CopyCommand as Asked};

use crate::words::CopyCommand;
use edge_io::{Clock, Sink, Source};
use mount_sound::a_failed_mounting_leaves_a_sound_tree;
use plfs_program::single;
use plfs_types::{LogicalName, NoMemory, Word};
use program_ends::{Ended, ends, say};
use put_program::put;
use std::alloc::Global;
use std::str;
use store_api::Store;

/// The usage line, which words outside the grammar print, with its line feed.
pub const USAGE: &[u8] =
    b"usage: plfs_copy ROOT put NAME [HOST] [--over] [--from FILE..]|get NAME|import DIR [HOST] [--over]|export DIR [--over]\n";

/// The words of the command that writes a file out. The bytes of a name are text.
fn cat_words(alloc: Global, name: LogicalName) -> Result<Vec<Word>, NoMemory>
    ensures { IfOk result (λ words. words.items ≡ codes "cat" ∷ name ∷ []) }
{
    let name = name.name();
    let Ok(text) = str::from_utf8(name.bytes()) else {
        return Err(NoMemory);
    };
    let mut words = Vec::new(alloc);
    words.push(Word::copy(alloc, "cat")?)?;
    words.push(Word::copy(alloc, text)?)?;
    Ok(words)
}

/// Writes the file of this name out.
fn get<S: Store + Drop, C: Clock + Drop, I: Source, O: Sink>(
    alloc: Global,
    name: LogicalName,
    input: &mut I,
    out: &mut O,
    store: S,
    clock: C,
) -> Ended<S>
    ensures course { GetCourse name (I.given input.old) (I.given input.new) (ends_of (C.times clock) (O.taking out.old) (O.taking out.new) (S.stored store) (option_map S.stored result.store)) result.status }
    ensures undamaged { TellsSoundTree (S.stored store) → result.status ≢ 7 }
    ensures sound { TellsSoundTree (S.stored store) → LeavesSoundTree (option_map S.stored result.store) }
{
    let Ok(words) = cat_words(alloc, name) else {
        return ends(store, 3);
    };
    single(alloc, words.as_slice(), input, out, store, clock)
}

/// Prints the usage line.
fn refuse<S: Store, O: Sink>(out: &mut O, store: S) -> Ended<S>
    ensures course { (words : List (List ℕ)) (given : Given) (times : Option (List ℕ)) → ((command : Asked) → IsCopyCommand words command → ⊥)
        → CopyCourse words given given (ends_of times (O.taking out.old) (O.taking out.new) (S.stored store) (option_map S.stored result.store)) result.status }
    ensures status { result.status ≡ 2 }
    ensures sound { TellsSoundTree (S.stored store) → LeavesSoundTree (option_map S.stored result.store) }
{
    say(out, USAGE);
    ends(store, 2)
}

/// Runs a command of `plfs_copy`.
///
/// `put` copies the source into a file, each block by one write, and syncs and closes the file's writer. It prints how many bytes the file
/// has, and the writer's id. Where a read of the source fails, what came before is put all the same, and the status is 5.
/// What else breaks it off is the line with number 0. A file that is there is written over only where that is said, and else
/// refused. `get` writes a file out, as `cat` of `plfs` does. Other words print the usage line.
///
/// A fault of the store is told only where its count of faults has risen. Where the store told a sound tree, no damage is told, and a
/// sound tree is left.
pub fn copy<S: Store + Drop, C: Clock + Drop, I: Source, O: Sink>(
    alloc: Global,
    words: &[Word],
    input: &mut I,
    out: &mut O,
    store: S,
    clock: C,
) -> Ended<S>
    ensures course { CopyCourse words.now (I.given input.old) (I.given input.new) (ends_of (C.times clock) (O.taking out.old) (O.taking out.new) (S.stored store) (option_map S.stored result.store)) result.status }
    ensures undamaged { TellsSoundTree (S.stored store) → result.status ≢ 7 }
    ensures sound { TellsSoundTree (S.stored store) → LeavesSoundTree (option_map S.stored result.store) }
{
    a_failed_mounting_leaves_a_sound_tree();
    let Some(command) = CopyCommand::read(words) else {
        return refuse(out, store);
    };
    match command {
        CopyCommand::Put { name, host, over } => {
            put(alloc, name, host, over, input, out, store, clock)
        }
        CopyCommand::Get { name } => get(alloc, name, input, out, store, clock),
    }
}
