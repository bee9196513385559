//! The whole of a run that needs no threads: words, input, script, mount, work, output, status.
ghost use Rattle.std.specs.Prelude.{◌≡◌, ◌≢◌, ◌⊎◌, ℕ, List, Option, Some, option_map};
ghost use Rattle.command_line.specs.Commands.{IsCommand};
ghost use Rattle.edge_io.specs.Source.{Given};
ghost use Rattle.command_line.specs.declared.commands.Command.{Command as Asked};
ghost use Rattle.command_line.specs.declared.commands.Command.TheVariants.{Play, Cat, Migrate, Names, Unpack};
ghost use Rattle.plfs_types.specs.Names.{IsLogicalName};
ghost use Rattle.plfs_program.specs.Commands.{IsBuiltCommand, IsPlanned, FitsCommand};
ghost use Rattle.script_lang.specs.Faults.{HasFault};
ghost use Rattle.script_lang.specs.Grammar.{IsScript};
ghost use Rattle.script_lang.specs.Ranges.{FitsScript};
ghost use Rattle.run_core.specs.Conditions.{IsPlayable};
ghost use Rattle.plfs_program.specs.Complete.{IsAsked, HadNoTrouble};
ghost use Rattle.program_ends.specs.Outcomes.{IsDone};
ghost use Rattle.plfs_program.specs.Course.{Course, InputCourse};
ghost use Rattle.plfs_program.specs.Plainly.{GoesPlainly};
ghost use Rattle.plfs_program.specs.Playing.{PlayCourse};
ghost use Rattle.plfs_program.specs.Repeated.{IsRepeatable, IsRepeatableWithFaults};
ghost use Rattle.program_ends.specs.Ends.{ends_of, IsSaid};
ghost use Rattle.program_ends.specs.Output.{IsPrinted, IsCutOff};
ghost use Rattle.plfs_program.specs.Showing.{shows_of};
ghost use Rattle.program_ends.specs.SoundTrees.{TellsSoundTree, LeavesSoundTree};
ghost use Rattle.plfs_program.specs.UnitTrees.{AskForUnits};
ghost use Rattle.plfs_program.specs.Ways.{Way, by_turns};

use crate::cat::cat_mounted;
use crate::commands::{Built, Plan, built_command};
use crate::faults::fault_line;
use crate::input::{Input, NoInput};
use crate::migrating::migrate_mounted;
use crate::pack_run::pack;
use crate::plain_run_laws::small_files_are_the_machines;
use crate::program_replay_laws::{faulted_runs_print_the_same, single_runs_print_the_same};
use crate::reporting::report;
use crate::showing::Shown;
use crate::small_files::{names_mounted, unpack_mounted};
use crate::work::{Worked, work};
use command_line::Command;
use edge_io::{Clock, Sink};
use mount_core::Mount;
use mount_sound::a_failed_mounting_leaves_a_sound_tree;
use pack_input::inputs_are_told_apart;
use packing_laws::{
    a_container_of_units_shows_no_damage, a_fault_is_the_stores, a_mounting_leaves_units_alone,
    who_names_sees_one_file, who_unpacks_sees_one_file,
};
use plain_plays::packings_are_plain;
use plfs_types::{LogicalName, Word};
use program_ends::{Ended, USAGE, ends, say, say_unmounted};
use script_lang::{Kind, Script, ScriptTrouble, scripts_are_told_apart};
use std::alloc::Global;
use store_api::Store;

// Plays the script on the store, and prints what is shown of its lines.
fn play_script<S: Store + Drop, C: Clock + Drop, O: Sink>(
    alloc: Global,
    script: &Script,
    shown: Shown,
    out: &mut O,
    store: S,
    clock: C,
) -> Ended<S>
    requires { IsPlayable script.now }
    ensures { PlayCourse by_turns script.now (shows_of shown) (ends_of (C.times clock) (O.taking out.old) (O.taking out.new) (S.stored store) (option_map S.stored result.store)) result.status }
{
    let Worked { store, lines } = work(alloc, store, clock, script);
    let Ok(lines) = lines else {
        return ends(store, 3);
    };
    let status = report(alloc, out, lines, shown);
    ends(store, status)
}

/// Ends where the script has this fault.
#[inline(never)]
pub(crate) fn end_faulty<S: Store, O: Sink>(
    alloc: Global,
    line: u64,
    kind: Kind,
    out: &mut O,
    store: S,
) -> Ended<S>
    ensures { (way : Way) (bytes : List ℕ) (times : Option (List ℕ)) → HasFault bytes (record { line = line; kind = kind }) → InputCourse way bytes (ends_of times (O.taking out.old) (O.taking out.new) (S.stored store) (option_map S.stored result.store)) result.status }
{
    let Ok(text) = fault_line(alloc, line, kind) else {
        return ends(store, 3);
    };
    say(out, &text);
    ends(store, 2)
}

// Plays the script that was read.
fn play_read<S: Store + Drop, C: Clock + Drop, O: Sink>(
    alloc: Global,
    script: &Script,
    out: &mut O,
    store: S,
    clock: C,
) -> Ended<S>
    requires { FitsScript script.now }
    ensures { (bytes : List ℕ) → IsScript bytes script.now → InputCourse by_turns bytes (ends_of (C.times clock) (O.taking out.old) (O.taking out.new) (S.stored store) (option_map S.stored result.store)) result.status }
{
    play_script(alloc, script, Shown::All, out, store, clock)
}

// Plays the script that these bytes are.
fn play_input<S: Store + Drop, C: Clock + Drop, O: Sink>(
    alloc: Global,
    bytes: &[u8],
    out: &mut O,
    store: S,
    clock: C,
) -> Ended<S>
    ensures { InputCourse by_turns bytes.now (ends_of (C.times clock) (O.taking out.old) (O.taking out.new) (S.stored store) (option_map S.stored result.store)) result.status }
{
    match Script::read(alloc, bytes) {
        Ok(script) => play_read(alloc, &script, out, store, clock),
        Err(ScriptTrouble::Fault { line, kind }) => end_faulty(alloc, line, kind, out, store),
        Err(ScriptTrouble::NoMemory) => ends(store, 3),
    }
}

// Reads the input, and plays it.
fn play<S: Store + Drop, C: Clock + Drop, I: Input, O: Sink>(
    alloc: Global,
    input: &mut I,
    out: &mut O,
    store: S,
    clock: C,
) -> Ended<S>
    ensures { (words : List (List ℕ)) → IsCommand words Play → Course IsBuiltCommand words (I.given input.old) (I.given input.new) (ends_of (C.times clock) (O.taking out.old) (O.taking out.new) (S.stored store) (option_map S.stored result.store)) result.status }
{
    match input.rest(alloc) {
        Ok(bytes) => play_input(alloc, bytes.as_slice(), out, store, clock),
        Err(NoInput::Failed) => ends(store, 5),
        Err(NoInput::NoMemory) => ends(store, 3),
    }
}

// Plays the script that the words of a command tell.
fn play_plan<S: Store + Drop, C: Clock + Drop, I: Input, O: Sink>(
    alloc: Global,
    plan: &Plan,
    input: &mut I,
    out: &mut O,
    store: S,
    clock: C,
) -> Ended<S>
    requires fits { FitsScript plan.now.script }
    ensures { (words : List (List ℕ)) (command : Asked) → IsCommand words command → IsPlanned command plan.now → Course IsBuiltCommand words (I.given input.old) (I.given input.new) (ends_of (C.times clock) (O.taking out.old) (O.taking out.new) (S.stored store) (option_map S.stored result.store)) result.status }
{
    play_script(alloc, &plan.script, plan.shown, out, store, clock)
}

// Writes a file out. What one command has on the stack is not to stand in the frames of the others: so each stays out of line.
#[inline(never)]
fn cat<S: Store + Drop, C: Clock + Drop, I: Input, O: Sink>(
    alloc: Global,
    name: LogicalName,
    input: &mut I,
    out: &mut O,
    store: S,
    clock: C,
) -> Ended<S>
    requires { IsLogicalName name }
    ensures { (words : List (List ℕ)) → IsCommand words (Cat name) → Course IsBuiltCommand words (I.given input.old) (I.given input.new) (ends_of (C.times clock) (O.taking out.old) (O.taking out.new) (S.stored store) (option_map S.stored result.store)) result.status }
{
    match Mount::open(alloc, store, clock) {
        Ok(mount) => {
            let mut mount = mount;
            let status = cat_mounted(alloc, &mut mount, name, out);
            ends(mount.close(), status)
        }
        Err((store, trouble)) => {
            let status = say_unmounted(alloc, out, trouble);
            ends(store, status)
        }
    }
}

// Packs the closed writers of a file.
#[inline(never)]
fn migrate<S: Store + Drop, C: Clock + Drop, I: Input, O: Sink>(
    alloc: Global,
    name: LogicalName,
    input: &mut I,
    out: &mut O,
    store: S,
    clock: C,
) -> Ended<S>
    ensures { (words : List (List ℕ)) → IsCommand words (Migrate name) → Course IsBuiltCommand words (I.given input.old) (I.given input.new) (ends_of (C.times clock) (O.taking out.old) (O.taking out.new) (S.stored store) (option_map S.stored result.store)) result.status }
{
    match Mount::open(alloc, store, clock) {
        Ok(mount) => {
            let mut mount = mount;
            let status = migrate_mounted(alloc, &mut mount, name, out);
            ends(mount.close(), status)
        }
        Err((store, trouble)) => {
            let status = say_unmounted(alloc, out, trouble);
            ends(store, status)
        }
    }
}

// Writes one small file of a container out.
#[inline(never)]
fn unpack<S: Store + Drop, C: Clock + Drop, I: Input, O: Sink>(
    alloc: Global,
    name: LogicalName,
    file: LogicalName,
    input: &mut I,
    out: &mut O,
    store: S,
    clock: C,
) -> Ended<S>
    ensures { (words : List (List ℕ)) → IsCommand words (Unpack name file) → Course IsBuiltCommand words (I.given input.old) (I.given input.new) (ends_of (C.times clock) (O.taking out.old) (O.taking out.new) (S.stored store) (option_map S.stored result.store)) result.status }
{
    who_unpacks_sees_one_file();
    a_mounting_leaves_units_alone();
    a_container_of_units_shows_no_damage();
    a_fault_is_the_stores();
    match Mount::open(alloc, store, clock) {
        Ok(mount) => {
            let mut mount = mount;
            let status = unpack_mounted(alloc, &mut mount, name, &file, out);
            ends(mount.close(), status)
        }
        Err((store, trouble)) => {
            let status = say_unmounted(alloc, out, trouble);
            ends(store, status)
        }
    }
}

// Names the small files of a container.
#[inline(never)]
fn names<S: Store + Drop, C: Clock + Drop, I: Input, O: Sink>(
    alloc: Global,
    name: LogicalName,
    input: &mut I,
    out: &mut O,
    store: S,
    clock: C,
) -> Ended<S>
    ensures { (words : List (List ℕ)) → IsCommand words (Names name) → Course IsBuiltCommand words (I.given input.old) (I.given input.new) (ends_of (C.times clock) (O.taking out.old) (O.taking out.new) (S.stored store) (option_map S.stored result.store)) result.status }
{
    who_names_sees_one_file();
    a_mounting_leaves_units_alone();
    a_container_of_units_shows_no_damage();
    a_fault_is_the_stores();
    match Mount::open(alloc, store, clock) {
        Ok(mount) => {
            let mut mount = mount;
            let status = names_mounted(alloc, &mut mount, name, out);
            ends(mount.close(), status)
        }
        Err((store, trouble)) => {
            let status = say_unmounted(alloc, out, trouble);
            ends(store, status)
        }
    }
}

/// Prints the usage line.
#[inline(never)]
pub(crate) fn refuse<S: Store, O: Sink>(out: &mut O, store: S) -> Ended<S>
    ensures { (words : List (List ℕ)) (given : Given) (times : Option (List ℕ)) → ((command : Asked) → IsBuiltCommand command → IsCommand words command → ⊥)
        → Course IsBuiltCommand words given given (ends_of times (O.taking out.old) (O.taking out.new) (S.stored store) (option_map S.stored result.store)) result.status }
{
    say(out, USAGE);
    ends(store, 2)
}

/// Does what the words of this command ask for, where no other command has them.
#[inline(never)]
pub(crate) fn obey<S: Store + Drop, C: Clock + Drop, I: Input, O: Sink>(
    alloc: Global,
    command: Command,
    input: &mut I,
    out: &mut O,
    store: S,
    clock: C,
) -> Ended<S>
    requires { FitsCommand command }
    ensures { (words : List (List ℕ)) → IsCommand words command → ((other : Asked) → IsCommand words other → other ≡ command)
        → Course IsBuiltCommand words (I.given input.old) (I.given input.new) (ends_of (C.times clock) (O.taking out.old) (O.taking out.new) (S.stored store) (option_map S.stored result.store)) result.status }
{
    let Ok(built) = built_command(alloc, command) else {
        return ends(store, 3);
    };
    let Some(built) = built else {
        return refuse(out, store);
    };
    match built {
        Built::Play => play(alloc, input, out, store, clock),
        Built::Cat { name } => cat(alloc, name, input, out, store, clock),
        Built::Migrate { name } => migrate(alloc, name, input, out, store, clock),
        Built::Pack { name, region } => pack(alloc, name, region, input, out, store, clock),
        Built::Unpack { name, file } => unpack(alloc, name, file, input, out, store, clock),
        Built::Names { name } => names(alloc, name, input, out, store, clock),
        Built::Planned(plan) => play_plan(alloc, &plan, input, out, store, clock),
    }
}

// Reads the words, and does what they ask for.
fn follow<S: Store + Drop, C: Clock + Drop, I: Input, O: Sink>(
    alloc: Global,
    words: &[Word],
    input: &mut I,
    out: &mut O,
    store: S,
    clock: C,
) -> Ended<S>
    ensures { Course IsBuiltCommand words.now (I.given input.old) (I.given input.new) (ends_of (C.times clock) (O.taking out.old) (O.taking out.new) (S.stored store) (option_map S.stored result.store)) result.status }
{
    let Ok(command) = Command::read(alloc, words) else {
        return ends(store, 3);
    };
    let Some(command) = command else {
        return refuse(out, store);
    };
    obey(alloc, command, input, out, store, clock)
}

/// Runs a command that waits for nobody: reads the words, the input and the script, mounts the store, works, and
/// prints a line for each statement.
///
/// `play` reads a script from the input. A script with a fault prints `script`, the fault's line and its kind. `stat`, `recover`, `trunc`, `rename`, `ls` and `flatten` make
/// this one statement of one actor, and print its line with number 0; `map` opens a reader first, whose line is shown where
/// it is none. `cat` writes a file out, each piece before the next one is read; a trouble behind the opening has no line. `gen` plays the generated script, and prints how many lines of each kind it has, and the file's size.
/// `migrate` packs the index droppings of a file's closed writers, and prints how many writers, entries and runs it packed and how many
/// writers it left, or its trouble's line with number 0. Words that are no command, or one that wants threads, print the usage line.
///
/// `pack` reads small files from the input, and puts them into a region of a container, each by one write. It prints how many it put,
/// and where the last one ends. An input with a fault prints `pack`, the fault's line and its kind, and nothing is done. Where a file
/// would pass the region's end, those before it are kept, and the line is `refused region-full`. `unpack` writes one small file of a
/// container out, and `names` names all. What these three lack or what breaks them off is the line with number 0; `damaged view` tells
/// the first place of the file that breaks a rule of small files.
///
/// What is printed is the text of the lines of a play: from the mounting to the end, the script's actors made their calls in
/// the order of the written turns, each call following from the replies before it, and these are the lines of their
/// statements. What is left of the store is what these calls made of it, or where the mounting broke off. That is line 0
/// alone: a fault, `refused mounts-spent`, or damage in `mounts`. `marks_are_why` says what a told tree's marks have to do
/// with it, and `marks_decide` that its answers exclude each other.
///
/// Where the store told a sound tree, the lines of each reader of the play are those of one plain file, which `cat` writes,
/// or a front of it; `migrate` leaves no closed writer out, but those whose entries are too many, and its counts are right; `unpack` and
/// `names` saw one file of the container, and where that has bytes below 256, they tell what stands there, or its first place that breaks a
/// rule, or the store failed; and a sound tree is left. Where moreover the container whose small files are packed or read has only units, no
/// line tells of damage, and the status is not 7.
/// Where besides that the words are those of a command, the script or the small files have no fault, no count of the source, the sink or the
/// store has risen and the sink took something of each piece, the status is 0, 1 or 3. A fault is told only where a count of the store has risen.
///
/// Where no such count has risen and memory sufficed, what is shown of a script's lines is printed whole. If it has no `turn` and no `stop` lines, these
/// are the lines that a plain machine says, which takes each statement in one step, as they are written. It begins with what the store has. Where the store
/// told a sound tree there is such a machine, unless no mark is left, which line 0 says alone. In the tree that is left each writer that the machine has at the
/// end has its droppings. `cat` then prints the bytes of the machine's file, all of them and in their order, or `refused no-file` where that has none of the name.
/// `unpack` and `names` tell what stands in that file, or its first place that breaks a rule. Premise: its bytes are below 256. They leave the machine as it was.
/// `migrate` leaves the machine its files, and has it draw a serial for each writer that is packed. What it counts are writers of the machine's room. These three
/// too print `refused no-file` just where the machine has no file of the name. `migrate` is refused else only where no serial is left for a further writer.
/// `pack` then opens a writer, writes each file behind those that the machine's file has in the region, syncs and closes, as one actor of the machine does by
/// statements. Its line follows from that, where the machine's file has bytes below 256.
/// Then each further run of these words that begins on such a store, with such a clock and before the same input, prints the same, with the same status, and
/// leaves the same store. So it is where acts of the store faulted, if those of both runs left the same stores, in the same order.
pub fn single<S: Store + Drop, C: Clock + Drop, I: Input, O: Sink>(
    alloc: Global,
    words: &[Word],
    input: &mut I,
    out: &mut O,
    store: S,
    clock: C,
) -> Ended<S>
    ensures course { Course IsBuiltCommand words.now (I.given input.old) (I.given input.new) (ends_of (C.times clock) (O.taking out.old) (O.taking out.new) (S.stored store) (option_map S.stored result.store)) result.status }
    ensures undamaged { TellsSoundTree (S.stored store) → AskForUnits words.now (S.stored store) → result.status ≢ 7 }
    ensures sound { TellsSoundTree (S.stored store) → LeavesSoundTree (option_map S.stored result.store) }
    ensures complete { TellsSoundTree (S.stored store) → AskForUnits words.now (S.stored store) → IsAsked IsBuiltCommand words.now (I.given input.old) (I.given input.new) → HadNoTrouble (I.given input.old) (I.given input.new) (ends_of (C.times clock) (O.taking out.old) (O.taking out.new) (S.stored store) (option_map S.stored result.store)) → IsDone result.status }
    ensures plain { HadNoTrouble (I.given input.old) (I.given input.new) (ends_of (C.times clock) (O.taking out.old) (O.taking out.new) (S.stored store) (option_map S.stored result.store)) → result.status ≢ 3 → GoesPlainly words.now (I.given input.old) (ends_of (C.times clock) (O.taking out.old) (O.taking out.new) (S.stored store) (option_map S.stored result.store)) result.status }
    ensures repeatable { IsRepeatable words.now (I.given input.old) (I.given input.new) (ends_of (C.times clock) (O.taking out.old) (O.taking out.new) (S.stored store) (option_map S.stored result.store)) result.status }
    ensures repeatable_with_faults { IsRepeatableWithFaults words.now (I.given input.old) (I.given input.new) (ends_of (C.times clock) (O.taking out.old) (O.taking out.new) (S.stored store) (option_map S.stored result.store)) result.status }
{
    a_failed_mounting_leaves_a_sound_tree();
    scripts_are_told_apart();
    inputs_are_told_apart();
    packings_are_plain();
    small_files_are_the_machines();
    single_runs_print_the_same();
    faulted_runs_print_the_same();
    follow(alloc, words, input, out, store, clock)
}
