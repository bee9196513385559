//! The whole of a run with threads: `run` has the script's actors make their calls on threads, and all other words go as
//! they go without threads.
ghost use Rattle.std.specs.Prelude.{◌≡◌, ◌≢◌, ℕ, List, true, false, option_map};
ghost use Rattle.command_line.specs.Commands.{IsCommand};
ghost use Rattle.command_line.specs.declared.commands.Command.TheVariants.{Run};
ghost use Rattle.script_lang.specs.Grammar.{IsScript};
ghost use Rattle.script_lang.specs.Ranges.{FitsScript};
ghost use Rattle.run_core.specs.Conditions.{IsPlayable};
ghost use Rattle.plfs_program.specs.Commands.{IsServed};
ghost use Rattle.plfs_program.specs.Complete.{IsAsked, HadNoTrouble};
ghost use Rattle.program_ends.specs.Outcomes.{IsDone};
ghost use Rattle.plfs_program.specs.Course.{Course, InputCourse};
ghost use Rattle.program_ends.specs.Ends.{ends_of};
ghost use Rattle.plfs_program.specs.Plainly.{GoesPlainly};
ghost use Rattle.plfs_program.specs.Playing.{PlayCourse};
ghost use Rattle.plfs_program.specs.Showing.{all_lines};
ghost use Rattle.program_ends.specs.SoundTrees.{TellsSoundTree, LeavesSoundTree};
ghost use Rattle.plfs_program.specs.UnitTrees.{AskForUnits};
ghost use Rattle.plfs_program.specs.Ways.{on_threads};

use crate::input::{Input, NoInput};
use crate::plain_run_laws::small_files_are_the_machines;
use crate::reporting::report;
use crate::showing::Shown;
use crate::top::{end_faulty, obey, refuse};
use crate::work::{Worked, work_on_threads};
use command_line::Command;
use edge_io::{Clock, Gate, Sink};
use mount_sound::a_failed_mounting_leaves_a_sound_tree;
use pack_input::inputs_are_told_apart;
use plain_plays::packings_are_plain;
use plfs_types::Word;
use program_ends::{Ended, ends};
use script_lang::{Script, ScriptTrouble, scripts_are_told_apart};
use std::alloc::Global;
use std::sync::Wait;
use std::thread::Threads;
use store_api::Store;

// Runs the script on the store, and prints its lines.
fn run_script<
    R: Threads + Wait + Sync,
    S: Store + Drop + Send,
    C: Clock + Drop + Send,
    O: Sink,
    G: Gate + Sync,
>(rt: &R, alloc: Global, script: &Script, out: &mut O, store: S, clock: C, gate: &G) -> Ended<S>
    requires { IsPlayable script.now }
    ensures { PlayCourse on_threads script.now all_lines (ends_of (C.times clock) (O.taking out.old) (O.taking out.new) (S.stored store) (option_map S.stored result.store)) result.status }
{
    let Worked { store, lines } = work_on_threads(rt, alloc, store, clock, script, gate);
    let Ok(lines) = lines else {
        return ends(store, 3);
    };
    let status = report(alloc, out, lines, Shown::All);
    ends(store, status)
}

// Runs the script that was read.
fn run_read<
    R: Threads + Wait + Sync,
    S: Store + Drop + Send,
    C: Clock + Drop + Send,
    O: Sink,
    G: Gate + Sync,
>(rt: &R, alloc: Global, script: &Script, out: &mut O, store: S, clock: C, gate: &G) -> Ended<S>
    requires { FitsScript script.now }
    ensures { (bytes : List ℕ) → IsScript bytes script.now → InputCourse on_threads bytes (ends_of (C.times clock) (O.taking out.old) (O.taking out.new) (S.stored store) (option_map S.stored result.store)) result.status }
{
    run_script(rt, alloc, script, out, store, clock, gate)
}

// Runs the script that these bytes are.
fn run_input<
    R: Threads + Wait + Sync,
    S: Store + Drop + Send,
    C: Clock + Drop + Send,
    O: Sink,
    G: Gate + Sync,
>(rt: &R, alloc: Global, bytes: &[u8], out: &mut O, store: S, clock: C, gate: &G) -> Ended<S>
    ensures { InputCourse on_threads bytes.now (ends_of (C.times clock) (O.taking out.old) (O.taking out.new) (S.stored store) (option_map S.stored result.store)) result.status }
{
    match Script::read(alloc, bytes) {
        Ok(script) => run_read(rt, alloc, &script, out, store, clock, gate),
        Err(ScriptTrouble::Fault { line, kind }) => end_faulty(alloc, line, kind, out, store),
        Err(ScriptTrouble::NoMemory) => ends(store, 3),
    }
}

// Reads the input, and runs it. What it has on the stack is not to stand in the frame of the other commands.
#[inline(never)]
fn run<
    R: Threads + Wait + Sync,
    S: Store + Drop + Send,
    C: Clock + Drop + Send,
    I: Input,
    O: Sink,
    G: Gate + Sync,
>(rt: &R, alloc: Global, input: &mut I, out: &mut O, store: S, clock: C, gate: &G) -> Ended<S>
    ensures { (words : List (List ℕ)) → IsCommand words Run → Course IsServed words (I.given input.old) (I.given input.new) (ends_of (C.times clock) (O.taking out.old) (O.taking out.new) (S.stored store) (option_map S.stored result.store)) result.status }
{
    match input.rest(alloc) {
        Ok(bytes) => run_input(rt, alloc, bytes.as_slice(), out, store, clock, gate),
        Err(NoInput::Failed) => ends(store, 5),
        Err(NoInput::NoMemory) => ends(store, 3),
    }
}

// Whether the command is `run`.
fn is_run(command: &Command) -> bool
    ensures run { result ≡ true → command.now ≡ Run }
    ensures other { result ≡ false → command.now ≢ Run }
{
    matches!(command, Command::Run)
}

// Reads the words, and does what they ask for.
fn follow<
    R: Threads + Wait + Sync,
    S: Store + Drop + Send,
    C: Clock + Drop + Send,
    I: Input,
    O: Sink,
    G: Gate + Sync,
>(
    rt: &R,
    alloc: Global,
    words: &[Word],
    input: &mut I,
    out: &mut O,
    store: S,
    clock: C,
    gate: &G,
) -> Ended<S>
    ensures { Course IsServed words.now (I.given input.old) (I.given input.new) (ends_of (C.times clock) (O.taking out.old) (O.taking out.new) (S.stored store) (option_map S.stored result.store)) result.status }
{
    let Ok(command) = Command::read(alloc, words) else {
        return ends(store, 3);
    };
    let Some(command) = command else {
        return refuse(out, store);
    };
    if is_run(&command) {
        run(rt, alloc, input, out, store, clock, gate)
    } else {
        obey(alloc, command, input, out, store, clock)
    }
}

/// Runs a command. `run` reads a script as `play` does, and has each of its actors make the calls of a phase on a thread of
/// its own; the gate is asked before each call. All other words go as with `single`.
///
/// What is printed of a script that is run is the text of right lines: from the mounting to the end, in some order of all
/// calls, the script's actors made theirs, all of one phase before those of the next, each call following from the
/// replies before it, and these are the lines of their statements. What `single` says of a play's lines, of what is left of
/// the store, of line 0 and of the statuses holds of them too.
///
/// Where the store told a sound tree, the lines of each reader are those of one plain file, and a sound tree is left.
/// Where moreover the container whose small files are packed or read has only units, no line tells of damage, and the status is not 7.
/// Where besides that the words are those of a command, the script or the small files have no fault, no count of the source, the sink or the
/// store has risen and the sink took something of each piece, the status is 0, 1 or 3.
///
/// Where no such count has risen and memory sufficed, what is shown of the lines of a script that is played is printed whole. If it has no `turn` and no `stop`
/// lines, these are the lines that a plain machine says, as with `single`. So it is with what `cat`, `unpack`, `names` and `migrate` print.
pub fn plfs<
    R: Threads + Wait + Sync,
    S: Store + Drop + Send,
    C: Clock + Drop + Send,
    I: Input,
    O: Sink,
    G: Gate + Sync,
>(
    rt: &R,
    alloc: Global,
    words: &[Word],
    input: &mut I,
    out: &mut O,
    store: S,
    clock: C,
    gate: &G,
) -> Ended<S>
    ensures course { Course IsServed words.now (I.given input.old) (I.given input.new) (ends_of (C.times clock) (O.taking out.old) (O.taking out.new) (S.stored store) (option_map S.stored result.store)) result.status }
    ensures undamaged { TellsSoundTree (S.stored store) → AskForUnits words.now (S.stored store) → result.status ≢ 7 }
    ensures sound { TellsSoundTree (S.stored store) → LeavesSoundTree (option_map S.stored result.store) }
    ensures complete { TellsSoundTree (S.stored store) → AskForUnits words.now (S.stored store) → IsAsked IsServed words.now (I.given input.old) (I.given input.new) → HadNoTrouble (I.given input.old) (I.given input.new) (ends_of (C.times clock) (O.taking out.old) (O.taking out.new) (S.stored store) (option_map S.stored result.store)) → IsDone result.status }
    ensures plain { HadNoTrouble (I.given input.old) (I.given input.new) (ends_of (C.times clock) (O.taking out.old) (O.taking out.new) (S.stored store) (option_map S.stored result.store)) → result.status ≢ 3 → GoesPlainly words.now (I.given input.old) (ends_of (C.times clock) (O.taking out.old) (O.taking out.new) (S.stored store) (option_map S.stored result.store)) result.status }
{
    a_failed_mounting_leaves_a_sound_tree();
    scripts_are_told_apart();
    inputs_are_told_apart();
    packings_are_plain();
    small_files_are_the_machines();
    follow(rt, alloc, words, input, out, store, clock, gate)
}
