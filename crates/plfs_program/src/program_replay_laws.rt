//! The laws of runs that print the same.
ghost use Rattle.std.specs.Prelude.{◌≡◌, ◌≢◌, ℕ, List, Some};
ghost use Rattle.std.specs.List.{AllByRecursion};
ghost use Rattle.edge_io.specs.Source.{Given};
ghost use Rattle.script_lang.specs.declared.script.Script.{Script};
ghost use Rattle.step_laws.specs.Alike.{StillCounts};
ghost use Rattle.store_api.specs.Acts.{Stored};
ghost use Rattle.plfs_program.specs.Commands.{IsBuiltCommand};
ghost use Rattle.plfs_program.specs.Complete.{HadNoTrouble};
ghost use Rattle.plfs_program.specs.Course.{Course};
ghost use Rattle.plfs_program.specs.Failures.{failures_of, play_failures};
ghost use Rattle.program_ends.specs.Ends.{Ends};
ghost use Rattle.plfs_program.specs.Playing.{PlayCourse};
ghost use Rattle.plfs_program.specs.Showing.{Shows};
ghost use Rattle.plfs_program.specs.Ways.{by_turns};
ghost use Rattle.plfs_program.specs.Twice.{BeginAlike, HadNoStreamTrouble, PrintAlike};

use pack_input::inputs_are_told_apart;
use script_lang::scripts_are_told_apart;
use unit_format::others_change_nothing;

/// A law: two runs that play one script by written turns print the same text, end with the same status and leave the same
/// store. They begin on one store that tells its tree, with one clock that tells its times. No count of the sources, the
/// sinks or the stores has risen, and memory sufficed in both.
pub fn plays_print_the_same()
    ensures { (script : Script) (shows : Shows) (given after another later : Given) (e f : Ends) (status other : ℕ)
        → BeginAlike e f
        → HadNoTrouble given after e
        → HadNoTrouble another later f
        → status ≢ 3
        → other ≢ 3
        → PlayCourse by_turns script shows e status
        → PlayCourse by_turns script shows f other
        → PrintAlike e f status other }
{}

/// A law: two runs of `single` with the same words that begin so, before one input that the source tells, print the same text, end with the
/// same status and leave the same store. All of it follows from the words, the input, the store and the
/// clock.
pub fn single_runs_print_the_same()
    ensures { (words : List (List ℕ)) (input : List ℕ) (given after another later : Given) (e f : Ends) (status other : ℕ)
        → given.left ≡ Some input
        → another.left ≡ Some input
        → BeginAlike e f
        → HadNoTrouble given after e
        → HadNoTrouble another later f
        → status ≢ 3
        → other ≢ 3
        → Course IsBuiltCommand words given after e status
        → Course IsBuiltCommand words another later f other
        → PrintAlike e f status other }
{
    others_change_nothing();
    faulted_runs_print_the_same();
}

/// A law: the same of two plays in which acts of the store faulted. The faulted acts of both left the same stores, in the same order,
/// and no count of these has come to its end. The source and the sink of neither failed, and memory sufficed in both, else it is not told
/// what faulted acts left.
pub fn faulted_plays_print_the_same()
    ensures { (script : Script) (shows : Shows) (given after another later : Given) (e f : Ends) (status other : ℕ) (failures : List Stored)
        → BeginAlike e f
        → HadNoStreamTrouble given after e
        → HadNoStreamTrouble another later f
        → (play : PlayCourse by_turns script shows e status)
        → (again : PlayCourse by_turns script shows f other)
        → play_failures play ≡ Some failures
        → play_failures again ≡ Some failures
        → AllByRecursion StillCounts failures
        → PrintAlike e f status other }
{}

/// A law: the same of two runs of `single` with the same words, before one input that the source tells. So text, status and store follow from the words,
/// the input, the store, the clock and what the faulted acts left.
pub fn faulted_runs_print_the_same()
    ensures { (words : List (List ℕ)) (input : List ℕ) (given after another later : Given) (e f : Ends) (status other : ℕ) (failures : List Stored)
        → given.left ≡ Some input
        → another.left ≡ Some input
        → BeginAlike e f
        → HadNoStreamTrouble given after e
        → HadNoStreamTrouble another later f
        → (course : Course IsBuiltCommand words given after e status)
        → (repeated : Course IsBuiltCommand words another later f other)
        → failures_of course ≡ Some failures
        → failures_of repeated ≡ Some failures
        → AllByRecursion StillCounts failures
        → PrintAlike e f status other }
{
    scripts_are_told_apart();
    inputs_are_told_apart();
    others_change_nothing();
}
