//! Files are written out, one after the other, on one mount.
ghost use Rattle.std.specs.Prelude.{◌≡◌, reverse, true};
ghost use Rattle.mount_sound.specs.Sound.{IsFine};
ghost use Rattle.program_ends.specs.Reported.{IsReported};
ghost use Rattle.export_program.specs.Passing.{Passes, PassesFile, SaysFilled, WritesAll, WritesEach, at};
ghost use Rattle.export_program.specs.Telling.{filled_status as status_of, is_last as ends_run, stuck_status, stuck_text};

use crate::filling::{Filled, fill};
use crate::naming::list_files;
use crate::shelf::Shelf;
use crate::telling::{filled_line, filled_status, is_last};
use edge_io::{Clock, Sink};
use mount_core::Mount;
use mount_model::Stuck;
use opening_laws::an_opening_opens_a_reader;
use outcomes::stuck_outcome;
use plfs_types::{LogicalName, Name, NameList};
use program_ends::{greater, say_line, write_out};
use reader_laws::an_open_reader_reads_its_file;
use script_lang::Line;
use std::alloc::Global;
use store_api::Store;

/// What a name came to: its status, and whether the run ends with it.
#[derive(Clone, Copy)]
struct Passed {
    status: u8,
    ends: bool,
}

/// The run ends with this status.
fn broken(status: u8) -> Passed
    ensures { (result.status ≡ status) × (result.ends ≡ true) }
{
    Passed { status, ends: true }
}

/// What a file comes to whose line is printed.
fn passed_of(filled: &Filled) -> Passed
    ensures { (result.status ≡ status_of filled.now) × (result.ends ≡ ends_run filled.now) }
{
    Passed {
        status: filled_status(filled),
        ends: is_last(filled),
    }
}

/// Prints the line of a file.
fn say_filled<O: Sink>(alloc: Global, name: LogicalName, filled: Filled, out: &mut O) -> Passed
    ensures { SaysFilled name filled (O.taking out.old) (O.taking out.new) result.status result.ends }
{
    let passed = passed_of(&filled);
    let Ok(line) = filled_line(alloc, name, filled) else {
        return broken(3);
    };
    match write_out(out, line.as_slice()) {
        Ok(()) => passed,
        Err(_) => broken(6),
    }
}

/// Writes the file of this name out, and prints its line.
fn pass_named<S: Store + Drop, C: Clock + Drop, F: Sink, H: Shelf<F>, O: Sink>(
    alloc: Global,
    mount: &mut Mount<S, C>,
    name: LogicalName,
    shelf: &mut H,
    out: &mut O,
) -> Passed
    requires { IsFine mount.old }
    ensures passes { PassesFile name (at mount.old (H.deeds shelf.old) (O.taking out.old)) (at mount.new (H.deeds shelf.new) (O.taking out.new)) result.status result.ends }
    ensures fine { IsFine mount.new }
{
    an_opening_opens_a_reader();
    an_open_reader_reads_its_file();
    let Ok(filled) = fill(alloc, mount, name, shelf) else {
        return broken(3);
    };
    say_filled(alloc, name, filled, out)
}

/// The same of a name that the store told. One that no file can have is passed over.
fn pass_told<S: Store + Drop, C: Clock + Drop, F: Sink, H: Shelf<F>, O: Sink>(
    alloc: Global,
    mount: &mut Mount<S, C>,
    name: &Name,
    shelf: &mut H,
    out: &mut O,
) -> Passed
    requires { IsFine mount.old }
    ensures passes { Passes name.now (at mount.old (H.deeds shelf.old) (O.taking out.old)) (at mount.new (H.deeds shelf.new) (O.taking out.new)) result.status result.ends }
    ensures fine { IsFine mount.new }
{
    match LogicalName::read(name.bytes()) {
        Some(name) => pass_named(alloc, mount, name, shelf, out),
        None => Passed {
            status: 0,
            ends: false,
        },
    }
}

/// Writes out the files of these names, the last one of them first. It ends behind one with which the run ends, or when all are
/// written out, and answers the greatest status.
fn pass_each<S: Store + Drop, C: Clock + Drop, F: Sink, H: Shelf<F>, O: Sink>(
    alloc: Global,
    mount: &mut Mount<S, C>,
    names: Vec<Name>,
    shelf: &mut H,
    out: &mut O,
) -> u8
    requires { IsFine mount.old }
    ensures each { WritesEach names.items (at mount.old (H.deeds shelf.old) (O.taking out.old)) (at mount.new (H.deeds shelf.new) (O.taking out.new)) result }
    ensures fine { IsFine mount.new }
{
    let mut rest = names;
    let mut status = 0;
    while let Some(name) = rest.pop() {
        let one = pass_told(alloc, mount, &name, shelf, out);
        status = greater(status, one.status);
        if one.ends {
            return status;
        }
    }
    status
}

/// The names, the last one first.
fn backwards(names: NameList) -> Vec<Name>
    ensures { result.items ≡ reverse names }
{
    let mut names = names.into_vec();
    names.reverse();
    names
}

/// Says why the names can't be had, and answers the status.
fn say_unlisted<O: Sink>(alloc: Global, out: &mut O, why: Stuck) -> u8
    ensures { IsReported (stuck_text why) (stuck_status why) (O.taking out.old) (O.taking out.new) result }
{
    let line = Line {
        number: 0,
        outcome: stuck_outcome(why),
    };
    say_line(alloc, out, line)
}

/// Writes out all files, in the order in which the store names them, and answers the greatest status.
pub(crate) fn pass_all<S: Store + Drop, C: Clock + Drop, F: Sink, H: Shelf<F>, O: Sink>(
    alloc: Global,
    mount: &mut Mount<S, C>,
    shelf: &mut H,
    out: &mut O,
) -> u8
    requires { IsFine mount.old }
    ensures all { WritesAll (at mount.old (H.deeds shelf.old) (O.taking out.old)) (at mount.new (H.deeds shelf.new) (O.taking out.new)) result }
    ensures fine { IsFine mount.new }
{
    let Ok(listed) = list_files(mount) else {
        return 3;
    };
    match listed {
        Ok(names) => pass_each(alloc, mount, backwards(names), shelf, out),
        Err(why) => say_unlisted(alloc, out, why),
    }
}
