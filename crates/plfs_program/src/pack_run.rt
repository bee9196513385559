//! The whole of a run that packs small files: input, files, mount, work, output, status.
ghost use Rattle.std.specs.Prelude.{◌≡◌, ◌<◌, ◌≤◌, ◌⊎◌, ℕ, List, Option, length, option_map};
ghost use Rattle.std.specs.List.{All};
ghost use Rattle.command_line.specs.Commands.{IsCommand};
ghost use Rattle.command_line.specs.declared.commands.Command.TheVariants.{Pack};
ghost use Rattle.unit_format.specs.declared.units.TheConstants.{MAX_CONTENT, REGIONS};
ghost use Rattle.pack_input.specs.Input.{HasFault};
ghost use Rattle.pack_input.specs.declared.files.NamedFile.{NamedFile};
ghost use Rattle.plfs_program.specs.Commands.{IsBuiltCommand};
ghost use Rattle.plfs_program.specs.Course.{Course};
ghost use Rattle.program_ends.specs.Ends.{ends_of};
ghost use Rattle.plfs_program.specs.Packing.{PackCourse, PackInputCourse};

use crate::input::{Input, NoInput};
use crate::packing::{pack_fault_line, pack_mounted};
use edge_io::{Clock, Sink};
use mount_core::Mount;
use pack_input::{FileList, InputTrouble, Kind, read};
use packing_laws::{
    a_container_of_units_shows_no_damage, a_fault_is_the_stores, a_mounting_leaves_units_alone,
};
use plfs_types::LogicalName;
use program_ends::{Ended, ends, say, say_unmounted};
use std::alloc::Global;
use store_api::Store;

// Packs these files.
#[inline(never)]
fn pack_files<S: Store + Drop, C: Clock + Drop, O: Sink>(
    alloc: Global,
    name: LogicalName,
    region: u64,
    files: &FileList<'_>,
    out: &mut O,
    store: S,
    clock: C,
) -> Ended<S>
    requires small { All (λ (f : NamedFile). length f.content ≤ MAX_CONTENT) files.now }
    requires known { region < REGIONS }
    ensures { PackCourse name region files.now (ends_of (C.times clock) (O.taking out.old) (O.taking out.new) (S.stored store) (option_map S.stored result.store)) result.status }
{
    a_mounting_leaves_units_alone();
    a_container_of_units_shows_no_damage();
    a_fault_is_the_stores();
    match Mount::open(alloc, store, clock) {
        Ok(mount) => {
            let mut mount = mount;
            let status = pack_mounted(alloc, &mut mount, name, region, files, out);
            ends(mount.close(), status)
        }
        Err((store, trouble)) => {
            let status = say_unmounted(alloc, out, trouble);
            ends(store, status)
        }
    }
}

// Ends where the input has this fault.
#[inline(never)]
fn end_faulty<S: Store, O: Sink>(
    alloc: Global,
    line: u64,
    kind: Kind,
    out: &mut O,
    store: S,
) -> Ended<S>
    ensures { (name : List ℕ) (region : ℕ) (bytes : List ℕ) (times : Option (List ℕ)) → HasFault bytes (record { line = line; kind = kind }) → PackInputCourse name region bytes (ends_of times (O.taking out.old) (O.taking out.new) (S.stored store) (option_map S.stored result.store)) result.status }
{
    let Ok(text) = pack_fault_line(alloc, line, kind) else {
        return ends(store, 3);
    };
    say(out, &text);
    ends(store, 2)
}

// Packs the files that these bytes say.
fn pack_bytes<S: Store + Drop, C: Clock + Drop, O: Sink>(
    alloc: Global,
    name: LogicalName,
    region: u64,
    bytes: &[u8],
    out: &mut O,
    store: S,
    clock: C,
) -> Ended<S>
    requires { region < REGIONS }
    ensures { PackInputCourse name region bytes.now (ends_of (C.times clock) (O.taking out.old) (O.taking out.new) (S.stored store) (option_map S.stored result.store)) result.status }
{
    match read(alloc, bytes) {
        Ok(files) => {
            let ended = pack_files(alloc, name, region, &files, out, store, clock);
            drop(files);
            ended
        }
        Err(InputTrouble::Fault { line, kind }) => end_faulty(alloc, line, kind, out, store),
        Err(InputTrouble::NoMemory) => ends(store, 3),
    }
}

/// Reads the input, and packs the files that it says.
#[inline(never)]
pub(crate) fn pack<S: Store + Drop, C: Clock + Drop, I: Input, O: Sink>(
    alloc: Global,
    name: LogicalName,
    region: u64,
    input: &mut I,
    out: &mut O,
    store: S,
    clock: C,
) -> Ended<S>
    requires { region < REGIONS }
    ensures { (words : List (List ℕ)) → IsCommand words (Pack name region) → Course IsBuiltCommand words (I.given input.old) (I.given input.new) (ends_of (C.times clock) (O.taking out.old) (O.taking out.new) (S.stored store) (option_map S.stored result.store)) result.status }
{
    match input.rest(alloc) {
        Ok(bytes) => pack_bytes(alloc, name, region, bytes.as_slice(), out, store, clock),
        Err(NoInput::Failed) => ends(store, 5),
        Err(NoInput::NoMemory) => ends(store, 3),
    }
}
