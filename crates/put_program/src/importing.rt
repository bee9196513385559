//! Sources are put into files, one after the other, on one mount.
ghost use Rattle.std.specs.Prelude.{◌≡◌, IfOk};
ghost use Rattle.mount_sound.specs.Sound.{IsFine};
ghost use Rattle.program_ends.specs.Reported.{IsReported};
ghost use Rattle.put_program.specs.Importing.{NamedPut, PutsEach, is_minor, name_text as text_of_name, sources_of};

use crate::copied::a_copying_leaves_other_containers_still;
use crate::putting::put_mounted;
use edge_io::{Clock, Sink, Source};
use mount_core::Mount;
use plfs_types::{LogicalName, NoMemory};
use program_ends::{greater, say_text};
use std::alloc::Global;
use store_api::Store;

/// A source, and the name of the file that it is put into.
#[derive(Drop)]
pub struct Named<I> {
    pub name: LogicalName,
    pub input: I,
}

/// The name, with a space.
fn name_text(alloc: Global, name: LogicalName) -> Result<Vec<u8>, NoMemory>
    ensures { IfOk result (λ text. text.items ≡ text_of_name name) }
{
    let name = name.name();
    let mut text = Vec::new(alloc);
    text.extend_from_slice(name.bytes())?;
    text.push(b' ')?;
    Ok(text)
}

/// Prints the name, with a space, and answers 0.
fn say_name<O: Sink>(alloc: Global, out: &mut O, name: LogicalName) -> u8
    ensures { IsReported (text_of_name name) 0 (O.taking out.old) (O.taking out.new) result }
{
    let Ok(text) = name_text(alloc, name) else {
        return 3;
    };
    say_text(out, text.as_slice(), 0)
}

/// Prints the file's name, puts the source into the file, says behind the name how many bytes were put or why they weren't, and answers
/// the status. Where the name can't be printed nothing is put.
fn put_named<S: Store + Drop, C: Clock + Drop, I: Source, O: Sink>(
    alloc: Global,
    mount: &mut Mount<S, C>,
    host: u32,
    over: bool,
    name: LogicalName,
    input: &mut I,
    out: &mut O,
) -> u8
    requires { IsFine mount.old }
    ensures put { NamedPut mount.old.opened name host over (I.given input.old) mount.old (O.taking out.old) mount.new (O.taking out.new) result }
    ensures fine { IsFine mount.new }
{
    a_copying_leaves_other_containers_still();
    let said = say_name(alloc, out, name);
    if said != 0 {
        return said;
    }
    put_mounted(alloc, mount, name, host, over, input, out)
}

/// Whether a further file is put behind one whose put had this status: it was put, or refused, or its source failed.
fn goes_on(status: u8) -> bool
    ensures { result ≡ is_minor status }
{
    matches!(status, 0 | 1 | 5)
}

/// Puts each source into its file, the last one of them first. It ends behind one whose put broke off, or when all are put, and answers
/// the greatest status.
pub(crate) fn put_each<S: Store + Drop, C: Clock + Drop, I: Source + Drop, O: Sink>(
    alloc: Global,
    mount: &mut Mount<S, C>,
    host: u32,
    over: bool,
    files: Vec<Named<I>>,
    out: &mut O,
) -> u8
    requires { IsFine mount.old }
    ensures put { PutsEach mount.old.opened host over (sources_of I.given files.items) mount.old (O.taking out.old) mount.new (O.taking out.new) result }
    ensures fine { IsFine mount.new }
{
    let mut rest = files;
    let mut status = 0;
    while let Some(file) = rest.pop() {
        let mut input = file.input;
        let one = put_named(alloc, mount, host, over, file.name, &mut input, out);
        status = greater(status, one);
        if !goes_on(one) {
            return status;
        }
    }
    status
}
