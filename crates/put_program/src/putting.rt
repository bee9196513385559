//! A source is put into a file, and one line says how many bytes were.
ghost use Rattle.std.specs.Prelude.{◌≡◌, Ok, IfOk};
ghost use Rattle.mount_sound.specs.Sound.{IsFine};
ghost use Rattle.program_ends.specs.Reported.{IsReported};
ghost use Rattle.put_program.specs.Putting.{PutsOn, end_of, put_line as line_of, put_status as status_of, put_text as text_of};

use crate::copied::{a_copied_source_is_kept, later_readers_see_a_copied_source};
use crate::troubles::{a_copying_shows_no_damage, a_fault_of_a_copying_is_the_stores};
use copy_core::{Copied, copy};
use edge_io::{Clock, Sink, Source};
use mount_core::Mount;
use mount_model::Stuck;
use outcomes::stuck_outcome;
use plfs_types::{LogicalName, NoMemory};
use program_ends::{push_number, say_line, say_text};
use script_lang::Line;
use std::alloc::Global;
use store_api::Store;

/// The line that tells how many bytes were put, and by which writer.
fn put_line(alloc: Global, copied: Copied) -> Result<Vec<u8>, NoMemory>
    ensures { IfOk result (λ text. text.items ≡ line_of copied) }
{
    let mut text = Vec::new(alloc);
    push_number(&mut text, b"put ", u128::from(copied.bytes))?;
    push_number(&mut text, b" ", u128::from(copied.writer))?;
    text.push(b'\n')?;
    Ok(text)
}

/// 0 where the source ended, 5 where a read of it failed.
fn status_of_copied(copied: Copied) -> u8
    ensures { result ≡ status_of (Ok copied) }
{
    if copied.is_whole { 0 } else { 5 }
}

/// Says how many bytes were put, and answers the status.
fn say_copied<O: Sink>(alloc: Global, out: &mut O, copied: Copied) -> u8
    ensures { IsReported (line_of copied) (status_of (Ok copied)) (O.taking out.old) (O.taking out.new) result }
{
    let Ok(text) = put_line(alloc, copied) else {
        return 3;
    };
    say_text(out, text.as_slice(), status_of_copied(copied))
}

/// Says what was put or what broke that off, and answers the status.
fn say_put<O: Sink>(alloc: Global, out: &mut O, told: Result<Copied, Stuck>) -> u8
    ensures { IsReported (text_of (end_of told)) (status_of (end_of told)) (O.taking out.old) (O.taking out.new) result }
{
    match told {
        Ok(copied) => say_copied(alloc, out, copied),
        Err(why) => {
            let line = Line {
                number: 0,
                outcome: stuck_outcome(why),
            };
            say_line(alloc, out, line)
        }
    }
}

/// Puts the source into the file of this name, says how many bytes were put or why they weren't, and answers the status.
pub(crate) fn put_mounted<S: Store + Drop, C: Clock + Drop, I: Source, O: Sink>(
    alloc: Global,
    mount: &mut Mount<S, C>,
    name: LogicalName,
    host: u32,
    over: bool,
    input: &mut I,
    out: &mut O,
) -> u8
    requires { IsFine mount.old }
    ensures puts { PutsOn mount.old.opened name host over mount.old (I.given input.old) (O.taking out.old) mount.new (I.given input.new) (O.taking out.new) result }
    ensures fine { IsFine mount.new }
{
    a_copied_source_is_kept();
    later_readers_see_a_copied_source();
    a_fault_of_a_copying_is_the_stores();
    a_copying_shows_no_damage();
    let Ok(told) = copy(alloc, mount, name, host, over, input) else {
        return 3;
    };
    say_put(alloc, out, told)
}
