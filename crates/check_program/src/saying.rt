//! What is said of a room.
ghost use Rattle.program_ends.specs.Reported.{IsReported};
ghost use Rattle.check_program.specs.Lines.{complaint_lines, halt_status, halt_text, unreadable_line as unreadable_text};

use crate::lines::{lines_of, unreadable_line};
use edge_io::Sink;
use plfs_types::Name;
use program_ends::say_text;
use std::alloc::Global;
use tree_check::{Complaint, Halt};

/// Says what is complained of, and answers 0 where all of it was taken.
pub(crate) fn say_complaints<O: Sink>(alloc: Global, out: &mut O, found: &[Complaint]) -> u8
    ensures { IsReported (complaint_lines found.now) 0 (O.taking out.old) (O.taking out.new) result }
{
    let Ok(text) = lines_of(alloc, found) else {
        return 3;
    };
    say_text(out, text.as_slice(), 0)
}

// Says which room wasn't told, and answers the status.
fn say_unreadable<O: Sink>(alloc: Global, out: &mut O, room: Name) -> u8
    ensures { IsReported (unreadable_text room) 7 (O.taking out.old) (O.taking out.new) result }
{
    let Ok(text) = unreadable_line(alloc, room) else {
        return 3;
    };
    say_text(out, text.as_slice(), 7)
}

/// Says why the check was broken off at this room, and answers the status.
pub(crate) fn say_halt<O: Sink>(alloc: Global, out: &mut O, room: Name, halt: Halt) -> u8
    ensures { IsReported (halt_text room halt) (halt_status halt) (O.taking out.old) (O.taking out.new) result }
{
    match halt {
        Halt::Fault => say_text(out, b"0 fault\n", 4),
        Halt::NoMemory => 3,
        Halt::Untold => say_unreadable(alloc, out, room),
    }
}
