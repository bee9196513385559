//! One line says what a drain wrote, or what broke it off.
ghost use Rattle.std.specs.Prelude.{◌≡◌, ◌∷◌, [], Err, IfOk};
ghost use Rattle.mount_sound.specs.Sound.{IsFine};
ghost use Rattle.report_text.specs.Text.{HaveText};
ghost use Rattle.program_ends.specs.Reported.{IsReported, line_zero};
ghost use Rattle.drain_program.specs.Course.{DrainsOver};
ghost use Rattle.drain_program.specs.Reporting.{drain_status as status_of, drain_text as text_of, drained_line as drained_line_of, had, report_of, taken_line as taken_line_of, went_on, wrote};

use crate::driving::drive;
use drain_copy::{DrainStuck, Drained};
use edge_io::{Clock, Sink};
use mount_core::Mount;
use outcomes::stuck_outcome;
use plfs_types::{LogicalName, NoMemory};
use program_ends::{push_number, say_line, say_text};
use script_lang::{Line, Outcome};
use std::alloc::Global;
use store_api::Store;

/// The line that tells what was written.
fn drained_line(alloc: Global, drained: Drained) -> Result<Vec<u8>, NoMemory>
    ensures { IfOk result (λ text. text.items ≡ drained_line_of drained) }
{
    let mut text = Vec::new(alloc);
    push_number(&mut text, b"drained ", u128::from(drained.writers))?;
    push_number(&mut text, b" ", drained.entries)?;
    push_number(&mut text, b" ", drained.bytes)?;
    text.push(b'\n')?;
    Ok(text)
}

/// The line of a writer that was settled at the target, and went on at the source.
fn taken_line(alloc: Global, writer: u64, there: u64, here: u64) -> Result<Vec<u8>, NoMemory>
    ensures { IfOk result (λ text. text.items ≡ taken_line_of writer there here) }
{
    let mut text = Vec::new(alloc);
    push_number(&mut text, b"0 refused taken ", u128::from(writer))?;
    push_number(&mut text, b" ", u128::from(there))?;
    push_number(&mut text, b" ", u128::from(here))?;
    text.push(b'\n')?;
    Ok(text)
}

/// Says what was written, and answers the status.
fn say_drained<O: Sink>(alloc: Global, out: &mut O, drained: Drained) -> u8
    ensures { IsReported (drained_line_of drained) 0 (O.taking out.old) (O.taking out.new) result }
{
    let Ok(text) = drained_line(alloc, drained) else {
        return 3;
    };
    say_text(out, text.as_slice(), 0)
}

/// Says that a writer which was settled at the target went on, and answers the status.
fn say_taken<O: Sink>(alloc: Global, out: &mut O, writer: u64, there: u64, here: u64) -> u8
    ensures { IsReported (taken_line_of writer there here) 1 (O.taking out.old) (O.taking out.new) result }
{
    let Ok(text) = taken_line(alloc, writer, there, here) else {
        return 3;
    };
    say_text(out, text.as_slice(), 1)
}

/// Says which trouble there was.
fn say_trouble<O: Sink>(alloc: Global, out: &mut O, outcome: Outcome) -> u8
    requires { HaveText (line_zero outcome ∷ []) }
    ensures { IsReported (text_of (had outcome)) (status_of (had outcome)) (O.taking out.old) (O.taking out.new) result }
{
    say_line(alloc, out, Line { number: 0, outcome })
}

/// Says why a drain ended before it was through, and answers the status.
fn say_stuck<O: Sink>(alloc: Global, out: &mut O, why: DrainStuck) -> u8
    ensures { IsReported (text_of (report_of (Err why))) (status_of (report_of (Err why))) (O.taking out.old) (O.taking out.new) result }
{
    match why {
        DrainStuck::Source(why) => say_trouble(alloc, out, stuck_outcome(why)),
        DrainStuck::TargetFault => say_trouble(alloc, out, Outcome::Fault),
        DrainStuck::TargetDamaged {
            folder,
            file,
            place,
        } => say_trouble(
            alloc,
            out,
            Outcome::Damaged {
                folder,
                file,
                place,
            },
        ),
        DrainStuck::Taken {
            writer,
            there,
            here,
        } => say_taken(alloc, out, writer, there, here),
    }
}

/// Says how a drain ended, and answers the status.
fn say_ended<O: Sink>(alloc: Global, out: &mut O, ended: Result<Drained, DrainStuck>) -> u8
    ensures { IsReported (text_of (report_of ended)) (status_of (report_of ended)) (O.taking out.old) (O.taking out.new) result }
{
    match ended {
        Ok(drained) => say_drained(alloc, out, drained),
        Err(why) => say_stuck(alloc, out, why),
    }
}

/// Drains the container of this name, says how that ended, and answers the status.
pub(crate) fn drain_mounted<S: Store + Drop, D: Store, C: Clock + Drop, O: Sink>(
    alloc: Global,
    mount: &mut Mount<S, C>,
    target: &mut D,
    name: LogicalName,
    out: &mut O,
) -> u8
    requires { IsFine mount.old }
    ensures { DrainsOver name mount.old (D.stored target.old) (O.taking out.old) mount.new (D.stored target.new) (O.taking out.new) result }
{
    let Ok(ended) = drive(alloc, mount, target, name) else {
        return 3;
    };
    say_ended(alloc, out, ended)
}
