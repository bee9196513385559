//! What is shown of lines.
ghost use Rattle.std.specs.Prelude.{◌≡◌, IfOk};
ghost use Rattle.program_ends.specs.Outcomes.{has_line, is_fault, is_damage, is_refusal, status_of as status};
ghost use Rattle.report_text.specs.Text.{HaveText, text_of};
ghost use Rattle.plfs_program.specs.Showing.{is_reader as reads, behind_opening as behind, is_line_zero as is_zero, shows_of};

use crate::summary::summary;
use plfs_types::{Bytes, NoMemory};
use program_ends::status_of;
use report_text::print;
use script_lang::{CompactLine, Lines, Outcome};
use std::alloc::Global;

/// What is shown of the lines of a script.
#[derive(Clone, Copy)]
pub(crate) enum Shown {
    /// Each line.
    All,
    /// Of an opening and what follows it: what follows where there is a reader, and else why there is none.
    PastOpening,
    /// A summary, where there was a mount.
    Summed,
}

/// What is printed of lines, and the status that they decide.
#[derive(Drop)]
pub(crate) struct Printout {
    pub(crate) text: Bytes,
    pub(crate) status: u8,
}

fn is_reader(line: &CompactLine) -> bool
    ensures { result ≡ reads line.now.outcome }
{
    let seen = line.seen();
    let found = matches!(seen.outcome(), Outcome::Reader { .. });
    drop(seen);
    found
}

// Of an opening and what follows it: what follows where there is a reader, and else why there is none.
fn behind_opening(lines: Lines) -> Lines
    ensures { result ≡ behind lines }
{
    let mut lines = lines.into_vec();
    if let Some(line) = lines.first() {
        if is_reader(line) {
            lines.remove(0);
        } else {
            lines.truncate(1);
        }
    }
    Lines::from_vec(lines)
}

fn is_line_zero(lines: &[CompactLine]) -> bool
    ensures { result ≡ is_zero lines.now }
{
    match lines {
        [line] => line.number() == 0,
        _ => false,
    }
}

// Each of the lines.
fn told_all(alloc: Global, lines: &Lines) -> Result<Printout, NoMemory>
    requires { HaveText lines.now }
    ensures text { IfOk result (λ told. told.text ≡ text_of lines.now) }
    ensures status { IfOk result (λ told. told.status ≡ status lines.now) }
{
    Ok(Printout {
        text: print(alloc, lines)?,
        status: status_of(lines.as_slice()),
    })
}

// The summary of the lines.
fn told_sum(alloc: Global, lines: &Lines) -> Result<Printout, NoMemory>
    requires { HaveText lines.now }
    ensures text { IfOk result (λ told. told.text ≡ (shows_of Shown.Summed).text lines.now) }
    ensures status { IfOk result (λ told. told.status ≡ status lines.now) }
{
    if is_line_zero(lines.as_slice()) {
        return told_all(alloc, lines);
    }
    Ok(Printout {
        text: Bytes::from_vec(summary(alloc, lines.as_slice())?),
        status: status_of(lines.as_slice()),
    })
}

/// What is shown of the lines.
pub(crate) fn told(alloc: Global, lines: Lines, shown: Shown) -> Result<Printout, NoMemory>
    requires { HaveText lines }
    ensures text { IfOk result (λ told. told.text ≡ (shows_of shown).text lines) }
    ensures status { IfOk result (λ told. told.status ≡ status ((shows_of shown).decide lines)) }
{
    match shown {
        Shown::All => told_all(alloc, &lines),
        Shown::PastOpening => told_all(alloc, &behind_opening(lines)),
        Shown::Summed => told_sum(alloc, &lines),
    }
}
