//! What is said of a file that was written out, or wasn't.
ghost use Rattle.std.specs.Prelude.{◌≡◌, ◌++◌, IfOk, OnOk};
ghost use Rattle.export_program.specs.Telling.{filled_line as line_of, filled_status as status, filled_text as text_of, is_fault as fault, is_last as ends_run, stuck_status as status_stuck, stuck_text as text_stuck};

use crate::filling::Filled;
use mount_model::Stuck;
use outcomes::stuck_outcome;
use plfs_types::{LogicalName, NoMemory};
use program_ends::push_number;
use report_text::print;
use script_lang::{Line, Lines};
use std::alloc::Global;

/// More text: why a file can't be read.
fn push_stuck(alloc: Global, text: &mut Vec<u8>, why: Stuck) -> Result<(), NoMemory>
    ensures { OnOk result (text.new.items ≡ text.old.items ++ text_stuck why) }
{
    let mut lines = Lines::new(alloc);
    lines.push(Line {
        number: 0,
        outcome: stuck_outcome(why),
    })?;
    let printed = print(alloc, &lines)?;
    text.extend_from_slice(printed.as_slice())?;
    Ok(())
}

/// More text: how many bytes were written out.
fn push_got(text: &mut Vec<u8>, size: u64) -> Result<(), NoMemory>
    ensures { OnOk result (text.new.items ≡ text.old.items ++ text_of (Filled.Whole size)) }
{
    push_number(text, b"got ", u128::from(size))?;
    text.push(b'\n')?;
    Ok(())
}

/// More text.
fn push_text(text: &mut Vec<u8>, more: &[u8]) -> Result<(), NoMemory>
    ensures { OnOk result (text.new.items ≡ text.old.items ++ more.now) }
{
    text.extend_from_slice(more)?;
    Ok(())
}

/// More text: what became of a file.
fn push_filled(alloc: Global, text: &mut Vec<u8>, filled: Filled) -> Result<(), NoMemory>
    ensures { OnOk result (text.new.items ≡ text.old.items ++ text_of filled) }
{
    match filled {
        Filled::Whole { size } => push_got(text, size),
        Filled::Exists => push_text(text, b"0 refused exists\n"),
        Filled::Stuck(why) => push_stuck(alloc, text, why),
        Filled::Failed => push_text(text, b"failed\n"),
    }
}

/// The line of a file: its name, and what became of it.
pub(crate) fn filled_line(
    alloc: Global,
    name: LogicalName,
    filled: Filled,
) -> Result<Vec<u8>, NoMemory>
    ensures { IfOk result (λ text. text.items ≡ line_of name filled) }
{
    let name = name.name();
    let mut text = Vec::new(alloc);
    text.extend_from_slice(name.bytes())?;
    text.push(b' ')?;
    push_filled(alloc, &mut text, filled)?;
    Ok(text)
}

/// The status of a file that can't be read.
fn stuck_status(why: &Stuck) -> u8
    ensures { result ≡ status_stuck why.now }
{
    match why {
        Stuck::Fault => 4,
        Stuck::Damaged { .. } => 7,
        Stuck::Refused(_) => 1,
    }
}

/// The status of what became of a file.
pub(crate) fn filled_status(filled: &Filled) -> u8
    ensures { result ≡ status filled.now }
{
    match filled {
        Filled::Whole { .. } => 0,
        Filled::Exists => 1,
        Filled::Stuck(why) => stuck_status(why),
        Filled::Failed => 6,
    }
}

/// Whether the store failed.
fn is_fault(why: &Stuck) -> bool
    ensures { result ≡ fault why.now }
{
    matches!(why, Stuck::Fault)
}

/// Whether no further file is written out, since the store failed.
pub(crate) fn is_last(filled: &Filled) -> bool
    ensures { result ≡ ends_run filled.now }
{
    match filled {
        Filled::Stuck(why) => is_fault(why),
        _ => false,
    }
}
