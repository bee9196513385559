//! Lines printed one after the other.
ghost use Rattle.std.specs.Prelude.{◌≡◌, ◌++◌, Some, OnOk, IfOk};
ghost use Rattle.report_text.specs.Text.{text_of, text_of_line, body_of_line, HaveText};
ghost use Rattle.script_lang.specs.declared.line.Outcome.TheVariants.{Wrote};

use crate::outcomes::outcome;
use crate::tail::Tail;
use crate::words::digits;
use plfs_types::{Bytes, NoMemory};
use script_lang::{CompactLine, Line, Lines, MadeWrite, Outcome};
use std::alloc::Global;

/// The text of the lines, whose listed names are logical names. `NoMemory` where memory was refused.
pub fn print(alloc: Global, lines: &Lines) -> Result<Bytes, NoMemory>
    requires { HaveText lines.now }
    ensures { IfOk result (λ bytes. bytes ≡ text_of lines.now) }
{
    let mut out = Vec::new(alloc);
    for line in lines.as_slice() {
        append_line(&mut out, line)?;
    }
    Ok(Bytes::from_vec(out))
}

fn append_line(out: &mut Vec<u8>, line: &CompactLine) -> Result<(), NoMemory>
    ensures { OnOk result (out.new.items ≡ out.old.items ++ text_of_line line.now) }
{
    match line.made_write() {
        Some(write) => append_write(out, line.number(), &write),
        None => append_outcome(out, line),
    }
}

// The line of a write, which most lines are: put together apart, and added at once.
#[tactic(auto, using(crate::proofs::Tails::line_of_write))]
fn append_write(out: &mut Vec<u8>, number: u64, write: &MadeWrite) -> Result<(), NoMemory>
    ensures { OnOk result (out.new.items ≡ out.old.items ++ text_of_line (record { number = number; outcome = Wrote write.now.at write.now.len (Some write.now.stamp) })) }
{
    let mut line = Tail::new();
    line.put(b'\n');
    line.put_number(write.stamp);
    line.put(b' ');
    line.put_number(write.len);
    line.put(b' ');
    line.put_number(write.at);
    line.put_all(b" wrote ");
    line.put_number(number);
    out.extend_from_slice(line.as_slice())?;
    Ok(())
}

// Any line.
fn append_outcome(out: &mut Vec<u8>, line: &CompactLine) -> Result<(), NoMemory>
    ensures { OnOk result (out.new.items ≡ out.old.items ++ text_of_line line.now) }
{
    let seen = line.seen();
    let appended = append_told(out, line.number(), seen.outcome());
    drop(seen);
    appended?;
    out.push(b'\n')?;
    Ok(())
}

fn append_told(out: &mut Vec<u8>, number: u64, told: &Outcome) -> Result<(), NoMemory>
    ensures { OnOk result (out.new.items ≡ out.old.items ++ body_of_line (record { number = number; outcome = told.now })) }
{
    digits(out, number)?;
    outcome(out, told)
}

// A line without its line feed.
pub fn append_body(out: &mut Vec<u8>, line: &Line) -> Result<(), NoMemory>
    ensures { OnOk result (out.new.items ≡ out.old.items ++ body_of_line line.now) }
{
    append_told(out, line.number, &line.outcome)
}
