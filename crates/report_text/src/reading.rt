//! Lines read one after the other.
ghost use Rattle.std.specs.Prelude.{◌≡◌, ◌<◌, ◌++◌, ◌↔◌, length, List, ℕ, All, IsTrue, IfOk, IfErr};
ghost use Rattle.plfs_types.specs.Names.{IsLogicalName};
ghost use Rattle.script_lang.specs.declared.line.Line.{Line};
ghost use Rattle.report_text.specs.Read.{AreRead, IsReportTrouble};
ghost use Rattle.report_text.specs.Reading.{GivesAsText, OnlyGives};
ghost use Rattle.report_text.specs.ReadingOutcomes.{line_at};
ghost use Rattle.report_text.specs.Text.{text_of, text_of_line, body_of_line, ListsLogicalNames};
ghost use Rattle.report_text.specs.Widths.{IsLine};

use crate::fields::{cut, number_field};
use crate::printing::append_body;
use crate::reading_outcomes::outcome;
use crate::trouble::{ReportTrouble, Trouble};
use plfs_types::Name;
use script_lang::{Line, Lines, Outcome};
use std::alloc::Global;

/// The lines whose text these bytes are. `Bad` comes exactly where they are no lines' text and names the first line
/// that is none, from 1; `NoMemory` where memory was refused.
pub fn read(alloc: Global, bytes: &[u8]) -> Result<Lines, ReportTrouble>
    // What is read is printed so.
    ensures found { IfOk result (λ lines. All IsLine lines × (bytes.now ≡ text_of lines)) }
    // What is printed so is read, unless memory is refused.
    ensures only { (lines : List Line) → All IsLine lines → bytes.now ≡ text_of lines → AreRead result lines }
    ensures first { IfErr result (IsReportTrouble bytes.now) }
{
    let mut lines = Lines::new(alloc);
    let mut scratch = Vec::new(alloc);
    let mut rest = bytes;
    while !rest.is_empty() {
        match first_line(alloc, rest, &mut scratch) {
            Ok((line, others)) => {
                lines.push(line)?;
                rest = others;
            }
            Err(Trouble::Bad) => {
                let line = lines.as_slice().len() as u64 + 1;
                return Err(ReportTrouble::Bad { line });
            }
            Err(Trouble::NoMemory) => return Err(ReportTrouble::NoMemory),
        }
    }
    Ok(lines)
}

// The first line of the bytes, and what stands behind it.
fn first_line<'a>(
    alloc: Global,
    bytes: &'a [u8],
    scratch: &mut Vec<u8>,
) -> Result<(Line, &'a [u8]), Trouble>
    ensures found { IfOk result (λ p. IsLine p.0 × (bytes.now ≡ text_of_line p.0 ++ p.1.now)) }
    ensures only { (line : Line) (others : List ℕ) → IsLine line → bytes.now ≡ text_of_line line ++ others → OnlyGives {Y = Line × List ℕ} (λ p. (p.0, p.1.now)) result (line, others) }
    ensures shorter { IfOk result (λ p. length p.1.now < length bytes.now) }
{
    let (body, others) = cut(bytes, b'\n')?;
    let read = line(alloc, body, scratch)?;
    Ok((read, others))
}

// The line of these bytes, without its line feed.
fn line(alloc: Global, body: &[u8], scratch: &mut Vec<u8>) -> Result<Line, Trouble>
    ensures found { IfOk result (λ line. IsLine line × (body.now ≡ body_of_line line)) }
    ensures only { (line : Line) → IsLine line → body.now ≡ body_of_line line → OnlyGives (λ line. line) result line }
{
    let read = loose_line(alloc, body)?;
    if !lists_logical_names(&read.outcome) {
        drop(read);
        return Err(Trouble::Bad);
    }
    // One spelling of each line counts.
    scratch.clear();
    append_body(scratch, &read)?;
    if scratch.as_slice() != body {
        drop(read);
        return Err(Trouble::Bad);
    }
    Ok(read)
}

#[tactic(auto, unfolding(crate::specs::ReadingOutcomes::line_at))]
fn loose_line(alloc: Global, body: &[u8]) -> Result<Line, Trouble>
    ensures { GivesAsText (λ line. line) result (line_at body.now) }
{
    let (number, rest) = number_field(body)?;
    let outcome = outcome(alloc, rest)?;
    Ok(Line { number, outcome })
}

fn lists_logical_names(outcome: &Outcome) -> bool
    ensures { IsTrue result ↔ ListsLogicalNames outcome.now }
{
    match outcome {
        Outcome::Listed { names } => are_logical(names.as_slice()),
        _ => true,
    }
}

fn are_logical(names: &[Name]) -> bool
    ensures { IsTrue result ↔ All IsLogicalName names.now }
{
    names.iter().all(|name| name.is_logical())
}
