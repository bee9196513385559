//! Lines are printed, and decide a status.
ghost use Rattle.std.specs.Prelude.{◌≡◌, ◌⊎◌, ◌∷◌, []};
ghost use Rattle.report_text.specs.Text.{HaveText, text_of};
ghost use Rattle.program_ends.specs.Outcomes.{status_of as status};
ghost use Rattle.program_ends.specs.Output.{IsPrinted, IsCutOff};

use crate::output::write_out;
use crate::words::greater;
use edge_io::Sink;
use report_text::print;
use script_lang::{CompactLine, Line, Lines, Mishap};
use std::alloc::Global;

// The status of a run with this line alone.
fn status_of_line(line: &CompactLine) -> u8
    ensures { result ≡ status (line.now ∷ []) }
{
    match line.mishap() {
        Some(Mishap::Damaged) => 7,
        Some(Mishap::Fault) => 4,
        Some(Mishap::Refused) => 1,
        None => 0,
    }
}

/// The status of a run with these lines.
pub fn status_of(lines: &[CompactLine]) -> u8
    ensures { result ≡ status lines.now }
{
    let mut status = 0;
    for line in lines {
        status = greater(status, status_of_line(line));
    }
    status
}

/// Prints the lines, and answers the status that they decide: 6 where the sink broke, 3 where memory was refused.
pub fn report_lines<O: Sink>(alloc: Global, out: &mut O, lines: &Lines) -> u8
    requires { HaveText lines.now }
    ensures told { ((result ≡ status lines.now) × IsPrinted (text_of lines.now) (O.taking out.old) (O.taking out.new))
        ⊎ ((result ≡ 6) × IsCutOff (text_of lines.now) (O.taking out.old) (O.taking out.new))
        ⊎ ((result ≡ 3) × (O.taking out.new ≡ O.taking out.old)) }
{
    let Ok(text) = print(alloc, lines) else {
        return 3;
    };
    match write_out(out, text.as_slice()) {
        Ok(()) => status_of(lines.as_slice()),
        Err(_) => 6,
    }
}

/// Prints one line, and ends with its status.
pub fn say_line<O: Sink>(alloc: Global, out: &mut O, line: Line) -> u8
    requires { HaveText (line ∷ []) }
    ensures told { ((result ≡ status (line ∷ [])) × IsPrinted (text_of (line ∷ [])) (O.taking out.old) (O.taking out.new))
        ⊎ ((result ≡ 6) × IsCutOff (text_of (line ∷ [])) (O.taking out.old) (O.taking out.new))
        ⊎ ((result ≡ 3) × (O.taking out.new ≡ O.taking out.old)) }
{
    let mut lines = Lines::new(alloc);
    if lines.push(line).is_err() {
        return 3;
    }
    report_lines(alloc, out, &lines)
}
