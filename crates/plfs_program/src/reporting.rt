//! Lines are reported.
ghost use Rattle.std.specs.Prelude.{◌≡◌, ◌⊎◌};
ghost use Rattle.report_text.specs.Text.{HaveText};
ghost use Rattle.program_ends.specs.Outcomes.{status_of as status};
ghost use Rattle.program_ends.specs.Output.{IsPrinted, IsCutOff};
ghost use Rattle.plfs_program.specs.Showing.{shows_of};

use crate::showing::{Shown, told};
use edge_io::Sink;
use program_ends::write_out;
use script_lang::Lines;
use std::alloc::Global;

/// Prints what is shown of the lines, and answers the status that they decide: 6 where the sink broke, 3 where memory was
/// refused.
pub(crate) fn report<O: Sink>(alloc: Global, out: &mut O, lines: Lines, shown: Shown) -> u8
    requires { HaveText lines }
    ensures told { ((result ≡ status ((shows_of shown).decide lines)) × IsPrinted ((shows_of shown).text lines) (O.taking out.old) (O.taking out.new))
        ⊎ ((result ≡ 6) × IsCutOff ((shows_of shown).text lines) (O.taking out.old) (O.taking out.new))
        ⊎ ((result ≡ 3) × (O.taking out.new ≡ O.taking out.old)) }
{
    let Ok(told) = told(alloc, lines, shown) else {
        return 3;
    };
    match write_out(out, told.text.as_slice()) {
        Ok(()) => told.status,
        Err(_) => 6,
    }
}
