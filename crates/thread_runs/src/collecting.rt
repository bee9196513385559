//! The lines of all actors, in the order in which their statements are written.
ghost use Rattle.std.specs.Prelude.{◌<◌, OnOk, IfOk, All, length};
ghost use Rattle.run_core.specs.Cast.{statements_in};
ghost use Rattle.thread_runs.specs.Collecting.{lines_in, Suffice, HasLine, HaveLines, TakesOne, TakesAll, ArePut};

use crate::told::Told;
use plfs_types::NoMemory;
use script_lang::{CompactStatement, Lines, Phase};
use std::alloc::Global;

/// Puts the next line of the actor at this place behind the others.
fn take_line(all: &mut [Told], place: usize, lines: &mut Lines) -> Result<(), NoMemory>
    requires there { place < length all.old }
    requires some { HasLine (lines_in all.old) place }
    ensures { OnOk result (TakesOne place lines.old (lines_in all.old) lines.new (lines_in all.new)) }
{
    let told = &mut all[place];
    match told.pop() {
        Some(line) => {
            lines.put(line)?;
            Ok(())
        }
        None => unreachable!(),
    }
}

/// Puts the lines of these statements behind the others.
fn take_lines(
    all: &mut [Told],
    statements: &[CompactStatement],
    lines: &mut Lines,
) -> Result<(), NoMemory>
    requires there { All (λ statement. statement.actor < length all.old) statements.now }
    requires enough { Suffice statements.now (lines_in all.old) }
    ensures { OnOk result (TakesAll statements.now lines.old (lines_in all.old) lines.new (lines_in all.new)) }
{
    for statement in statements {
        take_line(all, statement.actor() as usize, lines)?;
    }
    Ok(())
}

/// The lines of all statements as they are written.
pub(crate) fn collect(alloc: Global, all: &mut [Told], phases: &[Phase]) -> Result<Lines, NoMemory>
    requires there { All (λ phase. All (λ statement. statement.actor < length all.old) phase.statements) phases.now }
    requires enough { HaveLines (statements_in phases.now) (lines_in all.old) }
    ensures { IfOk result (λ lines. ArePut (statements_in phases.now) (lines_in all.old) lines) }
{
    let mut lines = Lines::new(alloc);
    for phase in phases {
        let statements = phase.statements.as_slice();
        take_lines(all, statements, &mut lines)?;
    }
    Ok(lines)
}
