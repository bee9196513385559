//! What a mounting that broke off says.
ghost use Rattle.std.specs.Prelude.{◌≡◌, ◌⊎◌, Some, IfOk, List};
ghost use Rattle.store_api.specs.Names.{marks_folder as marks_folder_name};
ghost use Rattle.report_text.specs.Text.{HaveText, text_of};
ghost use Rattle.script_lang.specs.declared.line.Line.{Line as TheLine};
ghost use Rattle.program_ends.specs.Mounting.{unmounted_of, IsUnmounted};
ghost use Rattle.program_ends.specs.Outcomes.{status_of as status};
ghost use Rattle.program_ends.specs.Output.{IsPrinted, IsCutOff};

use crate::lines::report_lines;
use edge_io::Sink;
use mount_core::MountTrouble;
use plfs_types::{Name, NoMemory};
use script_lang::{Line, Lines, Outcome, Why};
use std::alloc::Global;
use store_api::marks_folder;

// A file among the marks is damaged.
fn damaged_marks(file: Name) -> Outcome
    ensures { result ≡ Outcome.Damaged marks_folder_name file 0 }
{
    Outcome::Damaged {
        folder: marks_folder(),
        file,
        place: 0,
    }
}

// What the line says of a mounting that broke off. Want of memory has no line.
fn unmounted(trouble: MountTrouble) -> Result<Outcome, NoMemory>
    ensures { IfOk result (λ outcome. unmounted_of trouble ≡ Some outcome) }
{
    match trouble {
        MountTrouble::Damaged { file } => Ok(damaged_marks(file)),
        MountTrouble::NoMarks => Ok(damaged_marks(Name::empty())),
        MountTrouble::Spent => Ok(Outcome::Refused {
            why: Why::MountsSpent,
        }),
        MountTrouble::Fault => Ok(Outcome::Fault),
        MountTrouble::NoMemory => Err(NoMemory),
    }
}

/// The line of a mounting that broke off.
pub fn mounting_line(alloc: Global, trouble: MountTrouble) -> Result<Lines, NoMemory>
    ensures line { IfOk result (IsUnmounted trouble) }
    ensures text { IfOk result HaveText }
{
    let mut lines = Lines::new(alloc);
    let outcome = unmounted(trouble)?;
    lines.push(Line { number: 0, outcome })?;
    Ok(lines)
}

/// Says why there is no mount, and answers the status.
pub fn say_unmounted<O: Sink>(alloc: Global, out: &mut O, trouble: MountTrouble) -> u8
    ensures { ((lines : List TheLine) × IsUnmounted trouble lines × (((result ≡ status lines) × IsPrinted (text_of lines) (O.taking out.old) (O.taking out.new)) ⊎ ((result ≡ 6) × IsCutOff (text_of lines) (O.taking out.old) (O.taking out.new))))
        ⊎ ((result ≡ 3) × (O.taking out.new ≡ O.taking out.old)) }
{
    let Ok(lines) = mounting_line(alloc, trouble) else {
        return 3;
    };
    report_lines(alloc, out, &lines)
}
