//! Small files of a container are read: one is written out, or all are named.
ghost use Rattle.std.specs.Prelude.{◌≡◌, ◌++◌, ◌∷◌, IfOk, Ok, OnOk, codes};
ghost use Rattle.std.specs.List.{flat_map};
ghost use Rattle.mount_sound.specs.Sound.{IsFine};
ghost use Rattle.lone_flow.specs.Naming.{BeginsToName, Names};
ghost use Rattle.lone_flow.specs.Unpacking.{BeginsToUnpack, Unpacks};
ghost use Rattle.report_text.specs.Items.{list_text};
ghost use Rattle.program_ends.specs.Reported.{IsReported};
ghost use Rattle.plfs_program.specs.SmallFiles.{ReadsOn, names_line as line_of, outcome_of, told_of_file, told_of_names, told_status as status_of, told_text as text_of};

use edge_io::{Clock, Sink};
use lone_flow::{names, unpack};
use mount_core::Mount;
use outcomes::stuck_outcome;
use pack_files::ScanStuck;
use plfs_types::{Bytes, LogicalName, Name, NameList, NoMemory};
use program_ends::{say_line, say_text};
use script_lang::{Line, Outcome, Why};
use std::alloc::Global;
use store_api::Store;

/// What is said of a trouble.
pub(crate) fn outcome_of(why: ScanStuck) -> Outcome
    ensures { result ≡ outcome_of why }
{
    match why {
        ScanStuck::Stuck(because) => stuck_outcome(because),
        ScanStuck::Bad { place } => Outcome::Damaged {
            folder: Name::empty(),
            file: Name::from_bytes(b"view").unwrap(),
            place,
        },
    }
}

// Says what broke the reading off, and answers the status.
fn say_trouble<O: Sink>(alloc: Global, out: &mut O, why: ScanStuck) -> u8
    ensures file { IsReported (text_of (told_of_file (Err why))) (status_of (told_of_file (Err why))) (O.taking out.old) (O.taking out.new) result }
    ensures names { IsReported (text_of (told_of_names (Err why))) (status_of (told_of_names (Err why))) (O.taking out.old) (O.taking out.new) result }
{
    let line = Line {
        number: 0,
        outcome: outcome_of(why),
    };
    say_line(alloc, out, line)
}

// Says that no small file has the name, and answers the status.
fn say_none<O: Sink>(alloc: Global, out: &mut O) -> u8
    ensures { IsReported (text_of (told_of_file (Ok None))) (status_of (told_of_file (Ok None))) (O.taking out.old) (O.taking out.new) result }
{
    let line = Line {
        number: 0,
        outcome: Outcome::Refused { why: Why::NoFile },
    };
    say_line(alloc, out, line)
}

// Writes the content of the small file, or says why there is none, and answers the status.
fn say_file<O: Sink>(alloc: Global, out: &mut O, told: Result<Option<Bytes>, ScanStuck>) -> u8
    ensures { IsReported (text_of (told_of_file told)) (status_of (told_of_file told)) (O.taking out.old) (O.taking out.new) result }
{
    let found = match told {
        Ok(found) => found,
        Err(why) => return say_trouble(alloc, out, why),
    };
    match found {
        Some(content) => say_text(out, content.as_slice(), 0),
        None => say_none(alloc, out),
    }
}

// Each name behind a comma.
fn push_behind_commas(text: &mut Vec<u8>, names: &[Name]) -> Result<(), NoMemory>
    ensures { OnOk result (text.new.items ≡ text.old.items ++ flat_map (λ name. 44 ∷ name) names.now) }
{
    for name in names {
        text.push(b',')?;
        text.extend_from_slice(name.bytes())?;
    }
    Ok(())
}

// The names with a comma between each two, or a dash where there are none.
fn push_names(text: &mut Vec<u8>, names: &[Name]) -> Result<(), NoMemory>
    ensures { OnOk result (text.new.items ≡ text.old.items ++ list_text (λ name. name) names.now) }
{
    let Some((first, others)) = names.split_first() else {
        text.push(b'-')?;
        return Ok(());
    };
    text.extend_from_slice(first.bytes())?;
    push_behind_commas(text, others)
}

// The line that tells the names.
fn names_line(alloc: Global, names: &NameList) -> Result<Vec<u8>, NoMemory>
    ensures { IfOk result (λ text. text.items ≡ line_of names.now) }
{
    let mut text = Vec::from_slice(alloc, b"names ")?;
    push_names(&mut text, names.as_slice())?;
    text.push(b'\n')?;
    Ok(text)
}

// Says the names, and answers the status.
fn say_names<O: Sink>(alloc: Global, out: &mut O, names: &NameList) -> u8
    ensures { IsReported (line_of names.now) 0 (O.taking out.old) (O.taking out.new) result }
{
    let Ok(text) = names_line(alloc, names) else {
        return 3;
    };
    say_text(out, text.as_slice(), 0)
}

// Says the names, or why there are none, and answers the status.
fn say_told_names<O: Sink>(alloc: Global, out: &mut O, told: Result<NameList, ScanStuck>) -> u8
    ensures { IsReported (text_of (told_of_names told)) (status_of (told_of_names told)) (O.taking out.old) (O.taking out.new) result }
{
    match told {
        Ok(list) => say_names(alloc, out, &list),
        Err(why) => say_trouble(alloc, out, why),
    }
}

/// Writes the small file of this name out, or says why there is none, and answers the status.
pub(crate) fn unpack_mounted<S: Store + Drop, C: Clock + Drop, O: Sink>(
    alloc: Global,
    mount: &mut Mount<S, C>,
    name: LogicalName,
    file: &LogicalName,
    out: &mut O,
) -> u8
    requires { IsFine mount.old }
    ensures { ReadsOn (Unpacks name file.now) (BeginsToUnpack name file.now) told_of_file mount.old (O.taking out.old) mount.new (O.taking out.new) result }
{
    let Ok(told) = unpack(alloc, mount, name, file) else {
        return 3;
    };
    say_file(alloc, out, told)
}

/// Names the small files of a container, or says why it can't, and answers the status.
pub(crate) fn names_mounted<S: Store + Drop, C: Clock + Drop, O: Sink>(
    alloc: Global,
    mount: &mut Mount<S, C>,
    name: LogicalName,
    out: &mut O,
) -> u8
    requires { IsFine mount.old }
    ensures { ReadsOn (Names name) (BeginsToName name) told_of_names mount.old (O.taking out.old) mount.new (O.taking out.new) result }
{
    let Ok(told) = names(alloc, mount, name) else {
        return 3;
    };
    say_told_names(alloc, out, told)
}
