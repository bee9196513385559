//! Small files of the input are packed into a region of a container, and one line says how many.
ghost use Rattle.std.specs.Prelude.{◌≡◌, ◌<◌, ◌≤◌, ◌++◌, ◌∷◌, [], length, Ok, Err, IfOk};
ghost use Rattle.std.specs.List.{All};
ghost use Rattle.mount_sound.specs.Sound.{IsFine};
ghost use Rattle.unit_format.specs.declared.units.TheConstants.{MAX_CONTENT, REGIONS};
ghost use Rattle.pack_input.specs.declared.files.NamedFile.{NamedFile as Named};
ghost use Rattle.program_ends.specs.Reported.{IsReported};
ghost use Rattle.plfs_program.specs.Packing.{PacksOn, end_of, fault_word as word_of, pack_fault_line as fault_line_of, packed_line as line_of, packed_status as status_of, packed_text as text_of};

use crate::small_files::outcome_of;
use edge_io::{Clock, Sink};
use itoa::Buffer;
use lone_flow::{Packed, pack};
use mount_core::Mount;
use pack_files::ScanStuck;
use pack_input::{FileList, Kind, NamedFile};
use plfs_types::{LogicalName, NoMemory};
use program_ends::{push_number, say_line, say_text};
use script_lang::Line;
use std::alloc::Global;
use store_api::Store;

// The word of a kind of fault.
fn fault_word(kind: Kind) -> &'static [u8]
    ensures { result.now ≡ word_of kind }
{
    match kind {
        Kind::Long => b"long",
        Kind::Spaces => b"spaces",
        Kind::Count => b"count",
        Kind::Name => b"name",
        Kind::Data => b"data",
    }
}

/// The line that tells a fault: `pack`, the number of the input's line and the word of the kind.
pub(crate) fn pack_fault_line(alloc: Global, line: u64, kind: Kind) -> Result<Vec<u8>, NoMemory>
    ensures { IfOk result (λ text. text.items ≡ fault_line_of (record { line = line; kind = kind })) }
{
    let mut text = Vec::new(alloc);
    push_number(&mut text, b"pack ", u128::from(line))?;
    text.push(b' ')?;
    text.extend_from_slice(fault_word(kind))?;
    text.push(b'\n')?;
    Ok(text)
}

// The line that tells how many files were put, and where the last one ends.
fn packed_line(alloc: Global, count: u64, end: u64) -> Result<Vec<u8>, NoMemory>
    ensures { IfOk result (λ text. text.items ≡ line_of count end) }
{
    let mut text = Vec::new(alloc);
    push_number(&mut text, b"packed ", u128::from(count))?;
    push_number(&mut text, b" end ", u128::from(end))?;
    text.push(b'\n')?;
    Ok(text)
}

// Says how many files were put, and answers the status.
fn say_all<O: Sink>(alloc: Global, out: &mut O, count: u64, end: u64) -> u8
    ensures { IsReported (line_of count end) 0 (O.taking out.old) (O.taking out.new) result }
{
    let Ok(text) = packed_line(alloc, count, end) else {
        return 3;
    };
    say_text(out, text.as_slice(), 0)
}

// Says how the packing of these files ended where nothing broke it off, and answers the status.
fn say_end<O: Sink>(alloc: Global, out: &mut O, files: &[NamedFile<'_>], packed: Packed) -> u8
    ensures { IsReported (text_of files.now (Ok packed)) (status_of (Ok packed)) (O.taking out.old) (O.taking out.new) result }
{
    match packed {
        Packed::All { end } => say_all(alloc, out, files.len() as u64, end),
        Packed::Full => say_text(out, b"0 refused region-full\n", 1),
    }
}

// Says what broke the packing off, and answers the status.
fn say_stuck<O: Sink>(alloc: Global, out: &mut O, files: &[NamedFile<'_>], why: ScanStuck) -> u8
    ensures { IsReported (text_of files.now (end_of (Err why))) (status_of (end_of (Err why))) (O.taking out.old) (O.taking out.new) result }
{
    let line = Line {
        number: 0,
        outcome: outcome_of(why),
    };
    say_line(alloc, out, line)
}

// Says how the packing of these files ended, and answers the status.
fn say_packed<O: Sink>(
    alloc: Global,
    out: &mut O,
    files: &[NamedFile<'_>],
    told: Result<Packed, ScanStuck>,
) -> u8
    ensures { IsReported (text_of files.now (end_of told)) (status_of (end_of told)) (O.taking out.old) (O.taking out.new) result }
{
    match told {
        Ok(packed) => say_end(alloc, out, files, packed),
        Err(why) => say_stuck(alloc, out, files, why),
    }
}

/// Packs these files into the region of the container, says how many were put or why they weren't, and answers the status.
pub(crate) fn pack_mounted<S: Store + Drop, C: Clock + Drop, O: Sink>(
    alloc: Global,
    mount: &mut Mount<S, C>,
    name: LogicalName,
    region: u64,
    files: &FileList<'_>,
    out: &mut O,
) -> u8
    requires small { All (λ (f : Named). length f.content ≤ MAX_CONTENT) files.now }
    requires known { region < REGIONS }
    requires fine { IsFine mount.old }
    ensures { PacksOn name region files.now mount.old (O.taking out.old) mount.new (O.taking out.new) result }
{
    let Ok(told) = pack(alloc, mount, name, region, files) else {
        return 3;
    };
    say_packed(alloc, out, files.as_slice(), told)
}
