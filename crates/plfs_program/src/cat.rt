//! A file is written out: a reader is opened, and the bytes of each piece are written before the next one is read.
ghost use Rattle.std.specs.Prelude.{◌≡◌, ◌<◌, ◌*◌, ◌^◌, ◌⊎◌, ◌∷◌, [], true, false, IfErr, IfNone, IfSome, OnOk, List};
ghost use Rattle.plfs_types.specs.Names.{IsLogicalName};
ghost use Rattle.script_lang.specs.declared.line.Line.{Line as TheLine};
ghost use Rattle.report_text.specs.Text.{HaveText, text_of};
ghost use Rattle.run_core.specs.Making.{IsAtRest};
ghost use Rattle.plfs_program.specs.Cat.{opening as opening_of, reading as reading_of, reader_size as size_told, content_of as content_in, is_read};
ghost use Rattle.plfs_program.specs.Catting.{CatsOn, Writes, FailsAt};
ghost use Rattle.program_ends.specs.Mounting.{IsUnmounted};
ghost use Rattle.program_ends.specs.Outcomes.{status_of as status};
ghost use Rattle.program_ends.specs.Output.{IsPrinted, IsCutOff};

use crate::commands::{actor, of_command};
use edge_io::{Clock, Sink};
use mount_core::Mount;
use plfs_types::LogicalName;
use program_ends::{say_line, write_out};
use run_core::LoneReader;
use script_lang::{Line, Numbered, Outcome, Statement};
use std::alloc::Global;
use store_api::Store;

// The bytes of a piece. So many stay in a processor's second cache of 2^20 bytes from their zeros until they are written: by 2^20 bytes a
// file in memory took a seventh more of the processor.
const PIECE: u64 = 1 << 19;

fn opening(name: LogicalName) -> Numbered
    ensures { result ≡ opening_of name }
{
    of_command(Statement::Ropen { name, workers: 1 })
}

fn reading(k: u64) -> Numbered
    requires { k * 2 ^ 19 < 2 ^ 64 }
    ensures { result ≡ reading_of k }
{
    of_command(Statement::Read {
        at: k * PIECE,
        len: PIECE,
    })
}

// The size that the line of an opening tells, where there is a reader.
fn reader_size(line: &Line) -> Option<u64>
    ensures { result ≡ size_told line.now.outcome }
{
    match &line.outcome {
        Outcome::Reader { size, .. } => Some(*size),
        _ => None,
    }
}

// The bytes that a line tells.
fn content_of(line: &Line) -> Option<&[u8]>
    ensures bytes { IfSome result (λ bytes. bytes.now ≡ content_in line.now.outcome) }
    ensures read { IfSome result (λ bytes. is_read line.now.outcome ≡ true) }
    ensures other { IfNone result (is_read line.now.outcome ≡ false) }
{
    match &line.outcome {
        Outcome::Read { content, .. } => Some(content.as_slice()),
        _ => None,
    }
}

// The status of a run with this line alone.
fn status_of_line(line: &Line) -> u8
    ensures { result ≡ status (line.now ∷ []) }
{
    match line.outcome {
        Outcome::Damaged { .. } => 7,
        Outcome::Fault => 4,
        Outcome::Refused { .. } => 1,
        _ => 0,
    }
}

// Reads piece k, and writes its bytes. Where it can't, it answers the status.
fn write_piece<S: Store + Drop, C: Clock + Drop, O: Sink>(
    reader: &mut LoneReader,
    mount: &mut Mount<S, C>,
    k: u64,
    out: &mut O,
) -> Result<(), u8>
    requires rests { IsAtRest reader.old }
    requires small { k * 2 ^ 19 < 2 ^ 64 }
    ensures wrote { OnOk result (Writes k reader.old mount.old (O.taking out.old) reader.new mount.new (O.taking out.new)) }
    ensures rests { OnOk result (IsAtRest reader.new) }
    ensures failed { IfErr result (FailsAt k reader.old mount.old (O.taking out.old) mount.new (O.taking out.new)) }
{
    let Ok(line) = reader.make(mount, reading(k)) else {
        return Err(3);
    };
    let Some(bytes) = content_of(&line) else {
        let status = status_of_line(&line);
        drop(line);
        return Err(status);
    };
    let written = write_out(out, bytes);
    drop(line);
    match written {
        Ok(()) => Ok(()),
        Err(_) => Err(6),
    }
}

/// Writes the file of this name out, and answers the status.
pub(crate) fn cat_mounted<S: Store + Drop, C: Clock + Drop, O: Sink>(
    alloc: Global,
    mount: &mut Mount<S, C>,
    name: LogicalName,
    out: &mut O,
) -> u8
    requires { IsLogicalName name }
    ensures { CatsOn name mount.old (O.taking out.old) mount.new (O.taking out.new) result }
{
    let mut reader = LoneReader::new(alloc, actor());
    let Ok(line) = reader.make(mount, opening(name)) else {
        return 3;
    };
    let Some(size) = reader_size(&line) else {
        return say_line(alloc, out, line);
    };
    for k in 0..size.div_ceil(PIECE) {
        if let Err(status) = write_piece(&mut reader, mount, k, out) {
            return status;
        }
    }
    0
}
