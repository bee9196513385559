//! A source's bytes, written block by block from the first byte of a file on.
ghost use Rattle.std.specs.Prelude.{◌≡◌, ◌≤◌, ◌+◌, length, IfOk, OnErr};
ghost use Rattle.plfs_types.specs.declared.bytes.TheConstants.{MAX_BLOCK as BLOCK};
ghost use Rattle.plfs_types.specs.declared.limits.TheConstants.{MAX_SIZE as SIZE};
ghost use Rattle.mount_sound.specs.Sound.{IsFine};
ghost use Rattle.lone_flow.specs.Driving.{BeginsToMake};
ghost use Rattle.writer_flow.specs.Writing.{write_program};
ghost use Rattle.copy_core.specs.Writing.{BeginsStep, BeginsToWrite, IsWritten, Steps, WritesAll, WritesBytes, step_as, wrote_of as wrote_of_out};

use crate::reading::{Ending, read_block};
use edge_io::{Clock, Source};
use lone_flow::drive_freely;
use mount_core::Mount;
use mount_model::{Refusal, Stuck};
use plfs_types::{Block, Bytes, MAX_SIZE, NoMemory};
use std::alloc::Global;
use store_api::Store;
use writer_flow::{WriteFlow, WriterHandle, WriterOut};

/// A writer, and where its next block goes.
#[derive(Clone, Copy)]
pub(crate) struct Placing {
    pub(crate) handle: WriterHandle,
    pub(crate) at: u64,
}

/// What a write came to.
#[derive(Clone, Copy)]
enum Wrote {
    /// It was made, and the next block goes there.
    Made(Placing),
    /// It did not do what it was made for.
    Stopped(Stuck),
}

/// What a block of the source came to.
#[derive(Clone, Copy)]
enum Step {
    /// It was full and was written, and the next one goes there.
    More(Placing),
    /// It was the last one, and what it had was written. The source ended, or else a read of it failed.
    Last { last: Placing, is_whole: bool },
    /// Its write did not do what it was made for.
    Stopped(Stuck),
}

/// What the writing of a source came to.
#[derive(Clone, Copy)]
pub(crate) enum Written {
    /// All that was read was written, up to this place. The source ended, or else a read of it failed.
    All { last: Placing, is_whole: bool },
    /// A write did not do what it was made for.
    Stopped(Stuck),
}

/// What the end of a write comes to.
fn wrote_of(next: u64, out: WriterOut) -> Wrote
    ensures { result ≡ wrote_of_out next out.handle out.result }
{
    match out.result {
        Ok(_) => match out.handle {
            Some(handle) => Wrote::Made(Placing { handle, at: next }),
            None => Wrote::Stopped(Stuck::Fault),
        },
        Err(why) => Wrote::Stopped(why),
    }
}

/// Writes this block.
fn write_block<S: Store + Drop, C: Clock + Drop>(
    mount: &mut Mount<S, C>,
    placing: Placing,
    block: Block,
) -> Result<Wrote, NoMemory>
    requires near { placing.at ≤ SIZE }
    requires fine { IsFine mount.old }
    ensures written { IfOk result (λ told. IsWritten placing block mount.old told mount.new) }
    ensures broken_off { OnErr result (BeginsToMake (write_program placing.handle placing.at block) mount.old mount.new) }
    ensures fine { IsFine mount.new }
{
    let next = placing.at + block.as_slice().len() as u64;
    let out = drive_freely(mount, WriteFlow::new(placing.handle, placing.at, block))?;
    Ok(wrote_of(next, out))
}

/// Writes these bytes, where there are any.
fn write_bytes<S: Store + Drop, C: Clock + Drop>(
    mount: &mut Mount<S, C>,
    placing: Placing,
    bytes: Bytes,
) -> Result<Wrote, NoMemory>
    requires short { length bytes ≤ BLOCK }
    requires near { placing.at ≤ SIZE }
    requires fine { IsFine mount.old }
    ensures writes { IfOk result (λ told. WritesBytes placing bytes mount.old told mount.new) }
    ensures broken_off { OnErr result (BeginsToMake (write_program placing.handle placing.at bytes) mount.old mount.new) }
    ensures some { OnErr result (1 ≤ length bytes) }
    ensures fine { IsFine mount.new }
{
    match Block::new(bytes) {
        Ok(block) => write_block(mount, placing, block),
        Err(nothing) => {
            drop(nothing);
            Ok(Wrote::Made(placing))
        }
    }
}

/// What a block that was read and written comes to.
fn step_of(ending: Ending, wrote: Wrote) -> Step
    ensures { result ≡ step_as ending wrote }
{
    match wrote {
        Wrote::Made(next) => match ending {
            Ending::Full => Step::More(next),
            Ending::AtEnd => Step::Last {
                last: next,
                is_whole: true,
            },
            Ending::Failed => Step::Last {
                last: next,
                is_whole: false,
            },
        },
        Wrote::Stopped(why) => Step::Stopped(why),
    }
}

/// Reads the next block of the source, and writes it. The bytes that were read move to the call that writes them.
fn write_next<S: Store + Drop, C: Clock + Drop, I: Source>(
    alloc: Global,
    mount: &mut Mount<S, C>,
    placing: Placing,
    input: &mut I,
) -> Result<Step, NoMemory>
    requires near { placing.at ≤ SIZE }
    requires fine { IsFine mount.old }
    ensures steps { IfOk result (λ told. Steps placing mount.old (I.given input.old) told mount.new (I.given input.new)) }
    ensures broken_off { OnErr result (BeginsStep placing mount.old (I.given input.old) mount.new (I.given input.new)) }
    ensures fine { IsFine mount.new }
{
    let piece = read_block(alloc, input)?;
    let wrote = write_bytes(mount, placing, piece.bytes)?;
    Ok(step_of(piece.ending, wrote))
}

/// Writes the bytes of the source from the first byte of the file on, block by block, until it ends or fails.
pub(crate) fn write_all<S: Store + Drop, C: Clock + Drop, I: Source>(
    alloc: Global,
    mount: &mut Mount<S, C>,
    handle: WriterHandle,
    input: &mut I,
) -> Result<Written, NoMemory>
    requires { IsFine mount.old }
    ensures writes { IfOk result (λ told. WritesAll handle mount.old (I.given input.old) told mount.new (I.given input.new)) }
    ensures broken_off { OnErr result (BeginsToWrite handle mount.old (I.given input.old) mount.new (I.given input.new)) }
    ensures fine { IsFine mount.new }
{
    let mut placing = Placing { handle, at: 0 };
    while placing.at <= MAX_SIZE {
        let step = write_next(alloc, mount, placing, input)?;
        match step {
            Step::More(next) => placing = next,
            Step::Last { last, is_whole } => return Ok(Written::All { last, is_whole }),
            Step::Stopped(why) => return Ok(Written::Stopped(why)),
        }
    }
    Ok(Written::Stopped(Stuck::Refused(Refusal::TooFar)))
}
