//! A source, copied into a file.
ghost use Rattle.std.specs.Prelude.{◌≡◌, ◌<◌, ◌^◌, IfOk, OnErr};
ghost use Rattle.mount_sound.specs.Sound.{IsFine};
ghost use Rattle.lone_flow.specs.Driving.{BeginsToMake, Makes};
ghost use Rattle.writer_flow.specs.Opening.{open_program};
ghost use Rattle.lone_flow.specs.Settling.{BeginsToSettle};
ghost use Rattle.copy_core.specs.Copying.{BeginsToCopy, BeginsToCopyBy, BeginsToCopyInto, Copies, CopiesBy, CopiesInto, EndsAfter};

use crate::clearing::clear;
use crate::writing::{Placing, Written, write_all};
use edge_io::{Clock, Source};
use lone_flow::{drive_freely, settle};
use mount_core::Mount;
use mount_model::Stuck;
use plfs_types::{LogicalName, NoMemory};
use std::alloc::Global;
use store_api::Store;
use writer_flow::{OpenWrite, WriterHandle};

/// How many entries the writer's buffer has. So at a stop the index lacks one block at most.
const BUFFER: u32 = 1;

/// What was copied.
#[derive(Clone, Copy)]
pub struct Copied {
    /// How many bytes the file has.
    pub bytes: u64,
    /// The id of the file's writer.
    pub writer: u64,
    /// Whether the source ended. Else a read of it failed, and the bytes are those before that.
    pub is_whole: bool,
}

/// Opens a writer.
fn open_writer<S: Store + Drop, C: Clock + Drop>(
    mount: &mut Mount<S, C>,
    name: LogicalName,
    host: u32,
) -> Result<Result<WriterHandle, Stuck>, NoMemory>
    requires { IsFine mount.old }
    ensures makes { IfOk result (λ opened. Makes (open_program name host 1) mount.old opened mount.new) }
    ensures broken_off { OnErr result (BeginsToMake (open_program name host 1) mount.old mount.new) }
    ensures fine { IsFine mount.new }
{
    drive_freely(mount, OpenWrite::new(name, host, BUFFER))
}

/// Syncs and closes the writer, and tells what was copied where both end well.
fn settled_as<S: Store + Drop, C: Clock + Drop>(
    mount: &mut Mount<S, C>,
    writer: u64,
    last: Placing,
    is_whole: bool,
) -> Result<Result<Copied, Stuck>, NoMemory>
    requires { IsFine mount.old }
    ensures ends { IfOk result (λ told. EndsAfter writer last is_whole mount.old told mount.new) }
    ensures broken_off { OnErr result (BeginsToSettle last.handle mount.old mount.new) }
    ensures fine { IsFine mount.new }
{
    match settle(mount, last.handle)? {
        Ok(()) => Ok(Ok(Copied {
            bytes: last.at,
            writer,
            is_whole,
        })),
        Err(why) => Ok(Err(why)),
    }
}

/// Writes the source's bytes by this writer, and syncs and closes it.
fn copy_by<S: Store + Drop, C: Clock + Drop, I: Source>(
    alloc: Global,
    mount: &mut Mount<S, C>,
    handle: WriterHandle,
    input: &mut I,
) -> Result<Result<Copied, Stuck>, NoMemory>
    requires { IsFine mount.old }
    ensures copies { IfOk result (λ told. CopiesBy handle mount.old (I.given input.old) told mount.new (I.given input.new)) }
    ensures broken_off { OnErr result (BeginsToCopyBy handle mount.old (I.given input.old) mount.new (I.given input.new)) }
    ensures fine { IsFine mount.new }
{
    let written = write_all(alloc, mount, handle, input)?;
    match written {
        Written::All { last, is_whole } => settled_as(mount, handle.writer, last, is_whole),
        Written::Stopped(why) => Ok(Err(why)),
    }
}

/// Copies the source by a writer that is opened for it.
fn copy_into<S: Store + Drop, C: Clock + Drop, I: Source>(
    alloc: Global,
    mount: &mut Mount<S, C>,
    name: LogicalName,
    host: u32,
    input: &mut I,
) -> Result<Result<Copied, Stuck>, NoMemory>
    requires { IsFine mount.old }
    ensures copies { IfOk result (λ told. CopiesInto name host mount.old (I.given input.old) told mount.new (I.given input.new)) }
    ensures broken_off { OnErr result (BeginsToCopyInto name host mount.old (I.given input.old) mount.new (I.given input.new)) }
    ensures fine { IsFine mount.new }
{
    let opened = open_writer(mount, name, host)?;
    match opened {
        Ok(handle) => copy_by(alloc, mount, handle, input),
        Err(why) => Ok(Err(why)),
    }
}

/// Copies the source into the file of this name, as caller 0 by itself. A file that is there is refused as `Exists`, but where it may
/// be written over it is cut to nothing. A writer of this host is opened, and the source's bytes are written from the first
/// byte on, each block by one write. Then the writer is synced and closed.
///
/// Where a read of the source fails, what came before that is written, and the writer is synced and closed all the same.
/// It ends with the first other trouble, and then neither syncs nor closes. After `NoMemory` the calls are a front of those of a copying, of
/// which the last one may have been refused memory, and what was written until then stands.
pub fn copy<S: Store + Drop, C: Clock + Drop, I: Source>(
    alloc: Global,
    mount: &mut Mount<S, C>,
    name: LogicalName,
    host: u32,
    over: bool,
    input: &mut I,
) -> Result<Result<Copied, Stuck>, NoMemory>
    requires { IsFine mount.old }
    ensures copies { IfOk result (λ told. Copies name host over mount.old (I.given input.old) told mount.new (I.given input.new)) }
    ensures broken_off { OnErr result (BeginsToCopy name host over mount.old (I.given input.old) mount.new (I.given input.new)) }
    ensures fine { IsFine mount.new }
{
    let cleared = clear(mount, name, over)?;
    match cleared {
        Ok(()) => copy_into(alloc, mount, name, host, input),
        Err(why) => Ok(Err(why)),
    }
}
