//! The next request of a source.
ghost use Rattle.std.specs.Prelude.{IfOk, OnErr};
ghost use Rattle.frame_streams.specs.Arriving.{Arrives, ArrivesBehind, Begins, HasNoRoom};

use crate::filling::{Ending, read_bytes};
use edge_io::Source;
use frame_format::{HEAD_SIZE, Head};
use plfs_types::{Bytes, MAX_BLOCK, NoMemory};
use std::alloc::Global;

/// What came of a source.
#[derive(Drop)]
pub enum Arrival {
    /// A head, and as many bytes as it says.
    Frame { head: Head, payload: Bytes },
    /// The source has no further byte.
    End,
    /// It ended within a frame.
    Cut,
    /// A head that says that more bytes follow than a frame may have. None of them was read.
    Long { head: Head },
    /// A read failed.
    Failed,
}

// What comes behind a head.
fn behind_head<I: Source>(alloc: Global, input: &mut I, head: Head) -> Result<Arrival, NoMemory>
    ensures arrives { IfOk result (λ arrival. ArrivesBehind head arrival (I.given input.old) (I.given input.new)) }
    ensures unread { OnErr result (HasNoRoom head (I.given input.old) (I.given input.new)) }
{
    if head.len > MAX_BLOCK as u64 {
        return Ok(Arrival::Long { head });
    }
    let rest = read_bytes(alloc, input, head.len as usize)?;
    Ok(match rest.ending {
        Ending::Full => Arrival::Frame {
            head,
            payload: rest.bytes,
        },
        Ending::AtEnd => Arrival::Cut,
        Ending::Failed => Arrival::Failed,
    })
}

/// Reads the next frame of the source, and no byte behind it. Where memory is refused no byte behind the frame's head was read.
pub fn next_frame<I: Source>(alloc: Global, input: &mut I) -> Result<Arrival, NoMemory>
    ensures arrives { IfOk result (λ arrival. Arrives arrival (I.given input.old) (I.given input.new)) }
    ensures begun { OnErr result (Begins (I.given input.old) (I.given input.new)) }
{
    let front = read_bytes(alloc, input, HEAD_SIZE)?;
    match front.ending {
        Ending::Full => {
            let head = Head::read(front.bytes.as_slice());
            behind_head(alloc, input, head)
        }
        Ending::AtEnd => {
            if front.bytes.as_slice().is_empty() {
                Ok(Arrival::End)
            } else {
                Ok(Arrival::Cut)
            }
        }
        Ending::Failed => Ok(Arrival::Failed),
    }
}
