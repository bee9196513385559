//! So many bytes of a source.
ghost use Rattle.std.specs.Prelude.{◌≡◌, ◌≤◌, length, take, vec_len, IfOk, OnErr};
ghost use Rattle.frame_streams.specs.Filling.{HasFilled};

use edge_io::Source;
use plfs_types::{Bytes, NoMemory};
use std::alloc::{AllocError, Global};

/// How the reading of some bytes ended.
#[derive(Clone, Copy)]
pub(crate) enum Ending {
    /// All of them came.
    Full,
    /// The source has no further byte.
    AtEnd,
    /// A read failed.
    Failed,
}

/// How many bytes were read, and how that ended.
#[derive(Clone, Copy)]
struct Filled {
    count: usize,
    ending: Ending,
}

/// Bytes of a source, which may be fewer than were wanted where it ended or failed.
#[derive(Drop)]
pub(crate) struct Piece {
    pub(crate) bytes: Bytes,
    pub(crate) ending: Ending,
}

/// Reads until `into` is full, or the source ends or fails. The bytes stand in the first bytes of `into`.
fn fill<I: Source>(input: &mut I, into: &mut [u8]) -> Filled
    ensures within { result.count ≤ length into.new }
    ensures filled { HasFilled (length into.old) (take result.count into.new) result.ending (I.given input.old) (I.given input.new) }
{
    let mut count = 0;
    while count < into.len() {
        let Ok(more) = input.read(&mut into[count..]) else {
            return Filled {
                count,
                ending: Ending::Failed,
            };
        };
        if more == 0 {
            return Filled {
                count,
                ending: Ending::AtEnd,
            };
        }
        count += more;
    }
    Filled {
        count,
        ending: Ending::Full,
    }
}

/// Room for so many bytes.
fn room(alloc: Global, len: usize) -> Result<Vec<u8>, AllocError>
    ensures { IfOk result (λ bytes. vec_len bytes ≡ len) }
{
    vec![in alloc; 0; len]
}

/// Reads so many bytes of the source, or those up to its end or to a read that failed. Where memory is refused none was read.
pub(crate) fn read_bytes<I: Source>(
    alloc: Global,
    input: &mut I,
    len: usize,
) -> Result<Piece, NoMemory>
    ensures fills { IfOk result (λ piece. HasFilled len piece.bytes piece.ending (I.given input.old) (I.given input.new)) }
    ensures unread { OnErr result (I.given input.new ≡ I.given input.old) }
{
    let mut bytes = room(alloc, len)?;
    let filled = fill(input, &mut bytes);
    bytes.truncate(filled.count);
    Ok(Piece {
        bytes: Bytes::from_vec(bytes),
        ending: filled.ending,
    })
}
