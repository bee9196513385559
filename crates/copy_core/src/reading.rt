//! A source, read block by block.
ghost use Rattle.std.specs.Prelude.{◌≡◌, ◌≤◌, ◌+◌, [], ◌++◌, length, vec_len, vec_capacity, IfOk, OnErr};
ghost use Rattle.plfs_types.specs.declared.bytes.TheConstants.{MAX_BLOCK as BLOCK};
ghost use Rattle.copy_core.specs.Reading.{HasFilled};

use edge_io::Source;
use plfs_types::{Bytes, MAX_BLOCK, NoMemory};
use std::alloc::{AllocError, Global};

/// How many bytes are asked of a source at once. They stay in a processor's cache until the block has them.
const PART: usize = 1 << 17;

/// How the reading of a block ended.
#[derive(Clone, Copy)]
pub(crate) enum Ending {
    /// The block is full.
    Full,
    /// The source has no further byte.
    AtEnd,
    /// A read failed.
    Failed,
}

/// A block of a source, which may be short or empty where the source ended or failed.
#[derive(Drop)]
pub(crate) struct Piece {
    pub(crate) bytes: Bytes,
    pub(crate) ending: Ending,
}

/// Adds these bytes, for which there is room.
fn add(bytes: &mut Vec<u8>, more: &[u8])
    requires room { vec_len bytes.old + length more.now ≤ vec_capacity bytes.old }
    ensures added { bytes.new.items ≡ bytes.old.items ++ more.now }
    ensures kept { vec_capacity bytes.old ≤ vec_capacity bytes.new }
{
    if bytes.extend_from_slice(more).is_err() {
        unreachable!();
    }
}

/// Reads until there is a block of bytes, or the source ends or fails. The bytes go through `part`.
fn fill<I: Source>(input: &mut I, part: &mut [u8], bytes: &mut Vec<u8>) -> Ending
    requires part { length part.old ≡ PART }
    requires empty { bytes.old.items ≡ [] }
    requires room { BLOCK ≤ vec_capacity bytes.old }
    ensures filled { HasFilled bytes.new.items result (I.given input.old) (I.given input.new) }
{
    while bytes.len() < MAX_BLOCK {
        let room = PART.min(MAX_BLOCK - bytes.len());
        let Ok(more) = input.read(&mut part[..room]) else {
            return Ending::Failed;
        };
        if more == 0 {
            return Ending::AtEnd;
        }
        add(bytes, &part[..more]);
    }
    Ending::Full
}

/// Room for the bytes of a block.
fn room(alloc: Global) -> Result<Vec<u8>, AllocError>
    ensures empty { IfOk result (λ bytes. bytes.items ≡ []) }
    ensures room { IfOk result (λ bytes. BLOCK ≤ vec_capacity bytes) }
{
    Vec::with_capacity(alloc, MAX_BLOCK)
}

/// A part that bytes go through.
fn part(alloc: Global) -> Result<Vec<u8>, AllocError>
    ensures { IfOk result (λ bytes. vec_len bytes ≡ PART) }
{
    vec![in alloc; 0; PART]
}

/// Reads the next block of the source: as many bytes as a block can have, or those up to its end or to a read that failed. Where memory
/// is refused no byte was read.
pub(crate) fn read_block<I: Source>(alloc: Global, input: &mut I) -> Result<Piece, NoMemory>
    ensures filled { IfOk result (λ piece. HasFilled piece.bytes piece.ending (I.given input.old) (I.given input.new)) }
    ensures unread { OnErr result (I.given input.new ≡ I.given input.old) }
{
    let mut bytes = room(alloc)?;
    let mut part = part(alloc)?;
    let ending = fill(input, &mut part, &mut bytes);
    Ok(Piece {
        bytes: Bytes::from_vec(bytes),
        ending,
    })
}
