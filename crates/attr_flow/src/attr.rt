//! What is told of a file.
ghost use Rattle.std.specs.Prelude.{◌≡◌, List, [], All, IfOk};
ghost use Rattle.plain_file.specs.declared.changes.Change.{Change};
ghost use Rattle.plain_file.specs.File.{HasItsBytes, plain_size};
ghost use Rattle.plain_file.specs.Keys.{KeysDiffer};
ghost use Rattle.plain_file.specs.Shows.{entries_of, truncs_of};
ghost use Rattle.plain_file.specs.Runs.{ArePieces};
ghost use Rattle.attr_flow.specs.Shares.{shares_left, shares_covered, stored_in};
ghost use Rattle.attr_flow.specs.Attributes.{cached as cached_of, gathered as gathered_of};

use crate::sizes::cached_size;
use flat_format::Flat;
use interval_merge::size;
use mount_model::{Metadata, MetadataList, metadata_by_writer, truncs_by_stamp};
use plfs_types::{Cover, NoMemory, ShareBytes, ShareBytesList, TruncList};
use std::alloc::Global;

/// What is told of a file.
#[derive(Drop)]
pub struct Attr {
    /// Its size in bytes.
    pub size: u64,
    /// The bytes of all its writes.
    pub stored: u128,
    /// The bytes of each writer's writes, by ascending writer, but for writers that have none.
    pub shares: ShareBytesList,
    /// Its truncates, by rising stamp.
    pub truncs: TruncList,
}

/// The bytes of all these writers.
fn stored(shares: &[ShareBytes]) -> u128
    ensures { result ≡ stored_in shares.now }
{
    let mut stored = 0;
    for share in shares {
        stored += u128::from(share.bytes);
    }
    stored
}

/// The bytes of each writer of these metadata droppings.
fn shares_of_metadata(alloc: Global, metas: &[Metadata]) -> Result<ShareBytesList, NoMemory>
    ensures { IfOk result (λ shares. shares ≡ shares_left metas.now) }
{
    let mut shares = Vec::new(alloc);
    for meta in metas {
        if meta.bytes > 0 {
            shares.push(ShareBytes {
                writer: meta.writer,
                bytes: meta.bytes,
            })?;
        }
    }
    Ok(ShareBytesList::from_vec(shares))
}

/// The bytes of each writer of these covers.
fn shares_of_covers(alloc: Global, covers: &[Cover]) -> Result<ShareBytesList, NoMemory>
    ensures { IfOk result (λ shares. shares ≡ shares_covered covers.now) }
{
    let mut shares = Vec::new(alloc);
    for cover in covers {
        if cover.bytes > 0 {
            shares.push(ShareBytes {
                writer: cover.writer,
                bytes: cover.bytes,
            })?;
        }
    }
    Ok(ShareBytesList::from_vec(shares))
}

/// What the metadata and the truncates of a file tell of it.
pub(crate) fn cached(
    alloc: Global,
    metas: MetadataList,
    truncs: TruncList,
) -> Result<Attr, NoMemory>
    ensures { IfOk result (λ attr. attr ≡ cached_of metas truncs) }
{
    let size = cached_size(metas.as_slice(), truncs.as_slice());
    let metas = metadata_by_writer(metas)?;
    let shares = shares_of_metadata(alloc, metas.as_slice())?;
    let truncs = truncs_by_stamp(truncs)?;
    Ok(Attr {
        size,
        stored: stored(shares.as_slice()),
        shares,
        truncs,
    })
}

/// What a gathered index and the truncates of a file tell of it: the size of the plain file, and the bytes of its
/// writers.
pub fn attr_of(alloc: Global, flat: &Flat, truncs: &TruncList) -> Result<Attr, NoMemory>
    ensures told { IfOk result (λ attr. attr ≡ gathered_of flat.now truncs.now) }
    // The size is that of the plain file.
    ensures plain { IfOk result (λ attr. (changes : List Change) → KeysDiffer (entries_of changes) → All HasItsBytes changes
        → ArePieces (entries_of changes) [] flat.now.pieces → truncs.now ≡ truncs_of changes → attr.size ≡ plain_size changes) }
{
    let shares = shares_of_covers(alloc, flat.covers.as_slice())?;
    let size = size(&flat.pieces, truncs.as_slice());
    let copy = Vec::from_slice(alloc, truncs.as_slice())?;
    Ok(Attr {
        size,
        stored: stored(shares.as_slice()),
        shares,
        truncs: TruncList::from_vec(copy),
    })
}
