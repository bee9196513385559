//! What comes of all that was read.
ghost use Rattle.std.specs.Prelude.{◌≡◌, ℕ, if◌then◌else◌, IfOk};
ghost use Rattle.plain_file.specs.Runs.{AreRuns};
ghost use Rattle.plain_file.specs.Size.{size_from};
ghost use Rattle.plain_file.specs.Sources.{source_at, kept_source};
ghost use Rattle.index_reader.specs.Covered.{AreByWriter as AreCoversByWriter};
ghost use Rattle.index_reader.specs.Listing.{AreByWriter as AreDroppingsByWriter};
ghost use Rattle.gather_flow.specs.OneIndex.{gathered_of};
ghost use Rattle.refresh_index.specs.Parts.{AreInOrder};
ghost use Rattle.refresh_index.specs.Refreshing.{refreshed as refreshed_of, behind as behind_of, merged as merged_of, clipped as clipped_of, nothing_came as nothing_came_of};

use crate::copying::are_same;
use crate::held::Held;
use crate::hosts::{hosts_with, unpacked};
use flat_format::Flat;
use gather_flow::{AllRead, Listed, copied};
use index_reader::{Gathered, Listing};
use interval_merge::{clip, merge, size};
use plain_file::{Piece, PieceList, Pieces, ReaderParts};
use plfs_types::{NoMemory, Trunc};
use std::alloc::Global;

/// The index droppings that were listed, of which the held entries are not read again.
pub(crate) fn behind(alloc: Global, held: &Held, listing: &Listing) -> Result<Listed, NoMemory>
    requires { AreDroppingsByWriter listing.now.droppings }
    ensures { IfOk result (λ listed. listed ≡ behind_of held.now listing.now) }
{
    let parts = held.get();
    let droppings = unpacked(alloc, listing.droppings.as_slice())?;
    let covers = copied(alloc, parts.covers.as_slice())?;
    Ok(Listed::of(Listing {
        room: parts.room,
        droppings,
        flat: Flat {
            covers,
            pieces: Pieces::of(PieceList::new(alloc)),
        },
    }))
}

/// All that was read, as one index.
fn came(alloc: Global, all: AllRead) -> Result<Gathered, NoMemory>
    ensures value { IfOk result (λ came. came ≡ gathered_of all.listed all.shares all.truncs) }
    ensures covers { IfOk result (λ came. AreCoversByWriter came.flat.covers) }
    ensures droppings { IfOk result (λ came. AreDroppingsByWriter came.droppings) }
{
    let _listed = all.listed.get();
    let came = all.gathered(alloc)?;
    Ok(came)
}

/// The pieces of a file, and its size.
#[derive(Drop)]
struct File {
    pieces: Pieces,
    size: u64,
}

/// The pieces that the truncates leave: the same where there is none.
fn clipped(alloc: Global, pieces: Pieces, truncs: &[Trunc]) -> Result<Pieces, NoMemory>
    ensures kept { IfOk result (λ clipped. (x : ℕ) → source_at clipped x ≡ kept_source truncs.now x (source_at pieces x)) }
    ensures runs { IfOk result AreRuns }
{
    if truncs.is_empty() {
        let _same = pieces.as_slice();
        return Ok(pieces);
    }
    let clipped = clip(alloc, &pieces, truncs)?;
    let _clipped = clipped.as_slice();
    Ok(clipped)
}

/// The held pieces with those that came, clipped by the truncates.
fn with_tails(
    alloc: Global,
    held: &Pieces,
    tails: &Pieces,
    truncs: &[Trunc],
) -> Result<File, NoMemory>
    ensures pieces { IfOk result (λ file. file.pieces ≡ clipped_of truncs.now (merged_of held.now tails.now)) }
    ensures size { IfOk result (λ file. file.size ≡ size_from (merged_of held.now tails.now) truncs.now) }
{
    let merged = merge(alloc, held, tails)?;
    let size = size(&merged, truncs);
    let pieces = clipped(alloc, merged, truncs)?;
    Ok(File { pieces, size })
}

/// Whether no pieces came, and no truncates.
fn nothing_came(held: &[Trunc], tails: &[Piece], truncs: &[Trunc]) -> bool
    ensures { result ≡ nothing_came_of held.now tails.now truncs.now }
{
    if tails.is_empty() {
        are_same(held, truncs)
    } else {
        false
    }
}

/// The file with what came: as it was where nothing did.
fn brought_on(alloc: Global, file: File, held: &[Trunc], came: &Gathered) -> Result<File, NoMemory>
    ensures pieces { IfOk result (λ made. made.pieces
        ≡ (if nothing_came_of held.now came.now.flat.pieces came.now.truncs then file.pieces else clipped_of came.now.truncs (merged_of file.pieces came.now.flat.pieces))) }
    ensures size { IfOk result (λ made. made.size
        ≡ (if nothing_came_of held.now came.now.flat.pieces came.now.truncs then file.size else size_from (merged_of file.pieces came.now.flat.pieces) came.now.truncs)) }
{
    let tails = &came.flat.pieces;
    let truncs = came.truncs.as_slice();
    if nothing_came(held, tails.as_slice(), truncs) {
        return Ok(file);
    }
    let made = with_tails(alloc, &file.pieces, tails, truncs);
    drop(file);
    made
}

/// The parts with what came.
fn brought(alloc: Global, held: Held, came: Gathered) -> Result<ReaderParts, NoMemory>
    requires covers { AreCoversByWriter came.flat.covers }
    requires droppings { AreDroppingsByWriter came.droppings }
    ensures value { IfOk result (λ parts. parts ≡ refreshed_of held came) }
    ensures order { IfOk result AreInOrder }
{
    let ReaderParts {
        room,
        pieces,
        size,
        covers,
        truncs,
        hosts,
    } = held.take();
    drop(covers);
    let told = hosts_with(alloc, hosts.as_slice(), came.droppings.as_slice());
    drop(hosts);
    let Ok(hosts) = told else {
        drop((pieces, truncs, came));
        return Err(NoMemory);
    };
    let file = brought_on(alloc, File { pieces, size }, truncs.as_slice(), &came);
    drop(truncs);
    let Ok(file) = file else {
        drop((hosts, came));
        return Err(NoMemory);
    };
    let Gathered {
        flat,
        droppings,
        truncs,
        ..
    } = came;
    drop(droppings);
    let Flat {
        covers,
        pieces: tails,
    } = flat;
    drop(tails);
    let File { pieces, size } = file;
    Ok(ReaderParts {
        room,
        pieces,
        size,
        covers,
        truncs,
        hosts,
    })
}

/// The parts of the reader that is refreshed by all that was read.
pub(crate) fn refreshed(alloc: Global, held: Held, all: AllRead) -> Result<ReaderParts, NoMemory>
    ensures value { IfOk result (λ parts. parts ≡ refreshed_of held (gathered_of all.listed all.shares all.truncs)) }
    ensures order { IfOk result AreInOrder }
{
    match came(alloc, all) {
        Ok(came) => brought(alloc, held, came),
        Err(why) => {
            drop(held);
            Err(why)
        }
    }
}
