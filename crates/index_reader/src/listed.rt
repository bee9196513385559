//! What comes of all listings of a container.
ghost use Rattle.std.specs.Prelude.{◌≡◌, ℕ, Result, IfOk};
ghost use Rattle.mount_model.specs.declared.stuck.Stuck.{Stuck as Trouble};
ghost use Rattle.index_reader.specs.declared.listing.Listing.{Listing as Listed};
ghost use Rattle.index_reader.specs.Replies.{on_trouble};
ghost use Rattle.index_reader.specs.OpenStages.{as_listing};
ghost use Rattle.index_reader.specs.Opening.{no_flat as flat_of_nothing, uncovered as uncovered_in, unless_uncovered, listed as what_is_listed};

use crate::droppings::Droppings;
use crate::flats::flat_path;
use crate::flattened::Flattened;
use crate::owners::Owners;
use crate::packs::packed_path;
use crate::scanning::Scan;
use flat_format::{COVER_SIZE, Flat, HEAD_SIZE};
use mount_model::{Stuck, damage};
use plain_file::{PieceList, Pieces};
use plfs_types::{Cover, CoverList, NoMemory};
use std::alloc::Global;

/// The flattened index of nothing.
pub(crate) fn no_flat(alloc: Global) -> Flattened
    ensures { result ≡ flat_of_nothing }
{
    let pieces = match Pieces::read(PieceList::new(alloc)) {
        Ok(pieces) => pieces,
        Err(_) => unreachable!(),
    };
    Flattened::of(Flat {
        covers: CoverList::new(alloc),
        pieces,
    })
}

/// The damage of the first cover of the flattened index of this id whose writer has no index dropping.
fn uncovered(id: u64, indices: &Owners, covers: &[Cover]) -> Option<Stuck>
    ensures { (next : Result Listed Trouble) → unless_uncovered id (uncovered_in indices.now 0 covers.now) next ≡ on_trouble result next }
{
    for (index, cover) in covers.iter().enumerate() {
        if !indices.has(cover.writer) {
            let place = (HEAD_SIZE + COVER_SIZE * index) as u64;
            return Some(damage(&flat_path(id), place));
        }
    }
    None
}

/// The droppings that were listed, with the flattened index of this id, or the damage that is found.
pub(crate) fn listed(
    alloc: Global,
    id: u64,
    flat: &Flat,
    scan: &Scan,
) -> Result<Result<Droppings, Stuck>, NoMemory>
    ensures { IfOk result (λ found. (room : ℕ) → what_is_listed room id flat.now scan.now ≡ as_listing room flat.now found) }
{
    if let Some(why) = uncovered(id, &scan.indices, flat.covers.as_slice()) {
        return Ok(Err(why));
    }
    if let Some(pack) = scan.packs.first_apart(alloc, &scan.indices)? {
        return Ok(Err(damage(&packed_path(pack.host, pack.writer), 0)));
    }
    let droppings = scan.indices.droppings(alloc, &scan.packs)?;
    Ok(Ok(droppings))
}
