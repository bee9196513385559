//! The droppings that covers tell of.
ghost use Rattle.std.specs.Prelude.{◌≡◌, [], length, IfOk};
ghost use Rattle.flat_format.specs.declared.flat.TheConstants.{HEAD_SIZE};
ghost use Rattle.flatten_core.specs.Covered.{covered as covered_of};
ghost use Rattle.index_reader.specs.Listing.{AreByWriter};

use flat_format::{COVER_SIZE, HEAD_SIZE};
use index_reader::{Dropping, DroppingList, dropping_of};
use plfs_types::{Cover, NoMemory};
use std::alloc::Global;

/// The dropping of each cover's writer, or the place in the flattened index, in bytes, of the first cover that has none.
pub(crate) fn covered(
    alloc: Global,
    droppings: &[Dropping],
    covers: &[Cover],
) -> Result<Result<DroppingList, u64>, NoMemory>
    requires { AreByWriter droppings.now }
    ensures found { IfOk result (λ found. found ≡ covered_of droppings.now HEAD_SIZE covers.now []) }
    ensures many { IfOk result (λ found. IfOk found (λ list. length list ≡ length covers.now)) }
{
    let mut list = DroppingList::new(alloc);
    let mut place = HEAD_SIZE as u64;
    for cover in covers {
        match dropping_of(droppings, cover.writer) {
            Some(dropping) => list.push(dropping)?,
            None => return Ok(Err(place)),
        }
        place += COVER_SIZE as u64;
    }
    Ok(Ok(list))
}
