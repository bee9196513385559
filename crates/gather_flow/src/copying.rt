//! Copies of lists.
ghost use Rattle.std.specs.Prelude.{◌≡◌, IfOk};

use plfs_types::{NoMemory, Sequence};
use std::alloc::Global;

/// A copy of these items.
pub fn copied<T: Copy>(alloc: Global, items: &[T]) -> Result<Sequence<T>, NoMemory>
    ensures { IfOk result (λ copy. copy ≡ items.now) }
{
    Ok(Sequence::from_vec(Vec::from_slice(alloc, items)?))
}
