//! The whole of a run that writes out all files: mount, work, output, status.
ghost use Rattle.std.specs.Prelude.{◌≡◌, ◌≢◌, Some, option_map};
ghost use Rattle.plfs_types.specs.Counts.{HasRisen};
ghost use Rattle.store_api.specs.Acts.{Stored};
ghost use Rattle.program_ends.specs.Ends.{ends_of};
ghost use Rattle.program_ends.specs.SoundTrees.{LeavesSoundTree, TellsSoundTree};
ghost use Rattle.export_program.specs.Course.{ExportCourse};

use crate::laws::who_writes_a_file_out_sees_it;
use crate::passing::pass_all;
use crate::shelf::Shelf;
use edge_io::{Clock, Sink};
use mount_core::Mount;
use mount_sound::a_failed_mounting_leaves_a_sound_tree;
use program_ends::{Ended, ends, say_unmounted};
use std::alloc::Global;
use store_api::Store;

/// Mounts the store, and writes each of its files out into a new one, which is kept under its name. They come in the order in which the
/// store names them.
///
/// Of each it prints a line: its name, and how many bytes it has or why it wasn't kept. It goes on behind one that is there, that can't be
/// made or written, or of which an item is damaged. Behind a fault of the store, and where a line can't be printed or memory is refused,
/// it ends. The status is the greatest of those of the files.
///
/// No call changes anything in the store but the mounting's own. A fault of the store is told only where its count of faults has risen.
/// Where the store told a sound tree, no damage is told, and a file that is kept has the bytes of one cut of its container as the mounting
/// left it.
#[inline(never)]
pub fn export<S: Store + Drop, C: Clock + Drop, F: Sink, H: Shelf<F>, O: Sink>(
    alloc: Global,
    shelf: &mut H,
    out: &mut O,
    store: S,
    clock: C,
) -> Ended<S>
    ensures course { ExportCourse (H.deeds shelf.old) (H.deeds shelf.new) (ends_of (C.times clock) (O.taking out.old) (O.taking out.new) (S.stored store) (option_map S.stored result.store)) result.status }
    ensures cause { result.status ≡ 4 → (after : Stored) × (option_map S.stored result.store ≡ Some after) × HasRisen (S.stored store).faults after.faults }
    ensures undamaged { TellsSoundTree (S.stored store) → result.status ≢ 7 }
    ensures sound { TellsSoundTree (S.stored store) → LeavesSoundTree (option_map S.stored result.store) }
{
    a_failed_mounting_leaves_a_sound_tree();
    who_writes_a_file_out_sees_it();
    match Mount::open(alloc, store, clock) {
        Ok(mount) => {
            let mut mount = mount;
            let status = pass_all(alloc, &mut mount, shelf, out);
            ends(mount.close(), status)
        }
        Err((store, trouble)) => {
            let status = say_unmounted(alloc, out, trouble);
            ends(store, status)
        }
    }
}
