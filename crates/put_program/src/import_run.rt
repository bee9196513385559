//! The whole of a run that puts several sources, each into a file of its own: mount, work, output, status.
ghost use Rattle.std.specs.Prelude.{◌≡◌, ◌≢◌, Some, option_map};
ghost use Rattle.plfs_types.specs.Counts.{HasRisen};
ghost use Rattle.store_api.specs.Acts.{Stored};
ghost use Rattle.program_ends.specs.Ends.{ends_of};
ghost use Rattle.program_ends.specs.SoundTrees.{LeavesSoundTree, TellsSoundTree};
ghost use Rattle.put_program.specs.Importing.{ImportCourse, sources_of};

use crate::importing::{Named, put_each};
use edge_io::{Clock, Sink, Source};
use mount_core::Mount;
use mount_sound::a_failed_mounting_leaves_a_sound_tree;
use program_ends::{Ended, ends, say_unmounted};
use std::alloc::Global;
use store_api::Store;

/// Mounts the store, and puts each source into its file, the last one first, by a writer of this host.
///
/// A file that is there is written over only where that is said, and else refused. Before the line of each put it prints the file's name
/// and a space. It goes on behind a file that was refused, and behind one whose source failed. Behind any other trouble it ends. The
/// status is the greatest of those of the puts.
///
/// Where the store told a sound tree, who opens one of the files later sees just what was put into it, where nothing has landed there since
/// that put. No damage is told, and a sound tree is left. A fault of the store is told only where its count of faults has risen.
#[inline(never)]
pub fn import<S: Store + Drop, C: Clock + Drop, I: Source + Drop, O: Sink>(
    alloc: Global,
    host: u32,
    over: bool,
    files: Vec<Named<I>>,
    out: &mut O,
    store: S,
    clock: C,
) -> Ended<S>
    ensures course { ImportCourse host over (sources_of I.given files.items) (ends_of (C.times clock) (O.taking out.old) (O.taking out.new) (S.stored store) (option_map S.stored result.store)) result.status }
    ensures cause { result.status ≡ 4 → (after : Stored) × (option_map S.stored result.store ≡ Some after) × HasRisen (S.stored store).faults after.faults }
    ensures undamaged { TellsSoundTree (S.stored store) → result.status ≢ 7 }
    ensures sound { TellsSoundTree (S.stored store) → LeavesSoundTree (option_map S.stored result.store) }
{
    a_failed_mounting_leaves_a_sound_tree();
    match Mount::open(alloc, store, clock) {
        Ok(mount) => {
            let mut mount = mount;
            let status = put_each(alloc, &mut mount, host, over, files, out);
            ends(mount.close(), status)
        }
        Err((store, trouble)) => {
            let status = say_unmounted(alloc, out, trouble);
            ends(store, status)
        }
    }
}
