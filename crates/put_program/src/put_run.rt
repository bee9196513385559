//! The whole of a run that puts a source into a file: mount, work, output, status.
ghost use Rattle.std.specs.Prelude.{option_map};
ghost use Rattle.program_ends.specs.Ends.{ends_of};
ghost use Rattle.put_program.specs.Putting.{PutCourse};

use crate::putting::put_mounted;
use edge_io::{Clock, Sink, Source};
use mount_core::Mount;
use plfs_types::LogicalName;
use program_ends::{Ended, ends, say_unmounted};
use std::alloc::Global;
use store_api::Store;

/// Mounts the store, and puts the source into the file.
#[inline(never)]
pub fn put<S: Store + Drop, C: Clock + Drop, I: Source, O: Sink>(
    alloc: Global,
    name: LogicalName,
    host: u32,
    over: bool,
    input: &mut I,
    out: &mut O,
    store: S,
    clock: C,
) -> Ended<S>
    ensures { PutCourse name host over (I.given input.old) (I.given input.new) (ends_of (C.times clock) (O.taking out.old) (O.taking out.new) (S.stored store) (option_map S.stored result.store)) result.status }
{
    match Mount::open(alloc, store, clock) {
        Ok(mount) => {
            let mut mount = mount;
            let status = put_mounted(alloc, &mut mount, name, host, over, input, out);
            ends(mount.close(), status)
        }
        Err((store, trouble)) => {
            let status = say_unmounted(alloc, out, trouble);
            ends(store, status)
        }
    }
}
