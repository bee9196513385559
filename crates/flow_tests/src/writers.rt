//! The calls of a writer, and what comes of the replies to them.
ghost use Rattle.std.specs.Prelude.{IfSome};
ghost use Rattle.mount_model.specs.Standing.{IsFresh};
ghost use Rattle.writer_flow.specs.WritingStages.{write_standing};

use crate::cases::all_hold;
use plfs_types::{Block, Bytes};
use std::alloc::Global;
use writer_flow::{WriteFlow, WriterHandle};

/// The handle of a writer with so many entries in its buffer for two.
pub(crate) fn handle_of(pending: u64, closing: bool, landed: u64) -> WriterHandle {
    WriterHandle {
        writer: 4294967297,
        cap: 2,
        pending,
        closing,
        landed,
    }
}

fn block(alloc: Global) -> Option<Block> {
    Block::new(Bytes::copy(alloc, b"x").ok()?).ok()
}

/// Who writes one byte at 3, where so many entries are pending.
pub(crate) fn writing(alloc: Global, pending: u64) -> Option<WriteFlow>
    ensures { IfSome result (λ flow. IsFresh (write_standing flow)) }
{
    let block = block(alloc)?;
    Some(WriteFlow::new(handle_of(pending, false, 5), 3, block))
}

const CASES: &str = "\
open # an opening makes its six calls
make: room 1
enter 7 2: entered 4294967297
floor: floored 9
hostdir: done
index: done
log: done
= open 4294967297 2 0 0

open # after a trouble it leaves and tells the first
make: room 1
enter 7 2: entered 4294967297
floor: damaged
exit: fault
= damaged / 0

write 2 # a write flushes a full buffer
flush: flushed 7
write 3: wrote 10
= open 4294967297 2 1 5 ok 10

sync 1 # a sync tells what has landed
sync-log 4294967297: done
flush: flushed 6
sync-index: synced 6
= open 4294967297 2 0 6 ok 6

close 5 # a close syncs, and a fault of what it leaves keeps it open
sync-log 4294967297: done
sync-index: synced 6
meta: fault
= closing 4294967297 2 0 6 fault

closing 6 # the next one goes on there, and leaves
meta: done
exit: done
= left ok 6
";

#[test]
fn a_writer_opens_writes_syncs_and_leaves(rt: HostRuntime) {
    all_hold(&rt, rt.alloc(), CASES)
}
