//! What a writer of host 0 does, from the making of its container on.

/// It writes 4 bytes and syncs them, flushes their entry and syncs it, and leaves.
pub(crate) const SYNCED: &str = "1 make f: room 1
    1 enter 1 0: entered $
    1 floor $: floored 0
    1 hostdir $: done
    1 index $: done
    1 log $: done
    1 write $: wrote 10
    1 sync-log $: done
    1 flush $: flushed 1
    1 sync-index $: synced 1
    1 meta $: done
    1 exit $: done";

/// It writes 4 bytes and flushes their entry, and its caller comes to its end. It is buried, and the third caller's hold
/// breaks off.
pub(crate) const ENDED: &str = "1 make f: room 1
    1 enter 1 0: entered $
    1 floor $: floored 0
    1 hostdir $: done
    1 index $: done
    1 log $: done
    1 write $: wrote 10
    1 flush $: flushed 1
    1/0 greet: stopped
    3 bury 1: done
    3 hold 1: holding 4294967298
    3/0 greet: stopped";
