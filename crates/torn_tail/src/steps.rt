//! How far the recovery of one writer has come.
use crate::runs::{Counted, Landed, Reads};

/// The call that is to be made next for a writer.
#[derive(Clone, Copy)]
pub(crate) enum Step {
    Inspect,
    /// The length of the index dropping is asked.
    Index,
    /// The length of the log is asked. The index dropping is so long.
    Log(u64),
    Entries(Reads),
    Mend(Counted),
    SyncLog(Landed),
    SyncIndex(Landed),
    Meta(Landed),
    /// So many entries have landed.
    Bury(u64),
}
