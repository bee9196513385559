//! The statement that an actor is at work on.
use crate::names::NamesRead;
use crate::purpose::Purpose;
use attr_flow::AttrFlow;
use flatten_core::FlattenFlow;
use gather_flow::Gathering;
use index_reader::{OpenRead, Reading};
use refresh_index::Refresh;
use script_lang::{Data, Outcome};
use torn_tail::RecoverFlow;
use trunc_rename::{RenameFlow, TruncFlow};
use writer_flow::{CloseFlow, OpenWrite, SyncFlow, WriteFlow};

/// How far the statement at work is: its machine, and what its line tells of the statement itself. A machine that is much larger than that of a
/// write stands in a box, so that a write doesn't move as many bytes.
#[derive(Drop)]
pub(crate) enum Doing {
    /// It makes no further call, and this is what comes of it.
    Known(Outcome),
    Opening(OpenWrite),
    Writing {
        flow: WriteFlow,
        at: u64,
        len: u64,
    },
    Syncing(SyncFlow),
    Closing(CloseFlow),
    /// A container is listed that is to be gathered.
    Listing {
        flow: OpenRead,
        purpose: Purpose,
    },
    Gathering {
        flow: Box<Gathering>,
        purpose: Purpose,
    },
    Reading {
        flow: Reading,
        at: u64,
    },
    Verifying {
        flow: Reading,
        at: u64,
        content: Data,
    },
    Telling(AttrFlow),
    Truncating(TruncFlow),
    Flattening(Box<FlattenFlow>),
    Renaming(RenameFlow),
    Recovering(RecoverFlow),
    Refreshing(Box<Refresh>),
    Naming(NamesRead),
}
