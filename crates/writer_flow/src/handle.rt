//! What one keeps of an open writer.
ghost use Rattle.std.specs.Prelude.{◌≡◌, ◌+◌, ◌<◌, ◌^◌};
ghost use Rattle.writer_flow.specs.Handle.{opened_of, flushed_of, synced_of, one_more_of, closing_of};
ghost use Rattle.writer_flow.specs.Ending.{trouble as trouble_of, failed as failed_of};

use mount_model::{Reply, Stuck};

/// An open writer, as far as the machine before told of it.
#[derive(Clone, Copy, PartialEq, Eq)]
pub struct WriterHandle {
    /// Its id.
    pub writer: u64,
    /// The most entries that its buffer holds.
    pub cap: u32,
    /// How many of its entries are in the buffer.
    pub pending: u64,
    /// Whether its metadata dropping was asked for: it may only leave.
    pub closing: bool,
    /// How many entries its last sync told of, or 0.
    pub landed: u64,
}

/// The writer after a write, a sync or a close, and the stamp or the landed count.
#[derive(Clone, Copy, PartialEq, Eq)]
pub struct WriterOut {
    /// None exactly after a close whose Exit was made or faulted.
    pub handle: Option<WriterHandle>,
    pub result: Result<u64, Stuck>,
}

impl WriterHandle {
    /// Of a writer that was opened, and has done nothing.
    pub(crate) fn opened(writer: u64, cap: u32) -> Self
        ensures { result ≡ opened_of writer cap }
    {
        WriterHandle {
            writer,
            cap,
            pending: 0,
            closing: false,
            landed: 0,
        }
    }

    /// With nothing in the buffer.
    pub(crate) fn flushed(self) -> Self
        ensures { result ≡ flushed_of self }
    {
        let mut handle = self;
        handle.pending = 0;
        handle
    }

    /// With one more entry in the buffer.
    pub(crate) fn one_more(self) -> Self
        requires { self.pending + 1 < 2 ^ 64 }
        ensures { result ≡ one_more_of self }
    {
        let mut handle = self;
        handle.pending += 1;
        handle
    }

    /// Once a sync told that so many entries have landed.
    pub(crate) fn synced(self, landed: u64) -> Self
        ensures { result ≡ synced_of landed self }
    {
        let mut handle = self;
        handle.landed = landed;
        handle
    }

    /// Once its metadata dropping was asked for.
    pub(crate) fn closing(self) -> Self
        ensures { result ≡ closing_of self }
    {
        let mut handle = self;
        handle.closing = true;
        handle
    }
}

/// The trouble that a reply is.
pub(crate) fn trouble(reply: Reply) -> Stuck
    ensures { result ≡ trouble_of reply }
{
    match reply {
        Reply::Refused(why) => Stuck::Refused(why),
        Reply::Damaged { folder, file } => Stuck::Damaged {
            folder,
            file,
            place: 0,
        },
        _ => Stuck::Fault,
    }
}

/// The writer stays, and the reply is the trouble.
pub(crate) fn failed(handle: WriterHandle, reply: Reply) -> WriterOut
    ensures { result ≡ failed_of handle reply }
{
    WriterOut {
        handle: Some(handle),
        result: Err(trouble(reply)),
    }
}
