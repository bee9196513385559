//! What an actor keeps between its statements.
use index_reader::OpenReader;
use writer_flow::WriterHandle;

/// A stop within the `call`-th call of a statement, from 1, after so many bytes of a write.
#[derive(Clone, Copy)]
pub struct Stop {
    pub call: u64,
    pub bytes: u64,
}

/// What an actor keeps between its statements.
#[derive(Drop)]
pub struct Kept {
    /// The host of its writers.
    pub host: u32,
    /// The most entries in the index buffer of one of its writers, 1 to 4096.
    pub cap: u32,
    /// Whether it has said that it is there.
    pub greeted: bool,
    /// Its writer, where one is open.
    pub writer: Option<WriterHandle>,
    /// Its reader, where one is open.
    pub reader: Option<OpenReader>,
    /// The stop that is armed for its next statement.
    pub armed: Option<Stop>,
    /// Whether it was stopped: then it makes no further call.
    pub gone: bool,
}
