//! What a script has its actors do. Data stands as it is written, and is not expanded.
ghost use Rattle.std.specs.Prelude.{◌≡◌, IfOk};

use crate::statement_list::StatementList;
use plfs_types::{Bytes, LogicalName, Name, NoMemory, Sequence};
use std::alloc::Global;

/// What is written or compared, as the script has it.
#[derive(Drop)]
pub enum Data {
    /// Bytes in hexadecimal digits.
    Hex(Bytes),
    /// Bytes in plain text.
    Text(Bytes),
    /// `len` times this byte.
    Fill { len: u64, byte: u8 },
    /// `len` bytes, of which byte j is (`first` + j) mod 256.
    Ramp { len: u64, first: u8 },
}

impl Data {
    /// A copy.
    pub fn copy(&self, alloc: Global) -> Result<Data, NoMemory>
        ensures { IfOk result (λ copy. copy ≡ self.now) }
    {
        Ok(match self {
            Data::Hex(bytes) => Data::Hex(Bytes::copy(alloc, bytes.as_slice())?),
            Data::Text(bytes) => Data::Text(Bytes::copy(alloc, bytes.as_slice())?),
            Data::Fill { len, byte } => Data::Fill {
                len: *len,
                byte: *byte,
            },
            Data::Ramp { len, first } => Data::Ramp {
                len: *len,
                first: *first,
            },
        })
    }
}

/// One statement of an actor. Places, lengths and sizes are in bytes.
#[derive(Drop)]
pub enum Statement {
    /// Opens a writer, making the container if there is none.
    Open { name: LogicalName },
    /// Writes the data from `at` on.
    Write { at: u64, content: Data },
    /// Syncs the writer.
    Sync,
    /// Closes the writer.
    Close,
    /// Opens a reader with 1 to 16 workers.
    Ropen { name: LogicalName, workers: u32 },
    /// Reads at most `len` bytes from `at` on, `len` at most 2^24.
    Read { at: u64, len: u64 },
    /// Reads the length of the data from `at` on, and compares.
    Verify { at: u64, content: Data },
    /// Lists the pieces of the reader.
    Map,
    /// Brings the reader to what a new opening would see.
    Refresh,
    /// Closes the reader.
    Rclose,
    /// Asks for the attributes of a file.
    Stat { name: LogicalName },
    /// Flattens the indices of a file.
    Flatten { name: LogicalName },
    /// Repairs what stopped writers have left of a file.
    Recover { name: LogicalName },
    /// Truncates a file.
    Trunc { name: LogicalName, size: u64 },
    /// GivesAsRead a file a new name.
    Rename { name: LogicalName, to: LogicalName },
    /// Names all files.
    Ls,
    /// Arms a stop within the `call`-th call of the actor's next statement, from 1, after so many bytes.
    Stop { call: u64, bytes: u64 },
}

impl Statement {
    /// A copy.
    pub fn copy(&self, alloc: Global) -> Result<Statement, NoMemory>
        ensures { IfOk result (λ copy. copy ≡ self.now) }
    {
        Ok(match self {
            Statement::Open { name } => Statement::Open { name: *name },
            Statement::Write { at, content } => Statement::Write {
                at: *at,
                content: content.copy(alloc)?,
            },
            Statement::Sync => Statement::Sync,
            Statement::Close => Statement::Close,
            Statement::Ropen { name, workers } => Statement::Ropen {
                name: *name,
                workers: *workers,
            },
            Statement::Read { at, len } => Statement::Read { at: *at, len: *len },
            Statement::Verify { at, content } => Statement::Verify {
                at: *at,
                content: content.copy(alloc)?,
            },
            Statement::Map => Statement::Map,
            Statement::Refresh => Statement::Refresh,
            Statement::Rclose => Statement::Rclose,
            Statement::Stat { name } => Statement::Stat { name: *name },
            Statement::Flatten { name } => Statement::Flatten { name: *name },
            Statement::Recover { name } => Statement::Recover { name: *name },
            Statement::Trunc { name, size } => Statement::Trunc {
                name: *name,
                size: *size,
            },
            Statement::Rename { name, to } => Statement::Rename {
                name: *name,
                to: *to,
            },
            Statement::Ls => Statement::Ls,
            Statement::Stop { call, bytes } => Statement::Stop {
                call: *call,
                bytes: *bytes,
            },
        })
    }
}

/// A statement with the number of its line, from 1, and the place of its actor's declaration, from 0.
#[derive(Drop)]
pub struct Numbered {
    pub line: u64,
    pub actor: u64,
    pub statement: Statement,
}

/// So many written turns, 1 to 2^32 - 1, for the actor that is declared at this place, from 0.
#[derive(Clone, Copy, PartialEq, Eq)]
pub struct Turned {
    pub actor: u64,
    pub count: u64,
}

/// A list of written turns.
pub type TurnList = Sequence<Turned>;

/// Statements that may be made side by side, and their written turns.
#[derive(Drop)]
pub struct Phase {
    pub turns: TurnList,
    pub statements: StatementList,
}

/// A list of phases.
pub type PhaseList = Sequence<Phase>;

/// An actor: its host, the capacity of its writers' index buffers, 1 to 4096 entries, and its name.
#[derive(Clone, Copy)]
pub struct ActorDecl {
    pub host: u32,
    pub cap: u32,
    pub name: Name,
}

/// A list of actors.
pub type ActorList = Sequence<ActorDecl>;

/// What is to be done: the actors, and the phases in order, of which there is at least one.
#[derive(Drop)]
pub struct Script {
    pub actors: ActorList,
    pub phases: PhaseList,
}
