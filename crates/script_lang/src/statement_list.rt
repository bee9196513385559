//! Lists of statements, which take few bytes for most of them.
ghost use Rattle.std.specs.Prelude.{◌≡◌, ◌++◌, ◌∷◌, [], IfOk, OnOk, OnErr};
ghost use Rattle.script_lang.specs.Compact.{statement_kept};

use crate::script::{Data, Numbered, Statement};
use plfs_types::NoMemory;
use std::alloc::Global;
use std::marker::Model;

// A statement without a name of a file, or another one in a block of memory of its own.
#[derive(Drop)]
pub(crate) enum KeptStatement {
    Write { at: u64, content: Data },
    Sync,
    Close,
    Read { at: u64, len: u64 },
    Verify { at: u64, content: Data },
    Map,
    Refresh,
    Rclose,
    Ls,
    Stop { call: u64, bytes: u64 },
    Apart(Box<Statement>),
}

/// A statement with its numbers, as a list keeps it. In contracts it is the `Numbered`.
#[derive(Drop)]
pub struct CompactStatement {
    line: u64,
    actor: u64,
    statement: KeptStatement,
}

impl Model for CompactStatement {
    ghost use Rattle.script_lang.specs.declared.script.Numbered.{Numbered};

    ghost Value = { Numbered };

    ghost use Rattle.script_lang.specs.Compact.{statement_kept};

    ghost view = { λ c. record { line = c.line; actor = c.actor; statement = statement_kept c.statement } };
}

fn kept(alloc: Global, statement: Statement) -> Result<KeptStatement, NoMemory>
    ensures { IfOk result (λ kept. statement_kept kept ≡ statement) }
{
    Ok(match statement {
        Statement::Write { at, content } => KeptStatement::Write { at, content },
        Statement::Sync => KeptStatement::Sync,
        Statement::Close => KeptStatement::Close,
        Statement::Read { at, len } => KeptStatement::Read { at, len },
        Statement::Verify { at, content } => KeptStatement::Verify { at, content },
        Statement::Map => KeptStatement::Map,
        Statement::Refresh => KeptStatement::Refresh,
        Statement::Rclose => KeptStatement::Rclose,
        Statement::Ls => KeptStatement::Ls,
        Statement::Stop { call, bytes } => KeptStatement::Stop { call, bytes },
        named => KeptStatement::Apart(Box::new(alloc, named)?),
    })
}

impl KeptStatement {
    fn copy(&self, alloc: Global) -> Result<Statement, NoMemory>
        ensures { IfOk result (λ copy. copy ≡ statement_kept self.now) }
    {
        match self {
            KeptStatement::Write { at, content } => Ok(Statement::Write {
                at: *at,
                content: content.copy(alloc)?,
            }),
            KeptStatement::Sync => Ok(Statement::Sync),
            KeptStatement::Close => Ok(Statement::Close),
            KeptStatement::Read { at, len } => Ok(Statement::Read { at: *at, len: *len }),
            KeptStatement::Verify { at, content } => Ok(Statement::Verify {
                at: *at,
                content: content.copy(alloc)?,
            }),
            KeptStatement::Map => Ok(Statement::Map),
            KeptStatement::Refresh => Ok(Statement::Refresh),
            KeptStatement::Rclose => Ok(Statement::Rclose),
            KeptStatement::Ls => Ok(Statement::Ls),
            KeptStatement::Stop { call, bytes } => Ok(Statement::Stop {
                call: *call,
                bytes: *bytes,
            }),
            KeptStatement::Apart(statement) => statement.copy(alloc),
        }
    }
}

impl CompactStatement {
    /// The number of its line.
    pub fn line(&self) -> u64
        ensures { result ≡ self.now.line }
    {
        self.line
    }

    /// The place of its actor's declaration.
    pub fn actor(&self) -> u64
        ensures { result ≡ self.now.actor }
    {
        self.actor
    }

    /// A copy of the statement.
    pub fn copy(&self, alloc: Global) -> Result<Statement, NoMemory>
        ensures { IfOk result (λ copy. copy ≡ self.now.statement) }
    {
        self.statement.copy(alloc)
    }
}

/// A list of statements. One without a name of a file takes 64 bytes in it, and its data if it has any.
///
/// In contracts it is the plain list.
#[derive(Drop)]
pub struct StatementList {
    statements: Vec<CompactStatement>,
}

impl Model for StatementList {
    ghost use Rattle.std.specs.Prelude.{List};
    ghost use Rattle.script_lang.specs.declared.script.Numbered.{Numbered};

    ghost Value = { List Numbered };

    ghost view = { λ l. l.statements.items };
}

impl StatementList {
    /// No statements. It takes no memory.
    pub fn new(alloc: Global) -> StatementList
        ensures { result ≡ [] }
    {
        StatementList {
            statements: Vec::new(alloc),
        }
    }

    /// Adds a statement at the end. After `NoMemory` the list is as it was.
    pub fn push(&mut self, numbered: Numbered) -> Result<(), NoMemory>
        ensures ok { OnOk result (self.new ≡ self.old ++ numbered ∷ []) }
        ensures err { OnErr result (self.new ≡ self.old) }
    {
        let Numbered {
            line,
            actor,
            statement,
        } = numbered;
        let statement = kept(*self.statements.allocator(), statement)?;
        self.statements.push(CompactStatement {
            line,
            actor,
            statement,
        })?;
        Ok(())
    }

    /// The statements in order.
    pub fn as_slice(&self) -> &[CompactStatement]
        ensures { result.now ≡ self.now }
    {
        self.statements.as_slice()
    }
}
