//! Lists of lines, which take few bytes for most of them.
ghost use Rattle.std.specs.Prelude.{◌≡◌, ◌++◌, ◌∷◌, [], IfOk, OnOk, OnErr};
ghost use Rattle.script_lang.specs.Compact.{brief_outcome, made_write_of, mishap_of, outcome_kept, outcome_seen};

use crate::line::{Line, MadeWrite, Mishap, Outcome, Why};
use plfs_types::NoMemory;
use std::alloc::Global;
use std::marker::Model;

// An outcome of three numbers or fewer.
#[derive(Clone, Copy)]
pub(crate) enum Brief {
    Opened { writer: u64 },
    Wrote { at: u64, len: u64, stamp: u64 },
    Synced { landed: u64 },
    Closed { landed: u64 },
    Same,
    Differs { place: u64 },
    ReaderClosed,
    Truncated { stamp: u64 },
    Renamed,
    Armed,
    Stopped,
    Gone,
    Refused { why: Why },
    Fault,
}

// A brief outcome, or another one in a block of memory of its own.
#[derive(Drop)]
pub(crate) enum KeptOutcome {
    Brief(Brief),
    Apart(Box<Outcome>),
}

/// What a line of a list says: an outcome that is made for this look, or the list's own.
#[derive(Drop)]
pub enum Seen<'a> {
    Made(Outcome),
    Lent(&'a Outcome),
}

/// A line as a list keeps it. In contracts it is the `Line`.
#[derive(Drop)]
pub struct CompactLine {
    number: u64,
    outcome: KeptOutcome,
}

impl Model for CompactLine {
    ghost use Rattle.script_lang.specs.declared.line.Line.{Line};

    ghost Value = { Line };

    ghost use Rattle.script_lang.specs.Compact.{outcome_kept};

    ghost view = { λ c. record { number = c.number; outcome = outcome_kept c.outcome } };
}

fn kept(alloc: Global, outcome: Outcome) -> Result<KeptOutcome, NoMemory>
    ensures { IfOk result (λ kept. outcome_kept kept ≡ outcome) }
{
    Ok(KeptOutcome::Brief(match outcome {
        Outcome::Opened { writer } => Brief::Opened { writer },
        Outcome::Wrote {
            at,
            len,
            stamp: Some(stamp),
        } => Brief::Wrote { at, len, stamp },
        Outcome::Synced { landed } => Brief::Synced { landed },
        Outcome::Closed { landed } => Brief::Closed { landed },
        Outcome::Same => Brief::Same,
        Outcome::Differs { place } => Brief::Differs { place },
        Outcome::ReaderClosed => Brief::ReaderClosed,
        Outcome::Truncated { stamp } => Brief::Truncated { stamp },
        Outcome::Renamed => Brief::Renamed,
        Outcome::Armed => Brief::Armed,
        Outcome::Stopped => Brief::Stopped,
        Outcome::Gone => Brief::Gone,
        Outcome::Refused { why } => Brief::Refused { why },
        Outcome::Fault => Brief::Fault,
        long => return Ok(KeptOutcome::Apart(Box::new(alloc, long)?)),
    }))
}

impl Brief {
    fn outcome(self) -> Outcome
        ensures { result ≡ brief_outcome self }
    {
        match self {
            Brief::Opened { writer } => Outcome::Opened { writer },
            Brief::Wrote { at, len, stamp } => Outcome::Wrote {
                at,
                len,
                stamp: Some(stamp),
            },
            Brief::Synced { landed } => Outcome::Synced { landed },
            Brief::Closed { landed } => Outcome::Closed { landed },
            Brief::Same => Outcome::Same,
            Brief::Differs { place } => Outcome::Differs { place },
            Brief::ReaderClosed => Outcome::ReaderClosed,
            Brief::Truncated { stamp } => Outcome::Truncated { stamp },
            Brief::Renamed => Outcome::Renamed,
            Brief::Armed => Outcome::Armed,
            Brief::Stopped => Outcome::Stopped,
            Brief::Gone => Outcome::Gone,
            Brief::Refused { why } => Outcome::Refused { why },
            Brief::Fault => Outcome::Fault,
        }
    }
}

// What went wrong, if anything did.
fn mishap_in(outcome: &Outcome) -> Option<Mishap>
    ensures { result ≡ mishap_of outcome.now }
{
    match outcome {
        Outcome::Refused { .. } => Some(Mishap::Refused),
        Outcome::Fault => Some(Mishap::Fault),
        Outcome::Damaged { .. } => Some(Mishap::Damaged),
        _ => None,
    }
}

// The write, if it was one and has a stamp.
fn write_in(outcome: &Outcome) -> Option<MadeWrite>
    ensures { result ≡ made_write_of outcome.now }
{
    match outcome {
        Outcome::Wrote {
            at,
            len,
            stamp: Some(stamp),
        } => Some(MadeWrite {
            at: *at,
            len: *len,
            stamp: *stamp,
        }),
        _ => None,
    }
}

impl<'a> Seen<'a> {
    /// The outcome.
    pub fn outcome(&self) -> &Outcome
        ensures { result.now ≡ outcome_seen self.now }
    {
        match self {
            Seen::Made(outcome) => outcome,
            Seen::Lent(outcome) => outcome,
        }
    }
}

impl CompactLine {
    /// This line, as a list keeps it.
    pub fn new(alloc: Global, line: Line) -> Result<CompactLine, NoMemory>
        ensures { IfOk result (λ made. made ≡ line) }
    {
        let Line { number, outcome } = line;
        let outcome = kept(alloc, outcome)?;
        Ok(CompactLine { number, outcome })
    }

    /// The number of the statement's line.
    pub fn number(&self) -> u64
        ensures { result ≡ self.now.number }
    {
        self.number
    }

    /// What became of the statement.
    pub fn seen(&self) -> Seen<'_>
        ensures { outcome_seen result ≡ self.now.outcome }
    {
        match &self.outcome {
            KeptOutcome::Brief(brief) => Seen::Made(brief.outcome()),
            KeptOutcome::Apart(outcome) => Seen::Lent(outcome),
        }
    }

    /// What went wrong with the statement, if anything did. It makes no outcome for this look.
    pub fn mishap(&self) -> Option<Mishap>
        ensures { result ≡ mishap_of self.now.outcome }
    {
        match &self.outcome {
            KeptOutcome::Brief(Brief::Refused { .. }) => Some(Mishap::Refused),
            KeptOutcome::Brief(Brief::Fault) => Some(Mishap::Fault),
            KeptOutcome::Brief(_) => None,
            KeptOutcome::Apart(outcome) => mishap_in(outcome),
        }
    }

    /// The write that was made, if the statement was one and it has a stamp. It makes no outcome for this look.
    pub fn made_write(&self) -> Option<MadeWrite>
        ensures { result ≡ made_write_of self.now.outcome }
    {
        match &self.outcome {
            KeptOutcome::Brief(Brief::Wrote { at, len, stamp }) => Some(MadeWrite {
                at: *at,
                len: *len,
                stamp: *stamp,
            }),
            KeptOutcome::Brief(_) => None,
            KeptOutcome::Apart(outcome) => write_in(outcome),
        }
    }
}

/// A list of lines. One of three numbers or fewer takes 48 bytes in it.
///
/// In contracts it is the plain list.
#[derive(Drop)]
pub struct LineList {
    lines: Vec<CompactLine>,
}

impl Model for LineList {
    ghost use Rattle.std.specs.Prelude.{List};
    ghost use Rattle.script_lang.specs.declared.line.Line.{Line};

    ghost Value = { List Line };

    ghost view = { λ l. l.lines.items };
}

impl LineList {
    /// No lines. It takes no memory.
    pub fn new(alloc: Global) -> LineList
        ensures { result ≡ [] }
    {
        LineList {
            lines: Vec::new(alloc),
        }
    }

    /// A list of these lines.
    pub fn from_vec(lines: Vec<CompactLine>) -> LineList
        ensures { result ≡ lines.items }
    {
        LineList { lines }
    }

    /// The lines as a vector.
    pub fn into_vec(self) -> Vec<CompactLine>
        ensures { result.items ≡ self }
    {
        self.lines
    }

    /// Adds a line at the end. After `NoMemory` the list is as it was.
    pub fn push(&mut self, line: Line) -> Result<(), NoMemory>
        ensures ok { OnOk result (self.new ≡ self.old ++ line ∷ []) }
        ensures err { OnErr result (self.new ≡ self.old) }
    {
        let line = CompactLine::new(*self.lines.allocator(), line)?;
        self.lines.push(line)?;
        Ok(())
    }

    /// The same of a line as a list keeps it.
    pub fn put(&mut self, line: CompactLine) -> Result<(), NoMemory>
        ensures ok { OnOk result (self.new ≡ self.old ++ line ∷ []) }
        ensures err { OnErr result (self.new ≡ self.old) }
    {
        self.lines.push(line)?;
        Ok(())
    }

    /// The lines in order.
    pub fn as_slice(&self) -> &[CompactLine]
        ensures { result.now ≡ self.now }
    {
        self.lines.as_slice()
    }
}

/// What became of the statements of a script.
pub type Lines = LineList;
