//! A script, as far as its lines are read.
ghost use Rattle.std.specs.Prelude.{◌≡◌, ◌≤◌, ◌^◌, [], false, length, IfOk, OnOk};
ghost use Rattle.script_lang.specs.Lines.{IsFit, line_meaning};
ghost use Rattle.script_lang.specs.Ranges.{FitsScript};
ghost use Rattle.script_lang.specs.Reading.{GivesAsRead};
ghost use Rattle.script_lang.specs.Words.{is_passed};
ghost use Rattle.script_lang.specs.Phases.{empty_phase};
ghost use Rattle.script_lang.specs.Drafts.{empty_draft, draft_with, line_draft, FollowsAsRead, script_in, FitsDraft};

use crate::cast::Cast;
use crate::flaw::Flaw;
use crate::meaning::{Meaning, meaning_of};
use crate::script::{Numbered, Phase, PhaseList, Script, TurnList};
use crate::statement_list::StatementList;
use crate::trouble::Kind;
use crate::words::split_words;
use plfs_types::NoMemory;
use std::alloc::Global;
use std::mem;

// The actors, the phases that have ended and the one that hasn't, whether a line other than a declaration was read,
// and how many bytes the `read` lines so far ask for.
#[derive(Drop)]
pub(crate) struct Draft {
    pub cast: Cast,
    pub phases: PhaseList,
    pub phase: Phase,
    pub begun: bool,
    pub reads: u64,
}

fn empty_phase(alloc: Global) -> Phase
    ensures { result ≡ empty_phase }
{
    Phase {
        turns: TurnList::new(alloc),
        statements: StatementList::new(alloc),
    }
}

impl Draft {
    // Before the first line.
    pub fn new(alloc: Global) -> Draft
        ensures draft { result ≡ empty_draft }
        ensures fits { FitsDraft result }
    {
        Draft {
            cast: Cast::new(alloc),
            phases: PhaseList::new(alloc),
            phase: empty_phase(alloc),
            begun: false,
            reads: 0,
        }
    }

    // Takes what the line of this number says.
    fn take(&mut self, alloc: Global, number: u64, said: Meaning) -> Result<(), NoMemory>
        requires fit { IsFit self.old.cast self.old.begun said }
        requires fits { FitsDraft self.old }
        ensures taken { OnOk result (self.new ≡ draft_with number said self.old) }
        ensures fits { OnOk result (FitsDraft self.new) }
    {
        match said {
            Meaning::Passed => {}
            Meaning::Declares(actor) => self.cast.push(alloc, actor)?,
            Meaning::Begins => {
                let ended = mem::replace(&mut self.phase, empty_phase(alloc));
                self.phases.push(ended)?;
                self.begun = true;
            }
            Meaning::Turns(turned) => {
                self.phase.turns.push(turned)?;
                self.begun = true;
            }
            Meaning::Says {
                actor,
                statement,
                reads,
            } => {
                let numbered = Numbered {
                    line: number,
                    actor,
                    statement,
                };
                self.phase.statements.push(numbered)?;
                self.begun = true;
                self.reads = reads;
            }
        }
        Ok(())
    }

    // Takes the line of this number.
    pub fn line(&mut self, alloc: Global, number: u64, line: &[u8]) -> Result<(), Flaw>
        requires short { length line.now ≤ 2 ^ 20 }
        requires fits { FitsDraft self.old }
        ensures follows { FollowsAsRead result self.new (line_draft number line.now self.old) }
        ensures fits { OnOk result (FitsDraft self.new) }
    {
        let said = said(alloc, self, line)?;
        self.take(alloc, number, said)?;
        Ok(())
    }

    // The script, whose lines are read to their end.
    pub fn finish(self, alloc: Global) -> Result<Script, NoMemory>
        requires { FitsDraft self }
        ensures script { IfOk result (λ script. script ≡ script_in self) }
        ensures fits { IfOk result FitsScript }
    {
        let mut phases = self.phases;
        phases.push(self.phase)?;
        Ok(Script {
            actors: self.cast.into_list(alloc)?,
            phases,
        })
    }
}

// Whether the line is empty or a comment.
fn is_passed(line: &[u8]) -> bool
    ensures { result ≡ is_passed line.now }
{
    match line {
        [] => true,
        [first, ..] => *first == b'#',
    }
}

// What a line says.
fn said(alloc: Global, draft: &Draft, line: &[u8]) -> Result<Meaning, Flaw>
    requires short { length line.now ≤ 2 ^ 20 }
    requires fits { FitsDraft draft.now }
    ensures said { GivesAsRead result (line_meaning draft.now.cast draft.now.begun draft.now.reads line.now) }
    ensures fit { IfOk result (IsFit draft.now.cast draft.now.begun) }
{
    if is_passed(line) {
        return Ok(Meaning::Passed);
    }
    let Some(words) = split_words(line) else {
        return Err(Flaw::Kind(Kind::Spaces));
    };
    meaning_of(alloc, &draft.cast, draft.begun, draft.reads, &words)
}
