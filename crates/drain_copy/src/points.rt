//! Where a drain stands: a question is to be given, or was given, or it has ended.
ghost use Rattle.std.specs.Prelude.{◌≡◌, ◌<◌, IfOk};
ghost use Rattle.drain_copy.specs.Points.{point_left, point_standing, IsOwedPoint};
ghost use Rattle.drain_copy.specs.Bounds.{source_left, target_left, turn_left};
ghost use Rattle.drain_copy.specs.Stages.{source_rest, target_rest, turn_program, IsOwedTurn};
ghost use Rattle.drain_copy.specs.Standing.{ready, ended, AwaitsAnswer, AwaitsReply, GoesOnAfter, GoesOnTold, HasEnded, IsGiven, IsOwedNext, IsReady};

use crate::copying::{after_entries, after_log_read, after_log_write, after_making, after_trunc};
use crate::gathering::{after_find, after_gathering, after_index_sync, after_log_sync};
use crate::holding::{after_look, after_search};
use crate::making::{after_container, after_mark, after_marks_room};
use crate::outcome::{DrainStuck, Drained};
use crate::stages::{SourceStage, TargetStage, Turn};
use mount_model::{Call, Reply};
use plfs_types::NoMemory;
use std::alloc::Global;
use store_api::{Answer, OwnedStep, Trouble};

/// What a drain asks for next.
#[derive(Drop)]
pub enum DrainNext {
    /// A call of the source's mount.
    Source(Call),
    /// A step of the target.
    Target(OwnedStep),
    /// Nothing: it has ended.
    End,
}

/// How far it is: a question is to be given, or was given, or it has ended.
#[derive(Drop)]
pub(crate) enum Point {
    Next(Turn),
    Called(SourceStage),
    Acted(TargetStage),
}

/// What stands in the place of a point that is taken apart.
pub(crate) fn nothing() -> Point
    ensures { ∥ IsOwedPoint result ∥₁ }
{
    Point::Next(Turn::Over(Err(DrainStuck::TargetFault)))
}

/// What comes after a reply of the source.
fn after_reply(alloc: Global, stage: SourceStage, reply: Reply) -> Result<Turn, NoMemory>
    ensures goes_on { IfOk result (λ turn. turn_program turn ≡ source_rest stage reply) }
    ensures fewer { IfOk result (λ made. turn_left made < source_left stage) }
    ensures owed { IfOk result IsOwedTurn }
{
    match stage {
        SourceStage::Finding { name, held } => after_find(alloc, name, held, reply),
        SourceStage::Gathering { name, held, read } => {
            after_gathering(alloc, name, held, read, reply)
        }
        SourceStage::SyncingLog(syncing) => Ok(after_log_sync(syncing, reply)),
        SourceStage::SyncingIndex(syncing) => after_index_sync(alloc, syncing, reply),
        SourceStage::ReadingLog(part) => Ok(after_log_read(part, reply)),
    }
}

/// What comes after an answer of the target.
fn after_answer(
    alloc: Global,
    stage: TargetStage,
    told: Result<Answer, Trouble>,
) -> Result<Turn, NoMemory>
    ensures goes_on { IfOk result (λ turn. turn_program turn ≡ target_rest stage told) }
    ensures fewer { IfOk result (λ made. turn_left made < target_left stage) }
    ensures owed { IfOk result IsOwedTurn }
{
    match stage {
        TargetStage::Finding { name } => after_search(alloc, name, told),
        TargetStage::Holding { name, read } => after_look(name, read, told),
        TargetStage::MarksRoom { job, mounts } => after_marks_room(alloc, job, mounts, told),
        TargetStage::Mark {
            job,
            marks,
            mount,
            rest,
        } => after_mark(alloc, job, marks, mount, rest, told),
        TargetStage::Container { job } => Ok(after_container(job, told)),
        TargetStage::Making { making, work } => after_making(alloc, making, work, told),
        TargetStage::WritingLog(part) => Ok(after_log_write(part, told)),
        TargetStage::WritingEntries(part) => after_entries(alloc, part, told),
        TargetStage::Trunc {
            to,
            trunc,
            rest,
            drained,
        } => Ok(after_trunc(to, trunc, rest, drained, told)),
    }
}

impl Turn {
    /// The question, or that there is none, and where the drain stands once it is given.
    #[tactic(auto, using(crate::proofs::OwedLemmas::owed_whole))]
    fn given(self) -> (Point, DrainNext)
        requires { ∥ IsOwedTurn self ∥₁ }
        ensures given { IsGiven (ready (turn_program self)) result.1 (point_standing result.0) }
        ensures left { point_left result.0 ≡ turn_left self }
        ensures owed { IsOwedNext result.1 }
        ensures kept { ∥ IsOwedPoint result.0 ∥₁ }
    {
        match self {
            Turn::Calls(call, stage) => (Point::Called(stage), DrainNext::Source(call)),
            Turn::Acts(step, stage) => (Point::Acted(stage), DrainNext::Target(step)),
            Turn::Over(outcome) => (Point::Next(Turn::Over(outcome)), DrainNext::End),
        }
    }

    fn outcome(self) -> Result<Drained, DrainStuck>
        requires { HasEnded (ready (turn_program self)) }
        ensures { ready (turn_program self) ≡ ended result }
    {
        match self {
            Turn::Over(outcome) => outcome,
            _ => unreachable!(),
        }
    }
}

impl Point {
    /// The next question, or that there is none, and where the drain stands once it is given.
    pub(crate) fn given(self) -> (Point, DrainNext)
        requires ready { IsReady (point_standing self) }
        requires owed { ∥ IsOwedPoint self ∥₁ }
        ensures given { IsGiven (point_standing self) result.1 (point_standing result.0) }
        ensures left { point_left result.0 ≡ point_left self }
        ensures owed { IsOwedNext result.1 }
        ensures kept { ∥ IsOwedPoint result.0 ∥₁ }
    {
        match self {
            Point::Next(turn) => turn.given(),
            _ => unreachable!(),
        }
    }

    /// What comes after the reply to the call that was given.
    pub(crate) fn replied(self, alloc: Global, reply: Reply) -> Result<Turn, NoMemory>
        requires { AwaitsReply (point_standing self) }
        ensures goes_on { IfOk result (λ turn. GoesOnAfter (point_standing self) reply (ready (turn_program turn))) }
        ensures fewer { IfOk result (λ turn. turn_left turn < point_left self) }
        ensures owed { IfOk result IsOwedTurn }
    {
        match self {
            Point::Called(stage) => after_reply(alloc, stage, reply),
            _ => unreachable!(),
        }
    }

    /// What comes after the answer to the step that was given.
    pub(crate) fn told(
        self,
        alloc: Global,
        answer: Result<Answer, Trouble>,
    ) -> Result<Turn, NoMemory>
        requires { AwaitsAnswer (point_standing self) }
        ensures goes_on { IfOk result (λ turn. GoesOnTold (point_standing self) answer (ready (turn_program turn))) }
        ensures fewer { IfOk result (λ turn. turn_left turn < point_left self) }
        ensures owed { IfOk result IsOwedTurn }
    {
        match self {
            Point::Acted(stage) => after_answer(alloc, stage, answer),
            _ => unreachable!(),
        }
    }

    /// What it has ended with.
    pub(crate) fn outcome(self) -> Result<Drained, DrainStuck>
        requires { HasEnded (point_standing self) }
        ensures { point_standing self ≡ ended result }
    {
        match self {
            Point::Next(turn) => turn.outcome(),
            _ => unreachable!(),
        }
    }
}
