//! The machine of a drain.
ghost use Rattle.drain_copy.specs.Points.{IsOwedPoint};

use crate::holding::begin;
use crate::outcome::{DrainStuck, Drained};
use crate::points::{DrainNext, Point, nothing};
use mount_model::Reply;
use plfs_types::{LogicalName, NoMemory};
use std::alloc::Global;
use std::mem;
use store_api::{Answer, Trouble};

/// Copies a container to another store, the target, beside its writers. A second drain moves only the rest.
///
/// It asks, in this order:
///
/// 1. At the target what it has: its container is searched for and read, and the length of each log is asked.
/// 2. At the source what is past that: the entries past those that have landed at the target, and the truncates. Then the log and
///    the index dropping of each writer with such entries are synced, so that no loss of power takes a copied entry from the source.
/// 3. At the target the room of marks, the mark of each writer's mount, and the container, where they are missing.
/// 4. At the target, for each writer by ascending id: its entry among those that have the container open, the folder of its
///    droppings, its index dropping and its log; the bytes of its log, from where the target's ends, 2^18 by a Read at the source;
///    the sync of the log; its entries, from the landed ones on, 4096 by a write; the sync of its index dropping.
/// 5. At the target the truncates.
///
/// A writer with a metadata dropping at the target is passed by. Where it has more entries at the source, the drain ends before
/// anything is changed. It ends with the first trouble, and what was written until then stands.
#[derive(Drop)]
pub struct Drain {
    alloc: Global,
    pub(crate) point: Point,
    ghost owed: { ∥ IsOwedPoint point ∥₁ },
}

impl Drain {
    ghost use Rattle.std.specs.Prelude.{◌≡◌, ◌<◌, IsOk, IsErr, IfOk, OnOk, Err};
    ghost use Rattle.store_api.specs.declared.store.Trouble.TheVariants.{NoMemory as ToldNoMemory};
    ghost use Rattle.mount_model.specs.declared.reply.Reply.TheVariants.{NoMemory as RepliedNoMemory};
    ghost use Rattle.drain_copy.specs.Draining.{drain_program};
    ghost use Rattle.drain_copy.specs.Standing.{ready, ended, AwaitsAnswer, AwaitsReply, GoesOnAfter, GoesOnTold, HasEnded, IsGiven, IsOwedNext, IsReady};
    ghost use Rattle.drain_copy.specs.Machine.{drain_left, drain_standing};

    /// Drains the container of this name.
    #[tactic(auto, unfolding(crate::specs::Machine::drain_standing))]
    pub fn new(alloc: Global, name: LogicalName) -> Self
        ensures { drain_standing result ≡ ready (drain_program name) }
    {
        Drain {
            alloc,
            point: Point::Next(begin(name)),
        }
    }

    /// What it asks for next, or End exactly where it has ended. It takes no memory.
    #[tactic(auto, unfolding(crate::specs::Machine::drain_standing, crate::specs::Machine::drain_left))]
    pub fn next(&mut self) -> Result<DrainNext, NoMemory>
        requires { IsReady (drain_standing self.old) }
        ensures given { IfOk result (λ next. IsGiven (drain_standing self.old) next (drain_standing self.new)) }
        ensures left { drain_left self.new ≡ drain_left self.old }
        ensures owed { IfOk result IsOwedNext }
        ensures memory { IsOk result }
    {
        let point = mem::replace(&mut self.point, nothing());
        let (point, next) = point.given();
        drop(mem::replace(&mut self.point, point));
        Ok(next)
    }

    /// Goes on with the reply of the source. A reply of `NoMemory` ends the drain, and is answered so; any other one where the
    /// drain lacks memory itself.
    #[tactic(auto, unfolding(crate::specs::Machine::drain_standing, crate::specs::Machine::drain_left))]
    pub fn take_source(&mut self, reply: Reply) -> Result<(), NoMemory>
        requires { AwaitsReply (drain_standing self.old) }
        ensures goes_on { OnOk result (GoesOnAfter (drain_standing self.old) reply (drain_standing self.new)) }
        ensures left { OnOk result (drain_left self.new < drain_left self.old) }
        ensures no_memory { reply ≡ RepliedNoMemory → IsErr result }
    {
        if let Reply::NoMemory = reply {
            return Err(NoMemory);
        }
        let point = mem::replace(&mut self.point, nothing());
        let turn = point.replied(self.alloc, reply)?;
        drop(mem::replace(&mut self.point, Point::Next(turn)));
        Ok(())
    }

    /// Goes on with the answer of the target. Want of memory there ends the drain, and is answered so; any other answer is where
    /// the drain lacks memory itself.
    #[tactic(auto, unfolding(crate::specs::Machine::drain_standing, crate::specs::Machine::drain_left))]
    pub fn take_target(&mut self, answer: Result<Answer, Trouble>) -> Result<(), NoMemory>
        requires { AwaitsAnswer (drain_standing self.old) }
        ensures goes_on { OnOk result (GoesOnTold (drain_standing self.old) answer (drain_standing self.new)) }
        ensures left { OnOk result (drain_left self.new < drain_left self.old) }
        ensures no_memory { answer ≡ Err ToldNoMemory → IsErr result }
    {
        if let Err(Trouble::NoMemory) = answer {
            return Err(NoMemory);
        }
        let point = mem::replace(&mut self.point, nothing());
        let turn = point.told(self.alloc, answer)?;
        drop(mem::replace(&mut self.point, Point::Next(turn)));
        Ok(())
    }

    /// What it ended with, once `next` gave End. A drain that answered `NoMemory` has no result.
    #[tactic(auto, unfolding(crate::specs::Machine::drain_standing))]
    pub fn out(self) -> Result<Drained, DrainStuck>
        requires { HasEnded (drain_standing self) }
        ensures { drain_standing self ≡ ended result }
    {
        let Drain { point, .. } = self;
        point.outcome()
    }
}
