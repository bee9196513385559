//! How a turn is made, and how it ends.
ghost use Rattle.std.specs.Prelude.{◌≡◌, ◌^◌, [], ◌∷◌, ◌++◌, IfOk, IfErr, IsOk, None, Some};
ghost use Rattle.turn_object.specs.declared.slot.Resting.{Resting};
ghost use Rattle.turn_object.specs.History.{state_after};
ghost use Rattle.turn_object.specs.Ended.{AreApart, as_ended};
ghost use Rattle.turn_object.specs.Front.{IsLegalFront, IsWhole};
ghost use Rattle.turn_object.specs.Pass.{start_of, front, seen_of, mine_of, ended_of, parts_of, IsPassOf};

use super::entrance::Entrance;
use super::{Lock, Numbered, Pass, Turn};
use crate::object::Object;
use crate::rule::Slot;
use crate::slot::Resting;
use atomic_table::{Refused, Table};
use plfs_types::NoMemory;
use std::alloc::{AllocFailed, Global};
use std::snapshot::Snapshot;

// The object that lay in the slot.
fn taken_out<O: Object>(resting: Slot<O>) -> O
    requires { (it : Resting O.Ask O.Reply O) × (resting ≡ Some it) }
    ensures { (it : Resting O.Ask O.Reply O) → resting ≡ Some it → result ≡ it.object }
{
    let Some(Resting { object, last: _ }) = resting else {
        unreachable!()
    };
    object
}

impl<O: Object> Turn<O> {
    /// A turn for this object, and its first pass, which has all 2^40 parts. `NoMemory` comes with the object as it was.
    pub fn new(alloc: Global, object: O) -> Result<(Turn<O>, Pass<O>), (O, NoMemory)>
        ensures made { IfOk result (λ made. (start_of made.0 ≡ object) × IsPassOf made.0 made.1) }
        ensures first { IfOk result (λ made. (seen_of made.1 ≡ []) × (mine_of made.1 ≡ []) × (ended_of made.1 ≡ []) × (parts_of made.1 ≡ 2 ^ 40)) }
        ensures refused { IfErr result (λ refused. refused.0 ≡ object) }
    {
        let about = Snapshot::of(&object);
        let mut slots = Vec::new(alloc);
        if let Err(failed) = slots.push(Some(Resting { object, last: None })) {
            let AllocFailed { value } = failed;
            slots.destroy_empty();
            return Err((taken_out(value), NoMemory));
        }
        match Table::new(alloc, &[0, 0], slots, &about) {
            Ok((table, seat)) => {
                let entrance = Entrance::new();
                Ok((Lock { table, entrance }, Numbered { seat, number: None }))
            }
            Err(Refused { mut slots }) => {
                let Some(value) = slots.pop() else {
                    unreachable!()
                };
                slots.destroy_empty();
                Err((taken_out(value), NoMemory))
            }
        }
    }

    /// Ends the turn, and hands back the object after the whole history, which is what the pass has seen. Each entry is the pass's own or of a pass joined into it.
    ///
    /// It takes no memory, and its answer is always Ok.
    pub fn close(self, pass: Pass<O>) -> Result<O, (Turn<O>, Pass<O>, NoMemory)>
        requires pass { IsPassOf self pass }
        requires all { parts_of pass ≡ 2 ^ 40 }
        ensures closed { IsOk result }
        ensures object { IfOk result (λ object. object ≡ state_after (start_of self) (seen_of pass)) }
        ensures legal { IsLegalFront O.step O.may (start_of self) (front pass) }
        ensures whole { IsWhole (front pass) }
        ensures apart { AreApart (as_ended (mine_of pass) ++ ended_of pass) }
    {
        let Lock { table, entrance: _ } = self;
        let Numbered { seat, number: _ } = pass;
        let mut closed = table.close_with(seat);
        let resting = closed.take(0);
        closed.free();
        Ok(taken_out(resting))
    }
}
