//! The rule of a turn's table, and what each atomic step tells.
ghost use Rattle.std.specs.Prelude.{ℕ};
ghost use Rattle.turn_object.specs.Shares.{kept_front, given_front, joined_front};
ghost use Rattle.turn_object.specs.Rule.{IsTurning};
ghost use Rattle.turn_object.specs.Stages.{first_front, spent_front};
ghost use Rattle.turn_object.specs.Steps.{Took, Looked, Passed, Learned};

use crate::front::Front;
use crate::object::Object;
use crate::slot::Resting;
use atomic_table::{Join, Play, Split, TableRule};
use std::marker::{Brand, PhantomData};
use std::snapshot::Snapshot;

/// What the passes of an object's turn know.
pub type FrontOf<O> = Front<<O as Object>::Ask, <O as Object>::Reply, O>;

/// What lies in the slot of an object's turn.
pub type Slot<O> = Option<Resting<<O as Object>::Ask, <O as Object>::Reply, O>>;

/// The rule: there is one legal history, and words, slot and passes agree with it.
pub struct InTurn<O> {
    object: PhantomData<O>,
}

impl<O: Object> TableRule<Slot<O>, FrontOf<O>, Snapshot<O>> for InTurn<O> {
    ghost holds = { λ about. IsTurning O.step O.may about.value };

    ghost first = { λ about. first_front about.value };
}

// Takes a ticket.
pub(crate) struct Takes;

impl<A, R, S> Play<Option<Resting<A, R, S>>, Front<A, R, S>> for Takes {
    ghost then = { Took };
}

// Looks which ticket is served, and takes the slot where it is the own one.
pub(crate) struct Looks<O> {
    object: PhantomData<O>,
}

impl<O: Object> Play<Slot<O>, FrontOf<O>> for Looks<O> {
    ghost then = { Looked O.step O.may };
}

// Gives the slot back, and passes the turn to the next ticket.
pub(crate) struct Passes;

impl<A, R, S> Play<Option<Resting<A, R, S>>, Front<A, R, S>> for Passes {
    ghost then = { Passed };
}

// How many parts a split gives away, which its caller picks.
pub(crate) trait Share {
    ghost parts: { ℕ };
}

impl Share for Brand {
    ghost parts = { 0 };
}

pub(crate) struct Divides<K> {
    share: PhantomData<K>,
}

impl<A, R, S, K: Share> Split<Front<A, R, S>> for Divides<K> {
    ghost left = { kept_front K.parts };

    ghost right = { given_front K.parts };
}

pub(crate) struct Joined;

impl<A, R, S> Join<Front<A, R, S>> for Joined {
    ghost both = { joined_front };

    ghost spent = { spent_front };
}

// Learns that what was seen begins with both histories of the last join.
pub(crate) struct Learns<O> {
    object: PhantomData<O>,
}

impl<O: Object> Play<Slot<O>, FrontOf<O>> for Learns<O> {
    ghost then = { Learned O.step O.may };
}
