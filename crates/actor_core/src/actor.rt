//! What an actor is.
ghost use Rattle.std.specs.Prelude.{◌≤◌};

use crate::doing::Doing;
use crate::kept::{Kept, Stop};
use gather_flow::Listed;
use script_lang::Line;
use std::alloc::Global;

/// An actor of a script. It makes one statement after the other, each as calls of the mount.
#[derive(Drop)]
pub struct Actor {
    pub(crate) alloc: Global,
    pub(crate) kept: Kept,
    /// The number of the line of its statement.
    pub(crate) number: u64,
    /// The stop within that statement, where one is armed: it counts down.
    pub(crate) stop: Option<Stop>,
    pub(crate) state: State,
    ghost some: { 1 ≤ kept.cap },
    ghost few: { kept.cap ≤ 4096 },
}

#[derive(Drop)]
pub(crate) enum State {
    /// No statement is in progress.
    Idle,
    /// The statement is at its end, and this is its line.
    Told(Line),
    /// The statement is at work: a call of it is out, or else its next one is to be made.
    Working { doing: Doing, is_out: bool },
    /// The shares of the reader that it opens are with workers. The container was listed so.
    HandedOut(Listed),
    /// The actor is to greet before the statement.
    Greeting(Doing),
    /// Its greeting is out.
    Greeted(Doing),
}
