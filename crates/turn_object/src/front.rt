//! What a pass knows.

use crate::history::{Ended, Entry};
use std::collections::LinkedList;

/// How far a call has come.
pub enum Stage {
    /// No call is under way.
    Idle,
    /// It has this ticket.
    Waiting(u64),
    /// It is this ticket's turn, and the slot is taken.
    Serving(u64),
}

/// What a pass knows of the one history. No value of it is made: it stands in contracts alone.
pub struct Front<A, R, S> {
    /// The object with which the history begins; none where the pass is spent.
    pub start: Option<S>,
    /// The history, as far as it was seen.
    pub seen: LinkedList<Entry<A, R, S>>,
    /// The shorter of the two histories that the last join put together.
    pub shorter: LinkedList<Entry<A, R, S>>,
    /// The pass's own entries.
    pub mine: LinkedList<Entry<A, R, S>>,
    /// The passes that were joined into it, and into those.
    pub ended: LinkedList<Ended<A, R, S>>,
    /// Its share of the right to close the turn, of which all passes have 2^40 together; 0 where the pass is spent.
    pub parts: u64,
    /// How far its call has come.
    pub stage: Stage,
}
