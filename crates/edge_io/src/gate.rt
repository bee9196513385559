//! What is called before each call of an actor.

/// A place to wait at before a call. It promises nothing.
pub trait Gate {
    /// Comes before the n-th call of this actor, from 1, over the whole run. Worker 0 is the actor itself;
    /// a worker of a reader counts its own calls of that opening.
    fn before(&self, actor: u64, worker: u64, n: u64);
}

/// A gate that is always open.
#[derive(Clone, Copy)]
pub struct NoGate;

impl Gate for NoGate {
    fn before(&self, _actor: u64, _worker: u64, _n: u64) {}
}
