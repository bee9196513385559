//! What lies in the slot.

use std::snapshot::Snapshot;

/// The object at rest, and for contracts alone what it was asked and what it answered last.
#[derive(Drop)]
pub struct Resting<A, R, S> {
    /// The object.
    pub object: S,
    /// The last call, once there was one. It takes no bytes.
    pub last: Option<(Snapshot<A>, Snapshot<R>)>,
}
