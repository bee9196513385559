//! The turn itself: a lock by tickets whose calls have one order.
ghost use Rattle.std.specs.Prelude.{◌≡◌};

mod calls;
mod ends;
mod entrance;
mod shares;

use crate::rule::{FrontOf, InTurn, Slot};
use crate::turn::entrance::Entrance;
use atomic_table::{Seat, Table, TableRule};
use std::alloc::Global;
use std::snapshot::Snapshot;

/// An object that threads use in turn. It serves 2^63 calls.
pub type Turn<O> = Lock<Slot<O>, FrontOf<O>, Snapshot<O>, InTurn<O>>;

/// The words and the slot of a `Turn`, and the entrance where its callers wait until they may take a ticket. Its types are bare parameters, since only so it is
/// seen to cross threads.
#[derive(Drop)]
pub struct Lock<S, V, K, P: TableRule<S, V, K>> {
    table: Table<S, V, K, P, Global>,
    entrance: Entrance,
    ghost shape: { (table.shared.table_id.words ≡ 2) × (table.shared.table_id.slots ≡ 1) },
}

/// One thread's right to call the object of one `Turn`, with what it knows of the one history.
/// The parts of a pass that is dropped are lost, and its `Turn` can't be closed any more.
pub type Pass<O> = Numbered<Slot<O>, FrontOf<O>>;

/// A seat at the table of a `Turn`, and its caller's number, once it has one. Its types are bare parameters, as those of `Lock`.
#[derive(Drop)]
pub struct Numbered<S, V> {
    seat: Seat<S, V>,
    number: Option<u64>,
}
