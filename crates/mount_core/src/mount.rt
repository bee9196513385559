//! The mount.
ghost use Rattle.std.specs.Prelude.{◌≡◌};
ghost use Rattle.mount_model.specs.Regular.{IsRegular};

use edge_io::Clock;
use mount_table::Roster;
use std::alloc::Global;
use std::marker::Model;
use std::snapshot::Snapshot;
use store_api::Store;

/// A store that is mounted, with its clock and the table of its writers. Contracts see it as a `State`.
#[derive(Drop)]
pub struct Mount<S: Store + Drop, C: Clock + Drop> {
    pub(crate) store: S,
    pub(crate) clock: C,
    /// The store as mounting began. It takes no memory.
    pub(crate) opened: Snapshot<S>,
    pub(crate) roster: Roster,
    pub(crate) alloc: Global,
}

impl<S: Store + Drop, C: Clock + Drop> Model for Mount<S, C> {
    ghost use Rattle.mount_model.specs.State.{State};
    ghost use Rattle.mount_model.specs.Codes.{state_code};
    ghost use Rattle.mount_table.specs.Roll.{state_of};

    ghost Value = { State };

    ghost coded = { state_code };

    ghost view = { λ m. state_of (S.stored m.store) (S.stored m.opened.value) (C.times m.clock) m.roster };
}

impl<S: Store + Drop, C: Clock + Drop> Mount<S, C> {
    /// The number that mounting drew.
    pub fn number(&self) -> u32
        ensures { result ≡ self.now.mount }
    {
        self.roster.number()
    }

    /// The store, as the calls left it. It takes no memory.
    pub fn close(self) -> S
        ensures { S.stored result ≡ self.store }
    {
        let Mount { store, .. } = self;
        store
    }

    /// What holds of the table after every call, whatever the store did.
    pub fn regular(&self)
        ensures { IsRegular self.now }
    {
        self.roster.regular();
    }
}
