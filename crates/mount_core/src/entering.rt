//! A writer enters a container.
ghost use Rattle.std.specs.Prelude.{◌≡◌, ◌≤◌, List, [], ◌∷◌, ◌++◌};
ghost use Rattle.store_api.specs.Step.{create};
ghost use Rattle.mount_model.specs.declared.row.Row.{Row};
ghost use Rattle.mount_model.specs.Making.{MakesAct};
ghost use Rattle.container_layout.specs.Paths.{openhosts as openhosts_name};
ghost use Rattle.mount_model.specs.Paths.{open_path as open_path_of};
ghost use Rattle.mount_model.specs.Entering.{enter_outcome, Enters};

use crate::mount::Mount;
use edge_io::Clock;
use mount_model::Reply;
use mount_table::open_path;
use store_api::{Step, Store};

impl<S: Store + Drop, C: Clock + Drop> Mount<S, C> {
    /// Enters a writer of the caller into the container, under the next id.
    pub(crate) fn enter(&mut self, caller: u64, room: u64, host: u32, cap: u32) -> Reply
        requires some { 1 ≤ cap }
        requires few { cap ≤ 4096 }
        ensures { Enters caller room host cap self.old result self.new }
    {
        match self.roster.admit(self.alloc, caller, room, host, cap) {
            Ok(id) => self.enter_as(id, room, host),
            Err(reply) => reply,
        }
    }

    /// Makes the entry of the writer that was added last.
    fn enter_as(&mut self, id: u64, room: u64, host: u32) -> Reply
        ensures { (rows : List Row) (row : Row) → self.old.table.writers ≡ rows ++ row ∷ [] → row.id ≡ id → row.host ≡ host
            → MakesAct (create room openhosts_name (open_path_of host id).file) (enter_outcome row (record self.old.table { writers = rows })) self.old result self.new }
    {
        let at = open_path(host, id);
        let told = self.store.act(&Step::Create {
            room,
            folder: at.folder,
            file: at.file,
        });
        self.roster.entered(id, &at, told)
    }
}
