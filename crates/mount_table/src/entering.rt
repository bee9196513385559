//! A writer comes into the table before its entry is made, and stays only where that was made.
ghost use Rattle.std.specs.Prelude.{◌≡◌, ◌≤◌, List, [], ◌∷◌, ◌++◌, IfOk, IfErr, OnOk, OnErr};
ghost use Rattle.mount_model.specs.declared.row.Row.{Row};
ghost use Rattle.mount_model.specs.Paths.{open_path as open_path_of};
ghost use Rattle.mount_model.specs.Entering.{enter_outcome};
ghost use Rattle.mount_table.specs.Admitting.{IsNewcomer, IsAdmitted, IsTurnedAway, with_writers};
ghost use Rattle.mount_table.specs.Settling.{IsSettled};

use crate::paths::log_path;
use crate::roster::Roster;
use crate::telling::otherwise;
use crate::writer::Writer;
use index_buffer::Buffer;
use mount_model::{Refusal, Reply, Row, Stage};
use plfs_types::{NoMemory, Path};
use std::alloc::Global;
use store_api::{Answer, Trouble};

impl Roster {
    /// Adds a writer at the end of the table. After `NoMemory` the table is as it was.
    fn add(&mut self, row: Row) -> Result<(), NoMemory>
        requires { IsNewcomer self.old row }
        ensures ok { OnOk result (self.new ≡ with_writers (self.old.table.writers ++ row ∷ []) self.old) }
        ensures err { OnErr result (self.new ≡ self.old) }
    {
        let log = log_path(row.host, row.id);
        self.writers.push(Writer { row, log })?;
        Ok(())
    }

    /// Draws the next id, and adds its writer at the end of the table.
    pub fn admit(
        &mut self,
        alloc: Global,
        caller: u64,
        room: u64,
        host: u32,
        cap: u32,
    ) -> Result<u64, Reply>
        requires some { 1 ≤ cap }
        requires few { cap ≤ 4096 }
        ensures ok { IfOk result (λ id. IsAdmitted caller room host cap self.old id self.new) }
        ensures err { IfErr result (λ reply. IsTurnedAway room self.old reply self.new) }
    {
        let id = match self.draw(room) {
            Ok(id) => id,
            Err(why) => return Err(Reply::Refused(why)),
        };
        let Ok(pending) = Buffer::new(alloc, cap) else {
            return Err(Reply::NoMemory);
        };
        let row = Row {
            id,
            room,
            host,
            owner: caller,
            floor: 0,
            last: 0,
            stored: 0,
            end: 0,
            landed: 0,
            log_mark: 0,
            index_mark: 0,
            pending,
            has_meta: false,
            stage: Stage::Entered,
        };
        match self.add(row) {
            Ok(()) => Ok(id),
            Err(NoMemory) => Err(Reply::NoMemory),
        }
    }

    /// Takes out the writer that was added last.
    fn forget_last(&mut self)
        ensures { (rows : List Row) (row : Row) → self.old.table.writers ≡ rows ++ row ∷ [] → self.new ≡ with_writers rows self.old }
    {
        let others = self.writers.len().saturating_sub(1);
        self.writers.truncate(others);
    }

    /// Settles the making of the entry at this path: the writer that was added last stays only where it was made.
    pub fn entered(&mut self, id: u64, at: &Path, told: Result<Answer, Trouble>) -> Reply
        ensures { (rows : List Row) (row : Row) → self.old.table.writers ≡ rows ++ row ∷ [] → row.id ≡ id → at.now ≡ open_path_of row.host row.id
            → IsSettled (enter_outcome row (record self.old.table { writers = rows }) told) self.old result self.new }
    {
        match told {
            Ok(Answer::Made) => Reply::Entered { writer: id },
            Ok(Answer::NoFolder) => {
                self.forget_last();
                Reply::Refused(Refusal::Held)
            }
            Ok(answer) => {
                self.forget_last();
                otherwise(at, Ok(answer))
            }
            Err(trouble) => {
                self.forget_last();
                otherwise(at, Err(trouble))
            }
        }
    }
}
