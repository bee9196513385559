//! The machine of a migration.
ghost use Rattle.migrate_core.specs.Stages.{IsUnderway};

use crate::migrated::Migrated;
use crate::stage::Stage;
use mount_model::{Call, Flow, Reply, Stuck};
use plfs_types::{LogicalName, NoMemory};
use std::alloc::Global;
use std::mem;

/// Packs the closed writers of a file: by ascending id each whose metadata stamp is above 0 and that has no packed index.
///
/// All entries of such a writer are read and checked, 163840 bytes by a Read, and their packed index is written to a
/// temporary file, synced and installed. A writer with more than `MAX_PACKED` entries is passed over, and counted as
/// left. At most one writer's entries are held at once.
///
/// The machine ends with the first trouble, and what was packed until then stands. A foreign name is damage at place 0,
/// and so is a missing index dropping; one without a whole entry is damage at its length, and an entry that breaks a rule
/// or isn't there whole at its first byte. The host is that of the metadata, and of two metadata of one writer the first
/// that is listed counts.
#[derive(Drop)]
pub struct MigrateFlow {
    alloc: Global,
    stage: Stage,
    ghost underway: { IsUnderway stage },
}

impl MigrateFlow {
    ghost use Rattle.std.specs.Prelude.{◌≡◌};
    ghost use Rattle.mount_model.specs.Standing.{ready};
    ghost use Rattle.migrate_core.specs.Migrating.{migrate_program};
    ghost use Rattle.migrate_core.specs.MigrateStages.{migrate_standing};

    /// Packs the closed writers of the file of this name.
    pub fn new(alloc: Global, name: LogicalName) -> Self
        ensures { migrate_standing result ≡ ready (migrate_program name) }
    {
        MigrateFlow {
            alloc,
            stage: Stage::Finding(name),
        }
    }
}

impl Flow for MigrateFlow {
    ghost use Rattle.migrate_core.specs.MigrateStages.{migrate_standing, migrate_left};

    type Out = Result<Migrated, Stuck>;

    ghost standing = { migrate_standing };

    ghost left = { migrate_left };

    fn next(&mut self) -> Result<Option<Call>, NoMemory> {
        let stage = mem::replace(&mut self.stage, Stage::Ended(Err(Stuck::Fault)));
        let (stage, call) = stage.give()?;
        drop(mem::replace(&mut self.stage, stage));
        Ok(call)
    }

    fn take(&mut self, reply: Reply) -> Result<(), NoMemory> {
        if let Reply::NoMemory = reply {
            return Err(NoMemory);
        }
        let stage = mem::replace(&mut self.stage, Stage::Ended(Err(Stuck::Fault)));
        let stage = stage.after(self.alloc, reply)?;
        drop(mem::replace(&mut self.stage, stage));
        Ok(())
    }

    fn out(self) -> Result<Migrated, Stuck> {
        let MigrateFlow { stage, .. } = self;
        match stage {
            Stage::Ended(outcome) => outcome,
            _ => unreachable!(),
        }
    }
}
