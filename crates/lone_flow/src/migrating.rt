//! A migration by itself.
ghost use Rattle.std.specs.Prelude.{IfOk, OnErr};
ghost use Rattle.plfs_types.specs.Counts.{HasRisen};
ghost use Rattle.mount_sound.specs.Sound.{IsClean, IsFine};
ghost use Rattle.trouble_laws.specs.Undamaged.{IsUndamaged};
ghost use Rattle.migrate_core.specs.Migrating.{migrate_program};
ghost use Rattle.lone_flow.specs.Driving.{BeginsToMake};
ghost use Rattle.lone_flow.specs.Faults.{IsFault};
ghost use Rattle.lone_flow.specs.Migrating.{Migrates};

use crate::driving::drive;
use edge_io::Clock;
use migrate_core::{MigrateFlow, Migrated};
use migrate_laws::{a_migration_is_always_allowed, a_migration_leaves_no_writer_out};
use mount_core::Mount;
use mount_model::Stuck;
use plfs_types::{LogicalName, NoMemory};
use std::alloc::Global;
use store_api::Store;
use trouble_laws::a_statement_shows_no_damage;

/// Packs the closed writers of the file of this name, as caller 0 by itself: a greeting, and then the calls of a migration.
///
/// It ends with a fault only where the store's count of faults has risen. Where the store told a sound tree as it was
/// mounted, it doesn't end with damage; and where it ends well, each writer of the container of this name that had closed
/// the file with entries, as the metadata were listed, has its packed index, or more entries than one holds. It counts what
/// it packed, and the writers that are too long. After `NoMemory` the calls are a front of
/// those, and what was packed until then stands.
pub fn migrate<S: Store + Drop, C: Clock + Drop>(
    alloc: Global,
    mount: &mut Mount<S, C>,
    name: LogicalName,
) -> Result<Result<Migrated, Stuck>, NoMemory>
    requires fine { IsFine mount.old }
    ensures made { IfOk result (λ ended. Migrates name mount.old ended mount.new) }
    ensures broken_off { OnErr result (BeginsToMake (migrate_program name) mount.old mount.new) }
    ensures cause { IfOk result (λ ended. IsFault ended → HasRisen mount.old.store.faults mount.new.store.faults) }
    ensures undamaged { IfOk result (λ ended. IsClean mount.old → IsUndamaged ended) }
{
    a_migration_is_always_allowed();
    a_migration_leaves_no_writer_out();
    a_statement_shows_no_damage();
    drive(mount, MigrateFlow::new(alloc, name))
}
