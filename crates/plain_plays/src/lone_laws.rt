//! The laws of a caller that does something by itself beside a plain machine.
ghost use Rattle.std.specs.Prelude.{◌≤◌, ℕ, List, Result};
ghost use Rattle.index_reader.specs.declared.opened.OpenReader.{OpenReader};
ghost use Rattle.migrate_core.specs.declared.migrated.Migrated.{Migrated};
ghost use Rattle.migrate_core.specs.Migrating.{migrate_program};
ghost use Rattle.mount_model.specs.declared.stuck.Stuck.{Stuck};
ghost use Rattle.mount_model.specs.History.{AreBy, Event};
ghost use Rattle.mount_model.specs.Paths.{Name};
ghost use Rattle.mount_model.specs.Running.{Runs};
ghost use Rattle.mount_sound.specs.Owed.{IsLawful};
ghost use Rattle.opening_flow.specs.Opening.{opening_program};
ghost use Rattle.plain_machine.specs.Machine.{Plain};
ghost use Rattle.plain_plays.specs.ByItself.{AreIdle, MigratesByItself, OpensByItself};
ghost use Rattle.plain_plays.specs.Mirrors.{Mirrors};
ghost use Rattle.plain_plays.specs.Served.{GoesWell};
ghost use Rattle.reader_laws.specs.Moments.{Moment, moment_after};

use migrate_laws::a_migration_leaves_no_writer_out;

/// A law: who opens a reader of a file by the whole program of an opening has the plain machine's file of that name, or is refused where the machine has none.
/// It leaves the machine as it was. It met no fault and had memory, and nobody else called. So whole greetings and looks leave the machine, whoever makes them.
pub fn lone_openings_have_the_machines_file()
    ensures opens { (m : Moment) (me : ℕ) (p : Plain) (name : Name) (workers : ℕ) (events : List Event) (out : Result OpenReader Stuck) → 1 ≤ workers → IsLawful m.state events → GoesWell me events → AreBy me events → Mirrors m p
        → Runs me (opening_program name workers) events out → OpensByItself p name (moment_after m events) out × Mirrors (moment_after m events) p }
    ensures looks { (m : Moment) (p : Plain) (events : List Event) → IsLawful m.state events → AreIdle events → Mirrors m p → Mirrors (moment_after m events) p }
{}

/// A law: a migration changes no file of the plain machine: its rooms, with their names, truncates, writers and what has landed, are as before. It draws a serial
/// for each writer that it packs. It is refused where the machine has no file of the name, or no serial is left for a further writer, and else ends well. Its
/// counts are then of writers of the room: how many it packed, what has landed of these, and in how many runs, and how many it left since too much has landed.
/// It met no fault and had memory, and nobody else called.
pub fn migrations_change_no_file()
    ensures { (m : Moment) (me : ℕ) (p : Plain) (name : Name) (events : List Event) (out : Result Migrated Stuck) → IsLawful m.state events → GoesWell me events → AreBy me events → Mirrors m p
        → Runs me (migrate_program name) events out → MigratesByItself p name (moment_after m events) out }
{
    a_migration_leaves_no_writer_out();
}
