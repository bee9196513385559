//! The closed writers of a file are packed, and one line says how much was.
ghost use Rattle.std.specs.Prelude.{◌≡◌, ◌++◌, ◌∷◌, [], IfOk, OnOk};
ghost use Rattle.std.specs.Fmt.{decimal};
ghost use Rattle.mount_sound.specs.Sound.{IsFine};
ghost use Rattle.program_ends.specs.Reported.{IsReported};
ghost use Rattle.plfs_program.specs.Migrating.{MigratesOn, migrated_line as line_of, said_of, said_status as status_of, said_text as text_of};

use edge_io::{Clock, Sink};
use lone_flow::migrate;
use migrate_core::Migrated;
use mount_core::Mount;
use mount_model::Stuck;
use outcomes::stuck_outcome;
use plfs_types::{LogicalName, NoMemory};
use program_ends::{push_number, say_line, write_out};
use script_lang::Line;
use std::alloc::Global;
use store_api::Store;

// The line that tells how much was packed.
fn migrated_line(alloc: Global, packed: Migrated) -> Result<Vec<u8>, NoMemory>
    ensures { IfOk result (λ text. text.items ≡ line_of packed) }
{
    let mut text = Vec::new(alloc);
    push_number(&mut text, b"migrated ", u128::from(packed.writers))?;
    push_number(&mut text, b" ", packed.entries)?;
    push_number(&mut text, b" ", packed.runs)?;
    push_number(&mut text, b" left ", u128::from(packed.left))?;
    text.push(b'\n')?;
    Ok(text)
}

// Says how much was packed, and answers the status.
fn say_migrated<O: Sink>(alloc: Global, out: &mut O, packed: Migrated) -> u8
    ensures { IsReported (line_of packed) 0 (O.taking out.old) (O.taking out.new) result }
{
    let Ok(text) = migrated_line(alloc, packed) else {
        return 3;
    };
    match write_out(out, text.as_slice()) {
        Ok(()) => 0,
        Err(_) => 6,
    }
}

// Says how the migration ended, and answers the status.
fn say_ended<O: Sink>(alloc: Global, out: &mut O, ended: Result<Migrated, Stuck>) -> u8
    ensures { IsReported (text_of (said_of ended)) (status_of (said_of ended)) (O.taking out.old) (O.taking out.new) result }
{
    match ended {
        Ok(packed) => say_migrated(alloc, out, packed),
        Err(because) => {
            let line = Line {
                number: 0,
                outcome: stuck_outcome(because),
            };
            say_line(alloc, out, line)
        }
    }
}

/// Packs the closed writers of the file of this name, says how much was packed or what broke it off, and answers the
/// status.
pub(crate) fn migrate_mounted<S: Store + Drop, C: Clock + Drop, O: Sink>(
    alloc: Global,
    mount: &mut Mount<S, C>,
    name: LogicalName,
    out: &mut O,
) -> u8
    requires { IsFine mount.old }
    ensures { MigratesOn name mount.old (O.taking out.old) mount.new (O.taking out.new) result }
{
    let Ok(ended) = migrate(alloc, mount, name) else {
        return 3;
    };
    say_ended(alloc, out, ended)
}
