//! What a migration did.
ghost use Rattle.std.specs.Prelude.{◌≡◌, ◌+◌, ◌-◌, ◌*◌, ◌^◌, ◌<◌, ◌≤◌};
ghost use Rattle.migrate_core.specs.Counting.{noted as noted_of};

/// What a migration did.
#[derive(Clone, Copy, PartialEq, Eq)]
pub struct Migrated {
    /// How many writers were packed.
    pub writers: u64,
    /// How many entries they have.
    pub entries: u128,
    /// How many runs their packed indices have.
    pub runs: u128,
    /// How many writers were passed over, since they have more entries than a packed index holds.
    pub left: u64,
}

/// How many entries and runs a packed index has.
#[derive(Clone, Copy)]
pub(crate) struct Packed {
    pub(crate) entries: u64,
    pub(crate) runs: u64,
}

/// What became of a writer.
#[derive(Clone, Copy)]
pub(crate) enum Fate {
    /// It has too many entries.
    Left,
    /// It has a packed index.
    Packs(Packed),
}

/// What was done so far, of writers that one number counts.
#[derive(Clone, Copy)]
pub(crate) struct Tally {
    pub(crate) sofar: Migrated,
    ghost counted: { sofar.writers + sofar.left < 2 ^ 64 },
    ghost entries: { sofar.entries ≤ sofar.writers * (2 ^ 64 - 1) },
    ghost runs: { sofar.runs ≤ sofar.writers * (2 ^ 64 - 1) },
}

/// With what became of one writer more.
pub(crate) fn noted(tally: Tally, fate: Fate) -> Tally
    requires { tally.sofar.writers + tally.sofar.left + 1 < 2 ^ 64 }
    ensures { result.sofar ≡ noted_of fate tally.sofar }
{
    let sofar = tally.sofar;
    match fate {
        Fate::Left => Tally {
            sofar: Migrated {
                writers: sofar.writers,
                entries: sofar.entries,
                runs: sofar.runs,
                left: sofar.left + 1,
            },
        },
        Fate::Packs(packed) => Tally {
            sofar: Migrated {
                writers: sofar.writers + 1,
                entries: sofar.entries + u128::from(packed.entries),
                runs: sofar.runs + u128::from(packed.runs),
                left: sofar.left,
            },
        },
    }
}
