//! Why a line says nothing.
use crate::trouble::Kind;
use std::alloc::{AllocError, AllocFailed};

// Why a line or a word could not be read.
#[derive(Clone, Copy, PartialEq, Eq)]
pub(crate) enum Flaw {
    Kind(Kind),
    NoMemory,
}

impl From<Kind> for Flaw {
    ghost use Rattle.std.specs.Prelude.{◌≡◌};
    ghost use Rattle.script_lang.specs.declared.flaw.Flaw.TheVariants as flaws;

    ghost from_gives = { λ kind flaw. flaw ≡ flaws.Kind kind };

    fn from(kind: Kind) -> Self {
        Flaw::Kind(kind)
    }
}

impl From<AllocError> for Flaw {
    ghost use Rattle.std.specs.Prelude.{◌≡◌};
    ghost use Rattle.script_lang.specs.declared.flaw.Flaw.TheVariants as flaws;

    ghost from_gives = { λ _ flaw. flaw ≡ flaws.NoMemory };

    fn from(_: AllocError) -> Self {
        Flaw::NoMemory
    }
}

impl<T: Drop> From<AllocFailed<T>> for Flaw {
    ghost use Rattle.std.specs.Prelude.{◌≡◌};
    ghost use Rattle.script_lang.specs.declared.flaw.Flaw.TheVariants as flaws;

    ghost from_gives = { λ _ flaw. flaw ≡ flaws.NoMemory };

    fn from(_: AllocFailed<T>) -> Self {
        Flaw::NoMemory
    }
}

impl From<plfs_types::NoMemory> for Flaw {
    ghost use Rattle.std.specs.Prelude.{◌≡◌};
    ghost use Rattle.script_lang.specs.declared.flaw.Flaw.TheVariants as flaws;

    ghost from_gives = { λ _ flaw. flaw ≡ flaws.NoMemory };

    fn from(_: plfs_types::NoMemory) -> Self {
        Flaw::NoMemory
    }
}
