//! Why a step came to no answer.
use plfs_types::NoMemory;
use std::alloc::{AllocError, AllocFailed};

/// Why a step came to no answer.
#[derive(Clone, Copy, PartialEq, Eq)]
pub enum Failure {
    /// The system failed, or a name of the step or of a listing can't be taken.
    Failed,
    /// Memory was refused before the step did anything.
    NoMemory,
}

impl From<AllocError> for Failure {
    ghost use Rattle.std.specs.Prelude.{◌≡◌};
    ghost use Rattle.folder_calls.specs.declared.failure.Failure.TheVariants as variant;

    ghost from_gives = { λ _ failure. failure ≡ variant.NoMemory };

    fn from(_: AllocError) -> Self {
        Failure::NoMemory
    }
}

impl<T: Drop> From<AllocFailed<T>> for Failure {
    ghost use Rattle.std.specs.Prelude.{◌≡◌};
    ghost use Rattle.folder_calls.specs.declared.failure.Failure.TheVariants as variant;

    ghost from_gives = { λ _ failure. failure ≡ variant.NoMemory };

    fn from(_: AllocFailed<T>) -> Self {
        Failure::NoMemory
    }
}

impl From<NoMemory> for Failure {
    ghost use Rattle.std.specs.Prelude.{◌≡◌};
    ghost use Rattle.folder_calls.specs.declared.failure.Failure.TheVariants as variant;

    ghost from_gives = { λ _ failure. failure ≡ variant.NoMemory };

    fn from(_: NoMemory) -> Self {
        Failure::NoMemory
    }
}
