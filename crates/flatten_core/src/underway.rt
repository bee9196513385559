//! A part of a flattening between two calls.
ghost use Rattle.std.specs.Prelude.{◌≡◌};
ghost use Rattle.flatten_core.specs.Parts.{IsPartUnderway};

use crate::parts::Part;
use std::marker::Model;

/// A part that has a further call or has ended. In contracts it is the part.
#[derive(Drop)]
pub(crate) struct Underway {
    part: Part,
}

impl Model for Underway {
    ghost use Rattle.flatten_core.specs.declared.parts.Part.{Part};
    ghost use Rattle.flatten_core.specs.Parts.{IsPartUnderway};

    ghost Value = { Part };

    ghost view = { λ underway. underway.part };

    ghost invariant = { λ underway. IsPartUnderway underway.part };
}

impl Underway {
    /// This part.
    pub(crate) fn of(part: Part) -> Self
        requires { IsPartUnderway part }
        ensures { result ≡ part }
    {
        Underway { part }
    }

    /// The part, taken out.
    pub(crate) fn take(self) -> Part
        ensures value { result ≡ self }
        ensures underway { IsPartUnderway self }
    {
        self.part
    }
}
