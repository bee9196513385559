//! A part of an opening between two calls.
ghost use Rattle.std.specs.Prelude.{◌≡◌};
ghost use Rattle.opening_flow.specs.Parts.{has_ended, IsPartUnderway};

use crate::parts::Part;
use std::marker::Model;

/// A part that has a further call or has ended. In contracts it is the part.
#[derive(Drop)]
pub(crate) struct Underway {
    part: Part,
}

impl Model for Underway {
    ghost use Rattle.opening_flow.specs.declared.parts.Part.{Part};
    ghost use Rattle.opening_flow.specs.Parts.{IsPartUnderway};

    ghost Value = { Part };

    ghost view = { λ underway. underway.part };

    ghost invariant = { λ underway. IsPartUnderway underway.part };
}

impl Underway {
    /// This part.
    pub(crate) fn of(part: Part) -> Self
        requires { IsPartUnderway part }
        ensures { result ≡ part }
    {
        Underway { part }
    }

    /// Whether it has ended.
    pub(crate) fn has_ended(&self) -> bool
        ensures value { result ≡ has_ended self.now }
        ensures underway { IsPartUnderway self.now }
    {
        match &self.part {
            Part::Listing { .. } | Part::Gathering { .. } => false,
            Part::Ended(_) => true,
        }
    }

    /// The part, taken out.
    pub(crate) fn take(self) -> Part
        ensures value { result ≡ self }
        ensures underway { IsPartUnderway self }
    {
        self.part
    }
}
