//! A listing whose top was listed.
ghost use Rattle.std.specs.Prelude.{◌≡◌};
ghost use Rattle.index_reader.specs.OpenStages.{IsAfterOpen};

use index_reader::AfterOpen;
use std::marker::Model;

/// Where a listing stands: there is a further call, or what was listed is in order.
#[derive(Drop)]
pub(crate) struct Shown {
    scan: AfterOpen,
}

impl Model for Shown {
    ghost use Rattle.index_reader.specs.declared.opening.AfterOpen.{AfterOpen};
    ghost use Rattle.index_reader.specs.OpenStages.{IsAfterOpen};

    ghost Value = { AfterOpen };

    ghost view = { λ shown. shown.scan };

    ghost invariant = { λ shown. IsAfterOpen shown.scan };
}

impl Shown {
    pub(crate) fn of(scan: AfterOpen) -> Self
        requires { IsAfterOpen scan }
        ensures { result ≡ scan }
    {
        Shown { scan }
    }

    pub(crate) fn get(self) -> AfterOpen
        ensures value { result ≡ self }
        ensures order { IsAfterOpen self }
    {
        self.scan
    }
}
