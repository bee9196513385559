//! A flattened index as it was read.
ghost use Rattle.std.specs.Prelude.{◌≡◌};
ghost use Rattle.index_reader.specs.Covered.{AreByWriter};

use flat_format::Flat;
use std::marker::Model;

/// A flattened index with covers by ascending writer. In contracts it is the flattened index.
#[derive(Drop)]
pub(crate) struct Flattened {
    flat: Flat,
}

impl Model for Flattened {
    ghost use Rattle.flat_format.specs.declared.flat.Flat.{Flat};
    ghost use Rattle.index_reader.specs.Covered.{AreByWriter};

    ghost Value = { Flat };

    ghost view = { λ f. f.flat };

    ghost invariant = { λ f. AreByWriter f.flat.covers };
}

impl Flattened {
    /// This flattened index.
    pub(crate) fn of(flat: Flat) -> Self
        requires { AreByWriter flat.covers }
        ensures { result ≡ flat }
    {
        Flattened { flat }
    }

    /// The flattened index.
    pub(crate) fn get(&self) -> &Flat
        ensures { result.now ≡ self.now }
    {
        &self.flat
    }

    /// The flattened index, taken out.
    pub(crate) fn into_flat(self) -> Flat
        ensures value { result ≡ self }
        ensures order { AreByWriter self.covers }
    {
        self.flat
    }
}
