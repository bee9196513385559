//! The parts of a reader that is refreshed.
ghost use Rattle.std.specs.Prelude.{◌≡◌};
ghost use Rattle.index_reader.specs.Covered.{AreByWriter as AreCoversByWriter};
ghost use Rattle.index_reader.specs.Hosts.{AreByWriter as AreHostsByWriter};

use plain_file::ReaderParts;
use std::marker::Model;

/// Parts whose hosts and covers stand by ascending writer. In contracts it is the parts.
#[derive(Drop)]
pub(crate) struct Held {
    parts: ReaderParts,
}

impl Model for Held {
    ghost use Rattle.plain_file.specs.declared.parts.ReaderParts.{ReaderParts};
    ghost use Rattle.index_reader.specs.Covered.{AreByWriter as AreCoversByWriter};
    ghost use Rattle.index_reader.specs.Hosts.{AreByWriter as AreHostsByWriter};

    ghost Value = { ReaderParts };

    ghost view = { λ h. h.parts };

    ghost invariant = { λ h. AreHostsByWriter h.parts.hosts × AreCoversByWriter h.parts.covers };
}

impl Held {
    /// These parts.
    pub(crate) fn of(parts: ReaderParts) -> Self
        requires hosts { AreHostsByWriter parts.hosts }
        requires covers { AreCoversByWriter parts.covers }
        ensures { result ≡ parts }
    {
        Held { parts }
    }

    /// The parts.
    pub(crate) fn get(&self) -> &ReaderParts
        ensures value { result.now ≡ self.now }
        ensures hosts { AreHostsByWriter self.now.hosts }
        ensures covers { AreCoversByWriter self.now.covers }
    {
        &self.parts
    }

    /// The parts, taken out.
    pub(crate) fn take(self) -> ReaderParts
        ensures value { result ≡ self }
        ensures hosts { AreHostsByWriter self.hosts }
        ensures covers { AreCoversByWriter self.covers }
    {
        self.parts
    }
}
