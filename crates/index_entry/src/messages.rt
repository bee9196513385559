//! What is printed of the rule that an entry breaks.
use crate::reading::BadEntry;
use std::error::Error;
use std::fmt;

impl fmt::Display for BadEntry {
    ghost use Rattle.std.specs.Prelude.{Some};
    ghost use Rattle.index_entry.specs.Messages.{rule_text};

    ghost output = { λ rule. Some (rule_text rule) };

    fn fmt<W: fmt::Write>(&self, f: &mut fmt::Formatter<W>) -> fmt::Result {
        f.write_str(match self {
            BadEntry::ZeroLength => "the length is 0",
            BadEntry::TooFar => "the entry ends past 2^40",
            BadEntry::StampRange => "the stamp is 0 or above 2^63 - 1",
        })
    }
}

impl Error for BadEntry {}
