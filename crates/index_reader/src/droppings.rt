//! The droppings of a container's writers, by their writers.
ghost use Rattle.std.specs.Prelude.{◌≡◌};
ghost use Rattle.index_reader.specs.Listing.{AreByWriter};

use crate::listing::{Dropping, DroppingList};
use std::marker::Model;

/// Droppings by ascending writer.
#[derive(Drop)]
pub(crate) struct Droppings {
    list: DroppingList,
}

impl Model for Droppings {
    ghost use Rattle.std.specs.Prelude.{List};
    ghost use Rattle.index_reader.specs.declared.listing.Dropping.{Dropping};
    ghost use Rattle.index_reader.specs.Listing.{AreByWriter};

    ghost Value = { List Dropping };

    ghost view = { λ d. d.list };

    ghost invariant = { λ d. AreByWriter d.list };
}

impl Droppings {
    /// These droppings.
    pub(crate) fn of(list: DroppingList) -> Self
        requires { AreByWriter list }
        ensures { result ≡ list }
    {
        Droppings { list }
    }

    /// The droppings as a list.
    pub(crate) fn into_list(self) -> DroppingList
        ensures value { result ≡ self }
        ensures order { AreByWriter self }
    {
        self.list
    }

    /// The droppings in order.
    pub(crate) fn as_slice(&self) -> &[Dropping]
        ensures value { result.now ≡ self.now }
        ensures order { AreByWriter self.now }
    {
        self.list.as_slice()
    }
}
