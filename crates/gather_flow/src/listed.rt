//! A listing that can be gathered.
ghost use Rattle.std.specs.Prelude.{◌≡◌};
ghost use Rattle.index_reader.specs.Listing.{AreByWriter as AreDroppingsByWriter};
ghost use Rattle.index_reader.specs.Covered.{AreByWriter as AreCoversByWriter};

use index_reader::Listing;
use std::marker::Model;

/// A container as it was listed, with droppings and covers by ascending writer. In contracts it is the listing.
#[derive(Drop)]
pub struct Listed {
    listing: Listing,
}

impl Model for Listed {
    ghost use Rattle.index_reader.specs.declared.listing.Listing.{Listing};
    ghost use Rattle.index_reader.specs.Listing.{AreByWriter as AreDroppingsByWriter};
    ghost use Rattle.index_reader.specs.Covered.{AreByWriter as AreCoversByWriter};

    ghost Value = { Listing };

    ghost view = { λ l. l.listing };

    ghost invariant = { λ l. AreDroppingsByWriter l.listing.droppings × AreCoversByWriter l.listing.flat.covers };
}

impl Listed {
    /// This listing.
    pub fn of(listing: Listing) -> Self
        requires droppings { AreDroppingsByWriter listing.droppings }
        requires covers { AreCoversByWriter listing.flat.covers }
        ensures { result ≡ listing }
    {
        Listed { listing }
    }

    /// The listing.
    pub fn get(&self) -> &Listing
        ensures value { result.now ≡ self.now }
        ensures droppings { AreDroppingsByWriter self.now.droppings }
        ensures covers { AreCoversByWriter self.now.flat.covers }
    {
        &self.listing
    }

    /// The listing, taken out.
    pub fn take(self) -> Listing
        ensures value { result ≡ self }
        ensures droppings { AreDroppingsByWriter self.droppings }
    {
        self.listing
    }
}
