//! The law of what is dealt to workers.
ghost use Rattle.std.specs.Prelude.{◌≡◌, ◌≤◌, ◌-◌, ℕ, List};
ghost use Rattle.std.specs.List.{range_with_len};
ghost use Rattle.index_reader.specs.declared.listing.Dropping.{Dropping as Listed};
ghost use Rattle.index_reader.specs.Listing.{AreByWriter};
ghost use Rattle.reader_laws.specs.Opening.{AreDealt, Portion, droppings_of};
ghost use Rattle.sharing_laws.specs.Dealing.{dealt_all};

/// A law: where droppings that were listed by rising writer are dealt to one worker or more, the portions of all workers have
/// each of them once, and no other.
pub fn each_dropping_is_dealt_once()
    ensures { (workers : ℕ) (ds : List Listed) (portions : List Portion) → 1 ≤ workers → AreByWriter ds
        → droppings_of portions ≡ dealt_all workers ds (range_with_len 0 (workers - 0)) → AreDealt ds portions }
{}
