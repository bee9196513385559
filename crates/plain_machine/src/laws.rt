//! The worked examples.
ghost use Rattle.plain_machine.specs.MoreExamples.{alive, attributes, buried, busy, held, held_room, ids_spent, left_open, over, renamed, spent_room, stamps_spent, truncated};
ghost use Rattle.plain_machine.specs.Examples.{far, flattened, full, hello, hole, late_clock, no_bytes, overlap, refreshed, rising, tie, tie_turned, waiting, without};
ghost use Rattle.plain_machine.specs.Saying.{IsSaid, IsSaidFrom, one_actor, two_actors};
ghost use Rattle.std.specs.Prelude.{[], ◌∷◌};

/// A law: the plain machine has the lines of the worked examples of writing and reading.
pub fn examples()
    ensures hello { IsSaid one_actor (10 ∷ []) hello }
    ensures waiting { IsSaid one_actor (10 ∷ []) waiting }
    ensures overlap { IsSaid two_actors (10 ∷ 11 ∷ []) overlap }
    ensures tie { IsSaid two_actors (10 ∷ 10 ∷ []) tie }
    ensures tie_turned { IsSaid two_actors (10 ∷ 10 ∷ []) tie_turned }
    ensures late_clock { IsSaid two_actors (20 ∷ 10 ∷ []) late_clock }
    ensures rising { IsSaid one_actor (50 ∷ 20 ∷ []) rising }
    ensures hole { IsSaid one_actor (10 ∷ []) hole }
    ensures no_bytes { IsSaid one_actor (10 ∷ []) no_bytes }
    ensures far { IsSaid one_actor (10 ∷ []) far }
    ensures full { IsSaid one_actor (10 ∷ []) full }
    ensures flattened { IsSaid two_actors (10 ∷ []) flattened }
    ensures refreshed { IsSaid two_actors (10 ∷ []) refreshed }
    ensures without { IsSaid one_actor (10 ∷ []) without }
{}

/// A law: it has the lines of those of truncates, names, attributes and recovery.
pub fn more_examples()
    ensures truncated { IsSaid one_actor (100 ∷ 1 ∷ []) truncated }
    ensures busy { IsSaid two_actors (10 ∷ 20 ∷ []) busy }
    ensures alive { IsSaid two_actors (10 ∷ 20 ∷ []) alive }
    ensures renamed { IsSaid two_actors (10 ∷ []) renamed }
    ensures attributes { IsSaid two_actors (10 ∷ []) attributes }
    ensures stamps_spent { IsSaidFrom one_actor (over spent_room 2 0) stamps_spent }
    ensures held { IsSaidFrom one_actor (over held_room 1 0) held }
    ensures buried { IsSaidFrom one_actor (over left_open 2 0) buried }
    ensures ids_spent { IsSaidFrom one_actor (over spent_room 2 4294967295) ids_spent }
{}
