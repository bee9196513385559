//! The law of written turns that are one.
ghost use Rattle.std.specs.Prelude.{◌≡◌, Bool, List};
ghost use Rattle.turn_object.specs.declared.history.Entry.{Entry};
ghost use Rattle.mount_model.specs.Performers.{Performer};
ghost use Rattle.mount_model.specs.InTurns.{WrittenOrder, InTurns};
ghost use Rattle.turn_laws.specs.GoAlike.{GoAlike};

use turn_object::Object;

/// A law: two histories in the order of the same written turns, of the same actors, are one history with the same lines,
/// where they go alike.
pub fn turns_are_one<O: Object, Share, Line>()
    ensures { (is_free : O.Ask → Bool) (phases : List WrittenOrder) (actors : List (Performer O.Ask O.Reply Share Line)) (history other : List (Entry O.Ask O.Reply O)) (lines others : List Line)
        → GoAlike history other
        → InTurns is_free phases actors history lines
        → InTurns is_free phases actors other others
        → (history ≡ other) × (lines ≡ others) }
{}
