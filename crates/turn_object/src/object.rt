//! What can be used in turn.
ghost use Rattle.std.specs.Prelude.{◌≡◌, ◌≢◌, ℕ};

/// An object that several callers use, one call at a time. A caller is told apart by its number.
pub trait Object {
    /// What a caller asks for.
    type Ask;
    /// What it is answered.
    type Reply;

    /// Of the state before, the caller, what it asks, the reply and the state after: the object may do this.
    ghost step: { Self → ℕ → Self.Ask → Self.Reply → Self → Type 0 };

    /// In this state this caller may ask this.
    ghost may: { Self → ℕ → Self.Ask → Type 0 };

    /// Does what `caller` asks, whole and at once, and answers it.
    fn apply(&mut self, caller: u64, ask: &Self::Ask) -> Self::Reply
        requires { may self.old caller ask.now }
        ensures { step self.old caller ask.now result self.new };

    /// What a caller may ask, it still may after each step that another caller makes and may make.
    ghost may_lasts: { (old new : Self) (caller other : ℕ) (ask : Self.Ask) (asked : Self.Ask) (reply : Self.Reply) → other ≢ caller → may old caller ask → may old other asked → step old other asked reply new → may new caller ask };
}
