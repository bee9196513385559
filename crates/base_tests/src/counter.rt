//! The smallest object: a count, which each call raises.
ghost use Rattle.std.specs.Prelude.{◌≡◌, ℕ, ◌+◌, ◌^◌, ◌<◌, ◌-◌, min};

use turn_object::Object;

/// A count.
#[derive(Drop)]
pub struct Counter {
    pub count: u64,
}

impl Object for Counter {
    type Ask = u64;

    type Reply = u64;

    ghost step = { λ old caller ask reply new. (reply ≡ old.count) × (new.count ≡ min (old.count + ask) (2 ^ 64 - 1)) };

    ghost may = { λ old caller ask. 0 < ask };

    fn apply(&mut self, caller: u64, ask: &u64) -> u64 {
        let before = self.count;
        self.count = before.saturating_add(*ask);
        before
    }

    ghost may_lasts = { λ old new caller other ask asked reply apart may _ _. may };
}
