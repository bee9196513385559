//! A mount over a store that may not tell what it holds: its contracts know more than its code.
ghost use Rattle.std.specs.Prelude.{◌≡◌, ◌<◌, ◌∷◌, ◌++◌, [], ℕ, List, Option, Some, None, IfSome, MatchBool};
ghost use Rattle.std.proofs.Common.{sym, ap, ◌∙◌};
ghost use Rattle.std.specs.declared.snapshot.Snapshot.{Snapshot};

use std::snapshot::Snapshot;
use turn_object::Object;

/// A store that may tell what it holds.
pub trait Store {
    /// What it holds, where it tells.
    ghost told: { Self → Option (List ℕ) };

    /// Whether the value was put.
    fn put(&mut self, value: u64) -> bool
        ensures { MatchBool result (IfSome (told self.old) (λ held. told self.new ≡ Some (held ++ value ∷ []))) (told self.new ≡ told self.old) };
}

/// A store that tells nothing, and counts what is put.
#[derive(Drop)]
pub struct Silent {
    pub puts: u64,
}

impl Store for Silent {
    ghost told = { λ _. None };

    fn put(&mut self, value: u64) -> bool {
        self.puts = self.puts.saturating_add(1);
        true
    }
}

/// A store in use, and for contracts alone the store as it was opened.
#[derive(Drop)]
pub struct Mount<S: Store> {
    store: S,
    opened: Snapshot<S>,
}

impl<S: Store> Mount<S> {
    pub fn open(store: S) -> Mount<S>
        ensures { (result.store ≡ store) × (result.opened.value ≡ store) }
    {
        let opened = Snapshot::of(&store);
        Mount { store, opened }
    }

    pub fn into_store(self) -> S
        ensures { result ≡ self.store }
    {
        self.store
    }
}

impl<S: Store> Object for Mount<S> {
    type Ask = u64;

    type Reply = bool;

    ghost step = { λ old caller ask done new. (new.opened ≡ old.opened) × MatchBool done (IfSome (S.told old.store) (λ held. S.told new.store ≡ Some (held ++ ask ∷ []))) (S.told new.store ≡ S.told old.store) };

    // Where the store told what it held as it was opened, no 0 is put.
    ghost may = { λ mount caller ask. (held : List ℕ) → S.told mount.opened.value ≡ Some held → 0 < ask };

    fn apply(&mut self, caller: u64, ask: &u64) -> bool {
        self.store.put(*ask)
    }

    ghost may_lasts = { λ old new caller other ask asked reply apart may _ steps held tells. may held (ap (λ (opened : Snapshot S). S.told opened.value) (sym steps.0) ∙ tells) };
}
