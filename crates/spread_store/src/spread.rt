//! Several stores as one store.
ghost use Rattle.std.specs.Prelude.{◌≡◌, map};

use crate::asking::StoreList;
use crate::performing::perform;
use crate::sites::{Sites, last_after};
use std::alloc::Global;
use std::marker::Model;
use store_api::{Answer, Step, Store, Trouble};

/// Several stores, which are seen as one. Contracts see it as a `Shown`.
#[derive(Drop)]
pub struct Spread<S: Store + Drop> {
    pub(crate) alloc: Global,
    pub(crate) sites: Sites<S>,
    pub(crate) acts: u64,
    pub(crate) last: usize,
}

impl<S: Store + Drop> Model for Spread<S> {
    ghost use Rattle.std.specs.Prelude.{map};
    ghost use Rattle.spread_store.specs.Joined.{spreading};
    ghost use Rattle.spread_store.specs.Fits.{IsFit};
    ghost use Rattle.spread_store.specs.Shown.{Shown, shown_code};

    ghost Value = { Shown };

    ghost coded = { shown_code };

    ghost view = { λ s. record { stores = map S.stored s.sites.stores; places = s.sites.places; doubt = s.sites.doubt; acts = s.acts; last = s.last } };

    ghost invariant = { λ s. IsFit (spreading (map S.stored s.sites.stores) s.sites.places s.sites.doubt) };
}

impl<S: Store + Drop> Spread<S> {
    ghost use Rattle.std.specs.Prelude.{◌≡◌, map};

    /// The number of the store that has the room within which a step was made last, and 0 before the first such step.
    pub fn last(&self) -> usize
        ensures { result ≡ self.now.last }
    {
        self.last
    }

    /// The stores, in order. It takes no memory.
    pub fn close(self) -> StoreList<S>
        ensures { map S.stored result ≡ self.stores }
    {
        let Spread { sites, .. } = self;
        let Sites { stores, .. } = sites;
        stores
    }
}

impl<S: Store + Drop> Store for Spread<S> {
    ghost use Rattle.store_api.specs.Step.{step_of};
    ghost use Rattle.store_api.specs.Acts.{Acts};
    ghost use Rattle.spread_store.specs.Carrying.{Carries, last_told};
    ghost use Rattle.std.specs.Prelude.{◌≡◌};
    ghost use Rattle.spread_store.specs.Shown.{spread_of, stored_of};

    ghost stored = { λ spread. stored_of spread };

    /// Makes one step, and answers it. A step within a room is one act on the store that has the room.
    fn act(&mut self, step: &Step<'_>) -> Result<Answer, Trouble>
        ensures acts { Acts (step_of step.now) (stored_of self.old) (stored_of self.new) result }
        ensures carries { Carries (step_of step.now) (spread_of self.old) (spread_of self.new) result }
        ensures last { self.new.last ≡ last_told self.new.places (step_of step.now) self.old.last result }
    {
        match perform(self.alloc, &mut self.sites, step) {
            Ok(answer) => {
                self.acts = self.acts.saturating_add(1);
                self.last = last_after(&self.sites.places, step, self.last);
                Ok(answer)
            }
            Err(Trouble::Fault) => {
                self.acts = self.acts.saturating_add(1);
                self.last = last_after(&self.sites.places, step, self.last);
                Err(Trouble::Fault)
            }
            Err(Trouble::NoMemory) => Err(Trouble::NoMemory),
        }
    }
}
