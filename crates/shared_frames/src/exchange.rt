//! Frames and answers of several processes.
ghost use Rattle.std.specs.Prelude.{◌≡◌, ◌<◌, ◌≤◌, ◌++◌, ◌⊎◌, [], IfOk, OnOk, OnErr, IfSome, IfNone, length, take, drop, min, false};
ghost use Rattle.shared_frames.specs.Answers.{is_whole, missing};
ghost use Rattle.shared_frames.specs.Exchanging.{Gives, Offers};

use crate::incoming::Incoming;
use crate::outgoing::Outgoing;
use crate::placing::{PLACES, placed};
use frame_format::Head;
use plfs_types::{Bytes, NoMemory};
use std::alloc::Global;
use std::collections::VecDeque;
use std::marker::Model;

/// An answer, and the place of the process that it goes to.
#[derive(Drop)]
pub struct Told {
    pub place: u64,
    pub bytes: Bytes,
}

/// What is on its way: the frame that is handed on, the places of those whose answers are owed, the oldest first, and the answer that comes.
#[derive(Drop)]
pub struct Exchange {
    outgoing: Outgoing,
    owed: VecDeque<u64>,
    incoming: Incoming,
}

impl Model for Exchange {
    ghost use Rattle.shared_frames.specs.Exchanging.{Exchanging};

    ghost Value = { Exchanging };

    ghost view = { λ e. record { left = e.outgoing; owed = e.owed.items; came = e.incoming } };
}

impl Exchange {
    /// Nothing is on its way.
    pub fn new(alloc: Global) -> Exchange
        ensures { result ≡ record { left = []; owed = []; came = [] } }
    {
        Exchange {
            outgoing: Outgoing::none(alloc),
            owed: VecDeque::new(alloc),
            incoming: Incoming::none(alloc),
        }
    }

    /// Offers a frame that came from the process at this place. Its answer is owed from then on.
    pub fn offer(
        &mut self,
        alloc: Global,
        place: u64,
        head: &Head,
        payload: Bytes,
    ) -> Result<(), NoMemory>
        requires there { place < PLACES }
        requires handed { self.old.left ≡ [] }
        ensures offers { OnOk result (Offers place head.now payload self.old self.new) }
        ensures kept { OnErr result (self.new ≡ self.old) }
    {
        let outgoing = Outgoing::frame(alloc, &placed(place, head), payload)?;
        self.owed.push_back(place)?;
        self.outgoing = outgoing;
        Ok(())
    }

    /// Hands over a front of what is left of the frame, in the first bytes of `into`, and says how many.
    pub fn hand(&mut self, into: &mut [u8]) -> usize
        ensures within { result ≤ length into.old }
        ensures bytes { into.new ≡ take result self.old.left ++ drop result into.old }
        ensures left { self.new ≡ record { left = drop result self.old.left; owed = self.old.owed; came = self.old.came } }
        ensures ends { result ≡ 0 → (self.old.left ≡ []) ⊎ (length into.old ≡ 0) }
    {
        self.outgoing.hand(into)
    }

    /// Takes a front of the piece as bytes of answers, and says how many.
    pub fn take(&mut self, piece: &[u8]) -> Result<usize, NoMemory>
        ensures count { IfOk result (λ n. n ≡ min (missing self.old.came) (length piece.now)) }
        ensures came { IfOk result (λ n. self.new ≡ record { left = self.old.left; owed = self.old.owed; came = self.old.came ++ take n piece.now }) }
        ensures kept { OnErr result (self.new ≡ self.old) }
    {
        self.incoming.take(piece)
    }

    /// Gives the answer that came whole, with the place of the process that it goes to. None where none came whole, or where none is owed.
    pub fn told(&mut self, alloc: Global) -> Option<Told>
        ensures gives { IfSome result (λ told. Gives told.place told.bytes self.old self.new) }
        ensures none { IfNone result ((is_whole self.old.came ≡ false) ⊎ (self.old.owed ≡ [])) }
        ensures kept { IfNone result (self.new ≡ self.old) }
    {
        if !self.incoming.is_whole() {
            return None;
        }
        let place = self.owed.pop_front()?;
        let bytes = self.incoming.give(alloc);
        Some(Told { place, bytes })
    }
}
