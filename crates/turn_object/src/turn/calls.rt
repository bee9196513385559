//! One call, from its ticket to the next one's turn.
ghost use Rattle.std.specs.Prelude.{◌≡◌, ◌+◌, ◌^◌, ◌<◌, [], ◌∷◌, length, MatchBool, Some};
ghost use Rattle.turn_object.specs.declared.history.Entry.{Entry};
ghost use Rattle.turn_object.specs.declared.slot.Resting.{Resting};
ghost use Rattle.turn_object.specs.declared.front.Stage.TheVariants.{Idle, Waiting, Serving};
ghost use Rattle.turn_object.specs.History.{entry, state_after};
ghost use Rattle.turn_object.specs.Callers.{number_or, own_number};
ghost use Rattle.turn_object.specs.Front.{IsLegalFront};
ghost use Rattle.turn_object.specs.Calls.{MayAsk, IsCalled};
ghost use Rattle.turn_object.specs.Stages.{front_at, called_front};
ghost use Rattle.turn_object.specs.Steps.{IsServed};
ghost use Rattle.turn_object.specs.Pass.{front, start_of, IsPassOf};

use super::{Pass, Turn};
use crate::object::Object;
use crate::rule::{FrontOf, Looks, Passes, Slot, Takes};
use crate::slot::Resting;
use atomic_table::Seat;
use std::snapshot::Snapshot;
use std::sync::Wait;
use std::thread;

impl<O: Object> Turn<O> {
    fn take_ticket(&self, seat: &mut Seat<Slot<O>, FrontOf<O>>) -> u64
        requires table { seat.old.table_id ≡ self.now.table.shared.table_id }
        requires idle { (seat.old.me.1 ≡ []) × (seat.old.me.0.stage ≡ Idle) × (0 < seat.old.me.0.parts) }
        ensures seat { (seat.new.table_id ≡ seat.old.table_id) × (seat.new.id ≡ seat.old.id) }
        ensures ticket { seat.new.me ≡ (front_at (Waiting result) seat.old.me.0, []) }
    {
        self.table.shared.fetch_add::<Takes>(seat, 0, 1)
    }

    // Whether it is this ticket's turn. If so, the seat has the slot.
    fn look(&self, seat: &mut Seat<Slot<O>, FrontOf<O>>, ticket: u64) -> bool
        requires table { seat.old.table_id ≡ self.now.table.shared.table_id }
        requires waiting { (seat.old.me.1 ≡ []) × (seat.old.me.0.stage ≡ Waiting ticket) × (0 < seat.old.me.0.parts) }
        ensures seat { (seat.new.table_id ≡ seat.old.table_id) × (seat.new.id ≡ seat.old.id) }
        ensures turn { MatchBool result (IsServed O.step O.may ticket seat.old.me seat.new.me) (seat.new.me ≡ seat.old.me) }
    {
        self.table.shared.load::<Looks<O>>(seat, 1) == ticket
    }

    // Behind the entrance no other ticket is out, so the first look finds its turn. A ticket of 2^63 or more waits for ever.
    fn wait_for_turn<W: Wait>(&self, rt: &W, seat: &mut Seat<Slot<O>, FrontOf<O>>, ticket: u64)
        requires table { seat.old.table_id ≡ self.now.table.shared.table_id }
        requires waiting { (seat.old.me.1 ≡ []) × (seat.old.me.0.stage ≡ Waiting ticket) × (0 < seat.old.me.0.parts) }
        ensures seat { (seat.new.table_id ≡ seat.old.table_id) × (seat.new.id ≡ seat.old.id) }
        ensures turn { (ticket < 2 ^ 63) × IsServed O.step O.may ticket seat.old.me seat.new.me }
    {
        for _ in rt.forever() {
            if ticket < 1 << 63 && self.look(seat, ticket) {
                return;
            }
            thread::yield_now();
        }
        unreachable!()
    }

    // The object is taken out, asked, put back, and the next ticket's turn comes.
    fn serve(
        &self,
        seat: &mut Seat<Slot<O>, FrontOf<O>>,
        ticket: u64,
        number: u64,
        ask: &O::Ask,
    ) -> O::Reply
        requires table { (seat.old.table_id ≡ self.now.table.shared.table_id) × (seat.old.me.0.start ≡ Some (start_of self.now)) }
        requires slot { (resting : Resting O.Ask O.Reply O) × (seat.old.me.1 ≡ (0, Some resting) ∷ []) × (resting.object ≡ state_after (start_of self.now) seat.old.me.0.seen) }
        requires turn { (seat.old.me.0.stage ≡ Serving ticket) × (ticket < 2 ^ 63) × (0 < seat.old.me.0.parts) }
        requires number { number ≡ number_or seat.old.me.0.mine (length seat.old.me.0.seen) }
        requires may { O.may (state_after (start_of self.now) seat.old.me.0.seen) number ask.now }
        ensures seat { (seat.new.table_id ≡ seat.old.table_id) × (seat.new.id ≡ seat.old.id) }
        ensures called { (after : O) × O.step (state_after (start_of self.now) seat.old.me.0.seen) number ask.now result after × (seat.new.me ≡ (called_front (entry number ask.now result after) seat.old.me.0, [])) }
    {
        let taken = self.table.shared.exchange(seat, 0, None);
        let Some(
            Resting {
                mut object,
                last: _,
            },
        ) = taken
        else {
            unreachable!()
        };
        let reply = object.apply(number, ask);
        let last = Some((Snapshot::of(ask), Snapshot::of(&reply)));
        let left = self
            .table
            .shared
            .exchange(seat, 0, Some(Resting { object, last }));
        let None = left else { unreachable!() };
        self.table.shared.fetch_add::<Passes>(seat, 1, 1);
        reply
    }

    // The reply, and the caller's number. The entrance is a matter of time alone: the turn comes by the ticket, and no proof rests on the entrance.
    fn take_turn<W: Wait>(
        &self,
        rt: &W,
        seat: &mut Seat<Slot<O>, FrontOf<O>>,
        number: Option<u64>,
        ask: &O::Ask,
    ) -> (O::Reply, u64)
        requires table { (seat.old.table_id ≡ self.now.table.shared.table_id) × (seat.old.me.0.start ≡ Some (start_of self.now)) }
        requires idle { (seat.old.me.1 ≡ []) × (seat.old.me.0.stage ≡ Idle) × (0 < seat.old.me.0.parts) }
        requires number { number ≡ own_number seat.old.me.0.mine }
        requires may { MayAsk O.may (start_of self.now) seat.old.me.0 ask.now }
        ensures table { (seat.new.table_id ≡ seat.old.table_id) × (seat.new.id ≡ seat.old.id) × (seat.new.me.0.start ≡ Some (start_of self.now)) }
        ensures idle { (seat.new.me.1 ≡ []) × (seat.new.me.0.stage ≡ Idle) }
        ensures number { Some result.1 ≡ own_number seat.new.me.0.mine }
        ensures legal { IsLegalFront O.step O.may (start_of self.now) seat.new.me.0 }
        ensures called { IsCalled O.step O.may (start_of self.now) seat.old.me.0 ask.now result.0 seat.new.me.0 }
    {
        self.entrance.enter(rt);
        let ticket = self.take_ticket(seat);
        self.wait_for_turn(rt, seat, ticket);
        let number = number.unwrap_or(ticket);
        let reply = self.serve(seat, ticket, number, ask);
        self.entrance.leave(rt);
        (reply, number)
    }

    /// Waits for its turn, does one call on the object, and answers what the object replies. The call is the next entry of the one history.
    ///
    /// It takes no memory of its own. After 2^63 calls of one `Turn` it waits for ever.
    pub fn call<W: Wait>(&self, rt: &W, pass: &mut Pass<O>, ask: &O::Ask) -> O::Reply
        requires pass { IsPassOf self.now pass.old }
        requires may { MayAsk O.may (start_of self.now) (front pass.old) ask.now }
        ensures pass { IsPassOf self.now pass.new }
        ensures legal { IsLegalFront O.step O.may (start_of self.now) (front pass.new) }
        ensures called { IsCalled O.step O.may (start_of self.now) (front pass.old) ask.now result (front pass.new) }
    {
        let (reply, number) = self.take_turn(rt, &mut pass.seat, pass.number, ask);
        pass.number = Some(number);
        reply
    }
}
