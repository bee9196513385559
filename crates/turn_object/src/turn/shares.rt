//! How passes are cut in two, and put together.
ghost use Rattle.std.specs.Prelude.{◌≡◌, ◌+◌, ◌-◌, ◌^◌, ◌<◌, ◌++◌, [], Some};
ghost use Rattle.turn_object.specs.declared.front.Stage.TheVariants.{Idle};
ghost use Rattle.turn_object.specs.History.{StartsWith};
ghost use Rattle.turn_object.specs.Ended.{as_ended};
ghost use Rattle.turn_object.specs.Front.{IsLegalFront};
ghost use Rattle.turn_object.specs.Shares.{longer, kept_front, given_front, joined_front};
ghost use Rattle.turn_object.specs.Pass.{start_of, front, seen_of, mine_of, ended_of, parts_of, IsPassOf};

use super::{Numbered, Pass, Turn};
use crate::object::Object;
use crate::rule::{Divides, FrontOf, Joined, Learns, Share, Slot};
use atomic_table::Seat;
use std::marker::Brand;

impl<O: Object> Turn<O> {
    fn split_off<K: Share>(
        &self,
        seat: &mut Seat<Slot<O>, FrontOf<O>>,
        parts: u64,
    ) -> Seat<Slot<O>, FrontOf<O>>
        requires picked { parts ≡ K.parts }
        requires table { seat.old.table_id ≡ self.now.table.shared.table_id }
        requires idle { (seat.old.me.1 ≡ []) × (seat.old.me.0.stage ≡ Idle) }
        requires parts { (0 < parts) × (parts < seat.old.me.0.parts) }
        ensures kept { (seat.new.table_id ≡ seat.old.table_id) × (seat.new.me ≡ (kept_front parts seat.old.me.0, [])) }
        ensures given { (result.table_id ≡ seat.old.table_id) × (result.me ≡ (given_front parts seat.old.me.0, [])) }
    {
        let _ = parts;
        self.table.shared.split_seat::<Divides<K>>(seat)
    }

    /// A new pass, which has seen the same and has no entries. It takes so many of the old one's parts: at least 1, and fewer than all.
    ///
    /// It takes no memory.
    pub fn split(&self, pass: &mut Pass<O>, parts: u64) -> Pass<O>
        requires pass { IsPassOf self.now pass.old }
        requires parts { (0 < parts) × (parts < parts_of pass.old) }
        ensures passes { IsPassOf self.now pass.new × IsPassOf self.now result }
        ensures seen { (seen_of pass.new ≡ seen_of pass.old) × (seen_of result ≡ seen_of pass.old) }
        ensures kept { (mine_of pass.new ≡ mine_of pass.old) × (ended_of pass.new ≡ ended_of pass.old) }
        ensures given { (mine_of result ≡ []) × (ended_of result ≡ []) }
        ensures divided { (parts_of pass.new ≡ parts_of pass.old - parts) × (parts_of result ≡ parts) }
    {
        let seat = self.split_off::<Brand>(&mut pass.seat, parts);
        Numbered { seat, number: None }
    }

    fn join_seats(&self, seat: &mut Seat<Slot<O>, FrontOf<O>>, other: Seat<Slot<O>, FrontOf<O>>)
        requires table { (seat.old.table_id ≡ self.now.table.shared.table_id) × (other.table_id ≡ self.now.table.shared.table_id) × (seat.old.me.0.start ≡ Some (start_of self.now)) }
        requires idle { (seat.old.me.1 ≡ []) × (seat.old.me.0.stage ≡ Idle) × (0 < seat.old.me.0.parts) }
        requires other { (other.me.1 ≡ []) × (other.me.0.stage ≡ Idle) × (0 < other.me.0.parts) }
        ensures joined { (seat.new.table_id ≡ seat.old.table_id) × (seat.new.me ≡ (joined_front seat.old.me.0 other.me.0, [])) }
        ensures legal { IsLegalFront O.step O.may (start_of self.now) seat.new.me.0 }
        ensures both { StartsWith seat.new.me.0.seen seat.old.me.0.seen × StartsWith seat.new.me.0.seen other.me.0.seen }
    {
        self.table.shared.join_seat::<Joined>(seat, other);
        self.table.shared.load::<Learns<O>>(seat, 0);
    }

    /// Ends the other pass. The pass has then seen the longer of both histories, and has the parts, the entries and the ended passes of both.
    ///
    /// It takes no memory.
    pub fn join(&self, pass: &mut Pass<O>, other: Pass<O>)
        requires passes { IsPassOf self.now pass.old × IsPassOf self.now other }
        ensures pass { IsPassOf self.now pass.new }
        ensures seen { seen_of pass.new ≡ longer (seen_of pass.old) (seen_of other) }
        ensures both { StartsWith (seen_of pass.new) (seen_of pass.old) × StartsWith (seen_of pass.new) (seen_of other) }
        ensures mine { mine_of pass.new ≡ mine_of pass.old }
        ensures ended { ended_of pass.new ≡ ended_of pass.old ++ (ended_of other ++ as_ended (mine_of other)) }
        ensures parts { parts_of pass.new ≡ parts_of pass.old + parts_of other }
        ensures legal { IsLegalFront O.step O.may (start_of self.now) (front pass.new) }
    {
        let Numbered { seat, number: _ } = other;
        self.join_seats(&mut pass.seat, seat);
    }
}
