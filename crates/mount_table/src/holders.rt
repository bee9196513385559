//! Who holds a room: looked up, added at the end, and taken out. They stand by ascending number.
ghost use Rattle.std.specs.Prelude.{◌≡◌, ◌<◌, List, [], ◌∷◌, ◌++◌, length, map, slice_get, nat_eq, None, IfNone, IfSome, OnOk, OnErr};
ghost use Rattle.std.specs.List.{list_any};
ghost use Rattle.mount_model.specs.declared.row.Holder.{Holder};
ghost use Rattle.mount_model.specs.Regular.{Ascend};
ghost use Rattle.mount_model.specs.Table.{holder_at, holder_of as hold_of, is_held_room as is_held_among};
ghost use Rattle.mount_model.specs.Holding.{let_go as without};
ghost use Rattle.mount_table.specs.Roll.{with_table};
ghost use Rattle.mount_table.specs.Admitting.{IsNewHolder, with_holders};

use crate::roster::Roster;
use mount_model::Holder;
use plfs_types::NoMemory;

/// The place of the holder of this number.
fn place_of(holders: &[Holder], number: u64) -> Option<usize>
    requires { Ascend (map (λ (h : Holder). h.number) holders.now) }
    ensures none { IfNone result (holder_at number holders.now ≡ None) }
    ensures some { IfSome result (λ place. slice_get holders.now place ≡ holder_at number holders.now) }
    ensures within { IfSome result (λ place. place < length holders.now) }
{
    let place = holders.partition_point(|holder| holder.number < number);
    if place < holders.len() && holders[place].number == number {
        Some(place)
    } else {
        None
    }
}

/// Whether somebody holds the room.
fn is_held(holders: &[Holder], room: u64) -> bool
    ensures { result ≡ list_any (λ (h : Holder). nat_eq h.room room) holders.now }
{
    holders.iter().any(|holder| holder.room == room)
}

impl Roster {
    /// The caller's hold of this number.
    pub fn holder_of(&self, caller: u64, number: u64) -> Option<Holder>
        ensures { result ≡ hold_of caller number self.now.table.holders }
    {
        let place = place_of(&self.holders, number)?;
        let holder = self.holders[place];
        if holder.owner != caller {
            return None;
        }
        Some(holder)
    }

    /// Whether somebody holds the room.
    pub fn is_held_room(&self, room: u64) -> bool
        ensures { result ≡ is_held_among room self.now.table.holders }
    {
        is_held(&self.holders, room)
    }

    /// Adds a holder at the end of the table. After `NoMemory` the table is as it was.
    pub fn add_holder(&mut self, holder: Holder) -> Result<(), NoMemory>
        requires { IsNewHolder self.old holder }
        ensures ok { OnOk result (self.new ≡ with_holders (self.old.table.holders ++ holder ∷ []) self.old) }
        ensures err { OnErr result (self.new ≡ self.old) }
    {
        self.holders.push(holder)?;
        Ok(())
    }

    /// Takes out the holder that was added last.
    pub fn forget_last_holder(&mut self)
        ensures { (holders : List Holder) (h : Holder) → self.old.table.holders ≡ holders ++ h ∷ [] → self.new ≡ with_holders holders self.old }
    {
        let others = self.holders.len().saturating_sub(1);
        self.holders.truncate(others);
    }

    /// Takes the holder of this number out, where there is one.
    pub fn let_go(&mut self, number: u64)
        ensures { self.new ≡ with_table (without number self.old.table) self.old }
    {
        if let Some(place) = place_of(&self.holders, number) {
            let _ = self.holders.remove(place);
        }
    }
}
