//! Flattenings: looked up, added at the end, brought to another stage, and taken out. They stand by ascending id.
ghost use Rattle.std.specs.Prelude.{◌≡◌, ◌<◌, List, [], ◌∷◌, ◌++◌, length, map, slice_get, Some, None, IfNone, IfSome, OnOk, OnErr};
ghost use Rattle.mount_model.specs.declared.row.Flattening.{Flattening};
ghost use Rattle.mount_model.specs.Regular.{Ascend};
ghost use Rattle.mount_model.specs.Table.{flattening_at, flattening_of as its_flattening_of, flat_rank as flat_rank_of};
ghost use Rattle.mount_model.specs.Flattening.{come_to as coming_to, drop_flat as without};
ghost use Rattle.mount_table.specs.Roll.{with_table};
ghost use Rattle.mount_table.specs.Admitting.{IsNewFlattening, with_flattenings};

use crate::roster::Roster;
use mount_model::{FlatStage, Flattening};
use plfs_types::NoMemory;

/// How far a stage is.
fn flat_rank(stage: FlatStage) -> u8
    ensures { result ≡ flat_rank_of stage }
{
    match stage {
        FlatStage::Begun => 0,
        FlatStage::Put => 1,
        FlatStage::Synced => 2,
    }
}

/// The place of the flattening of this id.
fn place_of(flattenings: &[Flattening], id: u64) -> Option<usize>
    requires { Ascend (map (λ (f : Flattening). f.id) flattenings.now) }
    ensures none { IfNone result (flattening_at id flattenings.now ≡ None) }
    ensures some { IfSome result (λ place. slice_get flattenings.now place ≡ flattening_at id flattenings.now) }
    ensures within { IfSome result (λ place. place < length flattenings.now) }
{
    let place = flattenings.partition_point(|flattening| flattening.id < id);
    if place < flattenings.len() && flattenings[place].id == id {
        Some(place)
    } else {
        None
    }
}

impl Roster {
    /// The caller's flattening of this id, where this is its stage.
    pub fn flattening_of(&self, caller: u64, stage: FlatStage, id: u64) -> Option<Flattening>
        ensures same { result ≡ its_flattening_of caller stage id self.now.table.flattenings }
        ensures there { IfSome result (λ f. flattening_at f.id self.now.table.flattenings ≡ Some f) }
    {
        let place = place_of(&self.flattenings, id)?;
        let flattening = self.flattenings[place];
        if flattening.owner != caller || flat_rank(flattening.stage) != flat_rank(stage) {
            return None;
        }
        Some(flattening)
    }

    /// Adds a flattening at the end of the table. After `NoMemory` the table is as it was.
    pub fn add_flattening(&mut self, flattening: Flattening) -> Result<(), NoMemory>
        requires { IsNewFlattening self.old flattening }
        ensures ok { OnOk result (self.new ≡ with_flattenings (self.old.table.flattenings ++ flattening ∷ []) self.old) }
        ensures err { OnErr result (self.new ≡ self.old) }
    {
        self.flattenings.push(flattening)?;
        Ok(())
    }

    /// Takes out the flattening that was added last.
    pub fn forget_last_flattening(&mut self)
        ensures { (flattenings : List Flattening) (f : Flattening) → self.old.table.flattenings ≡ flattenings ++ f ∷ [] → self.new ≡ with_flattenings flattenings self.old }
    {
        let others = self.flattenings.len().saturating_sub(1);
        self.flattenings.truncate(others);
    }

    /// Brings a flattening of the table to another stage.
    pub fn come_to(&mut self, stage: FlatStage, flattening: Flattening)
        requires { flattening_at flattening.id self.old.table.flattenings ≡ Some flattening }
        ensures { self.new ≡ with_table (coming_to stage flattening self.old.table) self.old }
    {
        if let Some(place) = place_of(&self.flattenings, flattening.id) {
            self.flattenings[place].stage = stage;
        }
    }

    /// Takes the flattening of this id out, where there is one.
    pub fn drop_flat(&mut self, id: u64)
        ensures { self.new ≡ with_table (without id self.old.table) self.old }
    {
        if let Some(place) = place_of(&self.flattenings, id) {
            let _ = self.flattenings.remove(place);
        }
    }
}
