//! The mount's table of writers, holders and flattenings.
ghost use Rattle.std.specs.Prelude.{◌≡◌, ◌<◌, ◌≤◌, length, Some, slice_get, IfNone, IfSome, None};
ghost use Rattle.plfs_types.specs.declared.limits.TheConstants.{MAX_STAMP};
ghost use Rattle.mount_model.specs.Table.{writer_of, at_stage};
ghost use Rattle.mount_model.specs.State.{put, take_out};
ghost use Rattle.mount_model.specs.Paths.{log_path};
ghost use Rattle.mount_model.specs.Regular.{IsCounted};
ghost use Rattle.mount_model.specs.Flooring.{floored};
ghost use Rattle.mount_model.specs.Writing.{wrote};
ghost use Rattle.mount_model.specs.Flushing.{flushed, log_synced, index_synced};
ghost use Rattle.mount_model.specs.Leaving.{closed};
ghost use Rattle.mount_table.specs.Roll.{new_roll, with_table, IsRegularRoll};
ghost use Rattle.mount_table.specs.Writable.{MayTake, IsStampFor};
ghost use Rattle.mount_table.specs.Stages.{allowed};
ghost use Rattle.mount_table.specs.Standing.{AtPlace};

use crate::places::find;
use crate::stages::Stages;
use crate::writer::Writer;
use mount_model::{Flattening, Holder, Row, Stage};
use plfs_types::{Entry, Path};
use std::alloc::Global;
use std::marker::Model;

/// The marks and the serials of a mount, and its table. Contracts see it as a `Roll`.
#[derive(Drop)]
pub struct Roster {
    pub(crate) marks: u64,
    pub(crate) mount: u32,
    pub(crate) serial: u32,
    pub(crate) writers: Vec<Writer>,
    pub(crate) holders: Vec<Holder>,
    pub(crate) flattenings: Vec<Flattening>,
}

impl Model for Roster {
    ghost use Rattle.mount_model.specs.Regular.{IsRegular};
    ghost use Rattle.mount_table.specs.Roll.{Roll, roll_code, IsRegularRoll};

    ghost Value = { Roll };

    ghost coded = { roll_code };

    ghost view = { λ r. record { marks = r.marks; mount = r.mount; serial = r.serial; table = record { writers = r.writers.items; holders = r.holders.items; flattenings = r.flattenings.items } } };

    ghost invariant = { λ r. IsRegularRoll (record { marks = r.marks; mount = r.mount; serial = r.serial; table = record { writers = r.writers.items; holders = r.holders.items; flattenings = r.flattenings.items } }) };
}

impl Roster {
    /// The marks of a mount whose last serial this is, with an empty table. It takes no memory.
    pub fn new(alloc: Global, marks: u64, mount: u32, serial: u32) -> Roster
        ensures { result ≡ new_roll marks mount serial }
    {
        Roster {
            marks,
            mount,
            serial,
            writers: Vec::new(alloc),
            holders: Vec::new(alloc),
            flattenings: Vec::new(alloc),
        }
    }

    /// What holds of every table.
    pub fn regular(&self)
        ensures { IsRegularRoll self.now }
    {
        let _ = &self.marks;
    }

    /// The room of the mounts' marks.
    pub fn marks(&self) -> u64
        ensures { result ≡ self.now.marks }
    {
        self.marks
    }

    /// This mount's mark.
    pub fn number(&self) -> u32
        ensures { result ≡ self.now.mount }
    {
        self.mount
    }

    /// The place of the caller's writer of this id, where its stage is one of these.
    pub fn find(&self, caller: u64, stages: Stages, writer: u64) -> Option<usize>
        ensures none { IfNone result (writer_of caller (allowed stages) writer self.now.table.writers ≡ None) }
        ensures some { IfSome result (λ place. slice_get self.now.table.writers place ≡ writer_of caller (allowed stages) writer self.now.table.writers) }
        ensures within { IfSome result (λ place. place < length self.now.table.writers) }
    {
        find(&self.writers, caller, stages, writer)
    }

    /// The row at this place.
    pub fn row(&self, place: usize) -> &Row
        requires { place < length self.now.table.writers }
        ensures same { slice_get self.now.table.writers place ≡ Some result.now }
        ensures counted { IsCounted result.now }
    {
        self.writers[place].row()
    }

    /// Where the log of the writer at this place lies.
    pub fn log(&self, place: usize) -> &Path
        requires { place < length self.now.table.writers }
        ensures { AtPlace self.now.table place (λ row. result.now ≡ log_path row.host row.id) }
    {
        self.writers[place].log()
    }

    /// Puts the row at this place into another stage.
    pub fn set_stage(&mut self, place: usize, stage: Stage)
        requires { place < length self.old.table.writers }
        ensures { AtPlace self.old.table place (λ row. self.new ≡ with_table (put (at_stage stage row) self.old.table) self.old) }
    {
        let writer = &mut self.writers[place];
        writer.row.stage = stage;
    }

    /// Sets the floor of the writer at this place.
    pub fn set_floor(&mut self, place: usize, floor: u64)
        requires within { place < length self.old.table.writers }
        requires fits { floor ≤ MAX_STAMP }
        ensures { AtPlace self.old.table place (λ row. self.new ≡ with_table (put (floored floor row) self.old.table) self.old) }
    {
        let writer = &mut self.writers[place];
        writer.row.floor = floor;
        writer.row.stage = Stage::Floored;
    }

    /// Notes that the metadata dropping of the writer at this place is there.
    pub fn set_closed(&mut self, place: usize)
        requires { place < length self.old.table.writers }
        ensures { AtPlace self.old.table place (λ row. self.new ≡ with_table (put (closed row) self.old.table) self.old) }
    {
        let writer = &mut self.writers[place];
        writer.row.has_meta = true;
        writer.row.stage = Stage::Closing;
    }

    /// Notes that all that the writer at this place stored is synced.
    pub fn set_log_synced(&mut self, place: usize)
        requires { place < length self.old.table.writers }
        ensures { AtPlace self.old.table place (λ row. self.new ≡ with_table (put (log_synced row) self.old.table) self.old) }
    {
        let writer = &mut self.writers[place];
        writer.row.log_mark = writer.row.stored;
    }

    /// Notes that all entries that landed of the writer at this place are synced: how many they are.
    pub fn set_index_synced(&mut self, place: usize) -> u64
        requires { place < length self.old.table.writers }
        ensures count { AtPlace self.old.table place (λ row. result ≡ row.landed) }
        ensures left { AtPlace self.old.table place (λ row. self.new ≡ with_table (put (index_synced row) self.old.table) self.old) }
    {
        let writer = &mut self.writers[place];
        writer.row.index_mark = writer.row.landed;
        writer.row.landed
    }

    /// Keeps the entry of a write of so many bytes from the logical place `at` on.
    pub fn keep_entry(&mut self, place: usize, stamp: u64, at: u64, len: u64)
        requires within { place < length self.old.table.writers }
        requires fine { AtPlace self.old.table place (λ row. MayTake row at len) }
        requires stamped { AtPlace self.old.table place (λ row. IsStampFor row stamp) }
        ensures { AtPlace self.old.table place (λ row. self.new ≡ with_table (put (wrote stamp row at len) self.old.table) self.old) }
    {
        let writer = &mut self.writers[place];
        let entry = Entry {
            at,
            len,
            physical: writer.row.stored,
            stamp,
            writer: writer.row.id,
        };
        writer.row.pending.push(&entry);
        writer.row.last = stamp;
        writer.row.stored += len;
        writer.row.end = writer.row.end.max(at + len);
    }

    /// Counts the pending entries of the writer at this place as landed: how many have landed then.
    pub fn land(&mut self, place: usize) -> u64
        requires { place < length self.old.table.writers }
        ensures count { AtPlace self.old.table place (λ row. result ≡ (flushed row).landed) }
        ensures left { AtPlace self.old.table place (λ row. self.new ≡ with_table (put (flushed row) self.old.table) self.old) }
    {
        let writer = &mut self.writers[place];
        let landed = writer.row.landed + writer.row.pending.pending();
        writer.row.landed = landed;
        writer.row.pending.clear();
        landed
    }

    /// Takes the writer at this place out of the table.
    pub fn take_out(&mut self, place: usize)
        requires { place < length self.old.table.writers }
        ensures { AtPlace self.old.table place (λ row. self.new ≡ with_table (take_out row.id self.old.table) self.old) }
    {
        let _ = self.writers.remove(place);
    }
}
