//! The opening of a reader.
use crate::parts::Part;
use crate::underway::Underway;
use index_reader::{OpenRead, OpenReader};
use mount_model::{Call, Flow, Reply, Stuck};
use plfs_types::{LogicalName, NoMemory};
use std::alloc::Global;
use std::mem;

/// Opens a reader: lists the container of a name, reads its index droppings as so many shares, one after the other, and last
/// lists its truncates.
///
/// It ends with the reader, or with the first trouble: a call that was refused or failed, or damage.
#[derive(Drop)]
pub struct Opening {
    alloc: Global,
    pub(crate) part: Underway,
}

impl Opening {
    ghost use Rattle.std.specs.Prelude.{◌≡◌, ◌↔◌, IsTrue};
    ghost use Rattle.mount_model.specs.Standing.{ready, rest_of, IsOver};
    ghost use Rattle.opening_flow.specs.Opening.{opening_program};
    ghost use Rattle.opening_flow.specs.OpeningStages.{opening_standing};

    /// Opens the container of this name, whose droppings are dealt to so many shares.
    pub fn new(alloc: Global, name: LogicalName, workers: u32) -> Self
        ensures { opening_standing result ≡ ready (opening_program name workers) }
    {
        Opening {
            alloc,
            part: Underway::of(Part::Listing {
                scan: OpenRead::new(alloc, name),
                workers,
            }),
        }
    }

    /// Whether it has no further call.
    pub fn is_over(&self) -> bool
        ensures { IsTrue result ↔ IsOver (rest_of (opening_standing self.now)) }
    {
        self.part.has_ended()
    }
}

impl Flow for Opening {
    ghost use Rattle.opening_flow.specs.OpeningStages.{opening_standing, opening_left};

    type Out = Result<OpenReader, Stuck>;

    ghost standing = { opening_standing };

    ghost left = { opening_left };

    fn next(&mut self) -> Result<Option<Call>, NoMemory> {
        let ended = Underway::of(Part::Ended(Err(Stuck::Fault)));
        let part = mem::replace(&mut self.part, ended).take();
        let (part, call) = part.give()?;
        drop(mem::replace(&mut self.part, Underway::of(part)));
        Ok(call)
    }

    fn take(&mut self, reply: Reply) -> Result<(), NoMemory> {
        if let Reply::NoMemory = reply {
            return Err(NoMemory);
        }
        let ended = Underway::of(Part::Ended(Err(Stuck::Fault)));
        let part = mem::replace(&mut self.part, ended).take();
        let part = part.after(self.alloc, reply)?;
        drop(mem::replace(&mut self.part, Underway::of(part)));
        Ok(())
    }

    fn out(self) -> Result<OpenReader, Stuck> {
        let part = self.part.take();
        match part {
            Part::Ended(result) => result,
            _ => unreachable!(),
        }
    }
}
