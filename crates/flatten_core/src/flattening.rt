//! A whole flattening.
use crate::parts::Part;
use crate::starting::Stage as Beginning;
use crate::underway::Underway;
use mount_model::{Call, Flow, Reply, Stuck};
use plfs_types::{CoverList, LogicalName, NoMemory};
use std::alloc::Global;
use std::mem;

/// What is told of a flattened index that was installed.
#[derive(Drop)]
pub struct Flattened {
    /// The flattening's id.
    pub flat: u64,
    /// How many pieces the index has.
    pub pieces: u64,
    /// How many entries of each writer it covers.
    pub covers: CoverList,
}

/// Flattens a file: begins, gathers its container as one share, and installs the index of what was gathered, which the
/// truncates don't clip.
///
/// It ends with the first trouble. A covered writer of which the second listing has no index dropping is damage, at its
/// cover in the flattened index.
#[derive(Drop)]
pub struct FlattenFlow {
    alloc: Global,
    part: Underway,
}

impl FlattenFlow {
    ghost use Rattle.std.specs.Prelude.{◌≡◌};
    ghost use Rattle.mount_model.specs.Standing.{ready};
    ghost use Rattle.flatten_core.specs.Flattening.{flatten_program};
    ghost use Rattle.flatten_core.specs.FlattenStages.{flatten_standing};

    /// Flattens the file of this name.
    pub fn new(alloc: Global, name: LogicalName) -> Self
        ensures { flatten_standing result ≡ ready (flatten_program name) }
    {
        FlattenFlow {
            alloc,
            part: Underway::of(Part::Beginning(Beginning::Finding(name))),
        }
    }
}

impl Flow for FlattenFlow {
    ghost use Rattle.flatten_core.specs.FlattenStages.{flatten_standing, flatten_left};

    type Out = Result<Flattened, Stuck>;

    ghost standing = { flatten_standing };

    ghost left = { flatten_left };

    fn next(&mut self) -> Result<Option<Call>, NoMemory> {
        let ended = Underway::of(Part::Ended(Err(Stuck::Fault)));
        let part = mem::replace(&mut self.part, ended).take();
        let (part, call) = part.give()?;
        drop(mem::replace(&mut self.part, Underway::of(part)));
        Ok(call)
    }

    fn take(&mut self, reply: Reply) -> Result<(), NoMemory> {
        if let Reply::NoMemory = reply {
            return Err(NoMemory);
        }
        let ended = Underway::of(Part::Ended(Err(Stuck::Fault)));
        let part = mem::replace(&mut self.part, ended).take();
        let part = part.after(self.alloc, reply)?;
        drop(mem::replace(&mut self.part, Underway::of(part)));
        Ok(())
    }

    fn out(self) -> Result<Flattened, Stuck> {
        let part = self.part.take();
        match part {
            Part::Ended(outcome) => outcome,
            _ => unreachable!(),
        }
    }
}
