//! The end of a flattening.
ghost use Rattle.std.specs.Prelude.{◌≡◌, ◌≤◌, ◌+◌, ◌*◌, ◌^◌, IfOk};
ghost use Rattle.flat_format.specs.Spelling.{flat_spelling};
ghost use Rattle.mount_model.specs.Standing.{ready};
ghost use Rattle.flatten_core.specs.Installing.{install_program};
ghost use Rattle.flatten_core.specs.Stages.{installing, installs_left, IsUnderway};

use crate::stages::Stage;
use crate::starting::Started;
use flat_format::{Flat, encode};
use index_reader::OpenRead;
use mount_model::{Call, Flow, Reply, Stuck};
use plfs_types::{Cover, CoverList, NoMemory};
use std::alloc::Global;
use std::mem;

/// Installs a flattened index: lists the droppings of its container, syncs the log and the index dropping of each writer
/// that it covers, by ascending id, then writes it to the temporary file, syncs that, and gives it its name.
///
/// It ends with the first trouble. After the listings a covered writer without an index dropping is damage, at its cover
/// in the flattened index of this id.
#[derive(Drop)]
pub struct InstallFlow {
    alloc: Global,
    room: u64,
    flat: u64,
    stage: Stage,
    ghost underway: { IsUnderway stage },
}

/// The covers as a list of their own.
pub(crate) fn copied(alloc: Global, covers: &[Cover]) -> Result<CoverList, NoMemory>
    ensures { IfOk result (λ list. list ≡ covers.now) }
{
    let mut list = Vec::new(alloc);
    list.extend_from_slice(covers)?;
    Ok(CoverList::from_vec(list))
}

/// The first stage of installing this content for a flattening that was begun.
pub(crate) fn first_stage(
    alloc: Global,
    started: Started,
    content: &Flat,
) -> Result<Stage, NoMemory>
    ensures standing { IfOk result (λ stage. installing started.room started.flat stage ≡ ready (install_program started.room started.flat content.now.covers (flat_spelling content.now))) }
    ensures left { IfOk result (λ stage. installs_left stage ≤ 2 * 2 ^ 64 + 50) }
    ensures underway { IfOk result IsUnderway }
{
    let covers = copied(alloc, content.covers.as_slice())?;
    let bytes = encode(alloc, content)?;
    let _count = covers.as_slice().len();
    Ok(Stage::Scanning {
        scan: OpenRead::top(alloc, started.room),
        covers,
        bytes,
    })
}

impl InstallFlow {
    ghost use Rattle.flatten_core.specs.InstallStages.{install_standing};

    /// Installs this content for a flattening that was begun.
    pub fn new(alloc: Global, started: &Started, content: &Flat) -> Result<InstallFlow, NoMemory>
        ensures { IfOk result (λ flow. install_standing flow ≡ ready (install_program started.now.room started.now.flat content.now.covers (flat_spelling content.now))) }
    {
        let stage = first_stage(alloc, *started, content)?;
        Ok(InstallFlow {
            alloc,
            room: started.room,
            flat: started.flat,
            stage,
        })
    }
}

impl Flow for InstallFlow {
    ghost use Rattle.flatten_core.specs.InstallStages.{install_standing, install_left};

    type Out = Result<(), Stuck>;

    ghost standing = { install_standing };

    ghost left = { install_left };

    fn next(&mut self) -> Result<Option<Call>, NoMemory> {
        let stage = mem::replace(&mut self.stage, Stage::Ended(Err(Stuck::Fault)));
        let (stage, call) = stage.give(self.room, self.flat)?;
        drop(mem::replace(&mut self.stage, stage));
        Ok(call)
    }

    fn take(&mut self, reply: Reply) -> Result<(), NoMemory> {
        if let Reply::NoMemory = reply {
            return Err(NoMemory);
        }
        let stage = mem::replace(&mut self.stage, Stage::Ended(Err(Stuck::Fault)));
        let stage = stage.after(self.alloc, self.room, self.flat, reply)?;
        drop(mem::replace(&mut self.stage, stage));
        Ok(())
    }

    fn out(self) -> Result<(), Stuck> {
        let InstallFlow { stage, .. } = self;
        match stage {
            Stage::Ended(outcome) => outcome,
            _ => unreachable!(),
        }
    }
}
