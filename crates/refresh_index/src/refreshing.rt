//! The refresh of a reader.
ghost use Rattle.refresh_index.specs.Parts.{IsPartUnderway};

use crate::held::Held;
use crate::parts::Part;
use crate::underway::Underway;
use index_reader::OpenRead;
use mount_model::{Call, Flow, Reply, Stuck};
use plain_file::{HostList, PieceList, Pieces, ReaderParts};
use plfs_types::{CoverList, NoMemory, TruncList};
use std::alloc::Global;
use std::mem;

/// What a refresh ends with.
#[derive(Drop)]
pub struct RefreshOut {
    /// What a new opening would have, or, where there was a trouble, what was held.
    pub parts: ReaderParts,
    pub result: Result<(), Stuck>,
}

/// Brings a reader to what a new opening would see: lists the top of its container and the folders of droppings there, reads
/// of each index dropping, by ascending writer, its length, that of its log, and the whole entries past those that are held,
/// 4096 by a Read, and last lists the truncates.
///
/// It ends with the first trouble, in which the parts are unchanged: a call that was refused or failed, or damage, as when a
/// container is opened. A dropping whose writer is held with another host is damage, at 0, once all folders are listed. A
/// writer that is held and has no index dropping keeps what is held.
#[derive(Drop)]
pub struct Refresh {
    alloc: Global,
    pub(crate) part: Underway,
}

impl Refresh {
    ghost use Rattle.std.specs.Prelude.{◌≡◌};
    ghost use Rattle.mount_model.specs.Standing.{ready};
    ghost use Rattle.index_reader.specs.Covered.{AreByWriter as AreCoversByWriter};
    ghost use Rattle.index_reader.specs.Hosts.{AreByWriter as AreHostsByWriter};
    ghost use Rattle.refresh_index.specs.Refreshing.{refresh_program};
    ghost use Rattle.refresh_index.specs.RefreshStages.{refresh_standing};

    /// Refreshes the reader of these parts, whose hosts and covers stand by ascending writer.
    pub fn new(alloc: Global, parts: ReaderParts) -> Self
        requires hosts { AreHostsByWriter parts.hosts }
        requires covers { AreCoversByWriter parts.covers }
        ensures { refresh_standing result ≡ ready (refresh_program parts) }
    {
        let scan = OpenRead::top(alloc, parts.room);
        Refresh {
            alloc,
            part: Underway::of(Part::Listing {
                scan,
                held: Held::of(parts),
            }),
        }
    }
}

impl Flow for Refresh {
    ghost use Rattle.mount_model.specs.Standing.{IsOver, rest_of, over};
    ghost use Rattle.std.specs.Prelude.{◌≡◌};
    ghost use Rattle.index_reader.specs.Covered.{AreByWriter as AreCoversByWriter};
    ghost use Rattle.index_reader.specs.Hosts.{AreByWriter as AreHostsByWriter};
    ghost use Rattle.refresh_index.specs.RefreshStages.{refresh_standing, refresh_left};

    type Out = RefreshOut;

    ghost standing = { refresh_standing };

    ghost left = { refresh_left };

    fn next(&mut self) -> Result<Option<Call>, NoMemory> {
        let ended = Underway::of(ended(self.alloc));
        let part = mem::replace(&mut self.part, ended).take();
        let (part, call) = part.give()?;
        drop(mem::replace(&mut self.part, Underway::of(part)));
        Ok(call)
    }

    fn take(&mut self, reply: Reply) -> Result<(), NoMemory> {
        if let Reply::NoMemory = reply {
            return Err(NoMemory);
        }
        let ended = Underway::of(ended(self.alloc));
        let part = mem::replace(&mut self.part, ended).take();
        let part = part.after(self.alloc, reply)?;
        drop(mem::replace(&mut self.part, Underway::of(part)));
        Ok(())
    }

    fn out(self) -> RefreshOut
        requires { IsOver (rest_of (refresh_standing self)) }
        ensures is { rest_of (refresh_standing self) ≡ over result }
        // The hosts of the parts stand by ascending writer.
        ensures hosts { AreHostsByWriter result.parts.hosts }
        // So do the covers.
        ensures covers { AreCoversByWriter result.parts.covers }
    {
        let part = self.part.take();
        match part {
            Part::Ended(out) => out,
            _ => unreachable!(),
        }
    }
}

/// A refresh of nothing, at its end.
fn ended(alloc: Global) -> Part
    ensures { IsPartUnderway result }
{
    let parts = ReaderParts {
        room: 0,
        pieces: Pieces::of(PieceList::new(alloc)),
        size: 0,
        covers: CoverList::new(alloc),
        truncs: TruncList::new(alloc),
        hosts: HostList::new(alloc),
    };
    Part::Ended(RefreshOut {
        parts,
        result: Ok(()),
    })
}
