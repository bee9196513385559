//! The machine that tells of a file.
ghost use Rattle.std.specs.Prelude.{◌≡◌, ◌<◌, IfOk};
ghost use Rattle.mount_model.specs.Standing.{ready, next_of, rest_of, replied, Awaits};
ghost use Rattle.attr_flow.specs.Asking.{attr_program};
ghost use Rattle.attr_flow.specs.Stages.{asking, calls_left, attr_standing, attr_left};

use crate::attr::{Attr, cached};
use crate::listings::{is_open, listed_metadata, listed_truncs};
use container_layout::{metadata, openhosts, truncs};
use mount_model::{Call, Flow, Look, MetadataList, Reply, Stuck, failure, room_in};
use plfs_types::{LogicalName, NoMemory};
use std::alloc::Global;
use std::mem;

/// What the names in a container tell of its file.
#[derive(Drop)]
pub enum AttrOut {
    /// All of it, since nobody has the file open.
    Cached(Attr),
    /// Nothing, since somebody has the file open: its index is to be read.
    MustMerge { room: u64 },
}

/// Tells of a file by the names of what its writers left.
///
/// It ends with `MustMerge` exactly where a writer has the file open, by the listing of those that have. Else it lists
/// the metadata and the truncates, and what they tell is what it ends with; or with the first trouble. A name that is
/// none of its folder's and a missing folder, but for that of who has the file open, are damage at place 0.
#[derive(Drop)]
pub struct AttrFlow {
    alloc: Global,
    stage: Stage,
}

#[derive(Drop)]
enum Stage {
    Finding(LogicalName),
    ListingOpen(u64),
    ListingMetadata(u64),
    ListingTruncs { room: u64, metas: MetadataList },
    Ended(Result<AttrOut, Stuck>),
}

impl AttrFlow {
    /// Tells of the file of this name.
    pub fn new(alloc: Global, name: LogicalName) -> Self
        ensures { attr_standing result ≡ ready (attr_program name) }
    {
        AttrFlow {
            alloc,
            stage: Stage::Finding(name),
        }
    }

    /// The call that is to be made, where there is one.
    fn call(&self) -> Option<Call>
        ensures { result ≡ next_of (attr_standing self.now) }
    {
        let (room, folder) = match &self.stage {
            Stage::Finding(name) => return Some(Call::Find { name: *name }),
            Stage::ListingOpen(room) => (*room, openhosts()),
            Stage::ListingMetadata(room) => (*room, metadata()),
            Stage::ListingTruncs { room, .. } => (*room, truncs()),
            Stage::Ended(_) => return None,
        };
        Some(Call::Look {
            room,
            look: Look::List { folder },
        })
    }
}

impl Stage {
    /// The stage after the reply to this one's call.
    fn after(self, alloc: Global, reply: Reply) -> Result<Stage, NoMemory>
        requires { Awaits (rest_of (ready (asking self))) }
        ensures goes_on { IfOk result (λ stage. asking stage ≡ replied (rest_of (ready (asking self))) reply) }
        ensures fewer { IfOk result (λ stage. calls_left stage < calls_left self) }
    {
        match self {
            Stage::Finding(_) => {
                let found = room_in(&reply);
                let why = failure(&reply);
                drop(reply);
                Ok(match found {
                    Some(room) => Stage::ListingOpen(room),
                    None => Stage::Ended(Err(why)),
                })
            }
            Stage::ListingOpen(room) => Ok(match is_open(reply) {
                Ok(true) => Stage::Ended(Ok(AttrOut::MustMerge { room })),
                Ok(false) => Stage::ListingMetadata(room),
                Err(why) => Stage::Ended(Err(why)),
            }),
            Stage::ListingMetadata(room) => Ok(match listed_metadata(alloc, reply)? {
                Ok(metas) => Stage::ListingTruncs { room, metas },
                Err(why) => Stage::Ended(Err(why)),
            }),
            Stage::ListingTruncs { metas, .. } => match listed_truncs(alloc, reply) {
                Ok(Ok(listed)) => {
                    let attr = cached(alloc, metas, listed)?;
                    Ok(Stage::Ended(Ok(AttrOut::Cached(attr))))
                }
                Ok(Err(why)) => {
                    drop(metas);
                    Ok(Stage::Ended(Err(why)))
                }
                Err(why) => {
                    drop(metas);
                    Err(why)
                }
            },
            Stage::Ended(outcome) => {
                drop(reply);
                Ok(Stage::Ended(outcome))
            }
        }
    }
}

impl Flow for AttrFlow {
    type Out = Result<AttrOut, Stuck>;

    ghost standing = { attr_standing };

    ghost left = { attr_left };

    fn next(&mut self) -> Result<Option<Call>, NoMemory> {
        Ok(self.call())
    }

    fn take(&mut self, reply: Reply) -> Result<(), NoMemory> {
        if let Reply::NoMemory = reply {
            return Err(NoMemory);
        }
        let stage = mem::replace(&mut self.stage, Stage::Ended(Err(Stuck::Fault)));
        let stage = stage.after(self.alloc, reply)?;
        drop(mem::replace(&mut self.stage, stage));
        Ok(())
    }

    fn out(self) -> Result<AttrOut, Stuck> {
        let AttrFlow { stage, .. } = self;
        match stage {
            Stage::Ended(outcome) => outcome,
            _ => unreachable!(),
        }
    }
}
