//! Listing a container.
ghost use Rattle.std.specs.Prelude.{◌≡◌, ◌≤◌, ◌<◌, ◌+◌, ◌^◌, ◌∷◌, length, IfOk};
ghost use Rattle.mount_model.specs.Program.{followed_by};
ghost use Rattle.mount_model.specs.Standing.{ready, next_of, rest_of, replied, Awaits, IsOver, over};
ghost use Rattle.mount_model.specs.FlowReplies.{on_ok};
ghost use Rattle.index_reader.specs.Listing.{AreByWriter};
ghost use Rattle.index_reader.specs.Covered.{AreByWriter as AreCoversByWriter};
ghost use Rattle.index_reader.specs.Scanning.{nothing_found};
ghost use Rattle.index_reader.specs.Opening.{if_newest, top_program, scan_program, scans, open_at_program, open_read_program};
ghost use Rattle.index_reader.specs.OpenStages.{after_flat, after_flat_calls, after_open, after_open_calls, IsAfterOpen, IsOfFlat, open_left, open_calls, open_standing, open_calls_left};

use crate::droppings::Droppings;
use crate::flats::{AfterFlat, FlatRead};
use crate::flattened::Flattened;
use crate::listed::{listed, no_flat};
use crate::listing::Listing;
use crate::newest::{flats_path, newest_in};
use crate::scanning::{Scan, file_in};
use crate::tops::folders;
use container_layout::{flats, hostdir};
use mount_model::{Call, Flow, Look, Reply, Stuck, names_in, room_in, trouble};
use plfs_types::{LogicalName, Name, NoMemory, Queue, Sequence};
use std::alloc::Global;
use std::mem;

/// Lists a container: its flattened indices, of which the one of the greatest id is read, 2^20 bytes by a Read, its top,
/// and its folders of droppings by ascending number.
///
/// It ends with the listing, or with the first trouble: a call that was refused or failed, or damage. Damage is, in the
/// order of the calls and within one listing in the order of its names: a foreign name, and then a missing file or folder
/// of the top, at 0; bytes that are no flattened index, at the first fault; a second index dropping or packed index of
/// one writer, at 0, once no name of its folder is foreign; after the last listing a covered writer without an index
/// dropping, at its cover in the flattened index, and then a packed index without an index dropping, at 0.
#[derive(Drop)]
pub struct OpenRead {
    alloc: Global,
    pub(crate) stage: Stage,
}

#[derive(Drop)]
pub(crate) enum Stage {
    Finding(LogicalName),
    Flats {
        room: u64,
    },
    Reading {
        room: u64,
        read: FlatRead,
    },
    Top {
        room: u64,
        id: u64,
        flat: Flattened,
    },
    Scans {
        room: u64,
        id: u64,
        flat: Flattened,
        folder: u32,
        rest: Queue<u32>,
        scan: Scan,
    },
    Listed {
        room: u64,
        droppings: Droppings,
        flat: Flattened,
    },
    Failed(Stuck),
}

/// Where a listing stands after a reply.
#[derive(Drop)]
pub enum AfterOpen {
    /// There is a further call.
    GoesOn(OpenRead),
    /// It has ended so.
    Is(Result<Listing, Stuck>),
}

impl OpenRead {
    /// Lists the container of this name.
    pub fn new(alloc: Global, name: LogicalName) -> Self
        ensures { open_standing result ≡ ready (open_read_program name) }
    {
        OpenRead {
            alloc,
            stage: Stage::Finding(name),
        }
    }

    /// Lists the container of this room.
    pub fn at(alloc: Global, room: u64) -> Self
        ensures starts { open_standing result ≡ ready (open_at_program room) }
        ensures left { open_calls_left result ≡ 2 ^ 64 + 50 }
    {
        OpenRead {
            alloc,
            stage: Stage::Flats { room },
        }
    }

    /// Lists the top and the folders of droppings of the container of this room, and reads no flattened index.
    pub fn top(alloc: Global, room: u64) -> Self
        ensures is { open_standing result ≡ ready (scan_program room) }
        ensures left { open_calls_left result ≡ 40 }
    {
        OpenRead {
            alloc,
            stage: Stage::Top {
                room,
                id: 0,
                flat: no_flat(alloc),
            },
        }
    }

    /// Where it stands after the reply to its call.
    pub fn after(self, reply: Reply) -> Result<AfterOpen, NoMemory>
        requires { Awaits (rest_of (open_standing self)) }
        ensures goes_on { IfOk result (λ after. after_open after ≡ replied (rest_of (open_standing self)) reply) }
        ensures fewer { IfOk result (λ after. after_open_calls after < open_calls_left self) }
        ensures order { IfOk result IsAfterOpen }
    {
        let OpenRead { alloc, stage } = self;
        let stage = after_reply(alloc, stage, reply)?;
        Ok(ended_or_not(alloc, stage))
    }

    /// The call that is to be made, where there is one.
    pub fn call(&self) -> Option<Call>
        ensures { result ≡ next_of (open_standing self.now) }
    {
        match &self.stage {
            Stage::Finding(name) => Some(Call::Find { name: *name }),
            Stage::Flats { room } => Some(Call::Look {
                room: *room,
                look: Look::List { folder: flats() },
            }),
            Stage::Reading { room, read } => Some(read.call(*room)),
            Stage::Top { room, .. } => Some(Call::Look {
                room: *room,
                look: Look::Top,
            }),
            Stage::Scans { room, folder, .. } => Some(Call::Look {
                room: *room,
                look: Look::List {
                    folder: hostdir(*folder),
                },
            }),
            Stage::Listed { .. } | Stage::Failed(_) => None,
        }
    }
}

/// What comes after the search for a container.
fn after_find(name: LogicalName, reply: Reply) -> Stage
    ensures goes_on { open_left result ≡ replied (rest_of (ready (open_read_program name))) reply }
    ensures fewer { open_calls result < 2 ^ 64 + 60 }
{
    let found = room_in(&reply);
    let why = trouble(&file_in(Name::empty(), Name::empty()), &reply);
    drop(reply);
    match found {
        Some(room) => Stage::Flats { room },
        None => Stage::Failed(why),
    }
}

/// What comes after the listing of the flattened indices.
fn after_flats(alloc: Global, room: u64, reply: Reply) -> Stage
    ensures goes_on { open_left result ≡ replied (rest_of (ready (open_at_program room))) reply }
    ensures fewer { open_calls result < 2 ^ 64 + 50 }
{
    let why = trouble(&flats_path(Name::empty()), &reply);
    let Some(names) = names_in(reply) else {
        return Stage::Failed(why);
    };
    let newest = newest_in(names.as_slice());
    drop(names);
    match newest {
        Err(why) => Stage::Failed(why),
        Ok(newest) => begins(alloc, room, newest),
    }
}

/// The newest flattened index is read, where there is one.
fn begins(alloc: Global, room: u64, newest: Option<u64>) -> Stage
    ensures goes_on { open_left result ≡ if_newest room newest }
    ensures fewer { open_calls result < 2 ^ 64 + 50 }
{
    match newest {
        None => Stage::Top {
            room,
            id: 0,
            flat: no_flat(alloc),
        },
        Some(id) => Stage::Reading {
            room,
            read: FlatRead::new(id),
        },
    }
}

/// What comes after a reply while a flattened index is read.
fn after_flat_read(
    alloc: Global,
    room: u64,
    read: FlatRead,
    reply: Reply,
) -> Result<Stage, NoMemory>
    ensures goes_on { IfOk result (λ stage. open_left stage ≡ replied (rest_of (ready (open_left (Stage.Reading room read)))) reply) }
    ensures fewer { IfOk result (λ stage. open_calls stage < open_calls (Stage.Reading room read)) }
{
    let id = read.id;
    let after = read.after(alloc, reply)?;
    Ok(stage_of(room, id, after))
}

/// Where the reading of the flattened index of this id leads.
fn stage_of(room: u64, id: u64, after: AfterFlat) -> Stage
    requires { IsOfFlat id after }
    ensures goes_on { open_left result ≡ followed_by (after_flat room after) (on_ok (λ flat. top_program room id flat)) }
    ensures fewer { open_calls result ≤ after_flat_calls after + 40 }
{
    match after {
        AfterFlat::GoesOn(read) => Stage::Reading { room, read },
        AfterFlat::Is(Err(why)) => Stage::Failed(why),
        AfterFlat::Is(Ok(flat)) => Stage::Top { room, id, flat },
    }
}

/// Goes on to the next folder of droppings, or ends with what was listed.
fn next_folder(
    alloc: Global,
    room: u64,
    id: u64,
    flat: Flattened,
    rest: Queue<u32>,
    scan: Scan,
) -> Result<Stage, NoMemory>
    ensures goes_on { IfOk result (λ stage. open_left stage ≡ scans room id flat rest scan) }
    ensures fewer { IfOk result (λ stage. open_calls stage ≤ length rest) }
{
    let mut rest = rest;
    match rest.pop() {
        Some(folder) => Ok(Stage::Scans {
            room,
            id,
            flat,
            folder,
            rest,
            scan,
        }),
        None => match listed(alloc, id, flat.get(), &scan) {
            Ok(Ok(droppings)) => {
                drop((rest, scan));
                Ok(Stage::Listed {
                    room,
                    droppings,
                    flat,
                })
            }
            Ok(Err(why)) => {
                drop((flat, rest, scan));
                Ok(Stage::Failed(why))
            }
            Err(why) => {
                drop((flat, rest, scan));
                Err(why)
            }
        },
    }
}

/// What comes after the listing of the top.
fn after_top(
    alloc: Global,
    room: u64,
    id: u64,
    flat: Flattened,
    reply: Reply,
) -> Result<Stage, NoMemory>
    ensures goes_on { IfOk result (λ stage. open_left stage ≡ replied (rest_of (ready (top_program room id flat))) reply) }
    ensures fewer { IfOk result (λ stage. open_calls stage < 40) }
{
    let why = trouble(&file_in(Name::empty(), Name::empty()), &reply);
    let Some(names) = names_in(reply) else {
        drop(flat);
        return Ok(Stage::Failed(why));
    };
    let shown = match folders(alloc, names.as_slice()) {
        Ok(shown) => shown,
        Err(why) => {
            drop((names, flat));
            return Err(why);
        }
    };
    drop(names);
    let stage = begin_scan(alloc, room, id, flat, shown)?;
    Ok(stage)
}

/// Begins with the first of the folders of droppings that the top shows.
fn begin_scan(
    alloc: Global,
    room: u64,
    id: u64,
    flat: Flattened,
    shown: Result<Sequence<u32>, Stuck>,
) -> Result<Stage, NoMemory>
    requires { IfOk shown (λ ks. length ks ≤ 32) }
    ensures goes_on { IfOk result (λ stage. open_left stage ≡ on_ok (λ ks. scans room id flat ks nothing_found) shown) }
    ensures fewer { IfOk result (λ stage. open_calls stage < 40) }
{
    match shown {
        Err(why) => {
            drop(flat);
            Ok(Stage::Failed(why))
        }
        Ok(shown) => next_folder(alloc, room, id, flat, Queue::of(shown), Scan::new(alloc)),
    }
}

/// What comes after the listing of a folder of droppings.
fn after_folder(
    alloc: Global,
    room: u64,
    id: u64,
    flat: Flattened,
    folder: u32,
    rest: Queue<u32>,
    scan: Scan,
    reply: Reply,
) -> Result<Stage, NoMemory>
    ensures goes_on { IfOk result (λ stage. open_left stage ≡ replied (rest_of (ready (scans room id flat (folder ∷ rest) scan))) reply) }
    ensures fewer { IfOk result (λ stage. open_calls stage < length rest + 1) }
{
    let folder = hostdir(folder);
    let why = trouble(&file_in(folder, Name::empty()), &reply);
    let Some(names) = names_in(reply) else {
        drop((flat, rest, scan));
        return Ok(Stage::Failed(why));
    };
    let mut scan = scan;
    match scan.scan(folder, names.as_slice()) {
        Err(why) => {
            drop((names, flat, rest, scan));
            Err(why)
        }
        Ok(Some(why)) => {
            drop((names, flat, rest, scan));
            Ok(Stage::Failed(why))
        }
        Ok(None) => {
            drop(names);
            next_folder(alloc, room, id, flat, rest, scan)
        }
    }
}

/// What comes after the reply to the call of this stage.
fn after_reply(alloc: Global, stage: Stage, reply: Reply) -> Result<Stage, NoMemory>
    requires awaits { Awaits (rest_of (ready (open_left stage))) }
    ensures goes_on { IfOk result (λ next. open_left next ≡ replied (rest_of (ready (open_left stage))) reply) }
    ensures fewer { IfOk result (λ next. open_calls next < open_calls stage) }
{
    match stage {
        Stage::Finding(name) => Ok(after_find(name, reply)),
        Stage::Flats { room } => Ok(after_flats(alloc, room, reply)),
        Stage::Reading { room, read } => after_flat_read(alloc, room, read, reply),
        Stage::Top { room, id, flat } => after_top(alloc, room, id, flat, reply),
        Stage::Scans {
            room,
            id,
            flat,
            folder,
            rest,
            scan,
        } => after_folder(alloc, room, id, flat, folder, rest, scan, reply),
        Stage::Listed { .. } | Stage::Failed(_) => unreachable!(),
    }
}

/// What this stage is of a listing.
fn ended_or_not(alloc: Global, stage: Stage) -> AfterOpen
    ensures goes_on { after_open result ≡ open_left stage }
    ensures fewer { after_open_calls result ≡ open_calls stage }
    ensures order { IsAfterOpen result }
{
    match stage {
        Stage::Listed {
            room,
            droppings,
            flat,
        } => AfterOpen::Is(Ok(Listing {
            room,
            droppings: droppings.into_list(),
            flat: flat.into_flat(),
        })),
        Stage::Failed(why) => AfterOpen::Is(Err(why)),
        stage => AfterOpen::GoesOn(OpenRead { alloc, stage }),
    }
}

impl Flow for OpenRead {
    type Out = Result<Listing, Stuck>;

    ghost standing = { open_standing };

    ghost left = { open_calls_left };

    fn next(&mut self) -> Result<Option<Call>, NoMemory> {
        Ok(self.call())
    }

    fn take(&mut self, reply: Reply) -> Result<(), NoMemory> {
        if let Reply::NoMemory = reply {
            return Err(NoMemory);
        }
        let stage = mem::replace(&mut self.stage, Stage::Failed(Stuck::Fault));
        let stage = after_reply(self.alloc, stage, reply)?;
        drop(mem::replace(&mut self.stage, stage));
        Ok(())
    }

    fn out(self) -> Result<Listing, Stuck>
        requires { IsOver (rest_of (open_standing self)) }
        ensures is { rest_of (open_standing self) ≡ over result }
        // The droppings stand by ascending writer.
        ensures ascends { IfOk result (λ listing. AreByWriter listing.droppings) }
        // So do the covers of the flattened index.
        ensures covers { IfOk result (λ listing. AreCoversByWriter listing.flat.covers) }
    {
        match self.stage {
            Stage::Listed {
                room,
                droppings,
                flat,
            } => Ok(Listing {
                room,
                droppings: droppings.into_list(),
                flat: flat.into_flat(),
            }),
            Stage::Failed(why) => Err(why),
            _ => unreachable!(),
        }
    }
}
