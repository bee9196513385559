//! The machine of a recovery.
ghost use Rattle.std.specs.Prelude.{◌≡◌, ◌≤◌, ◌<◌, ◌+◌, ◌*◌, ◌^◌, ℕ, length, IfOk, OnOk, IfSome};
ghost use Rattle.mount_model.specs.Step.{OwedBy};
ghost use Rattle.mount_model.specs.Program.{followed_by};
ghost use Rattle.mount_model.specs.Standing.{ready, next_of, rest_of, replied, Awaits};
ghost use Rattle.mount_model.specs.FlowReplies.{on_ok};
ghost use Rattle.torn_tail.specs.Recovering.{recover_program, nothing as nothing_of, noted, recovers, recovers_listed, hold_mended as hold_of};
ghost use Rattle.torn_tail.specs.Steps.{after_program, after_calls};
ghost use Rattle.torn_tail.specs.Stages.{recovering, calls_left, recover_standing, recover_left, writer_calls};

use crate::fates::Fate;
use crate::listing::listed;
use crate::steps::Step;
use crate::writers::After;
use container_layout::openhosts;
use mount_model::{
    Call, Flow, Look, OpenEntry, OpenEntryList, Reply, Stuck, entries_by_writer, failure,
    is_no_folder, room_in,
};
use plfs_types::{CountList, IdList, LogicalName, NoMemory, Queue, WriterCount};
use std::alloc::Global;
use std::mem;

/// What a recovery did.
#[derive(Drop)]
pub struct Recovered {
    /// The writers that it took out, by ascending id, each with how many of its entries have landed.
    pub buried: CountList,
    /// The writers that are live and stay, by ascending id.
    pub alive: IdList,
    /// Whether the folder of who has the container open was missing, and was made again.
    pub hold: bool,
}

/// Recovers a file: where the folder of who has it open is missing, it is made again; else each writer that has it open
/// and isn't live is mended and taken out, by ascending id.
///
/// The index dropping of such a writer is cut to its landed entries, and where there are some, its log and index dropping
/// are synced and its metadata dropping is made. A missing index dropping has no entries, and a missing log no bytes.
/// The machine ends with the first trouble. A name that is no writer's entry is damage at place 0, and an entry that
/// breaks a rule at its first byte. Of the entries it keeps what counts them alone.
#[derive(Drop)]
pub struct RecoverFlow {
    alloc: Global,
    stage: Stage,
}

#[derive(Drop)]
pub(crate) enum Stage {
    Finding(LogicalName),
    ListingOpen(u64),
    MendingHold(u64),
    Underway(Underway),
    Ended(Result<Recovered, Stuck>),
}

/// A writer is recovered, and others after it.
#[derive(Drop)]
pub(crate) struct Underway {
    room: u64,
    rest: Queue<OpenEntry>,
    sofar: Recovered,
    entry: OpenEntry,
    step: Step,
}

fn nothing(alloc: Global) -> Recovered
    ensures { result ≡ nothing_of }
{
    Recovered {
        buried: CountList::new(alloc),
        alive: IdList::new(alloc),
        hold: false,
    }
}

/// With what became of one writer more.
fn note(sofar: &mut Recovered, entry: OpenEntry, fate: Fate) -> Result<(), NoMemory>
    ensures { OnOk result (sofar.new ≡ noted entry fate sofar.old) }
{
    match fate {
        Fate::Lives => sofar.alive.push(entry.writer),
        Fate::Buried(count) => sofar.buried.push(WriterCount {
            writer: entry.writer,
            count,
        }),
    }
}

/// What comes of the making of the folder.
fn hold_mended(alloc: Global, reply: &Reply) -> Result<Recovered, Stuck>
    ensures { result ≡ hold_of reply.now }
{
    match reply {
        Reply::Mended { made } => Ok(Recovered {
            buried: CountList::new(alloc),
            alive: IdList::new(alloc),
            hold: *made,
        }),
        _ => Err(failure(reply)),
    }
}

/// Begins with the first of the writers that are left, or ends where there is none.
fn next_stage(room: u64, rest: Queue<OpenEntry>, sofar: Recovered) -> Stage
    ensures goes_on { recovering result ≡ recovers room rest sofar }
    ensures fewer { calls_left result ≤ length rest * writer_calls }
{
    let mut rest = rest;
    let Some(entry) = rest.pop() else {
        return Stage::Ended(Ok(sofar));
    };
    Stage::Underway(Underway {
        room,
        rest,
        sofar,
        entry,
        step: Step::Inspect,
    })
}

/// Goes on after a reply.
fn goes_on(underway: Underway, after: After) -> Result<Stage, NoMemory>
    ensures goes_on { IfOk result (λ stage. recovering stage ≡ followed_by (after_program underway.room underway.entry after)
        (on_ok (λ fate. recovers underway.room underway.rest (noted underway.entry fate underway.sofar)))) }
    ensures fewer { IfOk result (λ stage. calls_left stage ≤ after_calls after + length underway.rest * writer_calls) }
{
    let Underway {
        room,
        rest,
        mut sofar,
        entry,
        ..
    } = underway;
    match after {
        After::GoesOn(step) => Ok(Stage::Underway(Underway {
            room,
            rest,
            sofar,
            entry,
            step,
        })),
        After::Is(Err(why)) => {
            drop((rest, sofar));
            Ok(Stage::Ended(Err(why)))
        }
        After::Is(Ok(fate)) => match note(&mut sofar, entry, fate) {
            Ok(()) => Ok(next_stage(room, rest, sofar)),
            Err(why) => {
                drop((rest, sofar));
                Err(why)
            }
        },
    }
}

/// Begins with the writers that were listed, where they were.
fn begun(alloc: Global, room: u64, found: Result<OpenEntryList, Stuck>) -> Result<Stage, NoMemory>
    ensures goes_on { IfOk result (λ stage. recovering stage ≡ recovers_listed room found) }
    ensures fewer { IfOk result (λ stage. calls_left stage < 2 ^ 64 * writer_calls + 1) }
{
    match found {
        Err(why) => Ok(Stage::Ended(Err(why))),
        Ok(entries) => {
            let entries = entries_by_writer(entries)?;
            let rest = counted(entries);
            Ok(next_stage(room, rest, nothing(alloc)))
        }
    }
}

fn counted(entries: OpenEntryList) -> Queue<OpenEntry>
    ensures all { result ≡ entries }
    ensures few { length entries < 2 ^ 64 }
{
    let count = entries.as_slice().len();
    let _ = count;
    Queue::of(entries)
}

impl RecoverFlow {
    /// Recovers the file of this name.
    pub fn new(alloc: Global, name: LogicalName) -> Self
        ensures { recover_standing result ≡ ready (recover_program name) }
    {
        RecoverFlow {
            alloc,
            stage: Stage::Finding(name),
        }
    }
}

impl Stage {
    /// The call that is to be made, where there is one.
    fn call(&self) -> Option<Call>
        ensures call { result ≡ next_of (ready (recovering self.now)) }
        ensures owed { IfSome result OwedBy }
    {
        match self {
            Stage::Finding(name) => Some(Call::Find { name: *name }),
            Stage::ListingOpen(room) => Some(Call::Look {
                room: *room,
                look: Look::List {
                    folder: openhosts(),
                },
            }),
            Stage::MendingHold(room) => Some(Call::MendHold { room: *room }),
            Stage::Underway(underway) => Some(underway.step.call(underway.room, underway.entry)),
            Stage::Ended(_) => None,
        }
    }

    /// The stage after the reply to that call.
    fn after(self, alloc: Global, reply: Reply) -> Result<Stage, NoMemory>
        requires { Awaits (rest_of (ready (recovering self))) }
        ensures goes_on { IfOk result (λ stage. recovering stage ≡ replied (rest_of (ready (recovering self))) reply) }
        ensures fewer { IfOk result (λ stage. calls_left stage < calls_left self) }
    {
        match self {
            Stage::Finding(_) => {
                let found = room_in(&reply);
                let why = failure(&reply);
                drop(reply);
                Ok(match found {
                    Some(room) => Stage::ListingOpen(room),
                    None => Stage::Ended(Err(why)),
                })
            }
            Stage::ListingOpen(room) => {
                if is_no_folder(&reply) {
                    drop(reply);
                    return Ok(Stage::MendingHold(room));
                }
                let found = listed(alloc, reply)?;
                begun(alloc, room, found)
            }
            Stage::MendingHold(_) => {
                let mended = hold_mended(alloc, &reply);
                drop(reply);
                Ok(Stage::Ended(mended))
            }
            Stage::Underway(underway) => {
                let after = underway.step.after(underway.room, underway.entry, reply);
                let next = goes_on(underway, after)?;
                Ok(next)
            }
            Stage::Ended(outcome) => {
                drop(reply);
                Ok(Stage::Ended(outcome))
            }
        }
    }
}

impl Flow for RecoverFlow {
    type Out = Result<Recovered, Stuck>;

    ghost standing = { recover_standing };

    ghost left = { recover_left };

    fn next(&mut self) -> Result<Option<Call>, NoMemory> {
        Ok(self.stage.call())
    }

    fn take(&mut self, reply: Reply) -> Result<(), NoMemory> {
        if let Reply::NoMemory = reply {
            return Err(NoMemory);
        }
        let stage = mem::replace(&mut self.stage, Stage::Ended(Err(Stuck::Fault)));
        let stage = stage.after(self.alloc, reply)?;
        drop(mem::replace(&mut self.stage, stage));
        Ok(())
    }

    fn out(self) -> Result<Recovered, Stuck> {
        let RecoverFlow { stage, .. } = self;
        match stage {
            Stage::Ended(outcome) => outcome,
            _ => unreachable!(),
        }
    }
}
