//! The stages of a migration.
ghost use Rattle.std.specs.Prelude.{◌≡◌, ◌≤◌, ◌<◌, ◌+◌, ◌*◌, ◌^◌, length, true, Result, Some, IfOk, IfSome};
ghost use Rattle.mount_model.specs.Composed.{then_on, is_awaiting};
ghost use Rattle.mount_model.specs.Standing.{ready, next_of, rest_of, replied, Awaits};
ghost use Rattle.index_reader.specs.Listing.{AreByWriter};
ghost use Rattle.index_reader.specs.OpenStages.{after_open, after_open_calls, open_calls_left, open_rest, open_standing, IsAfterOpen};
ghost use Rattle.index_reader.specs.declared.listing.Listing.{Listing as Listed};
ghost use Rattle.mount_model.specs.declared.stuck.Stuck.{Stuck as Trouble};
ghost use Rattle.mount_model.specs.FlowReplies.{Tries, on_ok};
ghost use Rattle.mount_model.specs.Step.{OwedBy};
ghost use Rattle.mount_model.specs.Program.{followed_by};
ghost use Rattle.migrate_core.specs.declared.migrated.Migrated.{Migrated as Done};
ghost use Rattle.migrate_core.specs.Counting.{noted as noted_of, nothing as nothing_of};
ghost use Rattle.migrate_core.specs.Migrating.{migrate_program, migrate_at_program, migrates, migrates_listed, scans_then};
ghost use Rattle.migrate_core.specs.Stages.{calls_left, migrating, shown_program, underway, writer_calls, IsUnderway};
ghost use Rattle.migrate_core.specs.Steps.{after_calls, after_standing, step_calls, step_standing};

use crate::chosen::{chosen, listed};
use crate::migrated::{Fate, Migrated, Tally, noted};
use crate::shown::Shown;
use crate::stage::{Stage, Underway};
use crate::steps::Step;
use crate::writers::After;
use container_layout::metadata;
use index_reader::{AfterOpen, Listing, OpenRead};
use mount_model::{Call, Flow, Look, Metadata, MetadataList, Reply, Stuck, failure, room_in};
use plfs_types::{NoMemory, Queue};
use std::alloc::Global;

/// Begins with the first of the writers that are left, or ends where there is none.
fn next_stage(room: u64, rest: Queue<Metadata>, tally: Tally) -> Stage
    requires { tally.sofar.writers + tally.sofar.left + length rest < 2 ^ 64 }
    ensures goes_on { migrating result ≡ ready (migrates room rest tally.sofar) }
    ensures fewer { calls_left result ≤ length rest * writer_calls }
    ensures underway { IsUnderway result }
{
    let mut rest = rest;
    let Some(meta) = rest.pop() else {
        return Stage::Ended(Ok(tally.sofar));
    };
    Stage::Underway(Underway {
        room,
        rest,
        tally,
        meta,
        step: Step::Measure,
    })
}

/// Goes on after what became of a writer.
fn ended(room: u64, rest: Queue<Metadata>, tally: Tally, became: Result<Fate, Stuck>) -> Stage
    requires { tally.sofar.writers + tally.sofar.left + length rest + 1 < 2 ^ 64 }
    ensures goes_on { migrating result ≡ ready (on_ok (λ fate. migrates room rest (noted_of fate tally.sofar)) became) }
    ensures fewer { calls_left result ≤ length rest * writer_calls }
    ensures underway { IsUnderway result }
{
    match became {
        Err(why) => Stage::Ended(Err(why)),
        Ok(fate) => next_stage(room, rest, noted(tally, fate)),
    }
}

/// Goes on after a reply to a call for this writer.
fn goes_on(room: u64, rest: Queue<Metadata>, tally: Tally, meta: Metadata, after: After) -> Stage
    requires { tally.sofar.writers + tally.sofar.left + length rest + 1 < 2 ^ 64 }
    ensures goes_on { migrating result ≡ then_on (after_standing room meta after) (on_ok (λ fate. migrates room rest (noted_of fate tally.sofar))) }
    ensures fewer { calls_left result ≤ after_calls after + length rest * writer_calls }
    ensures underway { IsUnderway result }
{
    match after {
        After::GoesOn(step) => Stage::Underway(Underway {
            room,
            rest,
            tally,
            meta,
            step,
        }),
        After::Is(became) => ended(room, rest, tally, became),
    }
}

/// What comes after a reply to a call for the writer that is underway.
fn after_step(alloc: Global, current: Underway, reply: Reply) -> Result<Stage, NoMemory>
    ensures goes_on { IfOk result (λ stage. migrating stage ≡ ready (replied (rest_of (underway current)) reply)) }
    ensures fewer { IfOk result (λ stage. calls_left stage < calls_left (Stage.Underway current)) }
    ensures underway { IfOk result IsUnderway }
{
    let Underway {
        room,
        rest,
        tally,
        meta,
        step,
    } = current;
    let after = step.after(alloc, room, meta, reply)?;
    Ok(goes_on(room, rest, tally, meta, after))
}

/// The call for the writer that is underway, where there is one, and the stage once it was given.
fn give_step(current: Underway) -> (Stage, Option<Call>)
    ensures call { result.1 ≡ next_of (underway current) }
    ensures owed { IfSome result.1 OwedBy }
    ensures rest { rest_of (migrating result.0) ≡ rest_of (underway current) }
    ensures again { IfSome (next_of (migrating result.0)) (λ call. next_of (underway current) ≡ Some call) }
    ensures left { calls_left result.0 ≡ calls_left (Stage.Underway current) }
    ensures underway { IsUnderway result.0 }
{
    let Underway {
        room,
        rest,
        tally,
        meta,
        step,
    } = current;
    let (step, call) = step.give(room, meta);
    let next = Underway {
        room,
        rest,
        tally,
        meta,
        step,
    };
    (Stage::Underway(next), call)
}

fn nothing() -> Tally
    ensures { result.sofar ≡ nothing_of }
{
    Tally {
        sofar: Migrated {
            writers: 0,
            entries: 0,
            runs: 0,
            left: 0,
        },
    }
}

fn counted(metas: MetadataList) -> Queue<Metadata>
    ensures all { result ≡ metas }
    ensures few { length metas < 2 ^ 64 }
{
    let count = metas.as_slice().len();
    let _ = count;
    Queue::of(metas)
}

/// Begins with the writers that the listings show.
fn after_listing(
    alloc: Global,
    room: u64,
    metas: MetadataList,
    listing: Result<Listing, Stuck>,
) -> Result<Stage, NoMemory>
    requires { IfOk listing (λ l. AreByWriter l.droppings) }
    ensures goes_on { IfOk result (λ stage. migrating stage ≡ ready (on_ok (migrates_listed room metas) listing)) }
    ensures fewer { IfOk result (λ stage. calls_left stage ≤ 2 ^ 64 * writer_calls) }
    ensures underway { IfOk result IsUnderway }
{
    let listing = match listing {
        Ok(listing) => listing,
        Err(why) => {
            drop(metas);
            return Ok(Stage::Ended(Err(why)));
        }
    };
    let chosen = chosen(alloc, listing.droppings.as_slice(), metas);
    drop(listing);
    let rest = counted(chosen?);
    Ok(next_stage(room, rest, nothing()))
}

/// What comes after the listing of the metadata: the folders of droppings are listed.
fn scans_on(
    alloc: Global,
    room: u64,
    scan: Shown,
    listed: Result<MetadataList, Stuck>,
) -> Result<Stage, NoMemory>
    ensures goes_on { IfOk result (λ stage. migrating stage ≡ ready (scans_then room (after_open scan) listed)) }
    ensures fewer { IfOk result (λ stage. calls_left stage < after_open_calls scan + (2 ^ 64 * writer_calls + 1)) }
    ensures underway { IfOk result IsUnderway }
{
    let metas = match listed {
        Ok(metas) => metas,
        Err(why) => {
            drop(scan);
            return Ok(Stage::Ended(Err(why)));
        }
    };
    match scan.get() {
        AfterOpen::GoesOn(scan) => Ok(Stage::Scanning { room, scan, metas }),
        AfterOpen::Is(listing) => after_listing(alloc, room, metas, listing),
    }
}

/// Where it stands once the top was listed.
fn shown(room: u64, scan: AfterOpen) -> Stage
    requires { IsAfterOpen scan }
    ensures goes_on { migrating result ≡ ready (shown_program room scan) }
    ensures fewer { calls_left result ≤ after_open_calls scan + (2 ^ 64 * writer_calls + 1) }
    ensures underway { IsUnderway result }
{
    match scan {
        AfterOpen::Is(Err(why)) => Stage::Ended(Err(why)),
        AfterOpen::Is(Ok(listing)) => Stage::Metadata {
            room,
            scan: Shown::of(AfterOpen::Is(Ok(listing))),
        },
        AfterOpen::GoesOn(scan) => Stage::Metadata {
            room,
            scan: Shown::of(AfterOpen::GoesOn(scan)),
        },
    }
}

/// What comes after the listing of the top.
fn after_top(alloc: Global, room: u64, reply: Reply) -> Result<Stage, NoMemory>
    ensures goes_on { IfOk result (λ stage. migrating stage ≡ ready (replied (rest_of (ready (migrate_at_program room))) reply)) }
    ensures fewer { IfOk result (λ stage. calls_left stage < 2 ^ 64 * writer_calls + 42) }
    ensures underway { IfOk result IsUnderway }
{
    let scan = OpenRead::top(alloc, room);
    let after = scan.after(reply)?;
    Ok(shown(room, after))
}

/// What comes after the reply to a call of the listing.
fn after_scan(
    alloc: Global,
    room: u64,
    scan: OpenRead,
    metas: MetadataList,
    reply: Reply,
) -> Result<Stage, NoMemory>
    requires { is_awaiting (rest_of (open_standing scan)) ≡ true }
    ensures goes_on { IfOk result (λ stage. migrating stage ≡ ready (followed_by (replied (rest_of (open_standing scan)) reply) (on_ok (migrates_listed room metas)))) }
    ensures fewer { IfOk result (λ stage. calls_left stage < open_calls_left scan + 2 ^ 64 * writer_calls) }
    ensures underway { IfOk result IsUnderway }
{
    match scan.after(reply)? {
        AfterOpen::GoesOn(scan) => Ok(Stage::Scanning { room, scan, metas }),
        AfterOpen::Is(listing) => after_listing(alloc, room, metas, listing),
    }
}

/// The next call of the listing, and where it stands once that was given.
fn give_look(scan: OpenRead) -> Result<(OpenRead, Option<Call>), NoMemory>
    requires { is_awaiting (rest_of (open_standing scan)) ≡ true }
    ensures call { IfOk result (λ given. (k : Result Listed Trouble → Tries Done) → given.1 ≡ next_of (ready (followed_by (open_rest scan) k))) }
    ensures owed { IfOk result (λ given. IfSome given.1 OwedBy) }
    ensures rest { IfOk result (λ given. rest_of (open_standing given.0) ≡ rest_of (open_standing scan)) }
    ensures again { IfOk result (λ given. IfSome (next_of (open_standing given.0)) (λ call. next_of (open_standing scan) ≡ Some call)) }
    ensures left { IfOk result (λ given. open_calls_left given.0 ≡ open_calls_left scan) }
{
    let mut scan = scan;
    let asked = match scan.next() {
        Ok(asked) => asked,
        Err(why) => {
            drop(scan);
            return Err(why);
        }
    };
    Ok((scan, asked))
}

/// The next call of the listing, and the stage once it was given.
fn give_scan(
    room: u64,
    scan: OpenRead,
    metas: MetadataList,
) -> Result<(Stage, Option<Call>), NoMemory>
    requires { is_awaiting (rest_of (open_standing scan)) ≡ true }
    ensures call { IfOk result (λ given. given.1 ≡ next_of (migrating (Stage.Scanning room scan metas))) }
    ensures owed { IfOk result (λ given. IfSome given.1 OwedBy) }
    ensures rest { IfOk result (λ given. rest_of (migrating given.0) ≡ rest_of (migrating (Stage.Scanning room scan metas))) }
    ensures again { IfOk result (λ given. IfSome (next_of (migrating given.0)) (λ call. next_of (migrating (Stage.Scanning room scan metas)) ≡ Some call)) }
    ensures left { IfOk result (λ given. calls_left given.0 ≡ calls_left (Stage.Scanning room scan metas)) }
    ensures underway { IfOk result (λ given. IsUnderway given.0) }
{
    let (scan, asked) = give_look(scan)?;
    Ok((Stage::Scanning { room, scan, metas }, asked))
}

impl Stage {
    /// The call that is to be made, where there is one, and the stage once it was given.
    pub(crate) fn give(self) -> Result<(Stage, Option<Call>), NoMemory>
        requires { IsUnderway self }
        ensures call { IfOk result (λ given. given.1 ≡ next_of (migrating self)) }
        ensures owed { IfOk result (λ given. IfSome given.1 OwedBy) }
        ensures rest { IfOk result (λ given. rest_of (migrating given.0) ≡ rest_of (migrating self)) }
        ensures again { IfOk result (λ given. IfSome (next_of (migrating given.0)) (λ call. next_of (migrating self) ≡ Some call)) }
        ensures left { IfOk result (λ given. calls_left given.0 ≡ calls_left self) }
        ensures underway { IfOk result (λ given. IsUnderway given.0) }
    {
        match self {
            Stage::Finding(name) => Ok((Stage::Finding(name), Some(Call::Find { name }))),
            Stage::Top(room) => Ok((
                Stage::Top(room),
                Some(Call::Look {
                    room,
                    look: Look::Top,
                }),
            )),
            Stage::Metadata { room, scan } => Ok((
                Stage::Metadata { room, scan },
                Some(Call::Look {
                    room,
                    look: Look::List { folder: metadata() },
                }),
            )),
            Stage::Scanning { room, scan, metas } => give_scan(room, scan, metas),
            Stage::Underway(current) => Ok(give_step(current)),
            Stage::Ended(outcome) => Ok((Stage::Ended(outcome), None)),
        }
    }

    /// The stage after the reply to that call.
    pub(crate) fn after(self, alloc: Global, reply: Reply) -> Result<Stage, NoMemory>
        requires underway { IsUnderway self }
        requires awaits { Awaits (rest_of (migrating self)) }
        ensures goes_on { IfOk result (λ stage. migrating stage ≡ ready (replied (rest_of (migrating self)) reply)) }
        ensures fewer { IfOk result (λ stage. calls_left stage < calls_left self) }
        ensures underway { IfOk result IsUnderway }
    {
        match self {
            Stage::Finding(_) => {
                let found = room_in(&reply);
                let why = failure(&reply);
                drop(reply);
                Ok(match found {
                    Some(room) => Stage::Top(room),
                    None => Stage::Ended(Err(why)),
                })
            }
            Stage::Top(room) => after_top(alloc, room, reply),
            Stage::Metadata { room, scan } => match listed(alloc, reply) {
                Ok(found) => scans_on(alloc, room, scan, found),
                Err(why) => {
                    drop(scan);
                    Err(why)
                }
            },
            Stage::Scanning { room, scan, metas } => after_scan(alloc, room, scan, metas, reply),
            Stage::Underway(current) => after_step(alloc, current, reply),
            Stage::Ended(outcome) => {
                drop(reply);
                Ok(Stage::Ended(outcome))
            }
        }
    }
}
