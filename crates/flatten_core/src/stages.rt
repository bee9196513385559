//! The stages of the end of a flattening.
ghost use Rattle.std.specs.Prelude.{◌≡◌, ◌<◌, ◌≤◌, ◌+◌, ◌*◌, ℕ, true, length, Result, Some, IfOk, IfSome};
ghost use Rattle.mount_model.specs.Standing.{ready, next_of, rest_of, replied, Awaits};
ghost use Rattle.mount_model.specs.Composed.{is_awaiting};
ghost use Rattle.mount_model.specs.FlowReplies.{Tries, on_ok};
ghost use Rattle.index_reader.specs.Listing.{AreByWriter};
ghost use Rattle.index_reader.specs.OpenStages.{open_calls_left, open_rest, open_standing};
ghost use Rattle.index_reader.specs.declared.listing.Listing.{Listing as Listed};
ghost use Rattle.mount_model.specs.declared.stuck.Stuck.{Stuck as Trouble};
ghost use Rattle.mount_model.specs.declared.call.Call.TheVariants as calls;
ghost use Rattle.mount_model.specs.Step.{OwedBy};
ghost use Rattle.mount_model.specs.Program.{followed_by};
ghost use Rattle.flatten_core.specs.Installing.{done_or as done_or_of, if_done as if_done_of, syncs, syncs_listed};
ghost use Rattle.flatten_core.specs.Stages.{installing, installs_left, IsUnderway};

use crate::covered::covered;
use container_layout::{Item, print};
use index_reader::{AfterOpen, Dropping, Listing, OpenRead};
use mount_model::{Call, Flow, Reply, Stuck, damage, failure};
use plfs_types::{Bytes, CoverList, NoMemory, Queue};
use std::alloc::Global;

#[derive(Drop)]
pub(crate) enum Stage {
    Scanning {
        scan: OpenRead,
        covers: CoverList,
        bytes: Bytes,
    },
    SyncingLog {
        dropping: Dropping,
        rest: Queue<Dropping>,
        bytes: Bytes,
    },
    SyncingIndex {
        dropping: Dropping,
        rest: Queue<Dropping>,
        bytes: Bytes,
    },
    Putting(Bytes),
    /// The bytes were handed over.
    Put,
    SyncingFlat,
    Installing,
    Ended(Result<(), Stuck>),
}

/// Goes on with the droppings that are left.
fn next_dropping(rest: Queue<Dropping>, bytes: Bytes) -> Stage
    ensures goes_on { (room flat : ℕ) → installing room flat result ≡ ready (syncs room flat bytes rest) }
    ensures fewer { installs_left result ≤ 2 * length rest + 3 }
    ensures underway { IsUnderway result }
{
    let mut rest = rest;
    match rest.pop() {
        Some(dropping) => Stage::SyncingLog {
            dropping,
            rest,
            bytes,
        },
        None => Stage::Putting(bytes),
    }
}

/// What comes after the listings.
fn after_listing(
    alloc: Global,
    room: u64,
    flat: u64,
    covers: CoverList,
    bytes: Bytes,
    listing: Result<Listing, Stuck>,
) -> Result<Stage, NoMemory>
    requires { IfOk listing (λ l. AreByWriter l.droppings) }
    ensures goes_on { IfOk result (λ stage. installing room flat stage ≡ ready (on_ok (syncs_listed room flat covers bytes) listing)) }
    ensures fewer { IfOk result (λ stage. installs_left stage ≤ 2 * length covers + 3) }
    ensures underway { IfOk result IsUnderway }
{
    let listing = match listing {
        Ok(listing) => listing,
        Err(why) => {
            drop((covers, bytes));
            return Ok(Stage::Ended(Err(why)));
        }
    };
    let found = covered(alloc, listing.droppings.as_slice(), covers.as_slice());
    drop((listing, covers));
    match found {
        Ok(Ok(droppings)) => Ok(next_dropping(Queue::of(droppings), bytes)),
        Ok(Err(place)) => {
            drop(bytes);
            let why = damage(&print(&Item::Flat { id: flat }), place);
            Ok(Stage::Ended(Err(why)))
        }
        Err(why) => {
            drop(bytes);
            Err(why)
        }
    }
}

/// The next call of the listings, and where they stand once it was given.
fn give_look(scan: OpenRead) -> Result<(OpenRead, Option<Call>), NoMemory>
    requires { is_awaiting (rest_of (open_standing scan)) ≡ true }
    ensures call { IfOk result (λ given. (k : Result Listed Trouble → Tries (Unit {0})) → given.1 ≡ next_of (ready (followed_by (open_rest scan) k))) }
    ensures owed { IfOk result (λ given. IfSome given.1 OwedBy) }
    ensures rest { IfOk result (λ given. rest_of (open_standing given.0) ≡ rest_of (open_standing scan)) }
    ensures again { IfOk result (λ given. IfSome (next_of (open_standing given.0)) (λ call. next_of (open_standing scan) ≡ Some call)) }
    ensures left { IfOk result (λ given. open_calls_left given.0 ≡ open_calls_left scan) }
{
    let mut scan = scan;
    let asked = match scan.next() {
        Ok(asked) => asked,
        Err(why) => {
            drop(scan);
            return Err(why);
        }
    };
    Ok((scan, asked))
}

/// Where it stands after a reply to a call of the listings.
fn after_open(
    alloc: Global,
    room: u64,
    flat: u64,
    scan: OpenRead,
    covers: CoverList,
    bytes: Bytes,
    reply: Reply,
) -> Result<Stage, NoMemory>
    requires { is_awaiting (rest_of (open_standing scan)) ≡ true }
    ensures goes_on { IfOk result (λ stage. installing room flat stage ≡ ready (followed_by (replied (rest_of (open_standing scan)) reply) (on_ok (syncs_listed room flat covers bytes)))) }
    ensures fewer { IfOk result (λ stage. installs_left stage < open_calls_left scan + (2 * length covers + 4)) }
    ensures underway { IfOk result IsUnderway }
{
    match scan.after(reply)? {
        AfterOpen::GoesOn(scan) => Ok(Stage::Scanning {
            scan,
            covers,
            bytes,
        }),
        AfterOpen::Is(listing) => after_listing(alloc, room, flat, covers, bytes, listing),
    }
}

/// What comes after a reply to a call of the listings.
fn after_scan(
    alloc: Global,
    room: u64,
    flat: u64,
    scan: OpenRead,
    covers: CoverList,
    bytes: Bytes,
    reply: Reply,
) -> Result<Stage, NoMemory>
    requires { is_awaiting (rest_of (open_standing scan)) ≡ true }
    ensures goes_on { IfOk result (λ stage. installing room flat stage ≡ ready (replied (rest_of (installing room flat (Stage.Scanning scan covers bytes))) reply)) }
    ensures fewer { IfOk result (λ stage. installs_left stage < open_calls_left scan + (2 * length covers + 4)) }
    ensures underway { IfOk result IsUnderway }
{
    after_open(alloc, room, flat, scan, covers, bytes, reply)
}

/// The next call of the listings, and the stage once it was given.
fn give_scan(
    room: u64,
    flat: u64,
    scan: OpenRead,
    covers: CoverList,
    bytes: Bytes,
) -> Result<(Stage, Option<Call>), NoMemory>
    requires { is_awaiting (rest_of (open_standing scan)) ≡ true }
    ensures call { IfOk result (λ given. given.1 ≡ next_of (installing room flat (Stage.Scanning scan covers bytes))) }
    ensures owed { IfOk result (λ given. IfSome given.1 OwedBy) }
    ensures rest { IfOk result (λ given. rest_of (installing room flat given.0) ≡ rest_of (installing room flat (Stage.Scanning scan covers bytes))) }
    ensures again { IfOk result (λ given. IfSome (next_of (installing room flat given.0)) (λ call. next_of (installing room flat (Stage.Scanning scan covers bytes)) ≡ Some call)) }
    ensures left { IfOk result (λ given. installs_left given.0 ≡ installs_left (Stage.Scanning scan covers bytes)) }
    ensures underway { IfOk result (λ given. IsUnderway given.0) }
{
    let (scan, asked) = give_look(scan)?;
    Ok((
        Stage::Scanning {
            scan,
            covers,
            bytes,
        },
        asked,
    ))
}

/// It goes on with this stage after Done.
fn if_done(next: Stage, reply: &Reply) -> Stage
    requires { IsUnderway next }
    ensures goes_on { (room flat : ℕ) (p : Tries (Unit {0})) → installing room flat next ≡ ready p → installing room flat result ≡ ready (if_done_of p reply.now) }
    ensures fewer { installs_left result ≤ installs_left next }
    ensures underway { IsUnderway result }
{
    match reply {
        Reply::Done => next,
        _ => {
            drop(next);
            Stage::Ended(Err(failure(reply)))
        }
    }
}

/// The call that syncs a dropping.
fn sync(room: u64, dropping: Dropping, log: bool) -> Call
    ensures { result ≡ calls.SyncDropping room dropping.host dropping.writer log }
{
    Call::SyncDropping {
        room,
        host: dropping.host,
        writer: dropping.writer,
        log,
    }
}

fn done_or(reply: &Reply) -> Result<(), Stuck>
    ensures { result ≡ done_or_of reply.now }
{
    match reply {
        Reply::Done => Ok(()),
        _ => Err(failure(reply)),
    }
}

impl Stage {
    /// The call that is to be made, where there is one, and the stage once it was given.
    pub(crate) fn give(self, room: u64, flat: u64) -> Result<(Stage, Option<Call>), NoMemory>
        requires { IsUnderway self }
        ensures call { IfOk result (λ given. given.1 ≡ next_of (installing room flat self)) }
        ensures owed { IfOk result (λ given. IfSome given.1 OwedBy) }
        ensures rest { IfOk result (λ given. rest_of (installing room flat given.0) ≡ rest_of (installing room flat self)) }
        ensures again { IfOk result (λ given. IfSome (next_of (installing room flat given.0)) (λ call. next_of (installing room flat self) ≡ Some call)) }
        ensures left { IfOk result (λ given. installs_left given.0 ≡ installs_left self) }
        ensures underway { IfOk result (λ given. IsUnderway given.0) }
    {
        match self {
            Stage::Scanning {
                scan,
                covers,
                bytes,
            } => give_scan(room, flat, scan, covers, bytes),
            Stage::SyncingLog {
                dropping,
                rest,
                bytes,
            } => Ok((
                Stage::SyncingLog {
                    dropping,
                    rest,
                    bytes,
                },
                Some(sync(room, dropping, true)),
            )),
            Stage::SyncingIndex {
                dropping,
                rest,
                bytes,
            } => Ok((
                Stage::SyncingIndex {
                    dropping,
                    rest,
                    bytes,
                },
                Some(sync(room, dropping, false)),
            )),
            Stage::Putting(bytes) => Ok((Stage::Put, Some(Call::PutFlat { flat, bytes }))),
            Stage::Put => Ok((Stage::Put, None)),
            Stage::SyncingFlat => Ok((Stage::SyncingFlat, Some(Call::SyncFlat { flat }))),
            Stage::Installing => Ok((Stage::Installing, Some(Call::InstallFlat { flat }))),
            Stage::Ended(outcome) => Ok((Stage::Ended(outcome), None)),
        }
    }

    /// The stage after the reply to that call.
    pub(crate) fn after(
        self,
        alloc: Global,
        room: u64,
        flat: u64,
        reply: Reply,
    ) -> Result<Stage, NoMemory>
        requires underway { IsUnderway self }
        requires awaits { Awaits (rest_of (installing room flat self)) }
        ensures goes_on { IfOk result (λ stage. installing room flat stage ≡ ready (replied (rest_of (installing room flat self)) reply)) }
        ensures fewer { IfOk result (λ stage. installs_left stage < installs_left self) }
        ensures underway { IfOk result IsUnderway }
    {
        match self {
            Stage::Scanning {
                scan,
                covers,
                bytes,
            } => after_scan(alloc, room, flat, scan, covers, bytes, reply),
            Stage::SyncingLog {
                dropping,
                rest,
                bytes,
            } => {
                let next = if_done(
                    Stage::SyncingIndex {
                        dropping,
                        rest,
                        bytes,
                    },
                    &reply,
                );
                drop(reply);
                Ok(next)
            }
            Stage::SyncingIndex { rest, bytes, .. } => {
                let next = if_done(next_dropping(rest, bytes), &reply);
                drop(reply);
                Ok(next)
            }
            Stage::Putting(bytes) => {
                let next = if_done(Stage::SyncingFlat, &reply);
                drop((bytes, reply));
                Ok(next)
            }
            Stage::Put => {
                let next = if_done(Stage::SyncingFlat, &reply);
                drop(reply);
                Ok(next)
            }
            Stage::SyncingFlat => {
                let next = if_done(Stage::Installing, &reply);
                drop(reply);
                Ok(next)
            }
            Stage::Installing => {
                let outcome = done_or(&reply);
                drop(reply);
                Ok(Stage::Ended(outcome))
            }
            Stage::Ended(outcome) => {
                drop(reply);
                Ok(Stage::Ended(outcome))
            }
        }
    }
}
