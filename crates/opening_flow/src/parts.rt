//! The parts of an opening, one after the other.
ghost use Rattle.std.specs.Prelude.{◌≡◌, ◌<◌, ◌≤◌, ◌+◌, [], true, Option, Some, IfOk, IfSome};
ghost use Rattle.mount_model.specs.declared.call.Call.{Call as Asked};
ghost use Rattle.mount_model.specs.Standing.{ready, next_of, rest_of, replied, Awaits, IsFresh, IsOver};
ghost use Rattle.mount_model.specs.Composed.{calling, is_awaiting, then_on};
ghost use Rattle.mount_model.specs.FlowReplies.{on_ok};
ghost use Rattle.mount_model.specs.Step.{OwedBy};
ghost use Rattle.index_reader.specs.Covered.{AreByWriter as AreCoversByWriter};
ghost use Rattle.index_reader.specs.Listing.{AreByWriter};
ghost use Rattle.index_reader.specs.OpenStages.{open_calls_left, open_standing};
ghost use Rattle.gather_flow.specs.Gathering.{gather_left, gather_rest, gather_standing, shares_bound, shares_from};
ghost use Rattle.opening_flow.specs.Opening.{opens, reads_as};
ghost use Rattle.opening_flow.specs.Parts.{parted, parts_left, IsPartUnderway};

use crate::giving::{give_call, give_look};
use gather_flow::{AllRead, Called, Gathering, Listed};
use index_reader::{Listing, OpenRead, OpenReader};
use mount_model::{Call, Flow, Reply, Stuck};
use plfs_types::NoMemory;
use std::alloc::Global;

/// How far an opening is.
#[derive(Drop)]
pub(crate) enum Part {
    Listing {
        scan: OpenRead,
        workers: u32,
    },
    /// With the next call, until it is given.
    Gathering {
        call: Option<Call>,
        gathering: Gathering,
    },
    Ended(Result<OpenReader, Stuck>),
}

/// What comes after the gathering.
fn after_gathering(alloc: Global, made: Result<AllRead, Stuck>) -> Result<Part, NoMemory>
    ensures goes_on { IfOk result (λ part. parted part ≡ ready (on_ok reads_as made)) }
    ensures fewer { IfOk result (λ part. parts_left part ≡ 0) }
    ensures underway { IfOk result IsPartUnderway }
{
    match made {
        Ok(all) => {
            let reader = all.opened(alloc)?;
            Ok(Part::Ended(Ok(reader)))
        }
        Err(why) => Ok(Part::Ended(Err(why))),
    }
}

/// Goes on with the gathering, or with what comes after it.
fn gather_on(alloc: Global, gathering: Gathering) -> Result<Part, NoMemory>
    requires { IsFresh (gather_standing gathering) }
    ensures goes_on { IfOk result (λ part. parted part ≡ then_on (gather_standing gathering) (on_ok reads_as)) }
    ensures fewer { IfOk result (λ part. parts_left part ≤ gather_left gathering) }
    ensures underway { IfOk result IsPartUnderway }
{
    let called = gathering.next(alloc)?;
    match called {
        Called::Asks(call, asking) => Ok(Part::Gathering {
            call: Some(call),
            gathering: asking,
        }),
        Called::Over(made) => after_gathering(alloc, made),
    }
}

/// Begins to gather what was listed.
fn gather(alloc: Global, workers: u32, listing: Listing) -> Result<Part, NoMemory>
    requires droppings { AreByWriter listing.droppings }
    requires covers { AreCoversByWriter listing.flat.covers }
    ensures goes_on { IfOk result (λ part. parted part ≡ ready (opens workers listing)) }
    ensures fewer { IfOk result (λ part. parts_left part ≤ shares_bound workers) }
    ensures underway { IfOk result IsPartUnderway }
{
    let gathering = Gathering::new(alloc, Listed::of(listing), workers)?;
    gather_on(alloc, gathering)
}

/// What comes after the listing.
fn after_listing(
    alloc: Global,
    workers: u32,
    listing: Result<Listing, Stuck>,
) -> Result<Part, NoMemory>
    requires droppings { IfOk listing (λ l. AreByWriter l.droppings) }
    requires covers { IfOk listing (λ l. AreCoversByWriter l.flat.covers) }
    ensures goes_on { IfOk result (λ part. parted part ≡ ready (on_ok (opens workers) listing)) }
    ensures fewer { IfOk result (λ part. parts_left part ≤ shares_bound workers) }
    ensures underway { IfOk result IsPartUnderway }
{
    match listing {
        Ok(listing) => gather(alloc, workers, listing),
        Err(why) => Ok(Part::Ended(Err(why))),
    }
}

/// Goes on with what comes after a listing that has no further call.
fn list_over(alloc: Global, workers: u32, scan: OpenRead) -> Result<Part, NoMemory>
    requires { IsOver (rest_of (open_standing scan)) }
    ensures goes_on { IfOk result (λ part. parted part ≡ then_on (open_standing scan) (on_ok (opens workers))) }
    ensures fewer { IfOk result (λ part. parts_left part ≤ shares_bound workers) }
    ensures underway { IfOk result IsPartUnderway }
{
    after_listing(alloc, workers, scan.out())
}

/// Goes on with the listing, or with what comes after it.
fn list_on(alloc: Global, workers: u32, scan: OpenRead) -> Result<Part, NoMemory>
    ensures goes_on { IfOk result (λ part. parted part ≡ then_on (open_standing scan) (on_ok (opens workers))) }
    ensures fewer { IfOk result (λ part. parts_left part ≤ open_calls_left scan + shares_bound workers) }
    ensures underway { IfOk result IsPartUnderway }
{
    match scan.call() {
        Some(_) => Ok(Part::Listing { scan, workers }),
        None => list_over(alloc, workers, scan),
    }
}

/// What comes after a reply to a call of the listing.
fn after_scan(alloc: Global, workers: u32, scan: OpenRead, reply: Reply) -> Result<Part, NoMemory>
    requires { is_awaiting (rest_of (open_standing scan)) ≡ true }
    ensures goes_on { IfOk result (λ part. parted part ≡ ready (replied (rest_of (parted (Part.Listing scan workers))) reply)) }
    ensures fewer { IfOk result (λ part. parts_left part < parts_left (Part.Listing scan workers)) }
    ensures underway { IfOk result IsPartUnderway }
{
    let mut scan = scan;
    match scan.take(reply) {
        Ok(()) => list_on(alloc, workers, scan),
        Err(why) => {
            drop(scan);
            Err(why)
        }
    }
}

/// What comes after a reply to a call of the gathering.
fn after_call(alloc: Global, gathering: Gathering, reply: Reply) -> Result<Part, NoMemory>
    requires { is_awaiting (gather_rest gathering) ≡ true }
    ensures goes_on { IfOk result (λ part. (call : Option Asked) → parted part ≡ ready (replied (rest_of (calling call (gather_rest gathering) (on_ok reads_as))) reply)) }
    ensures fewer { IfOk result (λ part. parts_left part < gather_left gathering) }
    ensures underway { IfOk result IsPartUnderway }
{
    let gathering = gathering.take(reply)?;
    gather_on(alloc, gathering)
}

impl Part {
    /// The call that is to be made, where there is one, and the part once it was given.
    pub(crate) fn give(self) -> Result<(Part, Option<Call>), NoMemory>
        requires { IsPartUnderway self }
        ensures call { IfOk result (λ given. given.1 ≡ next_of (parted self)) }
        ensures owed { IfOk result (λ given. IfSome given.1 OwedBy) }
        ensures rest { IfOk result (λ given. rest_of (parted given.0) ≡ rest_of (parted self)) }
        ensures again { IfOk result (λ given. IfSome (next_of (parted given.0)) (λ call. next_of (parted self) ≡ Some call)) }
        ensures left { IfOk result (λ given. parts_left given.0 ≡ parts_left self) }
        ensures underway { IfOk result (λ given. IsPartUnderway given.0) }
    {
        match self {
            Part::Listing { scan, workers } => give_look(scan, workers),
            Part::Gathering { call, gathering } => Ok(give_call(call, gathering)),
            Part::Ended(result) => Ok((Part::Ended(result), None)),
        }
    }

    /// The part after the reply to that call.
    pub(crate) fn after(self, alloc: Global, reply: Reply) -> Result<Part, NoMemory>
        requires underway { IsPartUnderway self }
        requires awaits { Awaits (rest_of (parted self)) }
        ensures goes_on { IfOk result (λ part. parted part ≡ ready (replied (rest_of (parted self)) reply)) }
        ensures fewer { IfOk result (λ part. parts_left part < parts_left self) }
        ensures underway { IfOk result IsPartUnderway }
    {
        match self {
            Part::Listing { scan, workers } => after_scan(alloc, workers, scan, reply),
            Part::Gathering { call, gathering } => {
                drop(call);
                after_call(alloc, gathering, reply)
            }
            Part::Ended(result) => {
                drop(reply);
                Ok(Part::Ended(result))
            }
        }
    }
}
