//! The parts of a refresh, one after the other.
ghost use Rattle.std.specs.Prelude.{◌≡◌, ◌<◌, ◌≤◌, ◌+◌, [], true, Option, Some, Ok, Err, IfOk, IfSome};
ghost use Rattle.mount_model.specs.declared.call.Call.{Call as Asked};
ghost use Rattle.mount_model.specs.Standing.{ready, next_of, rest_of, replied, Awaits, IsFresh, IsOver};
ghost use Rattle.mount_model.specs.Composed.{calling, is_awaiting, then_on};
ghost use Rattle.mount_model.specs.Step.{OwedBy};
ghost use Rattle.index_reader.specs.Listing.{AreByWriter};
ghost use Rattle.index_reader.specs.OpenStages.{open_calls_left, open_standing};
ghost use Rattle.gather_flow.specs.Gathering.{gather_left, gather_rest, gather_standing, shares_from};
ghost use Rattle.refresh_index.specs.Refreshing.{behind as behind_of, if_gathered, if_listed, reads_on};
ghost use Rattle.refresh_index.specs.Parts.{gathering_bound, parted, parts_left, IsPartUnderway};

use crate::giving::{give_call, give_look};
use crate::held::Held;
use crate::hosts::moved;
use crate::joined::{behind, refreshed};
use crate::refreshing::RefreshOut;
use container_layout::{Item, print};
use gather_flow::{AllRead, Called, Gathering};
use index_reader::{Listing, OpenRead};
use mount_model::{Call, Flow, Reply, Stuck, damage};
use plfs_types::NoMemory;
use std::alloc::Global;

/// How far a refresh is.
#[derive(Drop)]
pub(crate) enum Part {
    Listing {
        scan: OpenRead,
        held: Held,
    },
    /// With the next call, until it is given.
    Gathering {
        call: Option<Call>,
        gathering: Gathering,
        held: Held,
    },
    Ended(RefreshOut),
}

/// It ends in this trouble: the parts are those that were held.
fn unchanged(held: Held, why: Stuck) -> Part
    ensures goes_on { parted result ≡ ready (if_listed held (Err why)) }
    ensures fewer { parts_left result ≡ 0 }
    ensures underway { IsPartUnderway result }
{
    Part::Ended(RefreshOut {
        parts: held.take(),
        result: Err(why),
    })
}

/// What comes after the gathering.
fn after_gathering(
    alloc: Global,
    held: Held,
    made: Result<AllRead, Stuck>,
) -> Result<Part, NoMemory>
    ensures goes_on { IfOk result (λ part. parted part ≡ ready (if_gathered held made)) }
    ensures fewer { IfOk result (λ part. parts_left part ≡ 0) }
    ensures underway { IfOk result IsPartUnderway }
{
    match made {
        Ok(all) => {
            let parts = refreshed(alloc, held, all)?;
            Ok(Part::Ended(RefreshOut {
                parts,
                result: Ok(()),
            }))
        }
        Err(why) => Ok(unchanged(held, why)),
    }
}

/// Goes on with the gathering, or with what comes after it.
fn gather_on(alloc: Global, held: Held, gathering: Gathering) -> Result<Part, NoMemory>
    requires { IsFresh (gather_standing gathering) }
    ensures goes_on { IfOk result (λ part. parted part ≡ then_on (gather_standing gathering) (if_gathered held)) }
    ensures fewer { IfOk result (λ part. parts_left part ≤ gather_left gathering) }
    ensures underway { IfOk result IsPartUnderway }
{
    let called = match gathering.next(alloc) {
        Ok(called) => called,
        Err(why) => {
            drop(held);
            return Err(why);
        }
    };
    match called {
        Called::Asks(call, asking) => Ok(Part::Gathering {
            call: Some(call),
            gathering: asking,
            held,
        }),
        Called::Over(made) => after_gathering(alloc, held, made),
    }
}

/// The gathering of what was listed, before its first call.
fn begun(alloc: Global, held: &Held, listing: &Listing) -> Result<Gathering, NoMemory>
    requires { AreByWriter listing.now.droppings }
    ensures standing { IfOk result (λ g. gather_standing g ≡ ready (shares_from 1 (behind_of held.now listing.now) 0 [])) }
    ensures left { IfOk result (λ g. gather_left g ≤ gathering_bound) }
{
    let listed = behind(alloc, held, listing)?;
    let gathering = Gathering::new(alloc, listed, 1)?;
    Ok(gathering)
}

/// Begins to read what was listed.
fn gather(alloc: Global, held: Held, listing: &Listing) -> Result<Part, NoMemory>
    requires { AreByWriter listing.now.droppings }
    ensures goes_on { IfOk result (λ part. parted part ≡ ready (reads_on held listing.now)) }
    ensures fewer { IfOk result (λ part. parts_left part ≤ gathering_bound) }
    ensures underway { IfOk result IsPartUnderway }
{
    match begun(alloc, &held, listing) {
        Ok(gathering) => gather_on(alloc, held, gathering),
        Err(why) => {
            drop(held);
            Err(why)
        }
    }
}

/// Begins to read what was listed, unless a writer has moved.
fn gather_or_not(alloc: Global, held: Held, listing: &Listing) -> Result<Part, NoMemory>
    requires { AreByWriter listing.now.droppings }
    ensures goes_on { IfOk result (λ part. parted part ≡ ready (if_listed held (Ok listing.now))) }
    ensures fewer { IfOk result (λ part. parts_left part ≤ gathering_bound) }
    ensures underway { IfOk result IsPartUnderway }
{
    match moved(held.get().hosts.as_slice(), listing.droppings.as_slice()) {
        Some(dropping) => {
            let index = print(&Item::Index {
                host: dropping.host,
                writer: dropping.writer,
            });
            Ok(unchanged(held, damage(&index, 0)))
        }
        None => gather(alloc, held, listing),
    }
}

/// What comes after the listing.
fn after_listing(
    alloc: Global,
    held: Held,
    listing: Result<Listing, Stuck>,
) -> Result<Part, NoMemory>
    requires { IfOk listing (λ l. AreByWriter l.droppings) }
    ensures goes_on { IfOk result (λ part. parted part ≡ ready (if_listed held listing)) }
    ensures fewer { IfOk result (λ part. parts_left part ≤ gathering_bound) }
    ensures underway { IfOk result IsPartUnderway }
{
    match listing {
        Ok(listing) => {
            let part = gather_or_not(alloc, held, &listing);
            drop(listing);
            part
        }
        Err(why) => Ok(unchanged(held, why)),
    }
}

/// Goes on with what comes after a listing that has no further call.
fn list_over(alloc: Global, held: Held, scan: OpenRead) -> Result<Part, NoMemory>
    requires { IsOver (rest_of (open_standing scan)) }
    ensures goes_on { IfOk result (λ part. parted part ≡ then_on (open_standing scan) (if_listed held)) }
    ensures fewer { IfOk result (λ part. parts_left part ≤ gathering_bound) }
    ensures underway { IfOk result IsPartUnderway }
{
    after_listing(alloc, held, scan.out())
}

/// Goes on with the listing, or with what comes after it.
fn list_on(alloc: Global, held: Held, scan: OpenRead) -> Result<Part, NoMemory>
    ensures goes_on { IfOk result (λ part. parted part ≡ then_on (open_standing scan) (if_listed held)) }
    ensures fewer { IfOk result (λ part. parts_left part ≤ open_calls_left scan + gathering_bound) }
    ensures underway { IfOk result IsPartUnderway }
{
    match scan.call() {
        Some(_) => Ok(Part::Listing { scan, held }),
        None => list_over(alloc, held, scan),
    }
}

/// What comes after a reply to a call of the listing.
fn after_scan(alloc: Global, held: Held, scan: OpenRead, reply: Reply) -> Result<Part, NoMemory>
    requires { is_awaiting (rest_of (open_standing scan)) ≡ true }
    ensures goes_on { IfOk result (λ part. parted part ≡ ready (replied (rest_of (parted (Part.Listing scan held))) reply)) }
    ensures fewer { IfOk result (λ part. parts_left part < parts_left (Part.Listing scan held)) }
    ensures underway { IfOk result IsPartUnderway }
{
    let mut scan = scan;
    match scan.take(reply) {
        Ok(()) => list_on(alloc, held, scan),
        Err(why) => {
            drop((scan, held));
            Err(why)
        }
    }
}

/// What comes after a reply to a call of the gathering.
fn after_call(
    alloc: Global,
    held: Held,
    gathering: Gathering,
    reply: Reply,
) -> Result<Part, NoMemory>
    requires { is_awaiting (gather_rest gathering) ≡ true }
    ensures goes_on { IfOk result (λ part. (call : Option Asked) → parted part ≡ ready (replied (rest_of (calling call (gather_rest gathering) (if_gathered held))) reply)) }
    ensures fewer { IfOk result (λ part. parts_left part < gather_left gathering) }
    ensures underway { IfOk result IsPartUnderway }
{
    match gathering.take(reply) {
        Ok(gathering) => gather_on(alloc, held, gathering),
        Err(why) => {
            drop(held);
            Err(why)
        }
    }
}

impl Part {
    /// The call that is to be made, where there is one, and the part once it was given.
    pub(crate) fn give(self) -> Result<(Part, Option<Call>), NoMemory>
        requires { IsPartUnderway self }
        ensures call { IfOk result (λ given. given.1 ≡ next_of (parted self)) }
        ensures owed { IfOk result (λ given. IfSome given.1 OwedBy) }
        ensures rest { IfOk result (λ given. rest_of (parted given.0) ≡ rest_of (parted self)) }
        ensures again { IfOk result (λ given. IfSome (next_of (parted given.0)) (λ call. next_of (parted self) ≡ Some call)) }
        ensures left { IfOk result (λ given. parts_left given.0 ≡ parts_left self) }
        ensures underway { IfOk result (λ given. IsPartUnderway given.0) }
    {
        match self {
            Part::Listing { scan, held } => give_look(scan, held),
            Part::Gathering {
                call,
                gathering,
                held,
            } => Ok(give_call(call, gathering, held)),
            Part::Ended(out) => Ok((Part::Ended(out), None)),
        }
    }

    /// The part after the reply to that call.
    pub(crate) fn after(self, alloc: Global, reply: Reply) -> Result<Part, NoMemory>
        requires underway { IsPartUnderway self }
        requires awaits { Awaits (rest_of (parted self)) }
        ensures goes_on { IfOk result (λ part. parted part ≡ ready (replied (rest_of (parted self)) reply)) }
        ensures fewer { IfOk result (λ part. parts_left part < parts_left self) }
        ensures underway { IfOk result IsPartUnderway }
    {
        match self {
            Part::Listing { scan, held } => after_scan(alloc, held, scan, reply),
            Part::Gathering {
                call,
                gathering,
                held,
            } => {
                drop(call);
                after_call(alloc, held, gathering, reply)
            }
            Part::Ended(out) => {
                drop(reply);
                Ok(Part::Ended(out))
            }
        }
    }
}
