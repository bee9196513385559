//! The parts of a whole flattening, one after the other.
ghost use Rattle.std.specs.Prelude.{◌≡◌, ◌<◌, ◌≤◌, ◌+◌, ◌^◌, true, Option, Some, IfOk, IfSome};
ghost use Rattle.mount_model.specs.declared.call.Call.{Call as Asked};
ghost use Rattle.mount_model.specs.Program.{followed_by};
ghost use Rattle.mount_model.specs.Standing.{ready, next_of, rest_of, replied, Awaits, IsFresh, IsOver};
ghost use Rattle.mount_model.specs.Composed.{calling, is_awaiting, then_on};
ghost use Rattle.mount_model.specs.FlowReplies.{on_ok};
ghost use Rattle.mount_model.specs.Step.{OwedBy};
ghost use Rattle.index_reader.specs.Covered.{AreByWriter as AreCoversByWriter};
ghost use Rattle.index_reader.specs.Listing.{AreByWriter};
ghost use Rattle.index_reader.specs.OpenStages.{open_calls_left, open_standing};
ghost use Rattle.gather_flow.specs.Gathering.{gather_left, gather_rest, gather_standing};
ghost use Rattle.flatten_core.specs.Flattening.{flattened, gathers, installs_gathered, installs_index, lists, tells};
ghost use Rattle.flatten_core.specs.Parts.{ending_bound, gathering_bound, parted, parts_left, IsPartUnderway};
ghost use Rattle.flatten_core.specs.Stages.{IsUnderway, installing, installs_left};
ghost use Rattle.flatten_core.specs.StartStages.{starting, starts_left};

use crate::flattening::Flattened;
use crate::giving::{give_call, give_end, give_look, give_start};
use crate::installing::{copied, first_stage};
use crate::stages::Stage as Ending;
use crate::starting::{Stage as Beginning, Started};
use flat_format::Flat;
use gather_flow::{AllRead, Called, Gathering, Listed};
use index_reader::{Listing, OpenRead};
use mount_model::{Call, Flow, Reply, Stuck};
use plfs_types::NoMemory;
use std::alloc::Global;

/// How far a flattening is.
#[derive(Drop)]
pub(crate) enum Part {
    Beginning(Beginning),
    Listing {
        scan: OpenRead,
        started: Started,
    },
    /// With the next call, until it is given.
    Gathering {
        call: Option<Call>,
        gathering: Gathering,
        started: Started,
    },
    /// With what is told in the end.
    Ending {
        stage: Ending,
        started: Started,
        told: Flattened,
    },
    Ended(Result<Flattened, Stuck>),
}

/// What is told once this index is installed.
fn told_of(alloc: Global, started: Started, index: &Flat) -> Result<Flattened, NoMemory>
    ensures { IfOk result (λ told. told ≡ flattened started index.now) }
{
    let covers = copied(alloc, index.covers.as_slice())?;
    let pieces = index.pieces.as_slice().len() as u64;
    Ok(Flattened {
        flat: started.flat,
        pieces,
        covers,
    })
}

/// Goes on to install this index.
fn install_index(alloc: Global, started: Started, index: &Flat) -> Result<Part, NoMemory>
    ensures goes_on { IfOk result (λ part. parted part ≡ ready (installs_index started index.now)) }
    ensures fewer { IfOk result (λ part. parts_left part ≤ ending_bound) }
    ensures underway { IfOk result IsPartUnderway }
{
    let told = told_of(alloc, started, index)?;
    let stage = first_stage(alloc, started, index)?;
    Ok(Part::Ending {
        stage,
        started,
        told,
    })
}

/// Goes on to install what was gathered.
fn install(alloc: Global, started: Started, all: AllRead) -> Result<Part, NoMemory>
    ensures goes_on { IfOk result (λ part. parted part ≡ ready (installs_gathered started all)) }
    ensures fewer { IfOk result (λ part. parts_left part ≤ ending_bound) }
    ensures underway { IfOk result IsPartUnderway }
{
    let gathered = all.gathered(alloc)?;
    install_index(alloc, started, &gathered.flat)
}

/// What comes after the gathering.
fn after_gathering(
    alloc: Global,
    started: Started,
    made: Result<AllRead, Stuck>,
) -> Result<Part, NoMemory>
    ensures goes_on { IfOk result (λ part. parted part ≡ ready (on_ok (installs_gathered started) made)) }
    ensures fewer { IfOk result (λ part. parts_left part ≤ ending_bound) }
    ensures underway { IfOk result IsPartUnderway }
{
    match made {
        Ok(all) => install(alloc, started, all),
        Err(why) => Ok(Part::Ended(Err(why))),
    }
}

/// Goes on with the gathering, or with what comes after it.
fn gather_on(alloc: Global, started: Started, gathering: Gathering) -> Result<Part, NoMemory>
    requires { IsFresh (gather_standing gathering) }
    ensures goes_on { IfOk result (λ part. parted part ≡ then_on (gather_standing gathering) (on_ok (installs_gathered started))) }
    ensures fewer { IfOk result (λ part. parts_left part ≤ gather_left gathering + ending_bound) }
    ensures underway { IfOk result IsPartUnderway }
{
    let called = gathering.next(alloc)?;
    match called {
        Called::Asks(call, asking) => Ok(Part::Gathering {
            call: Some(call),
            gathering: asking,
            started,
        }),
        Called::Over(made) => after_gathering(alloc, started, made),
    }
}

/// Begins to gather what was listed.
fn gather(alloc: Global, started: Started, listing: Listing) -> Result<Part, NoMemory>
    requires droppings { AreByWriter listing.droppings }
    requires covers { AreCoversByWriter listing.flat.covers }
    ensures goes_on { IfOk result (λ part. parted part ≡ ready (gathers started listing)) }
    ensures fewer { IfOk result (λ part. parts_left part ≤ gathering_bound) }
    ensures underway { IfOk result IsPartUnderway }
{
    let gathering = Gathering::new(alloc, Listed::of(listing), 1)?;
    gather_on(alloc, started, gathering)
}

/// What comes after a listing.
fn after_listing(
    alloc: Global,
    started: Started,
    listing: Result<Listing, Stuck>,
) -> Result<Part, NoMemory>
    requires droppings { IfOk listing (λ l. AreByWriter l.droppings) }
    requires covers { IfOk listing (λ l. AreCoversByWriter l.flat.covers) }
    ensures goes_on { IfOk result (λ part. parted part ≡ ready (on_ok (gathers started) listing)) }
    ensures fewer { IfOk result (λ part. parts_left part ≤ gathering_bound) }
    ensures underway { IfOk result IsPartUnderway }
{
    match listing {
        Ok(listing) => gather(alloc, started, listing),
        Err(why) => Ok(Part::Ended(Err(why))),
    }
}

/// Goes on with what comes after a listing that has no further call.
fn list_over(alloc: Global, started: Started, scan: OpenRead) -> Result<Part, NoMemory>
    requires { IsOver (rest_of (open_standing scan)) }
    ensures goes_on { IfOk result (λ part. parted part ≡ then_on (open_standing scan) (on_ok (gathers started))) }
    ensures fewer { IfOk result (λ part. parts_left part ≤ gathering_bound) }
    ensures underway { IfOk result IsPartUnderway }
{
    after_listing(alloc, started, scan.out())
}

/// Goes on with the listing, or with what comes after it.
fn list_on(alloc: Global, started: Started, scan: OpenRead) -> Result<Part, NoMemory>
    ensures goes_on { IfOk result (λ part. parted part ≡ then_on (open_standing scan) (on_ok (gathers started))) }
    ensures fewer { IfOk result (λ part. parts_left part ≤ open_calls_left scan + gathering_bound) }
    ensures underway { IfOk result IsPartUnderway }
{
    match scan.call() {
        Some(_) => Ok(Part::Listing { scan, started }),
        None => list_over(alloc, started, scan),
    }
}

/// What comes after a reply to a call of the listing.
fn after_scan(
    alloc: Global,
    started: Started,
    scan: OpenRead,
    reply: Reply,
) -> Result<Part, NoMemory>
    requires { is_awaiting (rest_of (open_standing scan)) ≡ true }
    ensures goes_on { IfOk result (λ part. parted part ≡ ready (replied (rest_of (parted (Part.Listing scan started))) reply)) }
    ensures fewer { IfOk result (λ part. parts_left part < parts_left (Part.Listing scan started)) }
    ensures underway { IfOk result IsPartUnderway }
{
    let mut scan = scan;
    match scan.take(reply) {
        Ok(()) => list_on(alloc, started, scan),
        Err(why) => {
            drop(scan);
            Err(why)
        }
    }
}

/// Goes on with the listing, unless there was a trouble.
fn list_begun(alloc: Global, outcome: Result<Started, Stuck>) -> Part
    ensures goes_on { parted result ≡ ready (on_ok lists outcome) }
    ensures fewer { parts_left result ≤ 2 ^ 64 + 50 + gathering_bound }
    ensures underway { IsPartUnderway result }
{
    match outcome {
        Ok(started) => Part::Listing {
            scan: OpenRead::at(alloc, started.room),
            started,
        },
        Err(why) => Part::Ended(Err(why)),
    }
}

/// Goes on with the beginning, or with the listing behind it.
fn start_on(alloc: Global, stage: Beginning) -> Part
    ensures goes_on { parted result ≡ ready (followed_by (starting stage) (on_ok lists)) }
    ensures fewer { parts_left result ≤ starts_left stage + (2 ^ 64 + 50 + gathering_bound) }
    ensures underway { IsPartUnderway result }
{
    match stage {
        Beginning::Ended(outcome) => list_begun(alloc, outcome),
        Beginning::Finding(name) => Part::Beginning(Beginning::Finding(name)),
        Beginning::Starting(room) => Part::Beginning(Beginning::Starting(room)),
    }
}

/// What comes after a reply to a call of the beginning.
fn after_start(alloc: Global, stage: Beginning, reply: &Reply) -> Part
    requires { is_awaiting (rest_of (ready (starting stage))) ≡ true }
    ensures goes_on { parted result ≡ ready (replied (rest_of (parted (Part.Beginning stage))) reply.now) }
    ensures fewer { parts_left result < parts_left (Part.Beginning stage) }
    ensures underway { IsPartUnderway result }
{
    start_on(alloc, stage.after(reply))
}

/// What comes after a reply to a call of the gathering.
fn after_call(
    alloc: Global,
    started: Started,
    gathering: Gathering,
    reply: Reply,
) -> Result<Part, NoMemory>
    requires { is_awaiting (gather_rest gathering) ≡ true }
    ensures goes_on { IfOk result (λ part. (call : Option Asked) → parted part ≡ ready (replied (rest_of (calling call (gather_rest gathering) (on_ok (installs_gathered started)))) reply)) }
    ensures fewer { IfOk result (λ part. parts_left part < gather_left gathering + ending_bound) }
    ensures underway { IfOk result IsPartUnderway }
{
    let gathering = gathering.take(reply)?;
    gather_on(alloc, started, gathering)
}

/// Tells what was installed, unless there was a trouble.
fn ended(outcome: Result<(), Stuck>, told: Flattened) -> Part
    ensures goes_on { parted result ≡ ready (tells told outcome) }
    ensures fewer { parts_left result ≡ 0 }
    ensures underway { IsPartUnderway result }
{
    match outcome {
        Ok(()) => Part::Ended(Ok(told)),
        Err(why) => Part::Ended(Err(why)),
    }
}

/// Goes on with the end, or tells what was installed.
fn end_on(stage: Ending, started: Started, told: Flattened) -> Part
    requires { IsUnderway stage }
    ensures goes_on { parted result ≡ then_on (installing started.room started.flat stage) (tells told) }
    ensures fewer { parts_left result ≤ installs_left stage }
    ensures underway { IsPartUnderway result }
{
    match stage {
        Ending::Ended(outcome) => ended(outcome, told),
        stage => Part::Ending {
            stage,
            started,
            told,
        },
    }
}

/// What comes after a reply to a call of the end.
fn after_end(
    alloc: Global,
    stage: Ending,
    started: Started,
    told: Flattened,
    reply: Reply,
) -> Result<Part, NoMemory>
    requires underway { IsUnderway stage }
    requires awaits { is_awaiting (rest_of (installing started.room started.flat stage)) ≡ true }
    ensures goes_on { IfOk result (λ part. parted part ≡ ready (replied (rest_of (parted (Part.Ending stage started told))) reply)) }
    ensures fewer { IfOk result (λ part. parts_left part < installs_left stage) }
    ensures underway { IfOk result IsPartUnderway }
{
    let stage = stage.after(alloc, started.room, started.flat, reply)?;
    Ok(end_on(stage, started, told))
}

impl Part {
    /// The call that is to be made, where there is one, and the part once it was given.
    pub(crate) fn give(self) -> Result<(Part, Option<Call>), NoMemory>
        requires { IsPartUnderway self }
        ensures call { IfOk result (λ given. given.1 ≡ next_of (parted self)) }
        ensures owed { IfOk result (λ given. IfSome given.1 OwedBy) }
        ensures rest { IfOk result (λ given. rest_of (parted given.0) ≡ rest_of (parted self)) }
        ensures again { IfOk result (λ given. IfSome (next_of (parted given.0)) (λ call. next_of (parted self) ≡ Some call)) }
        ensures left { IfOk result (λ given. parts_left given.0 ≡ parts_left self) }
        ensures underway { IfOk result (λ given. IsPartUnderway given.0) }
    {
        match self {
            Part::Beginning(stage) => Ok(give_start(stage)),
            Part::Listing { scan, started } => give_look(scan, started),
            Part::Gathering {
                call,
                gathering,
                started,
            } => Ok(give_call(call, gathering, started)),
            Part::Ending {
                stage,
                started,
                told,
            } => give_end(stage, started, told),
            Part::Ended(outcome) => Ok((Part::Ended(outcome), None)),
        }
    }

    /// The part after the reply to that call.
    pub(crate) fn after(self, alloc: Global, reply: Reply) -> Result<Part, NoMemory>
        requires underway { IsPartUnderway self }
        requires awaits { Awaits (rest_of (parted self)) }
        ensures goes_on { IfOk result (λ part. parted part ≡ ready (replied (rest_of (parted self)) reply)) }
        ensures fewer { IfOk result (λ part. parts_left part < parts_left self) }
        ensures underway { IfOk result IsPartUnderway }
    {
        match self {
            Part::Beginning(stage) => {
                let part = after_start(alloc, stage, &reply);
                drop(reply);
                Ok(part)
            }
            Part::Listing { scan, started } => after_scan(alloc, started, scan, reply),
            Part::Gathering {
                call,
                gathering,
                started,
            } => {
                drop(call);
                after_call(alloc, started, gathering, reply)
            }
            Part::Ending {
                stage,
                started,
                told,
            } => after_end(alloc, stage, started, told, reply),
            Part::Ended(outcome) => {
                drop(reply);
                Ok(Part::Ended(outcome))
            }
        }
    }
}
