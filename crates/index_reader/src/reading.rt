//! Reading bytes of a file from the logs.
ghost use Rattle.std.specs.Prelude.{◌≡◌, ◌≤◌, ◌<◌, ◌+◌, ◌^◌, ℕ, [], ◌++◌, length, take, replicate, ◌↔◌, IsTrue, IfOk, OnOk, Ok};
ghost use Rattle.mount_model.specs.Standing.{ready, next_of, rest_of, replied, Awaits, IsOver};
ghost use Rattle.read_plan.specs.Plan.{plan_of};
ghost use Rattle.index_reader.specs.Reading.{spells, read_program, ends_at as end_of};
ghost use Rattle.index_reader.specs.ReadingStages.{part_left, part_calls, read_standing, read_left};

use crate::bytes::add;
use crate::opened::OpenReader;
use crate::placing::{Place, Placed, place_all};
use crate::tails::log_path;
use mount_model::{Call, Flow, Look, Reply, Stuck, bytes_in, damage, trouble};
use plfs_types::{Bytes, NoMemory, Queue};
use read_plan::plan;
use std::alloc::Global;
use std::mem;

/// Reads bytes of an open file, one Read for each part that is in a log, in order; where no write shows, there are zeros.
///
/// It ends with the bytes, or with the first trouble: a log that has too few bytes is damage where they end.
#[derive(Drop)]
pub struct Reading {
    alloc: Global,
    room: u64,
    rest: Queue<Placed>,
    sofar: Bytes,
    stage: Stage,
}

#[derive(Drop)]
pub(crate) enum Stage {
    Asking(Place),
    Ended(Result<Bytes, Stuck>),
}

/// As many zeros as are added at a time.
static ZEROS: [u8; 4096] = [0; 4096];

fn zeros(len: usize) -> &'static [u8]
    requires { len ≤ 4096 }
    ensures { result.now ≡ replicate len 0 }
{
    &ZEROS[..len]
}

/// Adds so many zeros.
#[tactic(auto, using(crate::proofs::ZeroLemmas::zeros_left))]
fn add_zeros(bytes: &mut Bytes, len: u64) -> Result<(), NoMemory>
    ensures { OnOk result (bytes.new ≡ bytes.old ++ replicate len 0) }
{
    let mut left = len;
    while left > 0 {
        let some = left.min(4096);
        add(bytes, zeros(some as usize))?;
        left -= some;
    }
    Ok(())
}

/// Where the bytes of a place end, where there are so many.
fn ends_at(place: Place, count: u64) -> u64
    ensures { result ≡ end_of place count }
{
    place.at.saturating_add(count)
}

/// Goes on to the next part that is in a log, over the holes before it.
fn next_stage(alloc: Global, rest: &mut Queue<Placed>, sofar: &mut Bytes) -> Result<Stage, NoMemory>
    ensures goes_on { IfOk result (λ stage. (room : ℕ) → part_left room rest.new sofar.new stage ≡ spells room rest.old sofar.old) }
    ensures fewer { IfOk result (λ stage. part_calls rest.new stage ≤ length rest.old) }
{
    while let Some(part) = rest.pop() {
        match part {
            Placed::Zeros { len } => add_zeros(sofar, len)?,
            Placed::Logged(place) => return Ok(Stage::Asking(place)),
        }
    }
    let all = mem::replace(sofar, Bytes::new(alloc));
    Ok(Stage::Ended(Ok(all)))
}

/// Adds the first `len` of these bytes. Where there were none, they are taken over.
fn add_first(sofar: &mut Bytes, bytes: Bytes, len: usize) -> Result<(), NoMemory>
    requires { len ≤ length bytes }
    ensures { OnOk result (sofar.new ≡ sofar.old ++ take len bytes) }
{
    if sofar.as_slice().is_empty() {
        let mut bytes = bytes;
        bytes.truncate(len);
        *sofar = bytes;
        return Ok(());
    }
    add(sofar, &bytes.as_slice()[..len])
}

/// What comes after the reply to the Read of a place.
fn after_reply(
    alloc: Global,
    rest: &mut Queue<Placed>,
    sofar: &mut Bytes,
    place: Place,
    reply: Reply,
) -> Result<Stage, NoMemory>
    ensures goes_on { IfOk result (λ stage. (room : ℕ) → part_left room rest.new sofar.new stage
        ≡ replied (rest_of (ready (part_left room rest.old sofar.old (Stage.Asking place)))) reply) }
    ensures fewer { IfOk result (λ stage. part_calls rest.new stage < length rest.old + 1) }
{
    let path = log_path(place.host, place.writer);
    let why = trouble(&path, &reply);
    let Some(bytes) = bytes_in(reply) else {
        return Ok(Stage::Ended(Err(why)));
    };
    let count = bytes.as_slice().len() as u64;
    if count < place.len {
        return Ok(Stage::Ended(Err(damage(&path, ends_at(place, count)))));
    }
    add_first(sofar, bytes, place.len as usize)?;
    next_stage(alloc, rest, sofar)
}

impl Reading {
    /// Reads at most `len` bytes, up to 2^24, of the reader's file from byte `at` on; there are none past its end.
    pub fn new(alloc: Global, reader: &OpenReader, at: u64, len: u64) -> Result<Reading, NoMemory>
        requires { len ≤ 2 ^ 24 }
        ensures standing { IfOk result (λ reading. read_standing reading
            ≡ ready (read_program reader.now.room reader.now.hosts (plan_of reader.now.pieces reader.now.size at len))) }
        ensures few { IfOk result (λ reading. read_left reading ≤ length (plan_of reader.now.pieces reader.now.size at len)) }
    {
        let parts = plan(alloc, &reader.pieces, reader.size, at, len)?;
        let placed = place_all(alloc, reader.hosts.get().as_slice(), parts.as_slice())?;
        let mut rest = Queue::of(placed);
        let mut sofar = Bytes::new(alloc);
        let stage = next_stage(alloc, &mut rest, &mut sofar)?;
        Ok(Reading {
            alloc,
            room: reader.room,
            rest,
            sofar,
            stage,
        })
    }

    /// Whether it has no further call.
    pub fn is_over(&self) -> bool
        ensures { IsTrue result ↔ IsOver (rest_of (read_standing self.now)) }
    {
        match &self.stage {
            Stage::Asking(_) => false,
            Stage::Ended(_) => true,
        }
    }

    /// The call that is to be made, where there is one.
    fn call(&self) -> Option<Call>
        ensures { result ≡ next_of (read_standing self.now) }
    {
        match &self.stage {
            Stage::Asking(place) => Some(Call::Look {
                room: self.room,
                look: Look::Read {
                    path: log_path(place.host, place.writer),
                    at: place.at,
                    len: place.len,
                },
            }),
            Stage::Ended(_) => None,
        }
    }
}

impl Flow for Reading {
    type Out = Result<Bytes, Stuck>;

    ghost standing = { read_standing };

    ghost left = { read_left };

    fn next(&mut self) -> Result<Option<Call>, NoMemory> {
        Ok(self.call())
    }

    fn take(&mut self, reply: Reply) -> Result<(), NoMemory> {
        if let Reply::NoMemory = reply {
            return Err(NoMemory);
        }
        if let Stage::Asking(place) = self.stage {
            self.stage = after_reply(self.alloc, &mut self.rest, &mut self.sofar, place, reply)?;
        }
        Ok(())
    }

    fn out(self) -> Result<Bytes, Stuck> {
        let Reading { stage, .. } = self;
        match stage {
            Stage::Ended(result) => result,
            Stage::Asking(_) => unreachable!(),
        }
    }
}
