//! The stages of a scan.
ghost use Rattle.std.specs.Prelude.{◌≡◌, ◌≤◌, ◌<◌, ◌+◌, true, false, IfOk, IfSome, Some};
ghost use Rattle.mount_model.specs.Standing.{ready, next_of, rest_of, replied, Awaits};
ghost use Rattle.index_reader.specs.declared.opened.OpenReader.{OpenReader as Reader};
ghost use Rattle.mount_model.specs.Step.{OwedBy};
ghost use Rattle.pack_files.specs.Scanning.{scans, after_read, told as told_of, further as place_after, calls_in};
ghost use Rattle.pack_files.specs.Stages.{stage_standing, stage_left, chunks_left, is_underway};

use crate::keys::set_keys;
use crate::scan::ScanStuck;
use index_reader::{OpenReader, Reading};
use mount_model::{Call, Flow, Reply, Stuck};
use plfs_types::{Bytes, NoMemory};
use std::alloc::Global;
use unit_format::{Region, Scanner, UnitList};

/// How many bytes are read at a time.
pub(crate) const CHUNK: u64 = 1 << 20;

/// How far a scan is.
#[derive(Drop)]
pub(crate) enum Stage {
    /// A chunk is read. So many come after it, the next from this place on.
    Reading {
        reading: Reading,
        chunks: u64,
        next: u64,
        scanner: Scanner,
    },
    Ended(Result<Region, ScanStuck>),
}

/// Where the chunk after the one at this place begins.
fn further(here: u64) -> u64
    ensures { result ≡ place_after here }
{
    here.saturating_add(CHUNK)
}

/// What was scanned, with the keys of the units.
fn told(reader: &OpenReader, scanner: Scanner) -> Result<Region, ScanStuck>
    ensures { result ≡ told_of reader.now.pieces scanner }
{
    match scanner.finish() {
        Err(place) => Err(ScanStuck::Bad { place }),
        Ok(region) => {
            let Region { units, end } = region;
            let mut units = units.into_vec();
            set_keys(reader.pieces().as_slice(), units.as_mut_slice());
            let units = UnitList::from_vec(units);
            Ok(Region { units, end })
        }
    }
}

/// Begins to read the chunk at this place, where so many are left, or ends.
pub(crate) fn begin(
    alloc: Global,
    reader: &OpenReader,
    chunks: u64,
    here: u64,
    scanner: Scanner,
) -> Result<Stage, NoMemory>
    ensures standing { IfOk result (λ stage. stage_standing reader.now stage ≡ ready (scans reader.now chunks here scanner)) }
    ensures left { IfOk result (λ stage. stage_left reader.now stage ≤ calls_in reader.now chunks here) }
    ensures few { IfOk result (λ stage. chunks_left stage ≤ chunks) }
{
    if chunks == 0 || scanner.is_settled() {
        return Ok(Stage::Ended(told(reader, scanner)));
    }
    let reading = match Reading::new(alloc, reader, here, CHUNK) {
        Ok(reading) => reading,
        Err(why) => {
            drop(scanner);
            return Err(why);
        }
    };
    Ok(Stage::Reading {
        reading,
        chunks: chunks - 1,
        next: further(here),
        scanner,
    })
}

/// Goes on once a chunk was read.
fn go_on(
    alloc: Global,
    reader: &OpenReader,
    chunks: u64,
    next: u64,
    scanner: Scanner,
    read: Result<Bytes, Stuck>,
) -> Result<Stage, NoMemory>
    ensures standing { IfOk result (λ stage. stage_standing reader.now stage ≡ ready (after_read reader.now chunks next scanner read)) }
    ensures left { IfOk result (λ stage. stage_left reader.now stage ≤ calls_in reader.now chunks next) }
    ensures few { IfOk result (λ stage. chunks_left stage ≤ chunks) }
{
    let mut scanner = scanner;
    match read {
        Err(why) => {
            drop(scanner);
            Ok(Stage::Ended(Err(ScanStuck::Stuck(why))))
        }
        Ok(bytes) => {
            let taken = scanner.take(bytes.as_slice());
            drop(bytes);
            if let Err(why) = taken {
                drop(scanner);
                return Err(why);
            }
            begin(alloc, reader, chunks, next, scanner)
        }
    }
}

impl Stage {
    /// Whether a chunk has a further call, or the scan has ended.
    fn is_underway(&self) -> bool
        ensures { result ≡ is_underway self.now }
    {
        match self {
            Stage::Reading { reading, .. } => !reading.is_over(),
            Stage::Ended(_) => true,
        }
    }

    /// Goes on behind a chunk that was read.
    fn after_chunk(self, alloc: Global, reader: &OpenReader) -> Result<Stage, NoMemory>
        requires { is_underway self ≡ false }
        ensures standing { IfOk result (λ stage. stage_standing reader.now stage ≡ stage_standing reader.now self) }
        ensures left { IfOk result (λ stage. stage_left reader.now stage ≤ stage_left reader.now self) }
        ensures fewer { IfOk result (λ stage. chunks_left stage < chunks_left self) }
    {
        match self {
            Stage::Reading {
                reading,
                chunks,
                next,
                scanner,
            } => go_on(alloc, reader, chunks, next, scanner, reading.out()),
            Stage::Ended(_) => unreachable!(),
        }
    }

    /// Goes on to a chunk with a call, or to the end.
    pub(crate) fn settled(self, alloc: Global, reader: &OpenReader) -> Result<Stage, NoMemory>
        ensures standing { IfOk result (λ stage. stage_standing reader.now stage ≡ stage_standing reader.now self) }
        ensures left { IfOk result (λ stage. stage_left reader.now stage ≤ stage_left reader.now self) }
        ensures asks { IfOk result (λ stage. is_underway stage ≡ true) }
    {
        let mut stage = self;
        while !stage.is_underway() {
            stage = stage.after_chunk(alloc, reader)?;
        }
        Ok(stage)
    }

    /// The stage once its call was given, and the call, where there is one.
    pub(crate) fn asked(self) -> Result<(Stage, Option<Call>), NoMemory>
        requires { is_underway self ≡ true }
        ensures call { IfOk result (λ p. (r : Reader) → p.1 ≡ next_of (stage_standing r self)) }
        ensures owed { IfOk result (λ p. IfSome p.1 OwedBy) }
        ensures rest { IfOk result (λ p. (r : Reader) → rest_of (stage_standing r p.0) ≡ rest_of (stage_standing r self)) }
        ensures again { IfOk result (λ p. (r : Reader) → IfSome (next_of (stage_standing r p.0)) (λ call. next_of (stage_standing r self) ≡ Some call)) }
        ensures left { IfOk result (λ p. (r : Reader) → stage_left r p.0 ≡ stage_left r self) }
        ensures asks { IfOk result (λ p. is_underway p.0 ≡ true) }
    {
        match self {
            Stage::Reading {
                reading,
                chunks,
                next,
                scanner,
            } => {
                let mut reading = reading;
                let call = match reading.next() {
                    Ok(call) => call,
                    Err(why) => {
                        drop((reading, scanner));
                        return Err(why);
                    }
                };
                Ok((
                    Stage::Reading {
                        reading,
                        chunks,
                        next,
                        scanner,
                    },
                    call,
                ))
            }
            Stage::Ended(result) => Ok((Stage::Ended(result), None)),
        }
    }

    /// Goes on with the reply to the call that is out.
    pub(crate) fn after(
        self,
        alloc: Global,
        reader: &OpenReader,
        reply: Reply,
    ) -> Result<Stage, NoMemory>
        requires awaits { Awaits (rest_of (stage_standing reader.now self)) }
        requires asks { is_underway self ≡ true }
        ensures goes_on { IfOk result (λ stage. stage_standing reader.now stage ≡ ready (replied (rest_of (stage_standing reader.now self)) reply)) }
        ensures left { IfOk result (λ stage. stage_left reader.now stage < stage_left reader.now self) }
        ensures asks { IfOk result (λ stage. is_underway stage ≡ true) }
    {
        match self {
            Stage::Reading {
                reading,
                chunks,
                next,
                scanner,
            } => {
                let mut reading = reading;
                if let Err(why) = reading.take(reply) {
                    drop((reading, scanner));
                    return Err(why);
                }
                let stage = Stage::Reading {
                    reading,
                    chunks,
                    next,
                    scanner,
                };
                stage.settled(alloc, reader)
            }
            Stage::Ended(_) => unreachable!(),
        }
    }
}
