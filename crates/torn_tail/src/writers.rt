//! The recovery of one writer.
ghost use Rattle.std.specs.Prelude.{◌≡◌, ◌≤◌, ◌<◌, ◌+◌, ◌*◌, ◌^◌, ℕ, Some, Ok, if◌then◌else◌};
ghost use Rattle.mount_model.specs.Standing.{ready, next_of, rest_of, replied};
ghost use Rattle.mount_model.specs.Paths.{index_path as path_of_index, log_path as path_of_log};
ghost use Rattle.mount_model.specs.Step.{OwedBy};
ghost use Rattle.torn_tail.specs.Writers.{found as found_of, keeps as keeps_of, reads_left, if_checked, is_alive as is_alive_of, not_done as not_done_of, if_done as if_done_of, if_synced as if_synced_of};
ghost use Rattle.torn_tail.specs.declared.fates.Fate.TheVariants.{Buried};
ghost use Rattle.mount_model.specs.declared.names.OpenEntry.{OpenEntry as Entered};
ghost use Rattle.mount_model.specs.Program.{done};
ghost use Rattle.torn_tail.specs.Steps.{step_program, after_program, step_calls, after_calls};

use crate::entries::{Went, look, none_counted};
use crate::fates::Fate;
use crate::runs::{Counted, Landed, Reads};
use crate::steps::Step;
use container_layout::{Item, print};
use mount_model::{
    Call, Look, OpenEntry, Refusal, Reply, Stuck, bytes_in, damage, failure, length_in, next_read,
    trouble,
};
use plfs_types::Path;

/// What comes after a reply.
#[derive(Clone, Copy)]
pub(crate) enum After {
    GoesOn(Step),
    Is(Result<Fate, Stuck>),
}

fn index_path(entry: OpenEntry) -> Path
    ensures { result ≡ path_of_index entry.host entry.writer }
{
    print(&Item::Index {
        host: entry.host,
        writer: entry.writer,
    })
}

fn log_path(entry: OpenEntry) -> Path
    ensures { result ≡ path_of_log entry.host entry.writer }
{
    print(&Item::Log {
        host: entry.host,
        writer: entry.writer,
    })
}

impl Step {
    /// The call that is to be made.
    #[tactic(auto, using(crate::proofs::RunLemmas::meta_range))]
    pub(crate) fn call(self, room: u64, entry: OpenEntry) -> Call
        ensures call { Some result ≡ next_of (ready (step_program room entry self)) }
        ensures owed { OwedBy result }
    {
        let OpenEntry { host, writer } = entry;
        match self {
            Step::Inspect => Call::Inspect { writer },
            Step::Index => Call::Look {
                room,
                look: Look::Length {
                    path: index_path(entry),
                },
            },
            Step::Log(_) => Call::Look {
                room,
                look: Look::Length {
                    path: log_path(entry),
                },
            },
            Step::Entries(reads) => Call::Look {
                room,
                look: Look::Read {
                    path: index_path(entry),
                    at: 40 * (reads.told / 40 - reads.left),
                    len: 40 * next_read(reads.left),
                },
            },
            Step::Mend(counted) => Call::Mend {
                room,
                host,
                writer,
                whole: counted.run.cover.count,
            },
            Step::SyncLog(_) => Call::SyncDropping {
                room,
                host,
                writer,
                log: true,
            },
            Step::SyncIndex(_) => Call::SyncDropping {
                room,
                host,
                writer,
                log: false,
            },
            Step::Meta(landed) => Call::MendMeta {
                room,
                host,
                cover: landed.counted.run.cover,
                last: landed.counted.run.last,
            },
            Step::Bury(_) => Call::Bury { room, host, writer },
        }
    }

    /// What comes after the reply to that call.
    pub(crate) fn after(self, room: u64, entry: OpenEntry, reply: Reply) -> After
        ensures goes_on { after_program room entry result ≡ replied (rest_of (ready (step_program room entry self))) reply }
        ensures fewer { after_calls result < step_calls self }
    {
        let after = match self {
            Step::Entries(reads) => return after_read(entry, reads, reply),
            Step::Inspect => if_done(Step::Index, &reply),
            Step::Index => after_index(entry, &reply),
            Step::Log(told) => after_log(entry, told, &reply),
            Step::Mend(counted) => if_done(kept(counted), &reply),
            Step::SyncLog(landed) => if_synced(Step::SyncIndex(landed), &reply),
            Step::SyncIndex(landed) => if_synced(Step::Meta(landed), &reply),
            Step::Meta(landed) => if_done(Step::Bury(landed.counted.run.cover.count), &reply),
            Step::Bury(count) => if_buried(count, &reply),
        };
        drop(reply);
        after
    }
}

fn is_alive(reply: &Reply) -> bool
    ensures { result ≡ is_alive_of reply.now }
{
    match reply {
        Reply::Refused(why) => match why {
            Refusal::Alive => true,
            _ => false,
        },
        _ => false,
    }
}

/// What comes of a reply that isn't Done: a live writer is passed over.
fn not_done(reply: &Reply) -> Result<Fate, Stuck>
    ensures { result ≡ not_done_of reply.now }
{
    if is_alive(reply) {
        Ok(Fate::Lives)
    } else {
        Err(failure(reply))
    }
}

/// It goes on with this step, unless the writer is live.
fn if_done(next: Step, reply: &Reply) -> After
    ensures goes_on { (room : ℕ) (entry : Entered) → after_program room entry result ≡ if_done_of (step_program room entry next) reply.now }
    ensures fewer { after_calls result ≤ step_calls next }
{
    match reply {
        Reply::Done => After::GoesOn(next),
        _ => After::Is(not_done(reply)),
    }
}

fn if_synced(next: Step, reply: &Reply) -> After
    ensures goes_on { (room : ℕ) (entry : Entered) → after_program room entry result ≡ if_synced_of (step_program room entry next) reply.now }
    ensures fewer { after_calls result ≤ step_calls next }
{
    match reply {
        Reply::Done => After::GoesOn(next),
        _ => After::Is(Err(failure(reply))),
    }
}

fn if_buried(count: u64, reply: &Reply) -> After
    ensures goes_on { (room : ℕ) (entry : Entered) → after_program room entry result ≡ if_done_of (done (Ok (Buried count))) reply.now }
    ensures fewer { after_calls result ≡ 0 }
{
    match reply {
        Reply::Done => After::Is(Ok(Fate::Buried(count))),
        _ => After::Is(not_done(reply)),
    }
}

fn after_index(entry: OpenEntry, reply: &Reply) -> After
    ensures goes_on { (room : ℕ) → after_program room entry result ≡ replied (rest_of (ready (step_program room entry Step.Index))) reply.now }
    ensures fewer { after_calls result < 2 ^ 64 + 6 }
{
    match length_in(reply) {
        Some(told) => After::GoesOn(Step::Log(told)),
        None => After::Is(Err(trouble(&index_path(entry), reply))),
    }
}

fn after_log(entry: OpenEntry, told: u64, reply: &Reply) -> After
    ensures goes_on { (room : ℕ) → after_program room entry result ≡ replied (rest_of (ready (step_program room entry (Step.Log told)))) reply.now }
    ensures fewer { after_calls result < told + 6 }
{
    match length_in(reply) {
        Some(log) => After::GoesOn(reading(
            told,
            log,
            told / 40,
            false,
            none_counted(entry.writer),
        )),
        None => After::Is(Err(trouble(&log_path(entry), reply))),
    }
}

fn after_read(entry: OpenEntry, reads: Reads, reply: Reply) -> After
    ensures goes_on { (room : ℕ) → after_program room entry result ≡ replied (rest_of (ready (step_program room entry (Step.Entries reads)))) reply }
    ensures fewer { after_calls result < reads.left + 5 }
{
    let why = trouble(&index_path(entry), &reply);
    let Some(bytes) = bytes_in(reply) else {
        return After::Is(Err(why));
    };
    let bytes = bytes.as_slice();
    let asked = next_read(reads.left);
    let is_full = 40 * asked <= bytes.len() as u64;
    let (went, counted) = look(reads.counted, reads.log, asked, reads.ended, bytes);
    after_look(
        entry,
        reads.told,
        reads.log,
        reads.left - asked,
        is_full,
        went,
        counted,
    )
}

/// What comes after the entries of a Read were looked at, behind which so many are left.
fn after_look(
    entry: OpenEntry,
    told: u64,
    log: u64,
    left: u64,
    is_full: bool,
    went: Went,
    counted: Counted,
) -> After
    requires { 40 * left ≤ told }
    ensures goes_on { (room : ℕ) → after_program room entry result
        ≡ if_checked entry (found_of room entry told) (λ past longer. reads_left room entry told log left past longer) is_full (went, counted.run) }
    ensures fewer { after_calls result ≤ left + 5 }
{
    match went {
        Went::Breaks => After::Is(Err(damage(&index_path(entry), 40 * counted.run.cover.count))),
        Went::Ends => After::GoesOn(read_on(told, log, left, true, is_full, counted)),
        Went::On => After::GoesOn(read_on(told, log, left, false, is_full, counted)),
    }
}

/// It reads on, unless the Read was short.
fn read_on(told: u64, log: u64, left: u64, ended: bool, is_full: bool, counted: Counted) -> Step
    requires { 40 * left ≤ told }
    ensures goes_on { (room : ℕ) (entry : Entered) → step_program room entry result
        ≡ (if is_full then reads_left room entry told log left ended counted.run else found_of room entry told counted.run) }
    ensures fewer { step_calls result ≤ left + 5 }
{
    if is_full {
        reading(told, log, left, ended, counted)
    } else {
        found(told, counted)
    }
}

/// So many entries are left.
#[tactic(auto, using(crate::proofs::ReadLemmas::reads_going_on))]
fn reading(told: u64, log: u64, left: u64, ended: bool, counted: Counted) -> Step
    requires { 40 * left ≤ told }
    ensures goes_on { (room : ℕ) (entry : Entered) → step_program room entry result ≡ reads_left room entry told log left ended counted.run }
    ensures fewer { step_calls result ≤ left + 5 }
{
    if left == 0 {
        return found(told, counted);
    }
    Step::Entries(Reads {
        told,
        log,
        left,
        ended,
        counted,
    })
}

/// The index dropping is so long, and these entries of it have landed.
fn found(told: u64, counted: Counted) -> Step
    ensures goes_on { (room : ℕ) (entry : Entered) → step_program room entry result ≡ found_of room entry told counted.run }
    ensures fewer { step_calls result ≤ 5 }
{
    if told == 40 * counted.run.cover.count {
        kept(counted)
    } else {
        Step::Mend(counted)
    }
}

/// These entries have landed, and no others are there.
fn kept(counted: Counted) -> Step
    ensures goes_on { (room : ℕ) (entry : Entered) → step_program room entry result ≡ keeps_of room entry counted.run }
    ensures fewer { step_calls result ≤ 4 }
{
    if counted.run.cover.count == 0 {
        Step::Bury(0)
    } else {
        Step::SyncLog(Landed { counted })
    }
}
