//! The store: a folder of the system, and the counts of its acts and faults.
ghost use Rattle.std.specs.Prelude.{◌≡◌, ◌⊎◌, ◌≤◌, ℕ, List, max, [], true, false, IfOk, IfSome, IsErrOf, Err, None, Some, unwrap_or};
ghost use Rattle.store_api.specs.Step.{Step as StepMade, step_of};
ghost use Rattle.plfs_types.specs.Counts.{next_count, HasRisen};
ghost use Rattle.store_api.specs.Acts.{Acts};
ghost use Rattle.folder_calls.specs.Calls.{failed_calls};
ghost use Rattle.store_folder.specs.Counting.{untold, CountsFaults};
ghost use Rattle.folder_calls.specs.Doubts.{doubt_of};
ghost use Rattle.folder_calls.specs.Noted.{noted, doubt_by};
ghost use Rattle.store_folder.specs.Ends.{told_of, Ends, KeepsDoubts};
ghost use Rattle.store_folder.specs.Leaving.{Attempts};
ghost use Rattle.store_folder.specs.Made.{MakesStep};
ghost use Rattle.folder_calls.specs.Own.{is_own};
ghost use Rattle.store_folder.specs.Rooms.{IsStill};
ghost use Rattle.store_folder.specs.Steps.{Numbers, Performs};
ghost use Rattle.store_folder.specs.Syncing.{refusal, is_refused, synced_by, IsDoubtedFor};
ghost use Rattle.store_folder.specs.StepPlaces.{place_of};
ghost use Rattle.store_folder.specs.Stored.{stored_of, root_of, most_of};
ghost use Rattle.folder_calls.specs.Limits.{IsLimitBy, share_of};

use crate::disk::Disk;
use crate::syncing::{refusal, synced_by};
use folder_calls::{
    Calls, Cause, Doubt, Doubts, Failure, FileKey, Item, Place, ReadAhead, Reason, System,
    SystemCalls, doubt_by, open_limit, share_of,
};
use plfs_types::{NoMemory, Word};
use std::alloc::{AllocError, Global};
use std::fs::File;
use std::sync::Arc;
use store_api::{Answer, Step, Store, Trouble};

/// How many acts were answered otherwise than by want of memory, and how many of these the system failed.
/// Each stays at 2^64 - 1.
#[derive(Clone, Copy)]
struct Counts {
    acts: u64,
    faults: u64,
}

/// A backing store on a folder, ROOT, by these calls. The folder is its own while it lives, and it tells no tree.
#[derive(Drop)]
pub struct StoreByCalls<C, F> {
    disk: Disk<C, F>,
    // Of what a sync failed.
    doubts: Doubts,
    counts: Counts,
    // Where the last step was made, and why the last one failed that did.
    last: Place,
    cause: Option<Cause>,
}

/// A backing store on a folder of the system.
pub type FolderStore<R> = StoreByCalls<SystemCalls<R>, File>;

impl<R: System> StoreByCalls<SystemCalls<R>, File> {
    /// A store on the folder of this path. It touches nothing: the first act lists the folder and numbers its rooms.
    ///
    /// It keeps open at most half of what the process may by the system's list of its limits, so that a second store may be open
    /// beside it.
    ///
    /// `NoMemory` leaves nothing behind.
    pub fn open(rt: R, alloc: Global, root: &Word) -> Result<Self, NoMemory>
        ensures fresh { IfOk result (λ store. stored_of store ≡ untold 0 0) }
        ensures root { IfOk result (λ store. root_of store ≡ root.now) }
        ensures unread { IfOk result (λ store. store.disk.is_numbered ≡ false) }
        ensures closed { IfOk result (λ store. store.disk.open.files.entries ≡ []) }
        ensures place { IfOk result (λ store. (limits : List ℕ) × (limit : ℕ) × IsLimitBy limits limit × (most_of store ≡ share_of limit 1)) }
        ensures none_own { IfOk result (λ store. (key : FileKey) → is_own store.disk.own key ≡ false) }
        ensures none_doubted { IfOk result (λ store. (item : Item) → doubt_of store.doubts item ≡ None) }
    {
        let limit = open_limit(&rt);
        StoreByCalls::one_of(rt, alloc, root, limit, 1)
    }

    /// The same, one of so many stores of a process that may have `limit` files open. They share half of these.
    pub fn one_of(
        rt: R,
        alloc: Global,
        root: &Word,
        limit: u64,
        stores: u64,
    ) -> Result<Self, NoMemory>
        ensures fresh { IfOk result (λ store. stored_of store ≡ untold 0 0) }
        ensures root { IfOk result (λ store. root_of store ≡ root.now) }
        ensures unread { IfOk result (λ store. store.disk.is_numbered ≡ false) }
        ensures closed { IfOk result (λ store. store.disk.open.files.entries ≡ []) }
        ensures place { IfOk result (λ store. most_of store ≡ share_of limit stores) }
        ensures none_own { IfOk result (λ store. (key : FileKey) → is_own store.disk.own key ≡ false) }
        ensures none_doubted { IfOk result (λ store. (item : Item) → doubt_of store.doubts item ≡ None) }
    {
        keep_freed(alloc, KEPT);
        StoreByCalls::keeping(SystemCalls::new(rt), alloc, root, share_of(limit, stores))
    }

    /// From now on a thread reads ahead where long reads of a file follow each other. It reads by a descriptor of its own.
    /// What it read is forgotten as soon as the store writes to a file or cuts one. So a read gives what stands there.
    pub fn read_ahead_by(&mut self, shared: Arc<ReadAhead>)
        ensures counts { self.new.counts ≡ self.old.counts }
        ensures place { (self.new.last ≡ self.old.last) × (self.new.cause ≡ self.old.cause) }
        ensures doubts { self.new.doubts ≡ self.old.doubts }
        ensures root { root_of self.new ≡ root_of self.old }
        ensures files { (self.new.disk.open ≡ self.old.disk.open) × (self.new.disk.own ≡ self.old.disk.own) }
        ensures rooms { (self.new.disk.rooms ≡ self.old.disk.rooms) × (self.new.disk.is_numbered ≡ self.old.disk.is_numbered) }
    {
        keep_freed(self.disk.alloc, KEPT_AHEAD);
        self.disk.calls.read_ahead_by(self.disk.alloc, shared);
    }
}

/// How many files a store keeps open by calls that tell no limit.
const FEW: u64 = 256;

/// More than any block that is soon wanted again, but for those of whole files.
const KEPT: usize = 1 << 19;

/// Four times as many bytes as are read at once of a file that is written out.
const KEPT_AHEAD: usize = 1 << 22;

// Takes that much memory and frees it, untouched. From then on the allocator of Linux's C library keeps what is freed, up
// to twice as much. Before, it gives the memory of each larger read back to the system, which clears it page by page. Much of it
// would stay with the program while it opens a large container. It counts for time and memory alone: no contract sees it.
#[inline(never)]
fn keep_freed(alloc: Global, bytes: usize) {
    let kept: Result<Vec<u8>, AllocError> = Vec::with_capacity(alloc, bytes);
    drop(kept);
}

impl<C: Calls<File = F> + Drop, F: Drop> StoreByCalls<C, F> {
    /// A store on the folder of this path, by these calls. It makes none of them, and keeps at most 256 files open.
    ///
    /// `NoMemory` leaves nothing behind.
    pub fn by(calls: C, alloc: Global, root: &Word) -> Result<Self, NoMemory>
        ensures fresh { IfOk result (λ store. stored_of store ≡ untold 0 0) }
        ensures root { IfOk result (λ store. root_of store ≡ root.now) }
        ensures calls { IfOk result (λ store. store.disk.calls ≡ calls) }
        ensures unread { IfOk result (λ store. store.disk.is_numbered ≡ false) }
        ensures closed { IfOk result (λ store. store.disk.open.files.entries ≡ []) }
        ensures place { IfOk result (λ store. most_of store ≡ 256) }
        ensures none_own { IfOk result (λ store. (key : FileKey) → is_own store.disk.own key ≡ false) }
        ensures none_doubted { IfOk result (λ store. (item : Item) → doubt_of store.doubts item ≡ None) }
    {
        StoreByCalls::keeping(calls, alloc, root, FEW)
    }

    // The same, with place for so many open files, for one at least.
    fn keeping(calls: C, alloc: Global, root: &Word, most: u64) -> Result<Self, NoMemory>
        ensures fresh { IfOk result (λ store. stored_of store ≡ untold 0 0) }
        ensures root { IfOk result (λ store. root_of store ≡ root.now) }
        ensures calls { IfOk result (λ store. store.disk.calls ≡ calls) }
        ensures unread { IfOk result (λ store. store.disk.is_numbered ≡ false) }
        ensures closed { IfOk result (λ store. store.disk.open.files.entries ≡ []) }
        ensures place { IfOk result (λ store. most_of store ≡ max most 1) }
        ensures none_own { IfOk result (λ store. (key : FileKey) → is_own store.disk.own key ≡ false) }
        ensures none_doubted { IfOk result (λ store. (item : Item) → doubt_of store.doubts item ≡ None) }
    {
        match Disk::new(calls, alloc, root, most) {
            Ok(disk) => Ok(StoreByCalls {
                disk,
                doubts: Doubts::new(alloc),
                counts: Counts { acts: 0, faults: 0 },
                last: Place::root(),
                cause: None,
            }),
            Err(_) => Err(NoMemory),
        }
    }
}

impl<C, F> StoreByCalls<C, F> {
    /// How many acts were answered otherwise than by want of memory, up to 2^64 - 1.
    pub fn acts(&self) -> u64
        ensures { result ≡ (stored_of self.now).acts }
    {
        self.counts.acts
    }

    /// How many acts the system failed, up to 2^64 - 1.
    pub fn faults(&self) -> u64
        ensures { result ≡ (stored_of self.now).faults }
    {
        self.counts.faults
    }

    /// Where the last step was made.
    pub fn place(&self) -> Place
        ensures { result ≡ self.now.last }
    {
        self.last
    }

    /// Where the last step that faulted did so, and why.
    pub fn cause(&self) -> Option<Cause>
        ensures { result ≡ self.now.cause }
    {
        self.cause
    }
}

impl<C: Calls<File = F> + Drop, F: Drop> Store for StoreByCalls<C, F> {
    ghost stored = { λ store. stored_of store };

    /// Makes one step, and answers it. `Fault` comes where the system failed the step, where a name of the step
    /// can't stand in a path or can't be a room's, where a listed name is no text in UTF-8 or longer than 96 bytes,
    /// or where below ROOT a link or the like stands in the way. At a `Fault` the count of faults rises by one, up to
    /// 2^64 - 1, and in no other act, and `cause` tells of it.
    ///
    /// A sync that failed is final: from then on each step is a `Fault`, with no call of the system, that would sync
    /// the same file, folder or ROOT, or would give the file another name. Its cause is why that sync failed.
    ///
    /// Bytes that an earlier run left in a file are never changed: a write that reaches into them is a `Fault`, which
    /// calls no write, unless it would put the same bytes there.
    fn act(&mut self, step: &Step<'_>) -> Result<Answer, Trouble>
        ensures told { Acts (step_of step.now) (stored_of self.old) (stored_of self.new) result }
        ensures counted { CountsFaults (stored_of self.old) (stored_of self.new) result }
        ensures performs { IfOk result (λ answer. MakesStep C.log self.old.disk self.new.disk (step_of step.now) answer) }
        ensures ends { Ends C.log self.old self.new (step_of step.now) result }
        ensures doubts { KeepsDoubts C.log C.unsynced C.told self.old self.new (step_of step.now) }
        ensures refused { is_refused self.old.doubts (step_of step.now) ≡ true → IsErrOf result Trouble.Fault }
        ensures still { IfSome (refusal self.old.doubts (step_of step.now)) (λ doubt. IsStill self.old.disk self.new.disk × (C.log self.new.disk.calls ≡ C.log self.old.disk.calls) × (C.told self.new.disk.calls ≡ Some (Reason.Unsynced doubt))) }
        ensures lasts { (item : Item) → (doubt : Doubt) → doubt_of self.old.doubts item ≡ Some doubt → doubt_of self.new.doubts item ≡ Some doubt }
        ensures well { IfOk result (λ _. failed_calls (C.log self.new.disk.calls) ≡ failed_calls (C.log self.old.disk.calls)) }
        ensures root { root_of self.new ≡ root_of self.old }
        ensures place { self.new.last ≡ place_of self.new.disk (step_of step.now) }
        ensures cause { IsErrOf result Trouble.Fault → self.new.cause ≡ Some (record { place = self.new.last; reason = unwrap_or (C.told self.new.disk.calls) Reason.Unnameable }) }
    {
        self.disk.calls.forget();
        let end = attempt(&mut self.disk, &mut self.doubts, step);
        self.disk.put_place(step, &mut self.last);
        settle(
            &mut self.counts,
            &mut self.cause,
            &self.disk.calls,
            &self.last,
            end,
        )
    }
}

// Counts a step that ended so at this place, and tells it.
fn settle<C: Calls>(
    counts: &mut Counts,
    cause: &mut Option<Cause>,
    calls: &C,
    place: &Place,
    end: Result<Answer, Failure>,
) -> Result<Answer, Trouble>
    ensures tells { result ≡ told_of end }
    ensures told { (step : StepMade) → Acts step (untold counts.old.acts counts.old.faults) (untold counts.new.acts counts.new.faults) result }
    ensures counted { CountsFaults (untold counts.old.acts counts.old.faults) (untold counts.new.acts counts.new.faults) result }
    ensures cause { IsErrOf result Trouble.Fault → cause.new ≡ Some (record { place = place.now; reason = unwrap_or (C.told calls.now) Reason.Unnameable }) }
{
    match end {
        Ok(answer) => {
            counts.count_act();
            Ok(answer)
        }
        Err(Failure::Failed) => {
            *cause = Some(Cause {
                place: *place,
                reason: calls.reason().unwrap_or(Reason::Unnameable),
            });
            counts.count_act();
            counts.count_fault();
            Err(Trouble::Fault)
        }
        Err(Failure::NoMemory) => Err(Trouble::NoMemory),
    }
}

// Makes the step on the folder, unless it would sync what an earlier sync failed of.
fn attempt<C: Calls<File = F> + Drop, F: Drop>(
    disk: &mut Disk<C, F>,
    doubts: &mut Doubts,
    step: &Step<'_>,
) -> Result<Answer, Failure>
    ensures refused { is_refused doubts.old (step_of step.now) ≡ true → result ≡ Err Failure.Failed }
    ensures still { IfSome (refusal doubts.old (step_of step.now)) (λ doubt. IsStill disk.old disk.new × (C.log disk.new.calls ≡ C.log disk.old.calls) × (C.told disk.new.calls ≡ noted (C.told disk.old.calls) (Reason.Unsynced doubt))) }
    ensures doubted { is_refused doubts.old (step_of step.now) ≡ false → HasRisen (C.unsynced disk.old.calls) (C.unsynced disk.new.calls) → IsDoubtedFor doubts.new (step_of step.now) (doubt_by (C.told disk.new.calls)) }
    ensures only { HasRisen (C.unsynced disk.old.calls) (C.unsynced disk.new.calls) ⊎ (doubts.new ≡ doubts.old) }
    ensures attempted { is_refused doubts.old (step_of step.now) ≡ false → Attempts C.log disk.old disk.new (step_of step.now) result }
    ensures lasts { (item : Item) → (doubt : Doubt) → doubt_of doubts.old item ≡ Some doubt → doubt_of doubts.new item ≡ Some doubt }
{
    if let Some(doubt) = refusal(doubts, step) {
        disk.calls.tell(Reason::Unsynced { doubt });
        return Err(Failure::Failed);
    }
    let before = disk.calls.failed_syncs();
    let end = disk.make(step);
    note_syncs(doubts, &disk.calls, step, before);
    end
}

// Puts in doubt what the step syncs, where more syncs have failed than before it, or where the count is at its end.
fn note_syncs<C: Calls>(doubts: &mut Doubts, calls: &C, step: &Step<'_>, before: u64)
    ensures doubted { HasRisen before (C.unsynced calls.now) → IsDoubtedFor doubts.new (step_of step.now) (unwrap_or (doubt_of doubts.old (synced_by (step_of step.now))) (doubt_by (C.told calls.now))) }
    ensures only { HasRisen before (C.unsynced calls.now) ⊎ (doubts.new ≡ doubts.old) }
    ensures lasts { (item : Item) → (doubt : Doubt) → doubt_of doubts.old item ≡ Some doubt → doubt_of doubts.new item ≡ Some doubt }
{
    let after = calls.failed_syncs();
    if before < after || after == u64::MAX {
        doubts.add(&synced_by(step), doubt_by(calls.reason()));
    }
}

impl Counts {
    fn count_act(&mut self)
        ensures risen { self.new.acts ≡ next_count self.old.acts }
        ensures same { self.new.faults ≡ self.old.faults }
    {
        self.acts = self.acts.saturating_add(1);
    }

    fn count_fault(&mut self)
        ensures risen { self.new.faults ≡ next_count self.old.faults }
        ensures cause { HasRisen self.old.faults self.new.faults }
        ensures never_falls { self.old.faults ≤ self.new.faults }
        ensures same { self.new.acts ≡ self.old.acts }
    {
        self.faults = self.faults.saturating_add(1);
    }
}
