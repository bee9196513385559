//! The store: a tree, planned faults, and counts of acts and faults.
ghost use Rattle.std.specs.Prelude.{◌≡◌, ◌==◌, ℕ, [], ◌∷◌, true, false, List, Option, Some, None, find, OnOk, OnErr, IfOk, IsErrOf, IsSomeAnd};
ghost use Rattle.store_api.specs.Step.{step_of};
ghost use Rattle.store_api.specs.Effect.{effect};
ghost use Rattle.plfs_types.specs.Counts.{next_count};
ghost use Rattle.store_api.specs.Acts.{Acts};
ghost use Rattle.store_memory.specs.Broken.{broken_off};

use crate::keeping::keep_all;
use crate::losing::{KeepList, lose};
use crate::perform::perform;
use plfs_types::{NoMemory, Sequence};
use std::alloc::Global;
use store_api::{Answer, RoomList, Step, Store, Tree, Trouble};

/// A planned fault: the act of this number, counted from 0, fails.
/// Of a write it leaves the first `part` bytes. Any other step is not made at part 0, and is made whole above it.
#[derive(Clone, Copy, Debug, PartialEq, Eq)]
pub struct Fail {
    pub act: u64,
    pub part: u64,
}

/// A list of planned faults in any order. Of two for one act the first counts.
pub type FailList = Sequence<Fail>;

/// A store in memory. It tells its tree, and fails at its planned faults and nowhere else.
#[derive(Drop)]
pub struct MemoryStore {
    alloc: Global,
    tree: Tree,
    fails: FailList,
    // the act in which its power goes off, where that is planned
    last: Option<u64>,
    acts: u64,
    faults: u64,
}

impl MemoryStore {
    ghost use Rattle.store_memory.specs.MemoryStore.{tree_in, acts_of, faults_of, fails_of, last_of};
    ghost use Rattle.store_api.specs.AllKept.{all_kept};
    ghost use Rattle.store_memory.specs.Lost.{lost};
    ghost use Rattle.store_api.specs.Loss.{Loses};

    // A store that holds this tree and has made no act.
    fn started(alloc: Global, tree: Tree, fails: FailList, last: Option<u64>) -> MemoryStore
        ensures tree { tree_in result ≡ tree }
        ensures planned { fails_of result ≡ fails }
        ensures last { last_of result ≡ last }
        ensures acts { acts_of result ≡ 0 }
        ensures faults { faults_of result ≡ 0 }
    {
        MemoryStore {
            alloc,
            tree,
            fails,
            last,
            acts: 0,
            faults: 0,
        }
    }

    /// A store without rooms, with these planned faults.
    pub fn new(alloc: Global, fails: FailList) -> Result<MemoryStore, NoMemory>
        ensures empty { IfOk result (λ store. (tree_in store).rooms ≡ []) }
        ensures planned { IfOk result (λ store. fails_of store ≡ fails) }
        ensures power { IfOk result (λ store. last_of store ≡ None) }
        ensures acts { IfOk result (λ store. acts_of store ≡ 0) }
        ensures faults { IfOk result (λ store. faults_of store ≡ 0) }
    {
        Ok(MemoryStore::started(alloc, no_rooms(alloc), fails, None))
    }

    /// A store that holds this tree, with these planned faults. All bytes of its files are kept, whatever the tree
    /// says of that.
    pub fn with_tree(alloc: Global, tree: Tree, fails: FailList) -> MemoryStore
        ensures tree { tree_in result ≡ all_kept tree }
        ensures planned { fails_of result ≡ fails }
        ensures power { last_of result ≡ None }
        ensures acts { acts_of result ≡ 0 }
        ensures faults { faults_of result ≡ 0 }
    {
        let mut tree = tree;
        keep_all(&mut tree);
        MemoryStore::started(alloc, tree, fails, None)
    }

    /// A store without rooms whose power goes off in the act of this number, counted from 0. That act leaves `part`
    /// bytes of a write, and of another step nothing at part 0 and else all. Each later act fails and changes nothing.
    pub fn off(alloc: Global, act: u64, part: u64) -> Result<MemoryStore, NoMemory>
        ensures empty { IfOk result (λ store. (tree_in store).rooms ≡ []) }
        ensures planned { IfOk result (λ store. fails_of store ≡ record { act = act; part = part } ∷ []) }
        ensures power { IfOk result (λ store. last_of store ≡ Some act) }
        ensures acts { IfOk result (λ store. acts_of store ≡ 0) }
        ensures faults { IfOk result (λ store. faults_of store ≡ 0) }
    {
        let mut fails = FailList::new(alloc);
        fails.push(Fail { act, part })?;
        Ok(MemoryStore::started(alloc, no_rooms(alloc), fails, Some(act)))
    }

    /// The store after a loss of power: each file has its kept bytes, and of those in `keeps` up to `extra` bytes
    /// more, as far as they go. All that is left is kept, no fault is planned, and the counts are 0. It takes no memory.
    pub fn lose(self, keeps: KeepList) -> MemoryStore
        ensures loses { Loses (tree_in self) (tree_in result) }
        ensures exactly { tree_in result ≡ lost keeps (tree_in self) }
        ensures unplanned { fails_of result ≡ [] }
        ensures power { last_of result ≡ None }
        ensures acts { acts_of result ≡ 0 }
        ensures faults { faults_of result ≡ 0 }
    {
        let alloc = self.alloc;
        let mut tree = self.tree;
        lose(keeps.as_slice(), &mut tree);
        MemoryStore::started(alloc, tree, FailList::new(alloc), None)
    }

    /// What the store holds.
    pub fn tree(&self) -> &Tree
        ensures { result.now ≡ tree_in self.now }
    {
        &self.tree
    }

    /// How many acts were answered otherwise than by want of memory, up to 2^64 - 1.
    pub fn acts(&self) -> u64
        ensures { result ≡ acts_of self.now }
    {
        self.acts
    }

    /// How often it has failed, up to 2^64 - 1.
    pub fn faults(&self) -> u64
        ensures { result ≡ faults_of self.now }
    {
        self.faults
    }
}

// A tree without rooms.
fn no_rooms(alloc: Global) -> Tree
    ensures { result.rooms ≡ [] }
{
    Tree {
        rooms: RoomList::new(alloc),
    }
}

impl MemoryStore {
    ghost use Rattle.store_memory.specs.MemoryStore.{is_off};

    // Whether its power is off.
    fn is_off(&self) -> bool
        ensures { result ≡ is_off self.now }
    {
        match self.last {
            None => false,
            Some(last) => last < self.acts,
        }
    }
}

// The first planned fault of this act.
fn fail_at(fails: &[Fail], act: u64) -> Option<Fail>
    ensures { result ≡ find (λ fail. fail.act == act) fails.now }
{
    fails.iter().copied().find(|fail| fail.act == act)
}

// Makes the step as far as a planned fault lets it. After `NoMemory` the tree is as it was.
fn break_off(alloc: Global, tree: &mut Tree, step: &Step<'_>, part: u64) -> Result<(), NoMemory>
    ensures ok { OnOk result (tree.new ≡ broken_off tree.old (step_of step.now) part) }
    ensures err { OnErr result (tree.new ≡ tree.old) }
{
    match step {
        Step::WriteAt {
            room,
            folder,
            file,
            at,
            bytes,
        } => {
            let bytes = if part < bytes.len() as u64 {
                &bytes[..part as usize]
            } else {
                bytes
            };
            let first = Step::WriteAt {
                room: *room,
                folder: *folder,
                file: *file,
                at: *at,
                bytes,
            };
            let _ = perform(alloc, tree, &first)?;
            Ok(())
        }
        _ if part == 0 => Ok(()),
        _ => {
            let _ = perform(alloc, tree, step)?;
            Ok(())
        }
    }
}

impl Store for MemoryStore {
    ghost use Rattle.store_memory.specs.MemoryStore.{tree_in, acts_of, faults_of, fails_of, last_of, next_fail, is_off, stored_in};

    ghost stored = { λ store. stored_in store };

    /// Makes one step, and answers it. `Fault` comes exactly where a fault is planned for this act, and leaves what was
    /// planned, or where the power is off, and leaves the tree. After `NoMemory` nothing has changed, and the next act
    /// has this one's number.
    fn act(&mut self, step: &Step<'_>) -> Result<Answer, Trouble>
        ensures acts { Acts (step_of step.now) (stored_in self.old) (stored_in self.new) result }

        ensures made { IfOk result (λ answer. effect (tree_in self.old) (step_of step.now) ≡ record { tree = tree_in self.new; answer = answer }) }
        ensures made_counted { OnOk result (acts_of self.new ≡ next_count (acts_of self.old)) }
        ensures no_fault_planned { OnOk result (next_fail self.old ≡ None) }
        ensures no_fault_counted { OnOk result (faults_of self.new ≡ faults_of self.old) }

        ensures off_fails { is_off self.old ≡ true → IsErrOf result Trouble.Fault }
        ensures off_changes_nothing { is_off self.old ≡ true → tree_in self.new ≡ tree_in self.old }
        ensures fault_planned { IsErrOf result Trouble.Fault → is_off self.old ≡ false → IsSomeAnd (next_fail self.old) (λ fail.
            tree_in self.new ≡ broken_off (tree_in self.old) (step_of step.now) fail.part) }
        ensures act_counted { IsErrOf result Trouble.Fault → acts_of self.new ≡ next_count (acts_of self.old) }
        ensures fault_counted { IsErrOf result Trouble.Fault → faults_of self.new ≡ next_count (faults_of self.old) }

        ensures no_memory { IsErrOf result Trouble.NoMemory → self.new ≡ self.old }
        ensures plan_kept { fails_of self.new ≡ fails_of self.old }
        ensures power_kept { last_of self.new ≡ last_of self.old }
    {
        if self.is_off() {
            (self.acts, self.faults) = (self.acts.saturating_add(1), self.faults.saturating_add(1));
            return Err(Trouble::Fault);
        }
        let Some(fail) = fail_at(self.fails.as_slice(), self.acts) else {
            let Ok(answer) = perform(self.alloc, &mut self.tree, step) else {
                return Err(Trouble::NoMemory);
            };
            self.acts = self.acts.saturating_add(1);
            return Ok(answer);
        };
        let Ok(()) = break_off(self.alloc, &mut self.tree, step, fail.part) else {
            return Err(Trouble::NoMemory);
        };
        self.acts = self.acts.saturating_add(1);
        self.faults = self.faults.saturating_add(1);
        Err(Trouble::Fault)
    }
}
