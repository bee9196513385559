//! One thread drains while another one writes and syncs. Neither gets far ahead of the other.
ghost use Rattle.std.specs.Prelude.{◌≡◌, IfOk};
ghost use Rattle.turn_object.specs.Pass.{parts_of};
ghost use Rattle.mount_sound.specs.Sound.{IsFine};
ghost use Rattle.drain_turn_tests.specs.Passing.{CanCall};

use crate::asking::{Source, drain_by, make};
use crate::trees::{bytes_in, is_copied};
use edge_io::{ClockList, ListClock};
use mount_core::Mount;
use mount_model::Call;
use plfs_types::{Block, Bytes, LogicalName, NoMemory};
use std::alloc::Global;
use std::process::Abort;
use std::sync::Wait;
use std::sync::atomic::{AtomicU64, Ordering};
use std::test::Fail;
use std::thread::{self, Threads, join};
use store_memory::{FailList, MemoryStore};
use turn_object::{Pass, Turn};

/// How often the one thread drains.
const DRAINS: u64 = 100;

/// How often the other one writes and syncs in the time of a drain.
const WRITES_A_DRAIN: u64 = 2;

/// How many drains have begun, and how many writes were synced.
#[derive(Drop)]
struct Pace {
    begun: AtomicU64,
    synced: AtomicU64,
}

// Waits until it has come to so many.
fn wait_for<W: Wait>(rt: &W, count: &AtomicU64, least: u64) {
    for _ in rt.forever() {
        if least <= count.load(Ordering::SeqCst) {
            return;
        }
        thread::yield_now();
    }
}

// Drains so often, each time behind the first of the writes that go with it. Gives how many entries were copied, and how often one
// was left out that was synced before.
fn drain_often<W: Wait + Abort>(
    rt: &W,
    alloc: Global,
    turn: &Turn<Source>,
    mut pass: Pass<Source>,
    mut target: MemoryStore,
    name: LogicalName,
    pace: &Pace,
) -> (Pass<Source>, MemoryStore, u128, u64)
    requires { CanCall turn.now pass }
    ensures can { CanCall turn.now result.0 }
    ensures parts { parts_of result.0 ≡ parts_of pass }
{
    let mut entries: u128 = 0;
    let mut late: u64 = 0;
    for made in 0..DRAINS {
        wait_for(rt, &pace.synced, made * WRITES_A_DRAIN + 1);
        pace.begun.store(made + 1, Ordering::SeqCst);
        let synced = pace.synced.load(Ordering::SeqCst);
        let more = drain_by(rt, alloc, turn, &mut pass, &mut target, name);
        entries = entries.saturating_add(more);
        late = late.saturating_add(u64::from(entries < u128::from(synced)));
    }
    (pass, target, entries, late)
}

// One byte.
fn block(alloc: Global) -> Result<Block, NoMemory> {
    match Block::new(Bytes::copy(alloc, b"x")?) {
        Ok(block) => Ok(block),
        Err(_) => Err(NoMemory),
    }
}

// Writes a byte at this place, and syncs.
fn write<W: Wait>(
    rt: &W,
    alloc: Global,
    turn: &Turn<Source>,
    pass: &mut Pass<Source>,
    writer: u64,
    at: u64,
) -> Result<(), NoMemory>
    requires { CanCall turn.now pass.old }
    ensures can { CanCall turn.now pass.new }
    ensures parts { parts_of pass.new ≡ parts_of pass.old }
{
    let block = block(alloc)?;
    make(rt, turn, pass, Call::Write { writer, at, block });
    make(rt, turn, pass, Call::Flush { writer });
    make(rt, turn, pass, Call::SyncLog { writer });
    make(rt, turn, pass, Call::SyncIndex { writer });
    Ok(())
}

// Opens a writer in this room, and has it write and sync, each time when the drain before has begun.
fn write_often<W: Wait>(
    rt: &W,
    alloc: Global,
    turn: &Turn<Source>,
    mut pass: Pass<Source>,
    room: u64,
    pace: &Pace,
) -> Pass<Source>
    requires { CanCall turn.now pass }
    ensures can { CanCall turn.now result }
    ensures parts { parts_of result ≡ parts_of pass }
{
    let host = 3;
    let writer = make(rt, turn, &mut pass, Call::Enter { room, host, cap: 1 });
    make(rt, turn, &mut pass, Call::Floor { writer });
    make(rt, turn, &mut pass, Call::MakeHostdir { writer });
    make(rt, turn, &mut pass, Call::MakeIndex { writer });
    make(rt, turn, &mut pass, Call::MakeLog { writer });
    for at in 0..DRAINS * WRITES_A_DRAIN {
        wait_for(rt, &pace.begun, at / WRITES_A_DRAIN);
        let _ = write(rt, alloc, turn, &mut pass, writer, at);
        pace.synced.store(at + 1, Ordering::SeqCst);
    }
    pass
}

// A mount of an empty store, whose clock stands at 10.
fn mounted(alloc: Global) -> Result<Source, NoMemory>
    ensures { IfOk result IsFine }
{
    let store = MemoryStore::new(alloc, FailList::new(alloc))?;
    let clock = ListClock::new(ClockList::from_vec(Vec::from_slice(alloc, &[10])?));
    match Mount::open(alloc, store, clock) {
        Ok(mount) => Ok(mount),
        Err(_) => Err(NoMemory),
    }
}

// Drains often beside the writer, and once more behind it. Gives both stores, how many entries were copied, and how often one was left
// out.
#[tactic(auto, using(crate::proofs::Passes::can_first, crate::proofs::Passes::can_given, crate::proofs::Passes::can_kept, crate::proofs::Passes::can_more))]
fn drained<R: Threads + Wait + Sync + Abort>(
    rt: &R,
    alloc: Global,
    name: LogicalName,
) -> Result<(MemoryStore, MemoryStore, u128, u64), NoMemory> {
    let pace = Pace {
        begun: AtomicU64::new(0),
        synced: AtomicU64::new(0),
    };
    let target = MemoryStore::new(alloc, FailList::new(alloc))?;
    let Ok((turn, mut main)) = Turn::new(alloc, mounted(alloc)?) else {
        return Err(NoMemory);
    };
    let room = make(rt, &turn, &mut main, Call::MakeContainer { name });
    let one = turn.split(&mut main, 1);
    let two = turn.split(&mut main, 1);
    let ((one, mut target, entries, late), two) = join(
        rt,
        || drain_often(rt, alloc, &turn, one, target, name, &pace),
        || write_often(rt, alloc, &turn, two, room, &pace),
    );
    drop(pace);
    turn.join(&mut main, one);
    turn.join(&mut main, two);
    let last = drain_by(rt, alloc, &turn, &mut main, &mut target, name);
    let Ok(mount) = turn.close(main) else {
        unreachable!()
    };
    Ok((mount.close(), target, entries.saturating_add(last), late))
}

#[test]
fn each_drain_beside_a_writer_copies_what_was_synced_before(rt: HostRuntime) -> Result<(), Fail> {
    let Some(name) = LogicalName::read(b"f") else {
        panic!(rt; "no name")
    };
    let (source, target, entries, late) = drained(&rt, rt.alloc(), name)?;
    assert!(rt; late == 0);
    assert!(rt; entries == 200);
    // A byte of each write in the log, and 40 in the index dropping.
    assert!(rt; bytes_in(source.tree()) == 200 * 41);
    assert!(rt; is_copied(source.tree(), target.tree()));
    assert!(rt; is_copied(target.tree(), source.tree()));
    drop((source, target));
    Ok(())
}
