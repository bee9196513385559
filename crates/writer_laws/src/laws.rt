//! The laws of a writer's machines.
ghost use Rattle.std.specs.Prelude.{◌≡◌, ℕ, List, Result, Ok, Some, true};
ghost use Rattle.mount_model.specs.declared.row.Row.{Row};
ghost use Rattle.mount_model.specs.State.{State};
ghost use Rattle.mount_model.specs.History.{Event, state_after, told_tree_after};
ghost use Rattle.writer_flow.specs.declared.handle.WriterHandle.{WriterHandle};
ghost use Rattle.writer_flow.specs.declared.handle.WriterOut.{WriterOut};
ghost use Rattle.mount_model.specs.declared.stuck.Stuck.{Stuck};
ghost use Rattle.writer_flow.specs.Opening.{open_program};
ghost use Rattle.writer_flow.specs.Closing.{close_program};
ghost use Rattle.writer_flow.specs.Writing.{write_program};
ghost use Rattle.writer_flow.specs.Syncing.{sync_program};
ghost use Rattle.mount_model.specs.Regular.{IsRegular};
ghost use Rattle.mount_model.specs.Running.{Runs};
ghost use Rattle.writer_laws.specs.Counting.{entry_count, writes_told, StaysIn};
ghost use Rattle.writer_laws.specs.Knowing.{HasRow, Knows, KeepsHandle, IsSynced, IsClosed, IsOpened};
ghost use Rattle.writer_laws.specs.Waiting.{LetsBe};
ghost use Rattle.writer_laws.specs.Surviving.{Survives};
ghost use Rattle.store_api.specs.declared.tree.Tree.{Tree};
ghost use Rattle.store_api.specs.Loss.{Loses};
ghost use Rattle.mount_sound.specs.Ledger.{Ledger};
ghost use Rattle.mount_sound.specs.Issued.{issued};
ghost use Rattle.mount_sound.specs.Owed.{IsLawful};
ghost use Rattle.mount_sound.specs.Sound.{IsSoundFor};

/// A law: where a handle tells how many entries are in its writer's buffer, the handle that a write, a sync or a close
/// leaves does so again. The number of a sync, and of a close, is that of all the writer's entries; after a sync that
/// tells it, they have landed.
pub fn a_handle_tells_of_its_buffer()
    ensures write { (caller : ℕ) (handle : WriterHandle) (row : Row) (at : ℕ) (block : List ℕ)
        (start : State) (events : List Event) (out : WriterOut)
        → Knows caller handle row start
        → IsLawful start events
        → Runs caller (write_program handle at block) events out
        → KeepsHandle caller handle out (state_after start events) }
    ensures sync { (caller : ℕ) (handle : WriterHandle) (row : Row)
        (start : State) (events : List Event) (out : WriterOut)
        → Knows caller handle row start
        → IsLawful start events
        → Runs caller (sync_program handle) events out
        → IsSynced caller handle (entry_count row) out (state_after start events) }

    // A close that begins with PutMeta has the number of the sync before.
    ensures close { (caller : ℕ) (handle : WriterHandle) (row : Row)
        (start : State) (events : List Event) (out : WriterOut)
        → Knows caller handle row start
        → (handle.closing ≡ true → handle.landed ≡ entry_count row)
        → IsLawful start events
        → Runs caller (close_program handle) events out
        → IsClosed caller handle (entry_count row) out (state_after start events) }
{}

/// A law: while its caller makes no call on a writer, and none that is broken off, whatever else it calls and whatever
/// others do, broken off or not, the handle goes on
/// telling of the writer's buffer.
pub fn a_handle_waits()
    ensures { (caller : ℕ) (handle : WriterHandle) (row : Row) (start : State) (events : List Event)
        → Knows caller handle row start
        → IsLawful start events
        → LetsBe caller handle.writer events
        → Knows caller handle row (state_after start events) }
{}

/// A law: an opening that ends with a handle, from a state on whose table is regular, as that of every mount is, leaves
/// the caller a writer without entries, of whose buffer the handle tells, and whose metadata dropping was not asked for.
pub fn an_opened_writer_has_no_entries()
    ensures { (caller : ℕ) (name : List ℕ) (host most : ℕ)
        (start : State) (events : List Event) (out : Result WriterHandle Stuck) (handle : WriterHandle)
        → IsRegular start
        → IsLawful start events
        → Runs caller (open_program name host most) events out
        → out ≡ Ok handle
        → IsOpened caller handle (state_after start events) }
{}

/// A law: a writer without entries that a caller has in some state, as after it was opened, and that is not taken out,
/// has as many entries later as writes of it were answered; and that many is the number of a sync that then succeeds.
pub fn a_sync_counts_every_write()
    ensures { (caller : ℕ) (handle : WriterHandle) (new row : Row)
        (start : State) (before during : List Event) (out : WriterOut) (n : ℕ)
        → HasRow caller handle.writer new start
        → entry_count new ≡ 0
        → IsLawful start before
        → StaysIn handle.writer before
        → Knows caller handle row (state_after start before)
        → IsLawful (state_after start before) during
        → Runs caller (sync_program handle) during out
        → out.result ≡ Ok n
        → n ≡ writes_told handle.writer before }
{}

/// A law: where a sync told its number, a loss of power at whatever later moment of a legal history leaves a sound tree
/// in which so many entries of its writer have landed.
pub fn a_sync_survives()
    ensures { (caller : ℕ) (handle : WriterHandle) (row : Row) (before : Ledger)
        (start : State) (during later : List Event) (out : WriterOut) (n : ℕ)
        → Knows caller handle row start
        → IsSoundFor before start
        → IsLawful start during
        → Runs caller (sync_program handle) during out
        → out.result ≡ Ok n
        → IsLawful (state_after start during) later
        → (after lost : Tree)
        → told_tree_after (state_after start during) later ≡ Some after
        → Loses after lost
        → Survives caller handle.writer n (issued (issued before start during) (state_after start during) later) (state_after start during) after lost }
{}
