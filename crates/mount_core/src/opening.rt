//! How a store is mounted: the room of marks is made where there is none, the marks are listed, and the next is put.
ghost use Rattle.std.specs.Prelude.{◌≡◌, [], None, Ok, false, IfOk, IfErr, OnOk};
ghost use Rattle.plfs_types.specs.Counts.{HasRisen};
ghost use Rattle.store_api.specs.declared.step.Answer.TheVariants.{Made, Names};
ghost use Rattle.store_api.specs.Acts.{Acts};
ghost use Rattle.mount_model.specs.Mounting.{marks_step, list_step, mark_step, room_told, TellsRoom, IsNextMark, DrawsMark, IsMounted};
ghost use Rattle.mount_model.specs.Failing.{names_told, made_told, FailsAt, LeavesNone, FailsToMount};

use crate::mount::Mount;
use container_layout::print_number;
use edge_io::Clock;
use mount_model::MountTrouble;
use mount_table::{Listing, Roster, greatest};
use plfs_types::{Name, NameList};
use std::alloc::Global;
use std::snapshot::Snapshot;
use store_api::{Answer, Step, Store, Trouble, marks_folder, marks_name};

/// The greatest number of a mount.
const LAST_MARK: u64 = u32::MAX as u64;

/// Makes the room of the marks, where there is none, and gives its number.
fn find_marks<S: Store>(store: &mut S) -> Result<u64, MountTrouble>
    ensures ok { IfOk result (λ room. TellsRoom (S.stored store.old) (S.stored store.new) room) }
    ensures err { IfErr result (λ trouble. FailsAt marks_step (λ told. room_told told ≡ None) (S.stored store.old) trouble (S.stored store.new)) }
{
    let told = store.act(&Step::MakeRoom {
        name: marks_name(),
        folders: &[marks_folder()],
        files: &[],
    });
    match told {
        Ok(Answer::Number { value }) => Ok(value),
        Ok(Answer::Old { room }) => Ok(room),
        Ok(_) => Err(MountTrouble::NoMarks),
        Err(Trouble::Fault) => Err(MountTrouble::Fault),
        Err(Trouble::NoMemory) => Err(MountTrouble::NoMemory),
    }
}

/// Lists the marks.
fn list_marks<S: Store>(store: &mut S, room: u64) -> Result<NameList, MountTrouble>
    ensures ok { IfOk result (λ names. Acts (list_step room) (S.stored store.old) (S.stored store.new) (Ok (Names names))) }
    ensures err { IfErr result (λ trouble. FailsAt (list_step room) (λ told. names_told told ≡ None) (S.stored store.old) trouble (S.stored store.new)) }
{
    let told = store.act(&Step::List {
        room,
        folder: marks_folder(),
    });
    match told {
        Ok(Answer::Names(names)) => Ok(names),
        Ok(_) => Err(MountTrouble::NoMarks),
        Err(Trouble::Fault) => Err(MountTrouble::Fault),
        Err(Trouble::NoMemory) => Err(MountTrouble::NoMemory),
    }
}

/// The number behind the greatest mark.
fn next_mark(names: &[Name]) -> Result<u32, MountTrouble>
    ensures ok { IfOk result (IsNextMark names.now) }
    ensures err { IfErr result (LeavesNone names.now) }
{
    match greatest(Listing::Marks, names) {
        Ok(greatest) => {
            if greatest >= LAST_MARK {
                return Err(MountTrouble::Spent);
            }
            Ok((greatest + 1) as u32)
        }
        Err(file) => Err(MountTrouble::Damaged { file }),
    }
}

/// Puts the mark of this number.
fn put_mark<S: Store>(store: &mut S, room: u64, mount: u32) -> Result<(), MountTrouble>
    ensures ok { OnOk result (Acts (mark_step room mount) (S.stored store.old) (S.stored store.new) (Ok Made)) }
    ensures err { IfErr result (λ trouble. FailsAt (mark_step room mount) (λ told. made_told told ≡ false) (S.stored store.old) trouble (S.stored store.new)) }
{
    let told = store.act(&Step::Create {
        room,
        folder: marks_folder(),
        file: print_number(u64::from(mount)),
    });
    match told {
        Ok(Answer::Made) => Ok(()),
        Ok(_) => Err(MountTrouble::NoMarks),
        Err(Trouble::Fault) => Err(MountTrouble::Fault),
        Err(Trouble::NoMemory) => Err(MountTrouble::NoMemory),
    }
}

/// The room of the marks, and the mark that was put.
#[derive(Drop)]
struct Mark {
    room: u64,
    mount: u32,
}

/// Draws the next mark of the store.
fn draw_mark<S: Store>(store: &mut S) -> Result<Mark, MountTrouble>
    ensures ok { IfOk result (λ mark. DrawsMark (S.stored store.old) mark.room mark.mount (S.stored store.new)) }
    ensures err { IfErr result (λ trouble. FailsToMount (S.stored store.old) trouble (S.stored store.new)) }
{
    let room = match find_marks(store) {
        Ok(room) => room,
        Err(trouble) => return Err(trouble),
    };
    let names = match list_marks(store, room) {
        Ok(names) => names,
        Err(trouble) => return Err(trouble),
    };
    let mount = match next_mark(names.as_slice()) {
        Ok(mount) => mount,
        Err(trouble) => return Err(trouble),
    };
    match put_mark(store, room, mount) {
        Ok(()) => Ok(Mark { room, mount }),
        Err(trouble) => Err(trouble),
    }
}

impl<S: Store + Drop, C: Clock + Drop> Mount<S, C> {
    /// Mounts the store, under the number behind its greatest mark.
    ///
    /// It makes three acts: it makes the room of the marks, where there is none, lists the marks, and puts the
    /// next one. After a trouble the store is as the acts left it that were made. `Damaged` comes exactly where a
    /// listed name is no number of 1 to 2^32 - 1, `Spent` where the greatest is 2^32 - 1, `NoMarks` where an act
    /// answered otherwise, and `Fault` only where the store's count of faults rose.
    pub fn open(alloc: Global, store: S, clock: C) -> Result<Mount<S, C>, (S, MountTrouble)>
        ensures ok { IfOk result (λ mount. IsMounted 0 (C.times clock) (S.stored store) mount) }
        ensures err { IfErr result (λ failed. FailsToMount (S.stored store) failed.1 (S.stored failed.0)) }
        ensures fault { IfErr result (λ failed. failed.1 ≡ MountTrouble.Fault → HasRisen (S.stored store).faults (S.stored failed.0).faults) }
    {
        Self::open_at(alloc, store, clock, 0)
    }

    /// The same, where this many serials were drawn already.
    pub fn open_at(
        alloc: Global,
        store: S,
        clock: C,
        serial: u32,
    ) -> Result<Mount<S, C>, (S, MountTrouble)>
        ensures ok { IfOk result (λ mount. IsMounted serial (C.times clock) (S.stored store) mount) }
        ensures err { IfErr result (λ failed. FailsToMount (S.stored store) failed.1 (S.stored failed.0)) }
        ensures fault { IfErr result (λ failed. failed.1 ≡ MountTrouble.Fault → HasRisen (S.stored store).faults (S.stored failed.0).faults) }
    {
        let mut store = store;
        let opened = Snapshot::of(&store);
        match draw_mark(&mut store) {
            Ok(mark) => Ok(Mount {
                store,
                clock,
                opened,
                roster: Roster::new(alloc, mark.room, mark.mount, serial),
                alloc,
            }),
            Err(trouble) => Err((store, trouble)),
        }
    }
}
